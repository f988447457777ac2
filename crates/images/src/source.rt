// What an image is made of.
use enums::VersionClass;

// A sheet that was judged, its pool, and its version class. A call that measures may leave the pool out.
#[derive(Clone, Copy)]
pub struct Source<'a> {
    pub sheet: &'a [u8],
    pub pool: &'a [u8],
    pub class: VersionClass,
}
