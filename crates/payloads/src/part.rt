// What the reader of a payload is handed.
ghost use Rattle.payloads.specs.Fill.{Fits};

use crate::answers::Filled;

// A payload, and how far the stores are filled before it: their positions stay far from wrapping while it is read.
#[derive(Clone, Copy)]
pub struct Part<'a> {
    pub payload: &'a [u8],
    pub at: Filled,
    ghost fits: { Fits at payload.now },
}
