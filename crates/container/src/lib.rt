// decoder.rs: header and section walk, and the view of a section.
#![tactic(auto)]

pub mod sections;

ghost use Rattle.container.specs.Views.{SectionPost};

use enums::Refusal;
use sections::Stopped;

// Bytes of a file: the offset of the first, and how many.
#[derive(Clone, Copy, PartialEq, Eq)]
pub struct View {
    pub start: usize,
    pub len: usize,
}

// The view of a section: the whole payload that counts for this id.
pub fn section(file: &[u8], id: u64) -> Result<View, Stopped>
    ensures { SectionPost file.now id result }
{
    let container = sections::read_container(file)?;
    let place = container.sections.get(id);
    if !place.presence {
        return Err(Stopped::call(Refusal::Absent));
    }
    Ok(View {
        start: place.start,
        len: place.len,
    })
}
