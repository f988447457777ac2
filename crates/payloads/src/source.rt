// A file whose header and sections were read, and the payloads of its sections.
ghost use Rattle.std.specs.Prelude.{◌≡◌, ℕ, ◌+◌, ◌≤◌, ◌<◌, length, get_or};
ghost use Rattle.format.specs.Read.{accepted, map_read};
ghost use Rattle.format.specs.Decode.{most_bytes};
ghost use Rattle.container.specs.Container.{opened, held_container};

use container::sections::Container;
use enums::{Section, VersionClass};

// A file, and what its header and sections say. These are lent, since each step of a pass is handed a source.
#[derive(Clone, Copy)]
pub struct Source<'a> {
    pub file: &'a [u8],
    pub container: &'a Container,
    ghost read: { accepted container.now ≡ map_read held_container (opened file.now) },
    ghost bytes: { (i : ℕ) → get_or file.now i 0 < 256 },
}

// The payload of a section, and where it starts in the file.
#[derive(Clone, Copy)]
pub struct Payload<'a> {
    pub bytes: &'a [u8],
    pub start: usize,
    ghost near: { start + length bytes.now ≤ most_bytes },
}

impl<'a> Source<'a> {
    ghost use Rattle.format.specs.Explains.{class};
    ghost use Rattle.container.specs.Container.{version_of};
    ghost use Rattle.payloads.specs.Pass.{Stands, place_at};

    pub fn class(self) -> VersionClass
        ensures { result ≡ class (version_of self.entry.container.now.version) }
    {
        self.container.version.class()
    }

    // The payload that counts for a section, if one is present.
    pub fn payload(self, section: Section) -> Option<Payload<'a>>
        ensures { Stands self.entry.file.now (place_at self.entry.container.now section) result }
    {
        let place = self.container.sections.get(section.id() as u64);
        if !place.presence {
            return None;
        }
        let start = place.start;
        let end = start + place.len;
        let bytes = &self.file[start..end];
        Some(Payload { bytes, start })
    }
}
