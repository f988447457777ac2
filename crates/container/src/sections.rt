// decoder.rs's header, section walk and raw sections. Places count from the file's start.
ghost use Rattle.std.specs.Prelude.{◌≡◌, ◌+◌, ◌≤◌, [], length, take, drop, get_or, set};
ghost use Rattle.enums.specs.Container as container;
ghost use Rattle.exact.specs.Sequence.{mapped};
ghost use Rattle.reading.specs.Shown.{got_of, got_padding};
ghost use Rattle.format.specs.Read.{map_read};
ghost use Rattle.format.specs.DecodeContainer.{same, magic_at, header_at, alignment_at, item_at, sections_at};
ghost use Rattle.container.specs.Container.{got_run, got_header};
ghost use Rattle.container.specs.Container.{nowhere, held_item, held_sections, opened, held_container};
ghost use Rattle.container.specs.Shown.{read_of, stopped_at, stopped_call};

use enums::{BytecodeVersion, NUM_SECTIONS, Refusal, Section, Stage};
use reading::{Read, Reader, Refused};

// A file of more bytes is refused.
pub const MOST_BYTES: usize = 1073741824;

// Why a file or a call is refused, the stage, and the file offset where the file broke.
#[derive(Clone, Copy, PartialEq, Eq)]
pub struct Stopped {
    pub refusal: Refusal,
    pub stage: Stage,
    pub at: usize,
}

impl Stopped {
    // What a read refused, at a stage of the file.
    pub fn at_stage(x: Refused, stage: Stage) -> Self
        ensures { result ≡ stopped_at x stage }
    {
        Stopped {
            refusal: x.refusal,
            stage,
            at: x.at,
        }
    }

    // A refusal that is not the file's: it has no offset.
    pub fn call(refusal: Refusal) -> Self
        ensures { result ≡ stopped_call refusal }
    {
        Stopped {
            refusal,
            stage: Stage::Call,
            at: 0,
        }
    }
}

// Where the payload of a section stands, if one is present.
#[derive(Clone, Copy, Default, PartialEq, Eq)]
pub struct SectionPlace {
    pub presence: bool,
    pub start: usize,
    pub len: usize,
}

// The place of each id's payload.
#[derive(Clone, Copy, PartialEq, Eq)]
pub struct RawSections {
    pub places: [SectionPlace; 8],
}

impl RawSections {
    // No section has been met.
    #[tactic(auto, unfolding(format::specs::DecodeContainer::places_of, format::specs::DecodeContainer::place_of, format::specs::DecodeContainer::last_with))]
    fn new() -> Self
        ensures { result ≡ held_sections [] }
    {
        RawSections {
            places: [SectionPlace::default(); 8],
        }
    }

    // The last section with an id overwrites; ids at or above NUM_SECTIONS are passed over.
    fn insert(self, id: u8, place: SectionPlace) -> Self
        ensures { result.places ≡ set self.places id place }
    {
        let mut places = self.places;
        if id < NUM_SECTIONS {
            places[id as usize] = place;
        }
        RawSections { places }
    }

    // The place of an id's payload; ids at or above NUM_SECTIONS have none.
    pub fn get(&self, id: u64) -> SectionPlace
        ensures { result ≡ get_or self.now.places id nowhere }
    {
        if id < NUM_SECTIONS as u64 {
            self.places[id as usize]
        } else {
            SectionPlace::default()
        }
    }
}

// What the read of a section answers: its id, and where its payload stands; none at the end marker.
pub type SectionHeaderRead = Read<Option<(u8, SectionPlace)>>;

// Header and sections of a file.
#[derive(Clone, Copy, PartialEq, Eq)]
pub struct Container {
    pub version: BytecodeVersion,
    pub sections: RawSections,
}

// Whether the eight bytes from a place on are MAGIC.
fn is_magic(data: &[u8], start: usize) -> bool
    requires { start + 8 ≤ length «data».now }
    ensures { result ≡ same (take 8 (drop start «data».now)) container.magic }
{
    data[start..start + 8] == enums::MAGIC[..]
}

// Eight bytes that are MAGIC.
fn read_magic(data: &[u8], r: Reader) -> Result<Reader, Refused>
    ensures { got_run «data».now r.pos result ≡ magic_at «data».now r.pos }
{
    let (at, next) = r.read_bytes(data, 8)?;
    if !is_magic(data, at) {
        return Err(Refused {
            refusal: Refusal::Magic,
            at,
        });
    }
    Ok(next)
}

#[tactic(auto, unfolding(exact::specs::Got::follow, exact::specs::Basic::pure, exact::specs::Sequence::bind, exact::specs::Sequence::mapped, format::specs::DecodeContainer::header_at), using(crate::proofs::LawsMagic::one_byte))]
pub fn read_header(data: &[u8]) -> Read<BytecodeVersion>
    ensures { got_header result ≡ header_at «data».now 0 }
{
    let r = read_magic(data, Reader::new())?;
    let (major, r) = r.read_le_u8(data)?;
    let (minor, r) = r.read_le_u8(data)?;
    let (tag, r) = r.read_le_u16(data)?;
    Ok((BytecodeVersion { major, minor, tag }, r))
}

// Alignment and padding, if the top bit of the section's first byte is set.
#[tactic(auto, unfolding(exact::specs::Got::follow, exact::specs::Basic::pure, exact::specs::Sequence::bind), using(crate::proofs::LawsItem::alignment_none, crate::proofs::LawsItem::alignment_some))]
fn skip_alignment(data: &[u8], r: Reader, id_and_align: u8) -> Result<Reader, Refused>
    ensures { got_padding result ≡ alignment_at id_and_align «data».now r.pos }
{
    if id_and_align < 128 {
        return Ok(r);
    }
    let (alignment, next) = r.read_varint(data)?;
    next.skip_padding(data, alignment)
}

// A section: its id, and where its payload stands; none at the end marker.
#[tactic(auto, unfolding(exact::specs::Got::follow, exact::specs::Basic::pure, exact::specs::Sequence::bind, exact::specs::Sequence::mapped, exact::specs::Upto::place, format::specs::DecodeContainer::item_at, format::specs::DecodeContainer::section_at), using(crate::proofs::LawsItem::low_seven, crate::proofs::LawsItem::end_marker, crate::proofs::LawsItem::no_end_marker, crate::proofs::LawsItem::raw_placed))]
fn read_section(data: &[u8], r: Reader) -> SectionHeaderRead
    ensures { got_of result ≡ mapped held_item item_at «data».now r.pos }
{
    let (id_and_align, r) = r.read_byte(data)?;
    let id = id_and_align & 0x7F;
    if id == Section::END_OF_BYTECODE {
        return Ok((None, r));
    }
    let (length, r) = r.read_varint(data)?;
    let body = skip_alignment(data, r, id_and_align)?;
    let len = length as usize;
    let (start, next) = body.read_bytes(data, len)?;
    let place = SectionPlace {
        presence: true,
        start,
        len,
    };
    Ok((Some((id, place)), next))
}

// The walk: it stops behind the end marker; what follows is not read.
pub fn read_sections(data: &[u8], start: Reader) -> Read<RawSections>
    ensures { got_of result ≡ mapped held_sections sections_at «data».now start.pos }
{
    let mut sections = RawSections::new();
    let mut r = start;
    loop {
        match read_section(data, r) {
            Err(x) => break Err(x),
            Ok((None, end)) => break Ok((sections, end)),
            Ok((Some((id, place)), next)) => {
                sections = sections.insert(id, place);
                r = next;
            }
        }
    }
}

// Limit, header and walk; payloads are not judged.
#[tactic(auto, unfolding(format::specs::Read::at_stage), using(crate::proofs::LawsOpened::over_limit, crate::proofs::LawsOpened::within_limit))]
pub fn read_container(file: &[u8]) -> Result<Container, Stopped>
    ensures { read_of result ≡ map_read held_container (opened file.now) }
{
    if MOST_BYTES < file.len() {
        return Err(Stopped {
            refusal: Refusal::Limit,
            stage: Stage::Limits,
            at: 0,
        });
    }
    let (version, r) = read_header(file).map_err(|x| Stopped::at_stage(x, Stage::Header))?;
    let (sections, _) = read_sections(file, r).map_err(|x| Stopped::at_stage(x, Stage::Sections))?;
    Ok(Container { version, sections })
}
