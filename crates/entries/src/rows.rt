// The rows of Global and Func, and Producer. Places count from the payload's first byte.
ghost use Rattle.std.specs.Prelude.{◌≡◌};
ghost use Rattle.format.specs.DecodeTables.{producer_at};
ghost use Rattle.format.specs.DecodeRows.{global_at, body_at, function_at};
ghost use Rattle.entries.specs.Rows.{got_linkage, linkage_at, got_global, Gives, got_producer};

use enums::{FunctionFlag, Refusal, VersionClass};
use reading::{Read, Reader, Refused};

// The fields of a global that are there from 13.3 on.
#[derive(Clone, Copy)]
pub struct Linkage {
    pub visibility: u8,
    pub constant: u64,
}

#[derive(Clone, Copy)]
pub struct GlobalRow {
    pub name_idx: u64,
    pub type_idx: u64,
    pub const_idx: u64,
    pub alignment: u64,
    pub linkage: Linkage,
}

// A function up to its body.
#[derive(Clone, Copy)]
pub struct FuncHead {
    pub name_idx: u64,
    pub sig_idx: u64,
    pub flags: u8,
    pub loc_idx: u64,
}

// A function, and where its body begins: it ends where the next row begins.
#[derive(Clone, Copy)]
pub struct FuncRow {
    pub head: FuncHead,
    pub body: usize,
}

// Below 13.3 both fields are 0. A constant flag that is not 0 means 1.
#[tactic(auto, unfolding(crate::specs::Rows::linkage_at, format::specs::DecodeTables::field_at, exact::specs::Choice::choose, format::specs::Items::truth, exact::specs::Got::follow, exact::specs::Basic::pure, exact::specs::Sequence::bind, exact::specs::Sequence::mapped))]
fn read_linkage(payload: &[u8], class: VersionClass, reader: Reader) -> Read<Linkage>
    ensures { got_linkage result ≡ linkage_at «class» payload.now reader.pos }
{
    if !class.from_13_3() {
        let none = Linkage {
            visibility: 0,
            constant: 0,
        };
        return Ok((none, reader));
    }
    let (visibility, r) = reader.read_byte(payload)?;
    let (flag, r) = r.read_varint(payload)?;
    let constant = u64::from(flag != 0);
    Ok((
        Linkage {
            visibility,
            constant,
        },
        r,
    ))
}

#[tactic(auto, unfolding(format::specs::DecodeRows::global_at, format::specs::DecodeTables::field_at, crate::specs::Rows::linkage_at, exact::specs::Got::follow, exact::specs::Basic::pure, exact::specs::Sequence::bind, exact::specs::Sequence::mapped))]
pub fn read_global(payload: &[u8], class: VersionClass, reader: Reader) -> Read<GlobalRow>
    ensures { got_global result ≡ global_at «class» payload.now reader.pos }
{
    let (name_idx, r) = reader.read_varint(payload)?;
    let (type_idx, r) = r.read_varint(payload)?;
    let (const_idx, r) = r.read_varint(payload)?;
    let (alignment, r) = r.read_varint(payload)?;
    let (linkage, r) = read_linkage(payload, class, r)?;
    Ok((
        GlobalRow {
            name_idx,
            type_idx,
            const_idx,
            alignment,
            linkage,
        },
        r,
    ))
}

// The body stays where it is.
#[tactic(auto, unfolding(format::specs::DecodeRows::body_at, exact::specs::Got::follow, exact::specs::Basic::pure, exact::specs::Sequence::bind, exact::specs::Sequence::mapped))]
fn read_body(payload: &[u8], head: FuncHead, reader: Reader) -> Read<FuncRow>
    ensures { Gives payload.now (λ o. body_at o head.name_idx head.sig_idx head.flags head.loc_idx) reader.pos result }
{
    let (body_len, r) = reader.read_varint(payload)?;
    let (body, r) = r.read_bytes(payload, body_len as usize)?;
    Ok((FuncRow { head, body }, r))
}

// Functions with optimization hints are refused at their flags, as soon as the location is read.
#[tactic(auto, unfolding(format::specs::DecodeRows::function_at, exact::specs::Upto::place, exact::specs::Refuse::refuse, exact::specs::Choice::choose, exact::specs::Got::follow, exact::specs::Basic::pure, exact::specs::Sequence::bind, exact::specs::Sequence::mapped))]
pub fn read_func(payload: &[u8], reader: Reader) -> Read<FuncRow>
    ensures { Gives payload.now function_at reader.pos result }
{
    let (name_idx, r) = reader.read_varint(payload)?;
    let (sig_idx, r) = r.read_varint(payload)?;
    let (flags, next) = r.read_byte(payload)?;
    let (loc_idx, next) = next.read_varint(payload)?;
    if flags / FunctionFlag::HAS_OPTIMIZATION_HINTS % 2 == 1 {
        return Err(Refused {
            refusal: Refusal::Hints,
            at: r.pos,
        });
    }
    let head = FuncHead {
        name_idx,
        sig_idx,
        flags,
        loc_idx,
    };
    read_body(payload, head, next)
}

// The index of the producer's string, which has to be one of the strings.
#[tactic(auto, unfolding(format::specs::DecodeTables::producer_at, exact::specs::Got::follow, exact::specs::Basic::pure, exact::specs::Sequence::bind, exact::specs::Sequence::mapped))]
pub fn parse_producer(payload: &[u8], strings: usize) -> Result<u64, Refused>
    ensures { got_producer payload.now result ≡ producer_at strings payload.now 0 }
{
    let (index, _) = (Reader { pos: 0 }).read_varint(payload)?;
    if index < strings as u64 {
        return Ok(index);
    }
    Err(Refused {
        refusal: Refusal::Producer,
        at: 0,
    })
}
