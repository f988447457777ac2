// Offset tables: a count, padding, starts, and the data that the starts cut into entries. Places count from the payload's
// first byte, and those among the starts from the first start's.
ghost use Rattle.std.specs.Prelude.{◌≡◌};
ghost use Rattle.exact.specs.Got.{got, stop};
ghost use Rattle.exact.specs.Repeat.{times};
ghost use Rattle.exact.specs.Fixed.{fixed};
ghost use Rattle.enums.specs.Refusals as refusals;
ghost use Rattle.reading.specs.Numbers.{placed};
ghost use Rattle.reading.specs.Shown.{got_of};
ghost use Rattle.entries.specs.Starts.{wide, got_starts, behind_count, starts_at, array_at, number_or, end_at, got_entry, got_list};

use enums::{BytePosition, IdPosition, Refusal};
use reading::{Read, Reader, Refused};

// How many bytes a start or an id has. Starts stand behind padding to as many.
#[derive(Clone, Copy)]
pub enum Width {
    Four,
    Eight,
}

// The starts of an offset table, or the numbers of an array: how many, where the first stands, and where the data begins.
#[derive(Clone, Copy)]
pub struct Starts {
    pub count: usize,
    pub first: usize,
    pub data: usize,
}

// A number among the starts, and the place behind it.
#[derive(Clone, Copy)]
pub struct Number {
    pub value: u64,
    pub next: usize,
}

// Where the next entry begins in the data, and where the start behind it stands among the starts.
#[derive(Clone, Copy)]
pub struct EntryCursor {
    pub start: BytePosition,
    pub next: usize,
}

// The same of a list of the Debug section, which begins among the ids.
#[derive(Clone, Copy)]
pub struct ListCursor {
    pub start: IdPosition,
    pub next: usize,
}

impl Width {
    pub fn bytes(self) -> usize
        ensures { result ≡ wide self }
    {
        match self {
            Width::Four => 4,
            Width::Eight => 8,
        }
    }
}

// A number of four bytes or of eight.
fn read_number(payload: &[u8], reader: Reader, width: Width) -> Read<u64>
    ensures { got_of result ≡ fixed (wide width) payload.now reader.pos }
{
    match width {
        Width::Eight => reader.read_le_u64(payload),
        Width::Four => {
            let (number, next) = reader.read_le_u32(payload)?;
            Ok((u64::from(number), next))
        }
    }
}

// All starts have to be there. What is left is divided by the width, so that a count near 2^64 is refused like any other,
// at the first start that does not fit.
#[tactic(auto, unfolding(reading::specs::Numbers::placed, exact::specs::Padding::here, exact::specs::Got::follow, exact::specs::Basic::pure, exact::specs::Sequence::bind, exact::specs::Sequence::mapped))]
fn place_starts(payload: &[u8], table: Reader, count: u64, width: Width) -> Result<Starts, Refused>
    ensures { got_starts (wide width) payload.now result ≡ placed (times count (fixed (wide width))) payload.now table.pos }
{
    let first = table.pos;
    let bytes = width.bytes();
    let room = table.remaining(payload) / bytes;
    if (room as u64) < count {
        return Err(Refused {
            refusal: Refusal::Short,
            at: first + room * bytes,
        });
    }
    let count = count as usize;
    let data = first + count * bytes;
    Ok(Starts { count, first, data })
}

// The starts behind a count: padding stands before them.
#[tactic(auto, unfolding(crate::specs::Starts::behind_count, exact::specs::Got::follow, exact::specs::Basic::pure, exact::specs::Sequence::bind, exact::specs::Sequence::mapped))]
fn starts_behind(
    payload: &[u8],
    reader: Reader,
    count: u64,
    width: Width,
) -> Result<Starts, Refused>
    ensures { got_starts (wide width) payload.now result ≡ behind_count (wide width) (wide width) count payload.now reader.pos }
{
    let table = reader.skip_padding(payload, width.bytes() as u64)?;
    place_starts(payload, table, count, width)
}

// The starts of a table. A count of 0 ends it: it has no starts, and no data.
#[tactic(auto, unfolding(crate::specs::Starts::starts_at, crate::specs::Starts::no_starts, exact::specs::Choice::choose, exact::specs::Got::follow, exact::specs::Basic::pure, exact::specs::Sequence::bind, exact::specs::Sequence::mapped))]
pub fn parse_starts(payload: &[u8], width: Width) -> Result<Starts, Refused>
    ensures { got_starts (wide width) payload.now result ≡ starts_at (wide width) (wide width) payload.now 0 }
{
    let (count, next) = (Reader { pos: 0 }).read_varint(payload)?;
    if count == 0 {
        let end = payload.len();
        return Ok(Starts {
            count: 0,
            first: end,
            data: end,
        });
    }
    starts_behind(payload, next, count, width)
}

// An array of the Debug section. Behind a count of 0 there is still padding.
#[tactic(auto, unfolding(crate::specs::Starts::array_at, exact::specs::Got::follow, exact::specs::Basic::pure, exact::specs::Sequence::bind, exact::specs::Sequence::mapped))]
pub fn parse_array(payload: &[u8], reader: Reader, width: Width) -> Result<Starts, Refused>
    ensures { got_starts (wide width) payload.now result ≡ array_at (wide width) (wide width) payload.now reader.pos }
{
    let (count, next) = reader.read_varint(payload)?;
    starts_behind(payload, next, count, width)
}

// The number at a place, or `other` where none is left.
#[tactic(auto, unfolding(crate::specs::Starts::number_or, crate::specs::Starts::or_else))]
pub fn number_or(starts: &[u8], at: usize, width: Width, other: u64) -> Number
    ensures { got result.value result.next ≡ number_or (wide width) other starts.now at }
{
    match read_number(starts, Reader { pos: at }, width) {
        Err(_) => Number {
            value: other,
            next: at,
        },
        Ok((value, next)) => Number {
            value,
            next: next.pos,
        },
    }
}

// Bad bounds are refused at the payload's first byte.
fn out_of_bounds() -> Read<u64>
    ensures { got_of result ≡ stop refusals.bounds 0 }
{
    Err(Refused {
        refusal: Refusal::Bounds,
        at: 0,
    })
}

// Where the entry ends that begins at `start`: at the next start, and the last one where the data ends. It has to lie
// in the data, and to have `least` bytes, or ids, at least. The tests stand so that the compiler, which sees a `least`
// of 0 or 1, leaves one comparison of start and end.
#[tactic(auto, unfolding(crate::specs::Starts::end_at, crate::specs::Starts::bounded, exact::specs::Choice::choose, exact::specs::Got::follow, exact::specs::Basic::pure, exact::specs::Sequence::bind, exact::specs::Sequence::mapped))]
fn end_of(starts: &[u8], width: Width, size: u64, least: u64, start: u64, next: usize) -> Read<u64>
    ensures { got_of result ≡ end_at (wide width) least size start starts.now next }
{
    let end = number_or(starts, next, width, size);
    if size < end.value {
        return out_of_bounds();
    }
    if end.value <= start {
        if end.value < start || 0 < least {
            return out_of_bounds();
        }
    } else if end.value - start < least {
        return out_of_bounds();
    }
    Ok((end.value, Reader { pos: end.next }))
}

// Where the first entry begins; without starts, where the data ends.
pub fn first_entry(starts: &[u8], width: Width, size: usize) -> EntryCursor
    ensures { got result.start.0 result.next ≡ number_or (wide width) size starts.now 0 }
{
    let first = number_or(starts, 0, width, size as u64);
    EntryCursor {
        start: BytePosition(first.value as usize),
        next: first.next,
    }
}

// The entry at a cursor is judged, and ends where the next cursor begins.
pub fn next_entry(
    starts: &[u8],
    width: Width,
    size: usize,
    least: u64,
    from: EntryCursor,
) -> Result<EntryCursor, Refused>
    ensures { got_entry result ≡ end_at (wide width) least size from.start.0 starts.now from.next }
{
    let (end, next) = end_of(
        starts,
        width,
        size as u64,
        least,
        from.start.0 as u64,
        from.next,
    )?;
    Ok(EntryCursor {
        start: BytePosition(end as usize),
        next: next.pos,
    })
}

// Where the first list begins among the ids; without lists, where the ids end.
pub fn first_list(starts: &[u8], ids: usize) -> ListCursor
    ensures { got result.start.0 result.next ≡ number_or 4 ids starts.now 0 }
{
    let first = number_or(starts, 0, Width::Four, ids as u64);
    ListCursor {
        start: IdPosition(first.value as usize),
        next: first.next,
    }
}

// The list at a cursor is judged: it may be empty.
pub fn next_list(starts: &[u8], ids: usize, from: ListCursor) -> Result<ListCursor, Refused>
    ensures { got_list result ≡ end_at 4 0 ids from.start.0 starts.now from.next }
{
    let (end, next) = end_of(
        starts,
        Width::Four,
        ids as u64,
        0,
        from.start.0 as u64,
        from.next,
    )?;
    Ok(ListCursor {
        start: IdPosition(end as usize),
        next: next.pos,
    })
}
