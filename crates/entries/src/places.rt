// Where the rows that are runs of bytes stand in a payload. The whole table is judged. Places count from the payload's first
// byte.
ghost use Rattle.std.specs.Prelude.{◌≤◌, length};
ghost use Rattle.format.specs.DecodeTables.{strings_at, constants_at};
ghost use Rattle.entries.specs.Starts.{wide, Lies};
ghost use Rattle.entries.specs.Places.{Finds, bodies_at, table_at, entries_in, bodies_from};

use crate::rows::read_func;
use crate::starts::{Starts, Width, first_entry, next_entry, parse_starts};
use reading::{Reader, Refused};

// Where a row begins in the payload, and its length.
#[derive(Clone, Copy, PartialEq, Eq)]
pub struct Place {
    pub start: usize,
    pub len: usize,
}

// Entry by entry: the bounds of each are judged, and where entry n stands is kept.
fn find_entry(
    payload: &[u8],
    starts: Starts,
    width: Width,
    n: u64,
) -> Result<Option<Place>, Refused>
    requires { Lies (wide width) payload.now starts }
    ensures { Finds (λ o. entries_in o (wide width) payload.now starts) payload.now n result }
{
    let rows = starts.count;
    let first = starts.first;
    let data = starts.data;
    let run = &payload[first..data];
    let size = payload.len() - data;
    let mut from = first_entry(run, width, size);
    let mut found = None;
    for i in 0..rows {
        let next = next_entry(run, width, size, 0, from)?;
        if i as u64 == n {
            let start = from.start.0;
            found = Some(Place {
                start: data + start,
                len: next.start.0 - start,
            });
        }
        from = next;
    }
    Ok(found)
}

// Where entry n of a table stands.
fn entry_place(payload: &[u8], width: Width, n: u64) -> Result<Option<Place>, Refused>
    ensures { Finds (λ o. table_at o (wide width) payload.now) payload.now n result }
{
    let starts = parse_starts(payload, width)?;
    find_entry(payload, starts, width, n)
}

// Where string n stands.
#[tactic(auto, unfolding(format::specs::DecodeTables::strings_at))]
pub fn string_place(payload: &[u8], n: u64) -> Result<Option<Place>, Refused>
    ensures { Finds (λ o. strings_at o payload.now 0) payload.now n result }
{
    entry_place(payload, Width::Four, n)
}

// Where constant n stands.
#[tactic(auto, unfolding(format::specs::DecodeTables::constants_at))]
pub fn constant_place(payload: &[u8], n: u64) -> Result<Option<Place>, Refused>
    ensures { Finds (λ o. constants_at o payload.now 0) payload.now n result }
{
    entry_place(payload, Width::Eight, n)
}

// Row by row: each function is read, and where the body of function n stands is kept.
fn find_body(payload: &[u8], first: Reader, count: u64, n: u64) -> Result<Option<Place>, Refused>
    requires { first.pos ≤ length payload.now }
    ensures { Finds (λ o. bodies_from o count payload.now first.pos) payload.now n result }
{
    let mut reader = first;
    let mut found = None;
    for i in 0..count {
        let (row, next) = read_func(payload, reader)?;
        if i == n {
            found = Some(Place {
                start: row.body,
                len: next.pos - row.body,
            });
        }
        reader = next;
    }
    Ok(found)
}

// Where the body of function n stands.
pub fn body_place(payload: &[u8], n: u64) -> Result<Option<Place>, Refused>
    ensures { Finds (λ o. bodies_at o payload.now 0) payload.now n result }
{
    let (count, first) = (Reader { pos: 0 }).read_varint(payload)?;
    find_body(payload, first, count, n)
}
