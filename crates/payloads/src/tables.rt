// String and Constant: offset tables whose entries are runs of bytes, read in two passes by one function. Places count from
// the payload's first byte.
ghost use Rattle.exact.specs.Upto.{whole};
ghost use Rattle.format.specs.DecodeTables.{offset_table_at, strings_at, constants_at};
ghost use Rattle.entries.specs.Starts.{wide, Lies};
ghost use Rattle.entries.specs.Places.{entries_in};
ghost use Rattle.payloads.specs.Fill.{Fills};
ghost use Rattle.payloads.specs.Tables.{filling};

use crate::answers::{Filled, TableRead};
use crate::part::Part;
use entries::starts::{Starts, Width, first_entry, next_entry, parse_starts};

// Entry by entry: its bounds are judged, its length goes to the sheet and its bytes to the pool.
fn fill_entries(
    part: Part,
    starts: Starts,
    width: Width,
    sheet: &mut [u8],
    pool: &mut [u8],
) -> TableRead
    requires { Lies (wide width) part.payload.now starts }
    ensures { Fills part.entry.at (filling (entries_in 0 (wide width) part.entry.payload.now starts)) sheet.old sheet.new pool.old pool.new result }
{
    let count = starts.count;
    let first = starts.first;
    let base = starts.data;
    let run = &part.payload[first..base];
    let data = &part.payload[base..];
    let mut words = part.at.words;
    let mut bytes = part.at.bytes;
    let mut from = first_entry(run, width, data.len());
    for _ in 0..count {
        let next = next_entry(run, width, data.len(), 0, from)?;
        let entry = &data[from.start.0..next.start.0];
        sheet::put_word(sheet, words, entry.len() as u64);
        sheet::put_run(pool, bytes, entry);
        words += 1;
        bytes += entry.len();
        from = next;
    }
    Ok((count, Filled { words, bytes }))
}

// The entries of a table stand one behind the other, from the first one's start to the end of the data: where the pool
// has room for all of it they are put at once, and the pass over them is lent no pool.
fn fill_at_once(
    part: Part,
    starts: Starts,
    width: Width,
    sheet: &mut [u8],
    pool: &mut [u8],
) -> TableRead
    requires { Lies (wide width) part.payload.now starts }
    ensures { Fills part.entry.at (filling (entries_in 0 (wide width) part.entry.payload.now starts)) sheet.old sheet.new pool.old pool.new result }
{
    let first = starts.first;
    let base = starts.data;
    let run = &part.payload[first..base];
    let data = &part.payload[base..];
    if pool.len() < part.at.bytes || pool.len() - part.at.bytes < data.len() {
        return fill_entries(part, starts, width, sheet, pool);
    }
    let (rows, filled) = fill_entries(part, starts, width, sheet, &mut pool[0..0])?;
    let front = first_entry(run, width, data.len()).start.0;
    sheet::put_run(pool, part.at.bytes, &data[front..]);
    Ok((rows, filled))
}

fn parse_offset_table(part: Part, width: Width, sheet: &mut [u8], pool: &mut [u8]) -> TableRead
    ensures { Fills part.entry.at (filling (offset_table_at (wide width) (wide width) 0 whole part.entry.payload.now 0)) sheet.old sheet.new pool.old pool.new result }
{
    let starts = parse_starts(part.payload, width)?;
    fill_at_once(part, starts, width, sheet, pool)
}

#[tactic(auto, unfolding(format::specs::DecodeTables::strings_at))]
pub fn parse_string_section(part: Part, sheet: &mut [u8], pool: &mut [u8]) -> TableRead
    ensures { Fills part.entry.at (filling (strings_at 0 part.entry.payload.now 0)) sheet.old sheet.new pool.old pool.new result }
{
    parse_offset_table(part, Width::Four, sheet, pool)
}

#[tactic(auto, unfolding(format::specs::DecodeTables::constants_at))]
pub fn parse_constant_section(part: Part, sheet: &mut [u8], pool: &mut [u8]) -> TableRead
    ensures { Fills part.entry.at (filling (constants_at 0 part.entry.payload.now 0)) sheet.old sheet.new pool.old pool.new result }
{
    parse_offset_table(part, Width::Eight, sheet, pool)
}
