// The Global and Func sections: parse_global_section and parse_func_section of decoder.rs, read in two passes by one
// function. Places count from the payload's first byte.
ghost use Rattle.std.specs.Prelude.{◌≡◌, ◌+◌, ◌^◌, ◌≤◌, ◌<◌, length};
ghost use Rattle.exact.specs.Repeat.{times};
ghost use Rattle.format.specs.Sheet.{global_words, function_words};
ghost use Rattle.format.specs.DecodeRows.{global_at, globals_at, function_at, functions_at};
ghost use Rattle.sheet.specs.Store.{put_words};
ghost use Rattle.entries.specs.Rows.{global_of};
ghost use Rattle.payloads.specs.Fill.{Fills};
ghost use Rattle.payloads.specs.Rows.{global_rows, FillsSheet, row_of, located_rows, function_rows};

use crate::answers::{Filled, TableRead};
use crate::part::Part;
use entries::rows::{FuncHead, GlobalRow, read_func, read_global};
use enums::VersionClass;
use reading::Reader;

// The words of a row, one behind the other.
pub fn put_row(sheet: &mut [u8], at: usize, row: &[u64])
    requires { at + length row.now < 2 ^ 64 }
    ensures { sheet.new ≡ put_words sheet.old at row.now }
{
    for (k, word) in row.iter().enumerate() {
        sheet::put_word(sheet, at + k, *word);
    }
}

#[tactic(auto, unfolding(format::specs::Sheet::global_words))]
fn put_global(sheet: &mut [u8], word: usize, row: GlobalRow)
    requires { word + 6 < 2 ^ 64 }
    ensures { sheet.new ≡ put_words sheet.old word (global_words (global_of row)) }
{
    let words = [
        row.name_idx,
        row.type_idx,
        row.const_idx,
        row.alignment,
        u64::from(row.linkage.visibility),
        row.linkage.constant,
    ];
    put_row(sheet, word, &words);
}

// Row by row: six words of the sheet for each.
fn fill_globals(
    part: Part,
    class: VersionClass,
    first: Reader,
    count: u64,
    sheet: &mut [u8],
) -> TableRead
    requires { first.pos ≤ length part.payload.now }
    ensures { FillsSheet part.entry.at (global_rows (times count (global_at «class») part.entry.payload.now first.pos)) sheet.old sheet.new result }
{
    let payload = part.payload;
    let mut reader = first;
    let mut words = part.at.words;
    for _ in 0..count {
        let (row, next) = read_global(payload, class, reader)?;
        put_global(sheet, words, row);
        words += 6;
        reader = next;
    }
    let bytes = part.at.bytes;
    Ok((count as usize, Filled { words, bytes }))
}

// A global has no run of bytes: the pool is not lent, and stays as it is.
pub fn parse_global_section(part: Part, class: VersionClass, sheet: &mut [u8]) -> TableRead
    ensures { FillsSheet part.entry.at (global_rows (globals_at «class» 0 part.entry.payload.now 0)) sheet.old sheet.new result }
{
    let (count, first) = (Reader { pos: 0 }).read_varint(part.payload)?;
    fill_globals(part, class, first, count, sheet)
}

#[tactic(auto, unfolding(format::specs::Sheet::function_words))]
fn put_func(sheet: &mut [u8], word: usize, head: FuncHead, body_len: usize)
    requires { word + 5 < 2 ^ 64 }
    ensures { sheet.new ≡ put_words sheet.old word (function_words (row_of head body_len)) }
{
    let words = [
        head.name_idx,
        head.sig_idx,
        u64::from(head.flags),
        head.loc_idx,
        body_len as u64,
    ];
    put_row(sheet, word, &words);
}

// Row by row: five words of the sheet, and the body in the pool.
fn fill_funcs(part: Part, first: Reader, count: u64, sheet: &mut [u8], pool: &mut [u8]) -> TableRead
    requires { first.pos ≤ length part.payload.now }
    ensures { Fills part.entry.at (located_rows (times count (function_at 0) part.entry.payload.now first.pos)) sheet.old sheet.new pool.old pool.new result }
{
    let payload = part.payload;
    let mut reader = first;
    let mut words = part.at.words;
    let mut bytes = part.at.bytes;
    for _ in 0..count {
        let (row, next) = read_func(payload, reader)?;
        let body = &payload[row.body..next.pos];
        put_func(sheet, words, row.head, body.len());
        sheet::put_run(pool, bytes, body);
        words += 5;
        bytes += body.len();
        reader = next;
    }
    Ok((count as usize, Filled { words, bytes }))
}

pub fn parse_func_section(part: Part, sheet: &mut [u8], pool: &mut [u8]) -> TableRead
    ensures { Fills part.entry.at (function_rows (functions_at 0 part.entry.payload.now 0)) sheet.old sheet.new pool.old pool.new result }
{
    let (count, first) = (Reader { pos: 0 }).read_varint(part.payload)?;
    fill_funcs(part, first, count, sheet, pool)
}
