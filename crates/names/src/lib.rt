// The name of a type row of a handed sheet (decoder.rs, `decode_type_entry`): the sheet is judged, the name measured
// within the room of the buffer, and put. Describing a type and describing a list call each other, on earlier rows only.
#![tactic(auto)]

ghost use Rattle.std.specs.Prelude.{◌≡◌, ◌+◌, ◌≤◌, ◌<◌, length};
ghost use Rattle.format.specs.Read.{map_read};
ghost use Rattle.text.specs.Text.{Put};
ghost use Rattle.sheet.specs.Store.{words_in};
ghost use Rattle.names.specs.Names.{types_in, name_at, list_at, RowAt, name_for, with_name, name_read};

use enums::{Refusal, TypeTag};
use kinds::Part;
use text::Pen;

// The word of a row's tag. Each row before it is passed by the number of its words.
fn row_at(sheet: &[u8], row: u64) -> usize
    requires { row < length (types_in sheet.now) }
    ensures { RowAt sheet.now row result }
{
    let mut word = sheet::word_at(sheet, 7) as usize;
    for _ in 0..row {
        word = word + 1 + sheet::word_at(sheet, word) as usize;
    }
    word + 1
}

// Describes a type: what stands before its names, these, and what stands behind them. A function type has a second
// list.
#[cycle(describe_list_describe_type)]
fn describe_type(sheet: &[u8], row: u64, out: &mut [u8], pen: Pen) -> Pen
    requires { row < length (types_in sheet.now) }
    ensures { Put (name_at sheet.now row) pen out.old out.new result }
{
    let at = row_at(sheet, row);
    let tag = sheet::word_at(sheet, at);
    let opened = kinds::put_part(sheet, tag, at, Part::Opening, out, pen);
    let first = kinds::indices_at(sheet, tag, at);
    let listed = describe_list(sheet, row, first.word, first.count, out, opened);
    let behind = first.word + first.count as usize;
    let ended = kinds::put_part(sheet, tag, at, Part::Ending(behind), out, listed);
    if tag != TypeTag::FUNC as u64 {
        return ended;
    }
    let second = kinds::counted_at(sheet, behind);
    let results = describe_list(sheet, row, second.word, second.count, out, ended);
    results.put_byte(out, b')')
}

// Describes the rows of `left` indices from a word on, as far as there is room; one that is not earlier is "?".
#[cycle(describe_list_describe_type)]
fn describe_list(sheet: &[u8], row: u64, word: usize, left: u64, out: &mut [u8], pen: Pen) -> Pen
    requires row_in_bounds { row < length (types_in sheet.now) }
    requires left_in_bounds { word + left ≤ length (words_in sheet.now) }
    ensures { Put (list_at sheet.now row word left) pen out.old out.new result }
{
    if left == 0 {
        return pen;
    }
    if let Pen::Full = pen {
        return Pen::Full;
    }
    let index = sheet::word_at(sheet, word);
    let named = if index < row {
        describe_type(sheet, index, out, pen)
    } else {
        pen.put_byte(out, b'?')
    };
    if left == 1 {
        return named;
    }
    let separated = named.put_text(out, b", ");
    describe_list(sheet, row, word + 1, left - 1, out, separated)
}

// The name of a row that is there: 11 where it has no room. It is counted within the room, and then put.
fn put_long_name(sheet: &[u8], row: u64, out: &mut [u8]) -> Result<usize, Refusal>
    requires { row < length (types_in sheet.now) }
    ensures result_value { name_read result ≡ map_read length (name_for sheet.now row out.old) }
    ensures out_after { out.new ≡ with_name out.old (name_for sheet.now row out.old) }
{
    let room = out.len();
    let Pen::Counting(left) = describe_type(sheet, row, out, Pen::Counting(room)) else {
        return Err(Refusal::Full);
    };
    describe_type(sheet, row, out, Pen::At(0));
    Ok(room - left)
}

// Nearly all names are at most so long.
const SHORT: usize = 256;

// The same. A short name is put into an array of our own and copied, so that its rows are looked for once.
fn put_name(sheet: &[u8], row: u64, out: &mut [u8]) -> Result<usize, Refusal>
    requires { row < length (types_in sheet.now) }
    ensures result_value { name_read result ≡ map_read length (name_for sheet.now row out.old) }
    ensures out_after { out.new ≡ with_name out.old (name_for sheet.now row out.old) }
{
    let mut short = [0u8; SHORT];
    let Pen::At(size) = describe_type(sheet, row, &mut short, Pen::At(0)) else {
        return put_long_name(sheet, row, out);
    };
    if out.len() < size {
        return Err(Refusal::Full);
    }
    sheet::put_run(out, 0, &short[..size]);
    Ok(size)
}

// The name of a type row of a handed sheet, at the start of a lent buffer: its length, or why there is none. A refused
// call leaves the buffer untouched.
pub fn type_text(sheet: &[u8], row: u64, out: &mut [u8]) -> Result<usize, Refusal>
    ensures result_value { name_read result ≡ map_read length (name_for sheet.now row out.old) }
    ensures out_after { out.new ≡ with_name out.old (name_for sheet.now row out.old) }
{
    judge::judge(sheet).ok_or(Refusal::Sheet)?;
    if sheet::word_at(sheet, 8) <= row {
        return Err(Refusal::Absent);
    }
    put_name(sheet, row, out)
}
