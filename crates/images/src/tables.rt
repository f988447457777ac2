// Offset tables: a count, padding, the starts, and the data. Starts that count bytes and starts that count ids are two
// units. An entry's length, which the next start needs, is got by putting the entry into an output of no bytes.
#![tactic(auto, using(crate::proofs::LawsTables::tables))]

ghost use Rattle.std.specs.Prelude.{◌≡◌, ◌+◌, ◌-◌, ◌*◌, ◌%◌, ◌^◌};
ghost use Rattle.enums.specs.declared.VersionClass.{VersionClass};
ghost use Rattle.images.specs.declared.rows.Row.TheVariants as kinds;
ghost use Rattle.images.specs.Rows.{row_bytes};
ghost use Rattle.images.specs.Tables.{CountPut, ids, NextEntry, StartsPut, ListStartsPut, TablePut};

use crate::fields::Pen;
use crate::put::{put_le, put_padding, put_varint};
use crate::rows::{Row, Table, put_row, put_rows};
use crate::source::Source;
use enums::{BytePosition, IdPosition};

// An entry of a table: its first word of the sheet, and where it begins, in the unit of the table's starts: in the data,
// or, of a debug list, among the ids of all lists.
#[derive(Clone, Copy)]
pub struct Entry<Start> {
    pub word: usize,
    pub start: Start,
}

// How far the starts of lists are put: behind the ids of the last list, and at the next place.
#[derive(Clone, Copy)]
pub struct ListStarts {
    pub end: IdPosition,
    pub at: usize,
}

// The place of a payload that begins at `base`.
fn place_in(base: usize, at: usize) -> usize
    ensures { result ≡ at - base }
{
    at.saturating_sub(base)
}

// A count, and padding to an alignment.
pub fn put_count(out: &mut [u8], base: usize, at: usize, count: u64, alignment: usize) -> usize
    ensures { CountPut count alignment base at out.old out.new result }
{
    let next = put_varint(out, at, count);
    put_padding(out, next, alignment, place_in(base, next))
}

// The entry behind this one.
pub fn next_entry(source: &Source, row: Row, this: Entry<BytePosition>) -> Entry<BytePosition>
    ensures { NextEntry source.now.class row (row_bytes source.now.class row) source.now.sheet.now this.word this.start.0 result.word result.start.0 }
{
    let begin = Pen {
        word: this.word,
        run: 0,
        at: 0,
    };
    let end = put_row(source, row, &mut [], begin);
    Entry {
        word: end.word,
        start: BytePosition(this.start.0.wrapping_add(end.at)),
    }
}

// The list behind this one, whose first word counts its ids.
pub fn next_list(sheet: &[u8], this: Entry<IdPosition>) -> Entry<IdPosition>
    ensures { (c : VersionClass) → NextEntry c kinds.List ids sheet.now this.word this.start.0 result.word result.start.0 }
{
    let count = sheet::word_at(sheet, this.word) as usize;
    Entry {
        word: this.word.wrapping_add(1).wrapping_add(count),
        start: IdPosition(this.start.0.wrapping_add(count)),
    }
}

// The starts of a table's entries, the first of them 0. Into an output of no bytes they are only counted.
pub fn put_starts(source: &Source, table: Table, out: &mut [u8], at: usize) -> usize
    ensures { StartsPut source.now.class table.row (row_bytes source.now.class table.row) table.width table.count source.now.sheet.now table.word 0 at out.old out.new result }
{
    if out.is_empty() {
        return at.wrapping_add((table.count as usize).wrapping_mul(table.width));
    }
    let mut next = at;
    let mut this = Entry {
        word: table.word,
        start: BytePosition(0),
    };
    for _ in 0..table.count {
        next = put_le(out, next, this.start.0 as u64, table.width);
        this = next_entry(source, table.row, this);
    }
    next
}

// The starts of the debug lists, which count ids.
pub fn put_list_starts(sheet: &[u8], table: Table, out: &mut [u8], at: usize) -> ListStarts
    ensures { ListStartsPut table.width table.count sheet.now table.word 0 at out.old out.new result.end.0 result.at }
{
    let mut next = at;
    let mut this = Entry {
        word: table.word,
        start: IdPosition(0),
    };
    for _ in 0..table.count {
        next = put_le(out, next, this.start.0 as u64, table.width);
        this = next_list(sheet, this);
    }
    ListStarts {
        end: this.start,
        at: next,
    }
}

// An offset table in a payload that begins at `base`.
pub fn put_table(source: &Source, table: Table, out: &mut [u8], base: usize, pen: Pen) -> Pen
    ensures { TablePut source.now.class table base source.now.sheet.now source.now.pool.now pen out.old out.new result }
{
    let first = put_count(out, base, pen.at, table.count, table.width);
    let data = put_starts(source, table, out, first);
    put_rows(source, table, out, Pen { at: data, ..pen })
}
