// The rows of the tables: each becomes its bytes of the file, and the rows of a table stand one behind the other.
#![tactic(auto, using(crate::proofs::LawsRows::rows), unfolding(crate::specs::Rows::GoodRow, crate::specs::Rows::row_words, crate::specs::Rows::row_run, crate::specs::Rows::row_bytes))]

ghost use Rattle.std.specs.Prelude.{ℕ, List, map};
ghost use Rattle.exact.specs.Tiling.{join};
ghost use Rattle.enums.specs.declared.VersionClass.{VersionClass};
ghost use Rattle.images.specs.declared.rows.Row.TheVariants as kinds;
ghost use Rattle.images.specs.Rows.{RunTaken, row_bytes, RowCopied, RowsPut};

use crate::fields::{Number, Pen, copy_number, copy_numbers, copy_where, skip_words};
use crate::put::put_pool;
use crate::source::Source;
use crate::types::put_type;
use enums::{DebugTag, VersionClass};

// The kinds of rows. Strings and constants are runs of the pool.
#[derive(Clone, Copy)]
pub enum Row {
    Run,
    Type,
    Global,
    Function,
    Attribute,
    List,
}

// A table of the sheet: its kind of rows, its first word, its row count; and the width of a start in the file, to which
// the starts are aligned as well. A table without starts has 0.
#[derive(Clone, Copy)]
pub struct Table {
    pub row: Row,
    pub word: usize,
    pub count: u64,
    pub width: usize,
}

// Puts the next `len` bytes of the pool.
fn take_run(pool: &[u8], len: u64, out: &mut [u8], pen: Pen) -> Pen
    ensures { RunTaken len pool.now pen out.old out.new result }
{
    let next = put_pool(pool, pen.run, len as usize, out, pen.at);
    Pen {
        run: pen.run.wrapping_add(len as usize),
        at: next,
        ..pen
    }
}

// A string or a constant: its length is the sheet's alone.
fn put_run(sheet: &[u8], pool: &[u8], out: &mut [u8], pen: Pen) -> Pen
    ensures { (c : VersionClass) → RowCopied c kinds.Run sheet.now pool.now pen out.old out.new result }
{
    let len = sheet::word_at(sheet, pen.word);
    take_run(pool, len, out, skip_words(pen, 1))
}

fn put_global(sheet: &[u8], class: VersionClass, out: &mut [u8], pen: Pen) -> Pen
    ensures { (pool : List ℕ) → RowCopied «class» kinds.Global sheet.now pool pen out.old out.new result }
{
    let name = copy_number(sheet, Number::Varint, out, pen);
    let ty = copy_number(sheet, Number::Varint, out, name);
    let constant = copy_number(sheet, Number::Varint, out, ty);
    let alignment = copy_number(sheet, Number::Varint, out, constant);
    let visibility = copy_where(sheet, class.from_13_3(), Number::Byte, out, alignment);
    copy_where(sheet, class.from_13_3(), Number::Varint, out, visibility)
}

fn put_function(sheet: &[u8], pool: &[u8], out: &mut [u8], pen: Pen) -> Pen
    ensures { (c : VersionClass) → RowCopied c kinds.Function sheet.now pool.now pen out.old out.new result }
{
    let name = copy_number(sheet, Number::Varint, out, pen);
    let signature = copy_number(sheet, Number::Varint, out, name);
    let flags = copy_number(sheet, Number::Byte, out, signature);
    let location = copy_number(sheet, Number::Varint, out, flags);
    let len = sheet::word_at(sheet, location.word);
    let body = copy_number(sheet, Number::Varint, out, location);
    take_run(pool, len, out, body)
}

fn put_attribute(sheet: &[u8], out: &mut [u8], pen: Pen) -> Pen
    ensures { (c : VersionClass) (pool : List ℕ) → RowCopied c kinds.Attribute sheet.now pool pen out.old out.new result }
{
    let count = DebugTag::field_count(sheet::word_at(sheet, pen.word));
    let tag = copy_number(sheet, Number::Byte, out, pen);
    let fields = copy_numbers(sheet, Number::Varint, count, out, tag);
    skip_words(fields, (6 - count) as usize)
}

// A debug list: its count is the sheet's alone.
fn put_list(sheet: &[u8], out: &mut [u8], pen: Pen) -> Pen
    ensures { (c : VersionClass) (pool : List ℕ) → RowCopied c kinds.List sheet.now pool pen out.old out.new result }
{
    let count = sheet::word_at(sheet, pen.word);
    copy_numbers(sheet, Number::I64, count, out, skip_words(pen, 1))
}

// A row, by its kind.
pub fn put_row(source: &Source, row: Row, out: &mut [u8], pen: Pen) -> Pen
    ensures { RowCopied source.now.class row source.now.sheet.now source.now.pool.now pen out.old out.new result }
{
    match row {
        Row::Run => put_run(source.sheet, source.pool, out, pen),
        Row::Type => put_type(source.sheet, source.class, out, pen),
        Row::Global => put_global(source.sheet, source.class, out, pen),
        Row::Function => put_function(source.sheet, source.pool, out, pen),
        Row::Attribute => put_attribute(source.sheet, out, pen),
        Row::List => put_list(source.sheet, out, pen),
    }
}

// The rows of a table. The pen's word stays: tables are found by the contents.
pub fn put_rows(source: &Source, table: Table, out: &mut [u8], pen: Pen) -> Pen
    ensures { RowsPut source.now.class table (λ xs. join (map (row_bytes source.now.class table.row) xs)) source.now.sheet.now source.now.pool.now pen out.old out.new result }
{
    let mut next = Pen {
        word: table.word,
        ..pen
    };
    for _ in 0..table.count {
        next = put_row(source, table.row, out, next);
    }
    Pen {
        word: pen.word,
        ..next
    }
}
