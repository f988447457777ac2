// The payloads of the sections.
#![tactic(auto, using(crate::proofs::LawsDebug::sections))]

ghost use Rattle.std.specs.Prelude.{◌≡◌, ℕ, ◌+◌, ◌%◌, ◌^◌, List, ◌++◌, map, slice_index};
ghost use Rattle.exact.specs.Tiling.{join};
ghost use Rattle.enums.specs.declared.VersionClass.{VersionClass};
ghost use Rattle.encoding.specs.Varint.{spelling};
ghost use Rattle.sheet.specs.Store.{words_in};
ghost use Rattle.enums.specs.declared.Section.TheVariants as parts;
ghost use Rattle.images.specs.Rows.{row_bytes, RowsPut};
ghost use Rattle.images.specs.Sections.{ListsPut, PayloadPut};

use crate::fields::Pen;
use crate::put::put_varint;
use crate::rows::{Row, Table, put_rows};
use crate::source::Source;
use crate::tables::{put_count, put_list_starts, put_table};
use enums::Section;

// The table whose start and count are the words `contents` and the next.
pub fn table_at(sheet: &[u8], contents: usize, row: Row, width: usize) -> Table
    ensures { result ≡ record { row = row; word = slice_index (words_in sheet.now) contents; count = slice_index (words_in sheet.now) ((contents + 1) % 2 ^ 64); width = width } }
{
    Table {
        row,
        word: sheet::word_at(sheet, contents) as usize,
        count: sheet::word_at(sheet, contents.wrapping_add(1)),
        width,
    }
}

// A count, and the rows of a table.
fn put_counted(source: &Source, table: Table, out: &mut [u8], pen: Pen) -> Pen
    ensures { RowsPut source.now.class table (λ xs. spelling table.count ++ join (map (row_bytes source.now.class table.row) xs)) source.now.sheet.now source.now.pool.now pen out.old out.new result }
{
    let first = put_varint(out, pen.at, table.count);
    put_rows(source, table, out, Pen { at: first, ..pen })
}

// The producer's index, which is one less than its word.
fn put_producer(sheet: &[u8], out: &mut [u8], pen: Pen) -> Pen
    ensures { (c : VersionClass) (pool : List ℕ) → PayloadPut parts.Producer c sheet.now pool pen out.old out.new result }
{
    match sheet::word_at(sheet, 3).checked_sub(1) {
        Some(producer) => Pen {
            at: put_varint(out, pen.at, producer),
            ..pen
        },
        None => pen,
    }
}

// The debug lists: their starts, counted in ids, and behind them the ids of all lists.
fn put_lists(source: &Source, out: &mut [u8], pen: Pen) -> Pen
    ensures { ListsPut source.now.class source.now.sheet.now source.now.pool.now pen out.old out.new result }
{
    let lists = table_at(source.sheet, 17, Row::List, 4);
    let first = put_count(out, pen.at, pen.at, lists.count, lists.width);
    let starts = put_list_starts(source.sheet, lists, out, first);
    let numbers = put_count(out, pen.at, starts.at, starts.end.0 as u64, 8);
    put_rows(source, lists, out, Pen { at: numbers, ..pen })
}

fn put_debug(source: &Source, out: &mut [u8], pen: Pen) -> Pen
    ensures { PayloadPut parts.Debug source.now.class source.now.sheet.now source.now.pool.now pen out.old out.new result }
{
    let next = put_lists(source, out, pen);
    let attributes = table_at(source.sheet, 15, Row::Attribute, 4);
    put_table(source, attributes, out, pen.at, next)
}

// The payload of a section.
pub fn put_payload(source: &Source, section: Section, out: &mut [u8], pen: Pen) -> Pen
    ensures { PayloadPut section source.now.class source.now.sheet.now source.now.pool.now pen out.old out.new result }
{
    match section {
        Section::String => {
            let strings = table_at(source.sheet, 5, Row::Run, 4);
            put_table(source, strings, out, pen.at, pen)
        }
        Section::Producer => put_producer(source.sheet, out, pen),
        Section::Type => {
            let types = table_at(source.sheet, 7, Row::Type, 4);
            put_table(source, types, out, pen.at, pen)
        }
        Section::Constant => {
            let constants = table_at(source.sheet, 9, Row::Run, 8);
            put_table(source, constants, out, pen.at, pen)
        }
        Section::Global => {
            let globals = table_at(source.sheet, 11, Row::Global, 0);
            put_counted(source, globals, out, pen)
        }
        Section::Func => {
            let functions = table_at(source.sheet, 13, Row::Function, 0);
            put_counted(source, functions, out, pen)
        }
        Section::Debug => put_debug(source, out, pen),
    }
}
