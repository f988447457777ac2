// Whether the u32 starts fit, which tells 13 from 1 where the image is over its limit.
#![tactic(auto, using(crate::proofs::LawsStarts::told))]

ghost use Rattle.enums.specs.declared.VersionClass.{VersionClass};
ghost use Rattle.images.specs.declared.rows.Row.TheVariants as kinds;
ghost use Rattle.images.specs.Rows.{row_bytes};
ghost use Rattle.images.specs.Tables.{ids};
ghost use Rattle.images.specs.Starts.{StartsTold, FitTold};

use crate::rows::{Row, Table};
use crate::sections::table_at;
use crate::source::Source;
use crate::tables::{Entry, next_entry, next_list};
use enums::{BytePosition, IdPosition};

// The largest start that a u32 holds.
const MOST_START: usize = u32::MAX as usize;

// Whether the starts of a table's entries fit.
fn entries_fit(source: &Source, table: Table) -> bool
    ensures { StartsTold source.now.class table.row (row_bytes source.now.class table.row) table.count source.now.sheet.now table.word 0 result }
{
    let mut this = Entry {
        word: table.word,
        start: BytePosition(0),
    };
    for _ in 0..table.count {
        if MOST_START < this.start.0 {
            return false;
        }
        this = next_entry(source, table.row, this);
    }
    true
}

// Whether the starts of the debug lists fit.
fn lists_fit(sheet: &[u8], table: Table) -> bool
    ensures { (c : VersionClass) → StartsTold c kinds.List ids table.count sheet.now table.word 0 result }
{
    let mut this = Entry {
        word: table.word,
        start: IdPosition(0),
    };
    for _ in 0..table.count {
        if MOST_START < this.start.0 {
            return false;
        }
        this = next_list(sheet, this);
    }
    true
}

// Whether all u32 starts fit: those of strings, types, debug lists and attributes. Nothing is put.
pub fn starts_fit(source: &Source) -> bool
    ensures { FitTold source.now.class source.now.sheet.now result }
{
    let strings = table_at(source.sheet, 5, Row::Run, 4);
    let types = table_at(source.sheet, 7, Row::Type, 4);
    let lists = table_at(source.sheet, 17, Row::List, 4);
    let attributes = table_at(source.sheet, 15, Row::Attribute, 4);
    entries_fit(source, strings)
        && entries_fit(source, types)
        && lists_fit(source.sheet, lists)
        && entries_fit(source, attributes)
}
