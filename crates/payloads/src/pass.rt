// One pass over the payloads of a file, in reading order. On empty stores it measures, and large enough ones it fills.
ghost use Rattle.std.specs.Prelude.{◌≡◌, ℕ, ◌+◌, ◌*◌, ◌<◌, List, [], ◌∷◌, length, get_or, Ok};
ghost use Rattle.enums.specs.Numbered.{id_of};
ghost use Rattle.enums.specs.declared.Section.TheVariants as section;
ghost use Rattle.format.specs.Debug.{no_debug};
ghost use Rattle.format.specs.DecodeDebug.{debug_at};
ghost use Rattle.format.specs.Explains.{class};
ghost use Rattle.container.specs.Container.{version_of};
ghost use Rattle.sheet.specs.Store.{put_words};
ghost use Rattle.payloads.specs.Fill.{Fills, Fits};
ghost use Rattle.payloads.specs.DebugRows.{DebugFills};
ghost use Rattle.payloads.specs.Whole.{PassPost};
ghost use Rattle.payloads.specs.Pass.{
  no_rows,
  table_in,
  number_of,
  section_of,
  stage_of,
  in_place,
  Goes,
  with_producer,
  with_debug,
  place_at,
  table_step,
  table_found,
  word_found,
  debug_found,
  head_words,
};

use crate::Need;
use crate::answers::{Filled, TableRead, raised, staged};
use crate::debug::{DebugFilled, DebugRead, parse_debug_section};
use crate::part::Part;
use crate::rows::{parse_func_section, parse_global_section, put_row};
use crate::source::Source;
use crate::tables::{parse_constant_section, parse_string_section};
use crate::types::parse_type_section;
use container::sections::Stopped;
use entries::rows::parse_producer;
use enums::{BytecodeVersion, Section, Stage, VersionClass};

// The tables that have a section of their own, in reading order.
#[derive(Clone, Copy)]
pub enum Table {
    Strings,
    Types,
    Constants,
    Globals,
    Functions,
}

impl Table {
    fn section(self) -> Section
        ensures { result ≡ section_of self }
    {
        match self {
            Table::Strings => Section::String,
            Table::Types => Section::Type,
            Table::Constants => Section::Constant,
            Table::Globals => Section::Global,
            Table::Functions => Section::Func,
        }
    }

    // The stage at which it is read.
    fn stage(self) -> Stage
        ensures { result ≡ stage_of self }
    {
        match self {
            Table::Strings => Stage::String,
            Table::Types => Stage::Type,
            Table::Constants => Stage::Constant,
            Table::Globals => Stage::Global,
            Table::Functions => Stage::Func,
        }
    }

    // The word of the contents where its start word stands; its row count stands behind it.
    fn contents(self) -> usize
        ensures { result ≡ 5 + 2 * number_of self }
    {
        5 + 2 * self as usize
    }
}

// The start word and the row count of a table.
fn put_table(sheet: &mut [u8], contents: usize, start: usize, rows: usize)
    requires { contents < 19 }
    ensures { sheet.new ≡ put_words sheet.old contents (start ∷ rows ∷ []) }
{
    put_row(sheet, contents, &[start as u64, rows as u64]);
}

// A table by its own reader.
#[tactic(auto, unfolding(crate::specs::Pass::table_in))]
fn parse_table(
    table: Table,
    part: Part,
    class: VersionClass,
    sheet: &mut [u8],
    pool: &mut [u8],
) -> TableRead
    ensures { Fills part.entry.at (table_in table «class» part.entry.payload.now) sheet.old sheet.new pool.old pool.new result }
{
    match table {
        Table::Strings => parse_string_section(part, sheet, pool),
        Table::Types => parse_type_section(part.payload, class, sheet, part.at),
        Table::Constants => parse_constant_section(part, sheet, pool),
        Table::Globals => parse_global_section(part, class, sheet),
        Table::Functions => parse_func_section(part, sheet, pool),
    }
}

// An absent section is an empty table. The place of a refusal counts from the file's first byte.
fn read_table(
    table: Table,
    source: Source,
    sheet: &mut [u8],
    pool: &mut [u8],
    at: Filled,
) -> TableRead
    requires { Fits at source.file.now }
    ensures { Fills at (in_place source.entry.file.now (place_at source.entry.container.now (section_of table)) (table_in table (class (version_of source.entry.container.now.version))) no_rows) sheet.old sheet.new pool.old pool.new result }
{
    match source.payload(table.section()) {
        None => Ok((0, at)),
        Some(found) => {
            let part = Part {
                payload: found.bytes,
                at,
            };
            raised(
                parse_table(table, part, source.class(), sheet, pool),
                found.start,
            )
        }
    }
}

// One table more: its rows, and its start word and row count in the contents.
fn fill_table(
    table: Table,
    source: Source,
    sheet: &mut [u8],
    pool: &mut [u8],
    at: Filled,
) -> Result<(usize, Filled), Stopped>
    requires { Fits at source.file.now }
    ensures { (n : ℕ) → Goes (number_of table) (number_of table + 1) (table_step source.entry.file.now source.entry.container.now table) (Ok (at, n)) sheet.old sheet.new pool.old pool.new (table_found result) }
{
    let (rows, next) = staged(read_table(table, source, sheet, pool, at), table.stage())?;
    put_table(sheet, table.contents(), at.words, rows);
    Ok((rows, next))
}

// The producer's word: its index and 1, or 0 where none is named. It is one of the strings, which have been counted.
fn fill_producer(source: Source, strings: usize) -> Result<u64, Stopped>
    ensures { (at : Filled) (s p : List ℕ) → Goes 1 1 (with_producer source.entry.file.now (place_at source.entry.container.now section.Producer)) (Ok (at, strings)) s s p p (word_found at result) }
{
    let Some(payload) = source.payload(Section::Producer) else {
        return Ok(0);
    };
    let found = raised(parse_producer(payload.bytes, strings), payload.start);
    let index = staged(found, Stage::Producer)?;
    Ok(index + 1)
}

// The Debug section, as read_table reads a table.
fn read_debug(source: Source, sheet: &mut [u8], at: Filled) -> DebugRead
    requires { Fits at source.file.now }
    ensures { DebugFills at (in_place source.entry.file.now (place_at source.entry.container.now section.Debug) (λ l. debug_at l 0) no_debug) sheet.old sheet.new result }
{
    match source.payload(Section::Debug) {
        None => Ok(DebugFilled {
            attributes: 0,
            lists: 0,
            filled: at,
        }),
        Some(found) => {
            let part = Part {
                payload: found.bytes,
                at,
            };
            raised(parse_debug_section(part, sheet), found.start)
        }
    }
}

// Two tables more. The rows of attributes have seven words each, and those of the lists stand behind them.
fn fill_debug(source: Source, sheet: &mut [u8], at: Filled) -> Result<Filled, Stopped>
    requires { Fits at source.file.now }
    ensures { (n : ℕ) (p : List ℕ) → Goes 5 7 (with_debug (in_place source.entry.file.now (place_at source.entry.container.now section.Debug) (λ l. debug_at l 0) no_debug)) (Ok (at, n)) sheet.old sheet.new p p (debug_found result) }
{
    let debug = staged(read_debug(source, sheet, at), Stage::Debug)?;
    put_table(sheet, 15, at.words, debug.attributes);
    put_table(sheet, 17, at.words + debug.attributes * 7, debug.lists);
    Ok(debug.filled)
}

// Words 0 to 4.
fn put_head(sheet: &mut [u8], version: BytecodeVersion, producer: u64, bytes: usize)
    ensures { sheet.new ≡ put_words sheet.old 0 (head_words (version_of version) producer bytes) }
{
    let words = [
        u64::from(version.major),
        u64::from(version.minor),
        u64::from(version.tag),
        producer,
        bytes as u64,
    ];
    put_row(sheet, 0, &words);
}

// The payloads of a file, in reading order, and then the words that only all of them give.
pub fn fill(source: Source, sheet: &mut [u8], pool: &mut [u8]) -> Result<Need, Stopped>
    ensures { PassPost source.entry.file.now sheet.old sheet.new pool.old pool.new result }
{
    let begun = Filled {
        words: 19,
        bytes: 0,
    };
    let (strings, named) = fill_table(Table::Strings, source, sheet, pool, begun)?;
    let producer = fill_producer(source, strings)?;
    let (_, types) = fill_table(Table::Types, source, sheet, pool, named)?;
    let (_, constants) = fill_table(Table::Constants, source, sheet, pool, types)?;
    let (_, globals) = fill_table(Table::Globals, source, sheet, pool, constants)?;
    let (_, functions) = fill_table(Table::Functions, source, sheet, pool, globals)?;
    let end = fill_debug(source, sheet, functions)?;
    put_head(sheet, source.container.version, producer, end.bytes);
    Ok(Need {
        words: end.words,
        bytes: end.bytes,
    })
}
