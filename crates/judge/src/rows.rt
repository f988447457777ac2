// The tables behind the contents: one judge for each kind of row, one loop over the rows of a table, and the seven
// tables in their order, each of which has to start where the one before it has ended.
ghost use Rattle.std.specs.Prelude.{◌≡◌, ◌<◌, Option};
ghost use Rattle.format.specs.Judge.{global_at, function_at, attribute_at};
ghost use Rattle.sheet.specs.Store.{words_in};
ghost use Rattle.judge.specs.Steps.{kept, spent};
ghost use Rattle.judge.specs.declared.steps.Place.{Place};
ghost use Rattle.judge.specs.Rows.{Does, rows_after, table_after, tables_after};

use crate::steps::{Place, only_if};
use crate::types::judge_type;
use enums::{DebugTag, FunctionFlag, VersionClass};

// A global: a visibility byte and a constant flag 0 or 1, both 0 below 13.3.
#[tactic(auto, using(crate::proofs::LawsRows::judge_global, crate::proofs::LawsRows::passed_words), unfolding(crate::specs::Steps::only))]
fn judge_global(sheet: &[u8], class: VersionClass, at: Place) -> Option<Place>
    ensures { result ≡ kept (global_at «class») (words_in sheet.now) at }
{
    let since = class.from_13_3();
    let end = at.pass_words(sheet, 6)?;
    let visibility = sheet::word_at(sheet, at.word + 4);
    let flag = sheet::word_at(sheet, at.word + 5);
    end.pass_if(visibility < 256)?
        .pass_if(only_if(since, visibility))?
        .pass_if(flag < 2)?
        .pass_if(only_if(since, flag))
}

// A function: a flags byte without the hints flag, and the length of its body.
#[tactic(auto, using(crate::proofs::LawsRows::judge_function, crate::proofs::LawsRows::passed_words), unfolding(crate::specs::Steps::only))]
fn judge_function(sheet: &[u8], at: Place) -> Option<Place>
    ensures { result ≡ spent function_at (λ f. f.body_length) (words_in sheet.now) at }
{
    let body = at.pass_words(sheet, 4)?;
    let flags = sheet::word_at(sheet, at.word + 2);
    let hints = flags / FunctionFlag::HAS_OPTIMIZATION_HINTS as u64 % 2;
    body.pass_if(flags < 256)?
        .pass_if(hints == 0)?
        .pass_length(sheet)
}

// A debug attribute: a known tag, and six fields, of which those beyond the tag's count are 0.
#[tactic(auto, using(crate::proofs::LawsRows::judge_attribute), unfolding(crate::specs::Steps::only))]
fn judge_attribute(sheet: &[u8], at: Place) -> Option<Place>
    ensures { result ≡ kept attribute_at (words_in sheet.now) at }
{
    let tag = at.value(sheet);
    if 6 < tag {
        return None;
    }
    let absent = at.pass_words(sheet, 1 + DebugTag::field_count(tag))?;
    let end = at.pass_words(sheet, 7)?;
    end.pass_if(absent.all_up_to(sheet, 0, end))
}

// As many rows as a count says, which is any u64: each has a word at least, so that the first that isn't there ends it.
#[tactic(auto, unfolding(crate::specs::Rows::rows_after))]
fn judge_rows<F: Fn(Place) -> Option<Place>>(judge_row: F, count: u64, from: Place) -> Option<Place>
    requires { F.IsAlwaysCallable judge_row }
    ensures { (step : Place → Option Place) → Does (F.post judge_row) step → result ≡ rows_after step count from }
{
    let mut at = from;
    for _ in 0..count {
        at = judge_row(at)?;
    }
    Some(at)
}

// A table: word `entry` of the contents is its start, which has to be here, and the next word is its row count.
#[tactic(auto, unfolding(crate::specs::Rows::table_after, crate::specs::Steps::only))]
fn judge_table<F: Fn(Place) -> Option<Place>>(
    sheet: &[u8],
    entry: usize,
    from: Place,
    judge_row: F,
) -> Option<Place>
    requires callable { F.IsAlwaysCallable judge_row }
    requires entry_in_bounds { «entry» < 18 }
    ensures { (step : Place → Option Place) → Does (F.post judge_row) step → result ≡ table_after step «entry» (words_in sheet.now) from }
{
    let start = sheet::word_at(sheet, entry);
    let count = sheet::word_at(sheet, entry + 1);
    judge_rows(judge_row, count, from.pass_if(from.word as u64 == start)?)
}

// The seven tables. A string's row and a constant's are a length.
#[tactic(auto, unfolding(crate::specs::Rows::tables_after))]
pub fn judge_tables(sheet: &[u8], class: VersionClass, from: Place) -> Option<Place>
    ensures { result ≡ tables_after «class» (words_in sheet.now) from }
{
    let strings = judge_table(sheet, 5, from, |at| at.pass_length(sheet))?;
    let types = judge_table(sheet, 7, strings, |at| judge_type(sheet, class, at))?;
    let constants = judge_table(sheet, 9, types, |at| at.pass_length(sheet))?;
    let globals = judge_table(sheet, 11, constants, |at| judge_global(sheet, class, at))?;
    let functions = judge_table(sheet, 13, globals, |at| judge_function(sheet, at))?;
    let attributes = judge_table(sheet, 15, functions, |at| judge_attribute(sheet, at))?;
    judge_table(sheet, 17, attributes, |at| at.pass_list(sheet))
}
