// The lists of indices of a function's type. Most indices have one byte each, or two: where the next sixteen bytes hold
// such numbers alone, they are copied together.
#![tactic(auto, unfolding(crate::specs::Fields::listed, crate::specs::Fields::numbers, crate::specs::Fields::several, exact::specs::Repeat::counted, format::specs::Sheet::counted_words, crate::specs::Fields::Put, crate::specs::Fields::as_word, exact::specs::Sequence::mapped, exact::specs::Sequence::bind, exact::specs::Got::follow, exact::specs::Basic::pure, sheet::specs::Store::put_words))]

ghost use Rattle.std.specs.Prelude.{◌≡◌, ◌+◌, ◌*◌, ◌^◌, ◌≤◌, ◌<◌, length, Ok};
ghost use Rattle.exact.specs.Got.{got};
ghost use Rattle.reading.specs.Numbers.{varint_at};
ghost use Rattle.payloads.specs.declared.fields.Number.TheVariants.{Varint};
ghost use Rattle.payloads.specs.Fields.{Room, Near, Step, listed, numbers};
ghost use Rattle.payloads.specs.Indices.{tops, Spans, Even, Some};

use crate::fields::{Number, Spot, copy_number, copy_numbers};
use reading::Refused;

// How many bytes of a list are looked at together.
const BLOCK: usize = 16;

// How many pairs of bytes a block has.
const PAIRS: usize = 8;

// How many of `count` bytes, each `step` behind the last, have their top bit set: a number goes on behind them. No byte
// ends the loop, and the sum is a byte too, so that the bytes of a block are summed at once.
fn going_on(entry: &[u8], from: usize, step: usize, count: usize) -> usize
    requires { (0 < step) × (count < 256) × (from + count * step ≤ length «entry».now) }
    ensures { result ≡ tops step count «entry».now from }
{
    let mut n: u8 = 0;
    for i in 0..count {
        n += entry[from + i * step] / 128;
    }
    usize::from(n)
}

// A varint that is known to have `width` bytes, one or two.
fn short_varint(entry: &[u8], i: usize, width: usize) -> u64
    requires { Spans width «entry».now i }
    ensures { varint_at «entry».now i ≡ got result (i + width) }
{
    let first = u64::from(entry[i]);
    if width == 1 {
        return first;
    }
    first % 128 + 128 * u64::from(entry[i + 1])
}

// Puts `count` numbers of `width` bytes each. A sheet that has no word for the first is left at once: a pass that
// measures has nothing to put.
fn put_block(entry: &[u8], width: usize, count: usize, sheet: &mut [u8], at: Spot) -> Spot
    requires width_in_bounds { (at.pos + count * width ≤ length «entry».now) × (at.word + count ≤ 2 ^ 63) }
    requires even { Even width count «entry».now at.pos }
    ensures copied { Step 0 (numbers count count Varint) «entry».now at sheet.old sheet.new (Ok result) }
    ensures value { result ≡ record { pos = at.pos + count * width; word = at.word + count; value = count } }
{
    if at.word < sheet.len() / 8 {
        for i in 0..count {
            let value = short_varint(entry, at.pos + i * width, width);
            sheet::put_word(sheet, at.word + i, value);
        }
    }
    Spot {
        pos: at.pos + count * width,
        word: at.word + count,
        value: count as u64,
    }
}

// Copies the next numbers, one at least and sixteen at most: those of a block of one width together, and else one after
// the other. The answer's value says how many.
fn copy_block(entry: &[u8], sheet: &mut [u8], at: Spot) -> Result<Spot, Refused>
    requires { Near «entry».now at }
    ensures { Some «entry».now at sheet.old sheet.new result }
{
    if BLOCK <= entry.len() - at.pos {
        let more = going_on(entry, at.pos, 1, BLOCK);
        if more == 0 {
            return Ok(put_block(entry, 1, BLOCK, sheet, at));
        }
        if more == PAIRS && going_on(entry, at.pos, 2, PAIRS) == PAIRS {
            return Ok(put_block(entry, 2, PAIRS, sheet, at));
        }
    }
    copy_numbers(entry, Number::Varint, sheet, BLOCK as u64, at)
}

// Copies a counted list of varints, a block at a time while so many are left.
pub fn copy_indices(entry: &[u8], sheet: &mut [u8], at: Spot) -> Result<Spot, Refused>
    requires { Room «entry».now at }
    ensures { Step 1 (listed Varint) «entry».now at sheet.old sheet.new result }
{
    let count = copy_number(entry, sheet, at)?;
    let mut next = count;
    let mut left = count.value;
    while BLOCK as u64 <= left {
        next = copy_block(entry, sheet, next)?;
        left -= next.value;
    }
    let last = copy_numbers(entry, Number::Varint, sheet, left, next)?;
    Ok(Spot {
        value: count.value,
        ..last
    })
}
