// The fields of type entries, copied into the words of a row one after the other. Each step begins at the spot where the
// one before it has ended.
#![tactic(auto, unfolding(crate::specs::Fields::field_if, format::specs::DecodeTables::field_at, exact::specs::Choice::choose, crate::specs::Fields::Put, crate::specs::Fields::as_word, exact::specs::Sequence::mapped, exact::specs::Sequence::bind, exact::specs::Got::follow, exact::specs::Basic::pure, sheet::specs::Store::put_words, format::specs::DecodeTypes::flags_at, crate::specs::Fields::listed, crate::specs::Fields::numbers, crate::specs::Fields::several, exact::specs::Repeat::counted, format::specs::Sheet::counted_words, format::specs::DecodeTypes::byte_if, exact::specs::Basic::byte, exact::specs::Basic::byte_of))]

ghost use Rattle.std.specs.Prelude.{◌≡◌, ◌+◌, ◌*◌, ◌^◌, ◌≤◌, ◌<◌, length};
ghost use Rattle.exact.specs.Fixed.{little, fixed, nums};
ghost use Rattle.reading.specs.Numbers.{varint_at};
ghost use Rattle.format.specs.DecodeTypes.{flags_at, byte_if};
ghost use Rattle.sheet.specs.Store.{put_word, put_words};
ghost use Rattle.payloads.specs.declared.fields.Number.TheVariants as kinds;
ghost use Rattle.payloads.specs.Fields.{Room, Near, Step, as_word, listed, several, numbers, field_if};

use enums::{Refusal, VersionClass};
use reading::{Reader, Refused};

// How far an entry is read and its row is filled: the number that was copied last (of a list its count), the next byte,
// and the next word. In an answer a refusal shares the memory of the first field, which is why that is the one that is
// needed least.
#[derive(Clone, Copy)]
pub struct Spot {
    pub value: u64,
    pub pos: usize,
    pub word: usize,
}

// How a number stands in an entry.
#[derive(Clone, Copy)]
pub enum Number {
    Varint,
    Byte,
    I32,
    I64,
}

// Puts a number that takes no bytes of the entry.
pub fn put_value(sheet: &mut [u8], value: u64, at: Spot) -> Spot
    requires { at.word + 1 < 2 ^ 64 }
    ensures value { result ≡ record { pos = at.pos; word = at.word + 1; value = value } }
    ensures sheet_after { sheet.new ≡ put_word sheet.old at.word value }
{
    sheet::put_word(sheet, at.word, value);
    Spot {
        pos: at.pos,
        word: at.word + 1,
        value,
    }
}

// Copies a varint. It is part of the function that calls it, and so is what reads the number: no reader of a payload
// calls anything for a number, however many steps by `?` stand before it.
#[inline(always)]
pub fn copy_number(entry: &[u8], sheet: &mut [u8], at: Spot) -> Result<Spot, Refused>
    requires { Room «entry».now at }
    ensures { Step 1 (as_word varint_at) «entry».now at sheet.old sheet.new result }
{
    let (value, next) = (Reader { pos: at.pos }).read_varint(entry)?;
    let behind = Spot {
        pos: next.pos,
        ..at
    };
    Ok(put_value(sheet, value, behind))
}

// Copies a varint if it is there; else a word 0 stands for it.
#[inline(always)]
pub fn copy_number_if(
    entry: &[u8],
    there: bool,
    sheet: &mut [u8],
    at: Spot,
) -> Result<Spot, Refused>
    requires { Room «entry».now at }
    ensures { Step 1 (as_word (field_if there varint_at)) «entry».now at sheet.old sheet.new result }
{
    if there {
        return copy_number(entry, sheet, at);
    }
    Ok(put_value(sheet, 0, at))
}

// Copies flags that are there from 13.4 on.
pub fn copy_flags(
    entry: &[u8],
    class: VersionClass,
    sheet: &mut [u8],
    at: Spot,
) -> Result<Spot, Refused>
    requires { Room «entry».now at }
    ensures { Step 1 (as_word (flags_at «class»)) «entry».now at sheet.old sheet.new result }
{
    copy_number_if(entry, class.from_13_4(), sheet, at)
}

// Copies a byte that is there if bit 0 of the flags is set; else a word 0 stands for it.
pub fn copy_byte_if(entry: &[u8], flags: u64, sheet: &mut [u8], at: Spot) -> Result<Spot, Refused>
    requires { Room «entry».now at }
    ensures { Step 1 (as_word (byte_if flags)) «entry».now at sheet.old sheet.new result }
{
    if flags % 2 != 1 {
        return Ok(put_value(sheet, 0, at));
    }
    let (value, next) = (Reader { pos: at.pos }).read_byte(entry)?;
    let behind = Spot {
        pos: next.pos,
        ..at
    };
    Ok(put_value(sheet, u64::from(value), behind))
}

// Copies `count` varints one by one.
fn copy_each(entry: &[u8], sheet: &mut [u8], count: u64, at: Spot) -> Result<Spot, Refused>
    requires { Near «entry».now at }
    ensures { Step 0 (numbers count count kinds.Varint) «entry».now at sheet.old sheet.new result }
{
    let mut next = at;
    for _ in 0..count {
        let (value, reader) = (Reader { pos: next.pos }).read_varint(entry)?;
        let behind = Spot {
            pos: reader.pos,
            ..next
        };
        next = put_value(sheet, value, behind);
    }
    Ok(Spot {
        value: count,
        ..next
    })
}

// The number that a run of at most eight bytes is, the lowest first. Of four bytes it compiles to one load, where the
// compiler knows that there are four.
fn number_of(run: &[u8]) -> u64
    requires { length run.now ≤ 8 }
    ensures { result ≡ little run.now }
{
    let mut value: u64 = 0;
    for i in (0..run.len()).rev() {
        value = 256 * value + u64::from(run[i]);
    }
    value
}

// Puts `count` numbers of `width` bytes that stand one behind the other. A sheet that has no word for the first is left
// at once: a pass that measures has nothing to put.
pub fn put_numbers(run: &[u8], width: usize, count: usize, sheet: &mut [u8], at: usize)
    requires { (width ≤ 8) × (count * width ≤ length run.now) × (at + count < 2 ^ 64) }
    ensures { sheet.new ≡ put_words sheet.old at (nums count width run.now) }
{
    if sheet.len() / 8 <= at {
        return;
    }
    for i in 0..count {
        let start = i * width;
        let end = start + width;
        sheet::put_word(sheet, at + i, number_of(&run[start..end]));
    }
}

// Copies `count` numbers of `width` bytes. All have to be there, which is judged before the first is put.
fn copy_fixed(
    entry: &[u8],
    width: usize,
    sheet: &mut [u8],
    count: u64,
    at: Spot,
) -> Result<Spot, Refused>
    requires width_nonzero { (0 < width) × (width ≤ 8) }
    requires pos_in_bounds { Near «entry».now at }
    ensures { Step 0 (several count count (fixed width)) «entry».now at sheet.old sheet.new result }
{
    let start = at.pos;
    let room = (entry.len() - start) / width;
    if (room as u64) < count {
        return Err(Refused {
            refusal: Refusal::Short,
            at: start + room * width,
        });
    }
    let numbers = count as usize;
    put_numbers(&entry[start..], width, numbers, sheet, at.word);
    Ok(Spot {
        pos: start + numbers * width,
        word: at.word + numbers,
        value: count,
    })
}

// Copies `count` numbers. It is part of the function that calls it, so that its answer is not copied once more on its way.
#[inline(always)]
pub fn copy_numbers(
    entry: &[u8],
    number: Number,
    sheet: &mut [u8],
    count: u64,
    at: Spot,
) -> Result<Spot, Refused>
    requires { Near «entry».now at }
    ensures { Step 0 (numbers count count number) «entry».now at sheet.old sheet.new result }
{
    match number {
        Number::Varint => copy_each(entry, sheet, count, at),
        Number::Byte => copy_fixed(entry, 1, sheet, count, at),
        Number::I32 => copy_fixed(entry, 4, sheet, count, at),
        Number::I64 => copy_fixed(entry, 8, sheet, count, at),
    }
}

// Copies a counted list: its count, and its numbers.
pub fn copy_list(entry: &[u8], number: Number, sheet: &mut [u8], at: Spot) -> Result<Spot, Refused>
    requires { Room «entry».now at }
    ensures { Step 1 (listed number) «entry».now at sheet.old sheet.new result }
{
    let count = copy_number(entry, sheet, at)?;
    copy_numbers(entry, number, sheet, count.value, count)
}
