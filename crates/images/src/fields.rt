// Words of the sheet copied into the output as numbers, one after the other. Each step takes the pen that the step
// before it handed back.
#![tactic(auto, using(crate::proofs::LawsFields::fields), unfolding(crate::specs::Fields::bytes_as))]

ghost use Rattle.std.specs.Prelude.{◌≡◌};
ghost use Rattle.images.specs.Put.{Wrote};
ghost use Rattle.images.specs.Fields.{bytes_as, NumberCopied, NumberCopiedWhere, NumbersCopied, WordsSkipped, ListCopied};

use crate::put::{put_le, put_u64, put_varint};

// How far the writer is: the next word of the sheet, the next byte of the pool, the next place of the output.
#[derive(Clone, Copy)]
pub struct Pen {
    pub word: usize,
    pub run: usize,
    pub at: usize,
}

// How a number stands in the file.
#[derive(Clone, Copy)]
pub enum Number {
    Varint,
    Byte,
    I32,
    I64,
}

pub fn put_number(out: &mut [u8], at: usize, number: Number, v: u64) -> usize
    ensures { Wrote (bytes_as number v) at out.old out.new result }
{
    match number {
        Number::Varint => put_varint(out, at, v),
        Number::Byte => put_le(out, at, v, 1),
        Number::I32 => put_le(out, at, v, 4),
        Number::I64 => put_u64(out, at, v),
    }
}

// Copies the next word. This and the copies of more words are to be inlined: a caller writes down how its number stands
// in the file, and then no copy asks for it.
#[inline]
pub fn copy_number(sheet: &[u8], number: Number, out: &mut [u8], pen: Pen) -> Pen
    ensures { NumberCopied number sheet.now pen out.old out.new result }
{
    let next = put_number(out, pen.at, number, sheet::word_at(sheet, pen.word));
    Pen {
        word: pen.word.wrapping_add(1),
        at: next,
        ..pen
    }
}

// Passes over the next `count` words, which are the sheet's alone.
pub fn skip_words(pen: Pen, count: usize) -> Pen
    ensures { WordsSkipped count pen result }
{
    Pen {
        word: pen.word.wrapping_add(count),
        ..pen
    }
}

// Copies the next word where a test holds, and passes over it elsewhere.
pub fn copy_where(sheet: &[u8], test: bool, number: Number, out: &mut [u8], pen: Pen) -> Pen
    ensures { NumberCopiedWhere test number sheet.now pen out.old out.new result }
{
    if test {
        copy_number(sheet, number, out, pen)
    } else {
        skip_words(pen, 1)
    }
}

// Copies the next `count` words.
#[inline]
pub fn copy_numbers(sheet: &[u8], number: Number, count: u64, out: &mut [u8], pen: Pen) -> Pen
    ensures { NumbersCopied number count sheet.now pen out.old out.new result }
{
    let mut next = pen;
    for _ in 0..count {
        next = copy_number(sheet, number, out, next);
    }
    next
}

// Copies a count, as a varint, and as many words.
#[inline]
pub fn copy_list(sheet: &[u8], number: Number, out: &mut [u8], pen: Pen) -> Pen
    ensures { ListCopied number sheet.now pen out.old out.new result }
{
    let count = sheet::word_at(sheet, pen.word);
    let first = copy_number(sheet, Number::Varint, out, pen);
    copy_numbers(sheet, number, count, out, first)
}
