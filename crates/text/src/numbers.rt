// Numbers as text: in decimal, signed ones by their bit pattern, and those of a list with a separator between them.
ghost use Rattle.std.specs.Prelude.{◌≡◌, ◌*◌, ◌<◌, ◌≤◌, length, drop};
ghost use Rattle.format.specs.Names.{decimal, signed};
ghost use Rattle.sheet.specs.Store.{words_in};
ghost use Rattle.text.specs.Text.{Put};
ghost use Rattle.text.specs.Counted.{words_from, counted};
ghost use Rattle.text.specs.Numbers.{number_text, separated, between};

use crate::Pen;

// How a number of a list stands in its word, and whether it may be dynamic.
#[derive(Clone, Copy)]
pub enum Number {
    I32,
    I64,
    Dynamic,
}

// Half of the bit patterns of an i32 and of an i64. The first negative i64 is `DYNAMIC`.
const HALF_32: u64 = 0x8000_0000;

const HALF_64: u64 = 0x8000_0000_0000_0000;

// The digits of a number, at the end of an array that has room for all of a u64; answers where they begin.
fn spell(v: u64, digits: &mut [u8]) -> usize
    requires { length digits.old ≡ 20 }
    ensures { (result ≤ 20) × (drop result digits.new ≡ decimal v) }
{
    let mut at = 19;
    let mut rest = v;
    while 10 <= rest {
        digits[at] = 48 + (rest % 10) as u8;
        rest /= 10;
        at -= 1;
    }
    digits[at] = 48 + rest as u8;
    at
}

impl Pen {
    // Puts a number.
    pub fn put_decimal(self, out: &mut [u8], v: u64) -> Self
        ensures { Put (decimal v) self out.old out.new result }
    {
        let mut digits = [0u8; 20];
        let start = spell(v, &mut digits);
        self.put_text(out, &digits[start..])
    }

    // Puts a signed number by its bit pattern, of which there are twice `half`: those from `half` on are negative.
    fn put_signed(self, out: &mut [u8], half: u64, v: u64) -> Self
        requires { v < 2 * half }
        ensures { Put (signed half v) self out.old out.new result }
    {
        if v < half {
            return self.put_decimal(out, v);
        }
        self.put_byte(out, b'-').put_decimal(out, half - (v - half))
    }

    // Puts a number of a list. One of 32 bits is the low half of its word.
    #[tactic(auto, unfolding(crate::specs::Numbers::number_text, format::specs::Names::dimension, exact::specs::Choice::choose))]
    fn put_number(self, out: &mut [u8], number: Number, v: u64) -> Self
        ensures { Put (number_text number v) self out.old out.new result }
    {
        match number {
            Number::I32 => self.put_signed(out, HALF_32, v % 0x1_0000_0000),
            Number::I64 => self.put_signed(out, HALF_64, v),
            Number::Dynamic => {
                if v == HALF_64 {
                    return self.put_byte(out, b'?');
                }
                self.put_signed(out, HALF_64, v)
            }
        }
    }

    // Puts the `count` numbers from a word of the sheet on, each behind a separator, as long as there is room.
    fn put_more(
        self,
        out: &mut [u8],
        sheet: &[u8],
        from: usize,
        count: u64,
        number: Number,
        separator: u8,
    ) -> Self
        ensures { Put (separated number separator (words_from (words_in sheet.now) «from» count)) self out.old out.new result }
    {
        let mut pen = self;
        let mut word = from;
        for _ in 0..count {
            if let Pen::Full = pen {
                return Pen::Full;
            }
            let value = sheet::word_at(sheet, word);
            pen = pen.put_byte(out, separator).put_number(out, number, value);
            word = word.wrapping_add(1);
        }
        pen
    }

    // Puts the numbers of a list of the sheet, whose count stands at a word, with a separator between them.
    pub fn put_list(
        self,
        out: &mut [u8],
        sheet: &[u8],
        word: usize,
        number: Number,
        separator: u8,
    ) -> Self
        ensures { Put (between number separator (counted (words_in sheet.now) word)) self out.old out.new result }
    {
        let count = sheet::word_at(sheet, word);
        if count == 0 {
            return self;
        }
        let value = sheet::word_at(sheet, word.wrapping_add(1));
        let first = self.put_number(out, number, value);
        let second = word.wrapping_add(2);
        first.put_more(out, sheet, second, count - 1, number, separator)
    }
}
