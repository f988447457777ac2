// What crosses the boundary: the answer struct, and what each value of the crates below stands for in it.
ghost use Rattle.std.specs.Prelude.{◌≡◌, ℕ};
ghost use Rattle.encoding.specs.Signed.{pattern};
ghost use Rattle.tikomuci.specs.declared.answers.Answer.{Answer};
ghost use Rattle.tikomuci.specs.Boundary.{accepted, refused_as, refusal_of, stopped_of, shown_by, pair_by};

use container::View;
use container::sections::Stopped;
use decoder::Need;
use encoding::EncodingWriter;
use enums::{Refusal, Stage};
use reading::{Items, Reader, Refused};

// What every call that can be refused answers.
#[repr(C)]
#[derive(Clone, Copy)]
pub struct Answer {
    // 0, or document 01's number
    pub refusal: u64,
    // of a refusal; else 0
    pub stage: u64,
    // of an acceptance, see each call; else 0
    pub first: u64,
    pub second: u64,
}

impl Answer {
    // An acceptance, with its two numbers.
    pub fn accept(first: u64, second: u64) -> Self
        ensures { result ≡ accepted first second }
    {
        Self {
            refusal: 0,
            stage: 0,
            first,
            second,
        }
    }

    // The refusal of a call that reads no container.
    pub fn refuse(refusal: Refusal) -> Self
        ensures { result ≡ refusal_of refusal }
    {
        Self {
            refusal: u64::from(refusal.number()),
            stage: u64::from(Stage::Call.number()),
            first: 0,
            second: 0,
        }
    }
}

// A value that one number of an answer stands for.
pub trait Number: Copy {
    ghost number: { Self → ℕ };

    fn number(self) -> u64
        ensures { result ≡ number self };
}

impl Number for u8 {
    ghost number = { λ v. v };

    fn number(self) -> u64 {
        u64::from(self)
    }
}

impl Number for u16 {
    ghost number = { λ v. v };

    fn number(self) -> u64 {
        u64::from(self)
    }
}

impl Number for u32 {
    ghost number = { λ v. v };

    fn number(self) -> u64 {
        u64::from(self)
    }
}

impl Number for u64 {
    ghost number = { λ v. v };

    fn number(self) -> u64 {
        self
    }
}

// The place where a run of bytes starts.
impl Number for usize {
    ghost number = { λ v. v };

    fn number(self) -> u64 {
        self as u64
    }
}

// A signed number stands as its bit pattern.
impl Number for i32 {
    ghost number = { pattern 32 };

    fn number(self) -> u64 {
        u64::from(encoding::bits_of_i32(self))
    }
}

impl Number for i64 {
    ghost number = { pattern 64 };

    fn number(self) -> u64 {
        encoding::bits_of_i64(self)
    }
}

// Of a counted array the count is answered.
impl Number for Items {
    ghost number = { λ v. v.count };

    fn number(self) -> u64 {
        self.count as u64
    }
}

// A value that an answer stands for: what a call hands out, or why it is refused.
pub trait Shown: Copy {
    ghost shown: { Self → Answer };

    fn show(self) -> Answer
        ensures { result ≡ shown self };
}

// What was read, and the next place.
impl<T: Number> Shown for (T, Reader) {
    ghost shown = { pair_by T.number };

    fn show(self) -> Answer {
        Answer::accept(self.0.number(), self.1.pos as u64)
    }
}

// The place behind what was written.
impl Shown for EncodingWriter {
    ghost shown = { λ w. accepted w.at 0 };

    fn show(self) -> Answer {
        Answer::accept(self.at as u64, 0)
    }
}

// One number: a place, a length, or a slot.
impl Shown for usize {
    ghost shown = { λ n. accepted n 0 };

    fn show(self) -> Answer {
        Answer::accept(self as u64, 0)
    }
}

// Offset and length.
impl Shown for View {
    ghost shown = { λ v. accepted v.start v.len };

    fn show(self) -> Answer {
        Answer::accept(self.start as u64, self.len as u64)
    }
}

// Words of the sheet, and bytes of the pool.
impl Shown for Need {
    ghost shown = { λ n. accepted n.words n.bytes };

    fn show(self) -> Answer {
        Answer::accept(self.words as u64, self.bytes as u64)
    }
}

impl Shown for Refusal {
    ghost shown = { refusal_of };

    fn show(self) -> Answer {
        Answer::refuse(self)
    }
}

// The place that a read names is not answered.
impl Shown for Refused {
    ghost shown = { λ x. refusal_of x.refusal };

    fn show(self) -> Answer {
        Answer::refuse(self.refusal)
    }
}

// A refusal of a file says its stage too.
impl Shown for Stopped {
    ghost shown = { stopped_of };

    fn show(self) -> Answer {
        Answer {
            refusal: u64::from(self.refusal.number()),
            stage: u64::from(self.stage.number()),
            first: 0,
            second: 0,
        }
    }
}

impl<T: Shown, E: Shown> Shown for Result<T, E> {
    ghost shown = { shown_by T.shown E.shown };

    fn show(self) -> Answer {
        match self {
            Ok(value) => value.show(),
            Err(refusal) => refusal.show(),
        }
    }
}
