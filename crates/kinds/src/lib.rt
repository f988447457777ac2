// The text of a type, by kind, but for the names of other rows (decoder.rs, `decode_type_entry`): what stands before
// them, where their indices stand in the sheet, and what stands behind them. A row is handed as the word of its tag.
#![tactic(auto)]

mod endings;
mod openings;

ghost use Rattle.std.specs.Prelude.{◌≡◌, ◌%◌, ◌^◌};
ghost use Rattle.format.specs.Kinds.{kind_of};
ghost use Rattle.sheet.specs.Store.{words_in};
ghost use Rattle.text.specs.Text.{Put};
ghost use Rattle.text.specs.Counted.{after_list};
ghost use Rattle.kinds.specs.Indices.{counted_from, indices};
ghost use Rattle.kinds.specs.Kinds.{shown};
ghost use Rattle.kinds.specs.Parts.{part_text};

use text::Pen;

// The kinds of types; what has no fields is plain.
#[derive(Clone, Copy)]
enum Kind {
    Pointer,
    Tile,
    TensorView,
    PartitionView,
    Function,
    GatherScatterView,
    StridedView,
    Plain,
}

impl Kind {
    // The kind that a tag stands for: the one decision over the tag number.
    #[tactic(auto, unfolding(format::specs::Kinds::kind_of))]
    fn of(tag: u64) -> Self
        ensures { shown result ≡ kind_of tag }
    {
        match tag {
            12 => Kind::Pointer,
            13 => Kind::Tile,
            14 => Kind::TensorView,
            15 => Kind::PartitionView,
            16 => Kind::Function,
            20 => Kind::GatherScatterView,
            21 => Kind::StridedView,
            _ => Kind::Plain,
        }
    }
}

// A part of a row's text without names: before them, or behind them, whose word behind the index is then told.
#[derive(Clone, Copy)]
pub enum Part {
    Opening,
    Ending(usize),
}

// Indices of rows: the word of the first, and how many they are.
#[derive(Clone, Copy)]
pub struct Indices {
    pub word: usize,
    pub count: u64,
}

// The word behind a list, whose count stands at a word.
#[tactic(auto, unfolding(text::specs::Counted::word, text::specs::Counted::after_list))]
fn after_list(sheet: &[u8], word: usize) -> usize
    ensures { result ≡ after_list (words_in sheet.now) word % 2 ^ 64 }
{
    let first = word.wrapping_add(1);
    first.wrapping_add(sheet::word_at(sheet, word) as usize)
}

// The indices of a list, whose count stands at a word.
#[tactic(auto, unfolding(text::specs::Counted::word, crate::specs::Indices::counted_from))]
pub fn counted_at(sheet: &[u8], word: usize) -> Indices
    ensures { result ≡ counted_from (words_in sheet.now) word }
{
    Indices {
        word: word.wrapping_add(1),
        count: sheet::word_at(sheet, word),
    }
}

// The indices that a row's text names first, by kind: an element, a view behind its shape and, of a strided view, its
// strides; the inputs of a function type.
#[tactic(auto, unfolding(crate::specs::Indices::indices))]
pub fn indices_at(sheet: &[u8], tag: u64, at: usize) -> Indices
    ensures { result ≡ indices (kind_of tag) (words_in sheet.now) at }
{
    let first = at.wrapping_add(1);
    let second = at.wrapping_add(2);
    match Kind::of(tag) {
        Kind::Pointer | Kind::TensorView => Indices {
            word: second,
            count: 1,
        },
        Kind::Tile => Indices {
            word: first,
            count: 1,
        },
        Kind::PartitionView | Kind::GatherScatterView => Indices {
            word: after_list(sheet, second),
            count: 1,
        },
        Kind::Function => counted_at(sheet, first),
        Kind::StridedView => Indices {
            word: after_list(sheet, after_list(sheet, second)),
            count: 1,
        },
        Kind::Plain => Indices { word: at, count: 0 },
    }
}

// Puts a part. Whoever describes types inside types has one function to call for both, so that what putting them takes
// of the stack is not taken again at each level.
#[tactic(auto, unfolding(crate::specs::Parts::part_text))]
pub fn put_part(sheet: &[u8], tag: u64, at: usize, part: Part, out: &mut [u8], pen: Pen) -> Pen
    ensures { Put (part_text part tag (words_in sheet.now) at) pen out.old out.new result }
{
    let kind = Kind::of(tag);
    match part {
        Part::Opening => openings::put_opening(sheet, kind, tag, at, out, pen),
        Part::Ending(behind) => endings::put_ending(sheet, kind, at, behind, out, pen),
    }
}
