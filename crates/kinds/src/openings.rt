// What stands before the names in a type's text, by kind: all of it, of a scalar.
ghost use Rattle.std.specs.Prelude.{◌≡◌, ◌++◌};
ghost use Rattle.enums.specs.Types.{tag_tile, tag_tensor_view, tag_strided_view};
ghost use Rattle.format.specs.Kinds.{a_tile, a_tensor_view, a_strided_view};
ghost use Rattle.format.specs.Names.{ascii, scalar_names, name_of_tag};
ghost use Rattle.sheet.specs.Store.{words_in};
ghost use Rattle.text.specs.Text.{Put};
ghost use Rattle.kinds.specs.Kinds.{shown};
ghost use Rattle.kinds.specs.Parts.{shaped, opening};

use crate::{Kind, after_list};
use text::Pen;
use text::numbers::Number;

// The name of a scalar, or of Token; nothing, of another tag.
#[tactic(auto, unfolding(format::specs::Names::name_of_tag, exact::specs::Choice::choose))]
fn scalar_name(tag: u64) -> &'static [u8]
    ensures { result.now ≡ name_of_tag scalar_names tag }
{
    match tag {
        0 => b"i1",
        1 => b"i8",
        2 => b"i16",
        3 => b"i32",
        4 => b"i64",
        5 => b"f16",
        6 => b"bf16",
        7 => b"f32",
        8 => b"tf32",
        9 => b"f64",
        10 => b"f8e4m3fn",
        11 => b"f8e5m2",
        17 => b"token",
        18 => b"f8e8m0fnu",
        19 => b"f4e2m1fn",
        22 => b"i4",
        0x82 => b"f8e5m3fnu",
        _ => b"",
    }
}

// The dims and their x. A tile of rank 0 has neither.
fn tile(sheet: &[u8], at: usize, out: &mut [u8], pen: Pen) -> Pen
    ensures { Put (opening a_tile tag_tile (words_in sheet.now) at) pen out.old out.new result }
{
    let rank = at.wrapping_add(2);
    let opened = pen.put_text(out, b"tile<");
    let dims = opened.put_list(out, sheet, rank, Number::I64, b'x');
    if sheet::word_at(sheet, rank) == 0 {
        return dims;
    }
    dims.put_byte(out, b'x')
}

// The shape and an x, which a tensor view of rank 0 has as well.
fn tensor_view(sheet: &[u8], at: usize, out: &mut [u8], pen: Pen) -> Pen
    ensures { Put (opening a_tensor_view tag_tensor_view (words_in sheet.now) at) pen out.old out.new result }
{
    let rank = at.wrapping_add(3);
    pen.put_text(out, b"tensor_view<")
        .put_list(out, sheet, rank, Number::Dynamic, b'x')
        .put_byte(out, b'x')
}

// The name of a view's kind, and the shape of its tile.
fn shape(sheet: &[u8], at: usize, kind: &[u8], out: &mut [u8], pen: Pen) -> Pen
    ensures { Put (shaped kind.now (words_in sheet.now) at) pen out.old out.new result }
{
    let rank = at.wrapping_add(2);
    pen.put_text(out, kind)
        .put_list(out, sheet, rank, Number::I32, b'x')
}

fn view(sheet: &[u8], at: usize, kind: &[u8], out: &mut [u8], pen: Pen) -> Pen
    ensures { Put (shaped kind.now (words_in sheet.now) at ++ ascii "), tv=") pen out.old out.new result }
{
    shape(sheet, at, kind, out, pen).put_text(out, b"), tv=")
}

fn strided_view(sheet: &[u8], at: usize, out: &mut [u8], pen: Pen) -> Pen
    ensures { Put (opening a_strided_view tag_strided_view (words_in sheet.now) at) pen out.old out.new result }
{
    let word = after_list(sheet, at.wrapping_add(2));
    shape(sheet, at, b"strided_view<tile=(", out, pen)
        .put_text(out, b"), traversal_strides=[")
        .put_list(out, sheet, word, Number::I32, b',')
        .put_text(out, b"], tv=")
}

// What stands before the names, by kind.
#[tactic(auto, unfolding(crate::specs::Parts::opening))]
pub fn put_opening(sheet: &[u8], kind: Kind, tag: u64, at: usize, out: &mut [u8], pen: Pen) -> Pen
    ensures { Put (opening (shown kind) tag (words_in sheet.now) at) pen out.old out.new result }
{
    match kind {
        Kind::Pointer => pen.put_text(out, b"ptr<"),
        Kind::Tile => tile(sheet, at, out, pen),
        Kind::TensorView => tensor_view(sheet, at, out, pen),
        Kind::PartitionView => view(sheet, at, b"partition_view<tile=(", out, pen),
        Kind::Function => pen.put_text(out, b"("),
        Kind::GatherScatterView => view(sheet, at, b"gather_scatter_view<tile=(", out, pen),
        Kind::StridedView => strided_view(sheet, at, out, pen),
        Kind::Plain => pen.put_text(out, scalar_name(tag)),
    }
}
