// What stands behind the names in a type's text, by kind. `behind` is the word behind the index.
ghost use Rattle.format.specs.Kinds.{a_tensor_view, a_gather_scatter_view, a_strided_view};
ghost use Rattle.sheet.specs.Store.{words_in};
ghost use Rattle.text.specs.Text.{Put};
ghost use Rattle.kinds.specs.Kinds.{shown};
ghost use Rattle.kinds.specs.Parts.{closed, ending};

use crate::{Kind, after_list};
use text::Pen;
use text::numbers::Number;

// What is there if bit 0 of the row's flags is set, which stand behind its tag: a name and the value at a word; and the
// end of the text.
fn close(sheet: &[u8], at: usize, name: &[u8], word: usize, out: &mut [u8], pen: Pen) -> Pen
    ensures { Put (closed (words_in sheet.now) at name.now word) pen out.old out.new result }
{
    let flags = sheet::word_at(sheet, at.wrapping_add(1));
    if flags % 2 != 1 {
        return pen.put_byte(out, b'>');
    }
    let value = sheet::word_at(sheet, word);
    pen.put_text(out, name)
        .put_decimal(out, value)
        .put_byte(out, b'>')
}

// Behind the element of a tensor view stand its shape, its strides and its attribute.
fn tensor_view(sheet: &[u8], at: usize, behind: usize, out: &mut [u8], pen: Pen) -> Pen
    ensures { Put (ending a_tensor_view (words_in sheet.now) at behind) pen out.old out.new result }
{
    let word = after_list(sheet, behind);
    let strides = pen
        .put_text(out, b", strides=[")
        .put_list(out, sheet, word, Number::Dynamic, b',')
        .put_byte(out, b']');
    let attribute = after_list(sheet, word);
    close(sheet, at, b", ptr_attr=", attribute, out, strides)
}

fn gather_scatter_view(sheet: &[u8], at: usize, behind: usize, out: &mut [u8], pen: Pen) -> Pen
    ensures { Put (ending a_gather_scatter_view (words_in sheet.now) at behind) pen out.old out.new result }
{
    let dimension = sheet::word_at(sheet, behind);
    let sparse = pen
        .put_text(out, b", sparse_dim=")
        .put_decimal(out, dimension);
    let padding = behind.wrapping_add(1);
    close(sheet, at, b", padding=", padding, out, sparse)
}

fn strided_view(sheet: &[u8], at: usize, behind: usize, out: &mut [u8], pen: Pen) -> Pen
    ensures { Put (ending a_strided_view (words_in sheet.now) at behind) pen out.old out.new result }
{
    let dims = pen
        .put_text(out, b", dim_map=[")
        .put_list(out, sheet, behind, Number::I32, b',')
        .put_byte(out, b']');
    let padding = after_list(sheet, behind);
    close(sheet, at, b", padding=", padding, out, dims)
}

// What stands behind the names, by kind; of a function type, up to its results.
#[tactic(auto, unfolding(crate::specs::Parts::ending))]
pub fn put_ending(
    sheet: &[u8],
    kind: Kind,
    at: usize,
    behind: usize,
    out: &mut [u8],
    pen: Pen,
) -> Pen
    ensures { Put (ending (shown kind) (words_in sheet.now) at behind) pen out.old out.new result }
{
    match kind {
        Kind::Pointer => close(sheet, at, b", ptr_attr=", behind, out, pen),
        Kind::Tile => pen.put_byte(out, b'>'),
        Kind::TensorView => tensor_view(sheet, at, behind, out, pen),
        Kind::PartitionView => {
            let padding = after_list(sheet, behind);
            close(sheet, at, b", padding=", padding, out, pen)
        }
        Kind::Function => pen.put_text(out, b") -> ("),
        Kind::GatherScatterView => gather_scatter_view(sheet, at, behind, out, pen),
        Kind::StridedView => strided_view(sheet, at, behind, out, pen),
        Kind::Plain => pen,
    }
}
