// Type entries: a row of the sheet becomes a varint tag and the fields behind it, by kind and version class. The sheet
// was judged, so a tag that no arm names is a scalar's or Token's, and has no fields.
#![tactic(auto, using(crate::proofs::LawsTypes::types), unfolding(crate::specs::Types::FieldsCopied, format::specs::Kinds::kind_of))]

ghost use Rattle.std.specs.Prelude.{◌≡◌, ◌%◌};
ghost use Rattle.encoding.specs.Out.{Tells};
ghost use Rattle.format.specs.Kinds.{kind_of};
ghost use Rattle.images.specs.Types.{PointerCopied, TileCopied, TensorViewCopied, NewPartitionViewCopied, OldPartitionViewCopied, PartitionViewCopied, GatherScatterViewCopied, StridedViewCopied, FunctionCopied, FieldsCopied, TypeCopied};

use crate::fields::{Number, Pen, copy_list, copy_number, copy_where, put_number, skip_words};
use enums::VersionClass;

// Bit 0 of the flags, which says whether an optional byte is there.
fn bit0(flags: u64) -> bool
    ensures { Tells (flags % 2 ≡ 1) result }
{
    flags % 2 == 1
}

// One writer for each kind: the fields behind the tag.
fn pointer(sheet: &[u8], class: VersionClass, out: &mut [u8], pen: Pen) -> Pen
    ensures { PointerCopied «class» sheet.now pen out.old out.new result }
{
    let bits = sheet::word_at(sheet, pen.word);
    let flags = copy_where(sheet, class.from_13_4(), Number::Varint, out, pen);
    let element = copy_number(sheet, Number::Varint, out, flags);
    copy_where(sheet, bit0(bits), Number::Byte, out, element)
}

fn tile(sheet: &[u8], out: &mut [u8], pen: Pen) -> Pen
    ensures { TileCopied sheet.now pen out.old out.new result }
{
    let element = copy_number(sheet, Number::Varint, out, pen);
    copy_list(sheet, Number::I64, out, element)
}

fn tensor_view(sheet: &[u8], class: VersionClass, out: &mut [u8], pen: Pen) -> Pen
    ensures { TensorViewCopied «class» sheet.now pen out.old out.new result }
{
    let bits = sheet::word_at(sheet, pen.word);
    let flags = copy_where(sheet, class.from_13_4(), Number::Varint, out, pen);
    let element = copy_number(sheet, Number::Varint, out, flags);
    let shape = copy_list(sheet, Number::I64, out, element);
    let strides = copy_list(sheet, Number::I64, out, shape);
    copy_where(sheet, bit0(bits), Number::Byte, out, strides)
}

fn new_partition_view(sheet: &[u8], out: &mut [u8], pen: Pen) -> Pen
    ensures { NewPartitionViewCopied sheet.now pen out.old out.new result }
{
    let bits = sheet::word_at(sheet, pen.word);
    let flags = copy_number(sheet, Number::Varint, out, pen);
    let shape = copy_list(sheet, Number::I32, out, flags);
    let view = copy_number(sheet, Number::Varint, out, shape);
    let dims = copy_list(sheet, Number::I32, out, view);
    copy_where(sheet, bit0(bits), Number::Byte, out, dims)
}

// Below 13.3 the presence, which stands where flags stand, is a byte behind the map.
fn old_partition_view(sheet: &[u8], out: &mut [u8], pen: Pen) -> Pen
    ensures { OldPartitionViewCopied sheet.now pen out.old out.new result }
{
    let presence = sheet::word_at(sheet, pen.word);
    let begun = skip_words(pen, 1);
    let shape = copy_list(sheet, Number::I32, out, begun);
    let view = copy_number(sheet, Number::Varint, out, shape);
    let dims = copy_list(sheet, Number::I32, out, view);
    let next = put_number(out, dims.at, Number::Byte, presence);
    copy_where(
        sheet,
        presence == 1,
        Number::Varint,
        out,
        Pen { at: next, ..dims },
    )
}

fn partition_view(sheet: &[u8], class: VersionClass, out: &mut [u8], pen: Pen) -> Pen
    ensures { PartitionViewCopied «class» sheet.now pen out.old out.new result }
{
    if class.from_13_3() {
        new_partition_view(sheet, out, pen)
    } else {
        old_partition_view(sheet, out, pen)
    }
}

fn gather_scatter_view(sheet: &[u8], out: &mut [u8], pen: Pen) -> Pen
    ensures { GatherScatterViewCopied sheet.now pen out.old out.new result }
{
    let bits = sheet::word_at(sheet, pen.word);
    let flags = copy_number(sheet, Number::Varint, out, pen);
    let shape = copy_list(sheet, Number::I32, out, flags);
    let view = copy_number(sheet, Number::Varint, out, shape);
    let sparse = copy_number(sheet, Number::Varint, out, view);
    copy_where(sheet, bit0(bits), Number::Byte, out, sparse)
}

fn strided_view(sheet: &[u8], out: &mut [u8], pen: Pen) -> Pen
    ensures { StridedViewCopied sheet.now pen out.old out.new result }
{
    let bits = sheet::word_at(sheet, pen.word);
    let flags = copy_number(sheet, Number::Varint, out, pen);
    let shape = copy_list(sheet, Number::I32, out, flags);
    let strides = copy_list(sheet, Number::I32, out, shape);
    let view = copy_number(sheet, Number::Varint, out, strides);
    let dims = copy_list(sheet, Number::I32, out, view);
    copy_where(sheet, bit0(bits), Number::Byte, out, dims)
}

fn function(sheet: &[u8], out: &mut [u8], pen: Pen) -> Pen
    ensures { FunctionCopied sheet.now pen out.old out.new result }
{
    let inputs = copy_list(sheet, Number::Varint, out, pen);
    copy_list(sheet, Number::Varint, out, inputs)
}

// What stands behind the tag, by kind.
fn put_fields(sheet: &[u8], class: VersionClass, tag: u64, out: &mut [u8], pen: Pen) -> Pen
    ensures { FieldsCopied «class» (kind_of tag) sheet.now pen out.old out.new result }
{
    match tag {
        12 => pointer(sheet, class, out, pen),
        13 => tile(sheet, out, pen),
        14 => tensor_view(sheet, class, out, pen),
        15 => partition_view(sheet, class, out, pen),
        16 => function(sheet, out, pen),
        20 => gather_scatter_view(sheet, out, pen),
        21 => strided_view(sheet, out, pen),
        _ => pen,
    }
}

// A type entry. The number of words that follow is the sheet's alone.
pub fn put_type(sheet: &[u8], class: VersionClass, out: &mut [u8], pen: Pen) -> Pen
    ensures { TypeCopied «class» sheet.now pen out.old out.new result }
{
    let count = skip_words(pen, 1);
    let tag = sheet::word_at(sheet, count.word);
    let first = copy_number(sheet, Number::Varint, out, count);
    put_fields(sheet, class, tag, out, first)
}
