// The Type section: parse_type_section and decode_type_entry of decoder.rs. Each entry becomes a row of the sheet: the
// number of words that follow, the tag, and the fields in wire order with counts before lists.
#![tactic(auto, using(std::proofs::lemmas::Bool::Decides::nat_tests, crate::proofs::LawsPast::words_behind), unfolding(crate::specs::TypeRows::Row, crate::specs::TypeRows::place_of, crate::specs::Fields::Put, crate::specs::Fields::as_word, crate::specs::Fields::listed, crate::specs::Fields::number_at, exact::specs::Sequence::mapped, exact::specs::Sequence::bind, exact::specs::Got::follow, exact::specs::Basic::pure, reading::specs::Numbers::counted_at, format::specs::DecodeTables::indices_at, format::specs::Sheet::field_words, sheet::specs::Store::put_words, format::specs::DecodeTypes::pointer_at, format::specs::DecodeTypes::tile_at, format::specs::DecodeTypes::tensor_view_at, format::specs::DecodeTypes::partition_view_at, format::specs::Items::truth, format::specs::DecodeTypes::old_partition_view_at, format::specs::DecodeTypes::gather_scatter_view_at, format::specs::DecodeTypes::strided_view_at, format::specs::DecodeTypes::function_type_at, exact::specs::Choice::choose, format::specs::DecodeTypes::fields_at, format::specs::DecodeTypes::kinds, exact::specs::Refuse::pick_at, exact::specs::Refuse::refuse, format::specs::DecodeTypes::type_entry_at, exact::specs::Upto::upto, exact::specs::Padding::here, exact::specs::Basic::byte, exact::specs::Basic::byte_of, crate::specs::Fields::field_if, format::specs::DecodeTables::field_at))]

ghost use Rattle.std.specs.Prelude.{◌≡◌, ◌+◌, ◌*◌, ◌^◌, ◌≤◌, length, []};
ghost use Rattle.exact.specs.Basic.{byte};
ghost use Rattle.exact.specs.Sequence.{mapped};
ghost use Rattle.reading.specs.Shown.{got_of};
ghost use Rattle.format.specs.Sheet.{type_words};
ghost use Rattle.format.specs.DecodeTypes.{pointer_at, tile_at, tensor_view_at, partition_view_at, old_partition_view_at, gather_scatter_view_at, strided_view_at, function_type_at, fields_at, type_entry_at, types_at};
ghost use Rattle.format.specs.Items.{truth};
ghost use Rattle.entries.specs.Starts.{Lies};
ghost use Rattle.payloads.specs.TypeRows.{partition_at, Row, Kind, Spare, Short, words_of, entries_by, type_rows};
ghost use Rattle.payloads.specs.Fill.{Fits, Fills};

use crate::answers::{Filled, TableRead, raised};
use crate::fields::{
    Number, Spot, copy_byte_if, copy_flags, copy_list, copy_number, copy_number_if, put_value,
};
use crate::indices::copy_indices;
use entries::starts::{Starts, Width, first_entry, next_entry, parse_starts};
use enums::{Refusal, TypeTag, VersionClass};
use reading::{Read, Reader, Refused};

// One reader for each kind: the tag, and the fields behind it.
fn pointer(entry: &[u8], class: VersionClass, sheet: &mut [u8], at: Spot) -> Result<Spot, Refused>
    requires { Spare «entry».now at }
    ensures { Kind (pointer_at «class») «entry».now at sheet.old sheet.new result }
{
    let tag = put_value(sheet, TypeTag::POINTER as u64, at);
    let flags = copy_flags(entry, class, sheet, tag)?;
    let element = copy_number(entry, sheet, flags)?;
    copy_byte_if(entry, flags.value, sheet, element)
}

fn tile(entry: &[u8], sheet: &mut [u8], at: Spot) -> Result<Spot, Refused>
    requires { Spare «entry».now at }
    ensures { Kind tile_at «entry».now at sheet.old sheet.new result }
{
    let tag = put_value(sheet, TypeTag::TILE as u64, at);
    let element = copy_number(entry, sheet, tag)?;
    copy_list(entry, Number::I64, sheet, element)
}

fn tensor_view(
    entry: &[u8],
    class: VersionClass,
    sheet: &mut [u8],
    at: Spot,
) -> Result<Spot, Refused>
    requires { Spare «entry».now at }
    ensures { Kind (tensor_view_at «class») «entry».now at sheet.old sheet.new result }
{
    let tag = put_value(sheet, TypeTag::TENSOR_VIEW as u64, at);
    let flags = copy_flags(entry, class, sheet, tag)?;
    let element = copy_number(entry, sheet, flags)?;
    let shape = copy_list(entry, Number::I64, sheet, element)?;
    let strides = copy_list(entry, Number::I64, sheet, shape)?;
    copy_byte_if(entry, flags.value, sheet, strides)
}

fn partition_view(entry: &[u8], sheet: &mut [u8], at: Spot) -> Result<Spot, Refused>
    requires { Spare «entry».now at }
    ensures { Kind partition_view_at «entry».now at sheet.old sheet.new result }
{
    let tag = put_value(sheet, TypeTag::PARTITION_VIEW as u64, at);
    let flags = copy_number(entry, sheet, tag)?;
    let shape = copy_list(entry, Number::I32, sheet, flags)?;
    let view = copy_number(entry, sheet, shape)?;
    let dims = copy_list(entry, Number::I32, sheet, view)?;
    copy_byte_if(entry, flags.value, sheet, dims)
}

// The presence byte below 13.3: nonzero means 1.
fn read_presence(entry: &[u8], reader: Reader) -> Read<u64>
    ensures { got_of result ≡ mapped truth byte «entry».now reader.pos }
{
    let (presence, next) = reader.read_byte(entry)?;
    Ok((u64::from(presence != 0), next))
}

// Below 13.3 the presence's word stands before what is read before it: the fields behind that word are copied first, and
// the two words before them are put after that.
fn old_partition_view(entry: &[u8], sheet: &mut [u8], at: Spot) -> Result<Spot, Refused>
    requires { Spare «entry».now at }
    ensures { Kind old_partition_view_at «entry».now at sheet.old sheet.new result }
{
    let begun = Spot {
        word: at.word + 2,
        ..at
    };
    let shape = copy_list(entry, Number::I32, sheet, begun)?;
    let view = copy_number(entry, sheet, shape)?;
    let dims = copy_list(entry, Number::I32, sheet, view)?;
    let (presence, next) = read_presence(entry, Reader { pos: dims.pos })?;
    sheet::put_word(sheet, at.word + 1, presence);
    sheet::put_word(sheet, at.word, TypeTag::PARTITION_VIEW as u64);
    let behind = Spot {
        pos: next.pos,
        ..dims
    };
    copy_number_if(entry, presence == 1, sheet, behind)
}

fn gather_scatter_view(entry: &[u8], sheet: &mut [u8], at: Spot) -> Result<Spot, Refused>
    requires { Spare «entry».now at }
    ensures { Kind gather_scatter_view_at «entry».now at sheet.old sheet.new result }
{
    let tag = put_value(sheet, TypeTag::GATHER_SCATTER_VIEW as u64, at);
    let flags = copy_number(entry, sheet, tag)?;
    let shape = copy_list(entry, Number::I32, sheet, flags)?;
    let view = copy_number(entry, sheet, shape)?;
    let sparse = copy_number(entry, sheet, view)?;
    copy_byte_if(entry, flags.value, sheet, sparse)
}

fn strided_view(entry: &[u8], sheet: &mut [u8], at: Spot) -> Result<Spot, Refused>
    requires { Spare «entry».now at }
    ensures { Kind strided_view_at «entry».now at sheet.old sheet.new result }
{
    let tag = put_value(sheet, TypeTag::STRIDED_VIEW as u64, at);
    let flags = copy_number(entry, sheet, tag)?;
    let shape = copy_list(entry, Number::I32, sheet, flags)?;
    let strides = copy_list(entry, Number::I32, sheet, shape)?;
    let view = copy_number(entry, sheet, strides)?;
    let dims = copy_list(entry, Number::I32, sheet, view)?;
    copy_byte_if(entry, flags.value, sheet, dims)
}

fn function(entry: &[u8], sheet: &mut [u8], at: Spot) -> Result<Spot, Refused>
    requires { Spare «entry».now at }
    ensures { Kind function_type_at «entry».now at sheet.old sheet.new result }
{
    let tag = put_value(sheet, TypeTag::FUNC as u64, at);
    let inputs = copy_indices(entry, sheet, tag)?;
    copy_indices(entry, sheet, inputs)
}

// A partition view, by the version class.
fn any_partition_view(
    entry: &[u8],
    class: VersionClass,
    sheet: &mut [u8],
    at: Spot,
) -> Result<Spot, Refused>
    requires { Spare «entry».now at }
    ensures { Kind (partition_at «class») «entry».now at sheet.old sheet.new result }
{
    if class.from_13_3() {
        return partition_view(entry, sheet, at);
    }
    old_partition_view(entry, sheet, at)
}

// The tag and what stands behind it, by kind; a tag that is not known is refused at the entry's first byte.
fn decode_fields(
    entry: &[u8],
    class: VersionClass,
    tag: u64,
    sheet: &mut [u8],
    at: Spot,
) -> Result<Spot, Refused>
    requires { Spare «entry».now at }
    ensures { Kind (fields_at «class» 0 tag) «entry».now at sheet.old sheet.new result }
{
    match tag {
        0..=11 | 17..=19 | 22 | 0x82 => Ok(put_value(sheet, tag, at)),
        12 => pointer(entry, class, sheet, at),
        13 => tile(entry, sheet, at),
        14 => tensor_view(entry, class, sheet, at),
        15 => any_partition_view(entry, class, sheet, at),
        16 => function(entry, sheet, at),
        20 => gather_scatter_view(entry, sheet, at),
        21 => strided_view(entry, sheet, at),
        _ => Err(Refused {
            refusal: Refusal::TypeTag,
            at: 0,
        }),
    }
}

// A type entry: the number of words that follow is put when they are. What is left of the entry is passed over.
fn decode_type_entry(
    entry: &[u8],
    class: VersionClass,
    sheet: &mut [u8],
    word: usize,
) -> Result<Spot, Refused>
    requires { word + 8 * length «entry».now ≤ 2 ^ 61 }
    ensures row { Row (mapped type_words (type_entry_at «class») «entry».now 0) word sheet.old sheet.new result }
    ensures short { Short «entry».now word result }
{
    let (tag, next) = (Reader { pos: 0 }).read_varint(entry)?;
    let first = word + 1;
    let at = Spot {
        pos: next.pos,
        word: first,
        value: tag,
    };
    let end = decode_fields(entry, class, tag, sheet, at)?;
    let count = end.word - first;
    sheet::put_word(sheet, word, count as u64);
    Ok(Spot {
        pos: entry.len(),
        ..end
    })
}

// Entry by entry: its bounds are judged before its fields.
fn decode_type_entries(
    payload: &[u8],
    starts: Starts,
    class: VersionClass,
    sheet: &mut [u8],
    word: usize,
) -> Result<Spot, Refused>
    requires lies { Lies 4 payload.now starts }
    requires payload_bound { word + 8 * length payload.now ≤ 2 ^ 60 }
    ensures { Row (words_of type_words (entries_by 0 (type_entry_at «class») payload.now starts)) word sheet.old sheet.new result }
{
    let base = starts.data;
    let run = &payload[starts.first..base];
    let data = &payload[base..];
    let mut next = word;
    let mut from = first_entry(run, Width::Four, data.len());
    for _ in 0..starts.count {
        let behind = next_entry(run, Width::Four, data.len(), 0, from)?;
        let start = from.start.0;
        let end = behind.start.0;
        let entry = &data[start..end];
        let row = raised(decode_type_entry(entry, class, sheet, next), base + start)?;
        next = row.word;
        from = behind;
    }
    Ok(Spot {
        pos: payload.len(),
        word: next,
        value: 0,
    })
}

// The Type section: its rows are put behind what is filled already.
pub fn parse_type_section(
    payload: &[u8],
    class: VersionClass,
    sheet: &mut [u8],
    at: Filled,
) -> TableRead
    requires { Fits at payload.now }
    ensures { Fills at (type_rows (types_at «class» 0 payload.now 0)) sheet.old sheet.new [] [] result }
{
    let starts = parse_starts(payload, Width::Four)?;
    let end = decode_type_entries(payload, starts, class, sheet, at.words)?;
    let filled = Filled {
        words: end.word,
        ..at
    };
    Ok((starts.count, filled))
}
