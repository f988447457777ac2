// The image: the header, the sections that are written, and the end id.
#![tactic(auto, using(crate::proofs::LawsImage::containers))]

ghost use Rattle.std.specs.Prelude.{◌≡◌, [], slice_index};
ghost use Rattle.enums.specs.Container.{magic};
ghost use Rattle.sheet.specs.Store.{words_in};
ghost use Rattle.images.specs.Put.{Wrote};
ghost use Rattle.images.specs.Sections.{PayloadPut};
ghost use Rattle.images.specs.Images.{is_some, Presence, Opens, Aligned, AlignmentPut, SectionPut, HeaderPut, ImagePut};

use crate::fields::Pen;
use crate::put::{put_byte, put_le, put_varint};
use crate::sections::put_payload;
use crate::source::Source;
use crate::tables::put_count;
use enums::Section;

// Whether a word of the sheet is not 0.
fn is_some(sheet: &[u8], word: usize) -> bool
    ensures { result ≡ is_some (slice_index (words_in sheet.now) word) }
{
    sheet::word_at(sheet, word) != 0
}

// Whether a section is written: nonempty tables only; Debug if either of its tables has rows; Producer if named.
fn is_present(sheet: &[u8], section: Section) -> bool
    ensures { Presence section sheet.now result }
{
    match section {
        Section::String => is_some(sheet, 6),
        Section::Producer => is_some(sheet, 3),
        Section::Type => is_some(sheet, 8),
        Section::Constant => is_some(sheet, 10),
        Section::Global => is_some(sheet, 12),
        Section::Func => is_some(sheet, 14),
        Section::Debug => is_some(sheet, 18) || is_some(sheet, 16),
    }
}

// The alignment of a section that has one.
#[tactic(auto, unfolding(crate::specs::Sections::part_in, format::specs::Image::string_part, format::specs::Image::producer_part, format::specs::Image::type_part, format::specs::Image::constant_part, format::specs::Image::global_part, format::specs::Image::function_part, format::specs::Image::debug_part))]
fn alignment_of(section: Section) -> Option<usize>
    ensures { Aligned section result }
{
    match section {
        Section::String | Section::Type => Some(4),
        Section::Constant | Section::Debug => Some(8),
        Section::Producer | Section::Global | Section::Func => None,
    }
}

// The id, with the top bit if there is an alignment.
#[tactic(auto, unfolding(crate::specs::Sections::part_in, format::specs::Image::first_byte, format::specs::Image::string_part, format::specs::Image::producer_part, format::specs::Image::type_part, format::specs::Image::constant_part, format::specs::Image::global_part, format::specs::Image::function_part, format::specs::Image::debug_part))]
fn first_byte(section: Section) -> u8
    ensures { Opens section result }
{
    match alignment_of(section) {
        Some(_) => section.id() + 0x80,
        None => section.id(),
    }
}

// The alignment, if there is one, and the padding, which counts from the file's start.
fn put_alignment(out: &mut [u8], at: usize, alignment: Option<usize>) -> usize
    ensures { AlignmentPut alignment at out.old out.new result }
{
    match alignment {
        Some(alignment) => put_count(out, 0, at, alignment as u64, alignment),
        None => at,
    }
}

// How far a payload takes the pen from place 0, without its bytes: its length, and where the pool goes on.
fn measure_payload(source: &Source, section: Section, pen: Pen) -> Pen
    ensures { PayloadPut section source.now.class source.now.sheet.now source.now.pool.now (record { word = pen.word; run = pen.run; at = 0 }) [] [] result }
{
    put_payload(source, section, &mut [], Pen { at: 0, ..pen })
}

// A payload that was measured. Into an output of no bytes it is not put once more.
fn put_measured(source: &Source, section: Section, measured: Pen, out: &mut [u8], pen: Pen) -> Pen
    requires { PayloadPut section source.now.class source.now.sheet.now source.now.pool.now (record { word = pen.word; run = pen.run; at = 0 }) [] [] measured }
    ensures { PayloadPut section source.now.class source.now.sheet.now source.now.pool.now pen out.old out.new result }
{
    if out.is_empty() {
        return Pen {
            at: pen.at.wrapping_add(measured.at),
            ..measured
        };
    }
    put_payload(source, section, out, pen)
}

// A section, if it is written. Its payload is measured first, since its length stands before it.
fn put_section(source: &Source, section: Section, out: &mut [u8], pen: Pen) -> Pen
    ensures { SectionPut section source.now.class source.now.sheet.now source.now.pool.now pen out.old out.new result }
{
    if !is_present(source.sheet, section) {
        return pen;
    }
    let measured = measure_payload(source, section, pen);
    let first = put_byte(out, pen.at, first_byte(section));
    let length = put_varint(out, first, measured.at as u64);
    let begin = put_alignment(out, length, alignment_of(section));
    put_measured(source, section, measured, out, Pen { at: begin, ..pen })
}

fn put_magic(out: &mut [u8]) -> usize
    ensures { Wrote magic 0 out.old out.new result }
{
    sheet::put_run(out, 0, &enums::magic());
    8
}

// MAGIC, major, minor, tag.
fn put_header(sheet: &[u8], out: &mut [u8]) -> usize
    ensures { HeaderPut sheet.now out.old out.new result }
{
    let opened = put_magic(out);
    let major = put_le(out, opened, sheet::word_at(sheet, 0), 1);
    let minor = put_le(out, major, sheet::word_at(sheet, 1), 1);
    put_le(out, minor, sheet::word_at(sheet, 2), 2)
}

// The image of a sheet that was judged, and of its pool; into an output of no bytes, only its length, for which the
// pool may be left out.
pub fn put_image(source: &Source, out: &mut [u8]) -> usize
    ensures { ImagePut source.now.class source.now.sheet.now source.now.pool.now out.old out.new result }
{
    let header = Pen {
        word: 0,
        run: 0,
        at: put_header(source.sheet, out),
    };
    let strings = put_section(source, Section::String, out, header);
    let producer = put_section(source, Section::Producer, out, strings);
    let types = put_section(source, Section::Type, out, producer);
    let constants = put_section(source, Section::Constant, out, types);
    let globals = put_section(source, Section::Global, out, constants);
    let functions = put_section(source, Section::Func, out, globals);
    let debug = put_section(source, Section::Debug, out, functions);
    put_byte(out, debug.at, Section::END_OF_BYTECODE)
}
