// The exported calls: thin, over plain numbers and byte slices. Each contract is that of the crate below it, seen through
// the answer struct; a refused call changes no lent memory.
#![tactic(auto)]

mod answers;

ghost use Rattle.std.specs.Prelude.{◌≡◌, ◌-◌, [], ◌∷◌, map, length, replicate};
ghost use Rattle.std.proofs.Math.Decide.{dec_le};
ghost use Rattle.exact.specs.Basic.{byte};
ghost use Rattle.exact.specs.Choice.{choose};
ghost use Rattle.exact.specs.Fixed.{bytes_of, fixed, raw};
ghost use Rattle.exact.specs.Padding.{gap};
ghost use Rattle.enums.specs.Container.{P};
ghost use Rattle.enums.specs.Refusals as refusals;
ghost use Rattle.float8.specs.Formats.{E4M3FN, E5M2};
ghost use Rattle.encoding.specs.declared.FloatType.TheVariants.{F64, F8E4M3FN, F8E5M2};
ghost use Rattle.encoding.specs.Out.{counted_bytes, required};
ghost use Rattle.encoding.specs.Signed.{zigzag, pattern};
ghost use Rattle.encoding.specs.Varint.{spelling};
ghost use Rattle.reading.specs.Numbers.{varint_at, signed_varint_at, signed_at, padding_at, items_at, remaining_at, placed};
ghost use Rattle.reading.specs.Shown.{got_padding};
ghost use Rattle.enums.specs.Container.{string_id, constant_id, func_id};
ghost use Rattle.format.specs.Views.{strings_in, constants_in, bodies_in};
ghost use Rattle.tikomuci.specs.Boundary.{abi, refused_as, Puts, Writes, WritesFloat, Patches, next_place, next_aligned, number, signed_number, reached, run, items, skipped};
ghost use Rattle.tikomuci.specs.Views.{SectionViewed, RowViewed};
ghost use Rattle.tikomuci.specs.Files.{Measured, FileDone};
ghost use Rattle.tikomuci.specs.Sheets.{SheetWritten, SheetImaged, TypeNamed};
ghost use Rattle.tikomuci.specs.Caches.{cache_slots, session_slots, CachePut, CacheFetched, CacheDropped};

pub use answers::Answer;
use answers::Shown;
use encoding::{EncodingWriter, FloatType};
use enums::Refusal;
use reading::{Reader, Refused};

const ABI: u64 = 1;

// The slots of document 02's cache ..
const CACHE_SLOTS: usize = 16;

// .. and those for the sixty tracks of one session.
const SESSION_SLOTS: usize = 64;

// A writer at a place, of which no alignment was asked.
fn writer(at: u64) -> EncodingWriter
    ensures { result ≡ record { at = at; required_alignment = 1 } }
{
    EncodingWriter {
        at: at as usize,
        required_alignment: 1,
    }
}

// A reader at a place.
fn reader(at: u64) -> Reader
    ensures { result ≡ record { pos = at } }
{
    Reader { pos: at as usize }
}

// Padding from a place on: how many bytes, and the next place.
fn padded(at: u64, padding: Result<Reader, Refused>) -> Answer
    ensures { result ≡ skipped at (got_padding padding) }
{
    match padding {
        Ok(next) => {
            let place = next.pos as u64;
            Answer::accept(place.saturating_sub(at), place)
        }
        Err(refused) => refused.show(),
    }
}

// The answer of a reader, unless its place is past the data: a read there is refused, even one of no bytes. The readers
// below do not ask, since inside a file no reader stands past the end.
#[tactic(auto, unfolding(exact::specs::Choice::choose))]
fn unless_past(data: &[u8], at: u64, answer: Answer) -> Answer
    ensures { result ≡ choose (dec_le at (length «data».now)) answer (refused_as refusals.short) }
{
    if (data.len() as u64) < at {
        return Answer::refuse(Refusal::Short);
    }
    answer
}

// The number of this boundary: it grows with each change that an object compiled before it would not notice.
#[unsafe(no_mangle)]
pub extern "C" fn tikomuci_abi() -> u64
    ensures { result ≡ abi }
{
    ABI
}

// The same, by a name that has the number in it: an object that asks for another does not link.
#[unsafe(no_mangle)]
pub extern "C" fn tikomuci_abi_1() -> u64
    ensures { result ≡ abi }
{
    ABI
}

// One byte.
#[unsafe(no_mangle)]
pub extern "C" fn tikomuci_write_byte(out: &mut [u8], at: u64, value: u8) -> Answer
    ensures { Writes at (value ∷ []) out.old out.new result }
{
    writer(at).write_byte(out, value).show()
}

// A run of bytes.
#[unsafe(no_mangle)]
pub extern "C" fn tikomuci_write_bytes(out: &mut [u8], at: u64, data: &[u8]) -> Answer
    ensures { Writes at «data».now out.old out.new result }
{
    writer(at).write_bytes(out, data).show()
}

// A varint, in its shortest spelling.
#[unsafe(no_mangle)]
pub extern "C" fn tikomuci_write_varint(out: &mut [u8], at: u64, value: u64) -> Answer
    ensures { Writes at (spelling value) out.old out.new result }
{
    writer(at).write_varint(out, value).show()
}

// A signed varint, by zigzag.
#[unsafe(no_mangle)]
pub extern "C" fn tikomuci_write_signed_varint(out: &mut [u8], at: u64, value: i64) -> Answer
    ensures { Writes at (spelling (zigzag value)) out.old out.new result }
{
    writer(at).write_signed_varint(out, value).show()
}

// A number of 8 bits.
#[unsafe(no_mangle)]
pub extern "C" fn tikomuci_write_le_u8(out: &mut [u8], at: u64, value: u8) -> Answer
    ensures { Writes at (bytes_of 1 value) out.old out.new result }
{
    writer(at).write_le_u8(out, value).show()
}

// A number of 16 bits.
#[unsafe(no_mangle)]
pub extern "C" fn tikomuci_write_le_u16(out: &mut [u8], at: u64, value: u16) -> Answer
    ensures { Writes at (bytes_of 2 value) out.old out.new result }
{
    writer(at).write_le_u16(out, value).show()
}

// A number of 32 bits.
#[unsafe(no_mangle)]
pub extern "C" fn tikomuci_write_le_u32(out: &mut [u8], at: u64, value: u32) -> Answer
    ensures { Writes at (bytes_of 4 value) out.old out.new result }
{
    writer(at).write_le_u32(out, value).show()
}

// A number of 64 bits.
#[unsafe(no_mangle)]
pub extern "C" fn tikomuci_write_le_u64(out: &mut [u8], at: u64, value: u64) -> Answer
    ensures { Writes at (bytes_of 8 value) out.old out.new result }
{
    writer(at).write_le_u64(out, value).show()
}

// A signed number of 32 bits.
#[unsafe(no_mangle)]
pub extern "C" fn tikomuci_write_le_i32(out: &mut [u8], at: u64, value: i32) -> Answer
    ensures { Writes at (bytes_of 4 (pattern 32 value)) out.old out.new result }
{
    writer(at).write_le_i32(out, value).show()
}

// A signed number of 64 bits.
#[unsafe(no_mangle)]
pub extern "C" fn tikomuci_write_le_i64(out: &mut [u8], at: u64, value: i64) -> Answer
    ensures { Writes at (bytes_of 8 (pattern 64 value)) out.old out.new result }
{
    writer(at).write_le_i64(out, value).show()
}

// A float of 32 bits, by its bits.
#[unsafe(no_mangle)]
pub extern "C" fn tikomuci_write_le_f32(out: &mut [u8], at: u64, bits: u32) -> Answer
    ensures { Writes at (bytes_of 4 bits) out.old out.new result }
{
    writer(at).write_le_f32(out, bits).show()
}

// A float of 64 bits, by its bits.
#[unsafe(no_mangle)]
pub extern "C" fn tikomuci_write_le_f64(out: &mut [u8], at: u64, bits: u64) -> Answer
    ensures { Writes at (bytes_of 8 bits) out.old out.new result }
{
    writer(at).write_le_f64(out, bits).show()
}

// A count, and as many signed numbers of 64 bits.
#[unsafe(no_mangle)]
pub extern "C" fn tikomuci_write_le_var_size_i64(out: &mut [u8], at: u64, values: &[i64]) -> Answer
    ensures { Writes at (counted_bytes 8 (map (pattern 64) values.now)) out.old out.new result }
{
    writer(at).write_le_var_size_i64(out, values).show()
}

// A count, and as many signed numbers of 32 bits.
#[unsafe(no_mangle)]
pub extern "C" fn tikomuci_write_le_var_size_i32(out: &mut [u8], at: u64, values: &[i32]) -> Answer
    ensures { Writes at (counted_bytes 4 (map (pattern 32) values.now)) out.old out.new result }
{
    writer(at).write_le_var_size_i32(out, values).show()
}

// The 64 bits of a float attribute, as a signed varint.
#[unsafe(no_mangle)]
pub extern "C" fn tikomuci_write_ap_float_f64(out: &mut [u8], at: u64, f64_bits: u64) -> Answer
    ensures { WritesFloat at f64_bits F64 out.old out.new result }
{
    writer(at)
        .write_ap_float(out, f64_bits, FloatType::F64)
        .show()
}

// A float attribute as an 8-bit float, one byte.
#[unsafe(no_mangle)]
pub extern "C" fn tikomuci_write_ap_float_f8e4m3fn(out: &mut [u8], at: u64, f64_bits: u64) -> Answer
    ensures { WritesFloat at f64_bits F8E4M3FN out.old out.new result }
{
    writer(at)
        .write_ap_float(out, f64_bits, FloatType::F8E4M3FN)
        .show()
}

// A float attribute as an 8-bit float, one byte.
#[unsafe(no_mangle)]
pub extern "C" fn tikomuci_write_ap_float_f8e5m2(out: &mut [u8], at: u64, f64_bits: u64) -> Answer
    ensures { WritesFloat at f64_bits F8E5M2 out.old out.new result }
{
    writer(at)
        .write_ap_float(out, f64_bits, FloatType::F8E5M2)
        .show()
}

// An f64, by its bits, as the nearest E4M3FN code.
#[unsafe(no_mangle)]
pub extern "C" fn tikomuci_f8e4m3fn(f64_bits: u64) -> u8
    ensures { E4M3FN f64_bits result }
{
    float8::f64_to_f8e4m3fn(f64_bits)
}

// An f64, by its bits, as the nearest E5M2 code.
#[unsafe(no_mangle)]
pub extern "C" fn tikomuci_f8e5m2(f64_bits: u64) -> u8
    ensures { E5M2 f64_bits result }
{
    float8::f64_to_f8e5m2(f64_bits)
}

// Replaces 4 bytes of a buffer by a number of 32 bits.
#[unsafe(no_mangle)]
pub extern "C" fn tikomuci_patch_u32(buf: &mut [u8], offset: u64, value: u32) -> Answer
    ensures { Patches offset (bytes_of 4 value) buf.old buf.new result }
{
    encoding::patch_u32(buf, offset as usize, value).show()
}

// Replaces 8 bytes of a buffer by a number of 64 bits.
#[unsafe(no_mangle)]
pub extern "C" fn tikomuci_patch_u64(buf: &mut [u8], offset: u64, value: u64) -> Answer
    ensures { Patches offset (bytes_of 8 value) buf.old buf.new result }
{
    encoding::patch_u64(buf, offset as usize, value).show()
}

// Padding to a multiple of `alignment`: `second` is the alignment that is required now.
#[unsafe(no_mangle)]
pub extern "C" fn tikomuci_align_to(
    out: &mut [u8],
    at: u64,
    required_alignment: u64,
    alignment: u64,
) -> Answer
    ensures { Puts next_aligned refusals.full at (required required_alignment alignment) (replicate (gap alignment at) P)
        out.old out.new result }
{
    let writer = EncodingWriter {
        at: at as usize,
        required_alignment,
    };
    match writer.align_to(out, alignment) {
        Ok(next) => Answer::accept(next.at as u64, next.required_alignment),
        Err(refusal) => refusal.show(),
    }
}

// A byte.
#[unsafe(no_mangle)]
pub extern "C" fn tikomuci_read_byte(data: &[u8], at: u64) -> Answer
    ensures { result ≡ number (byte «data».now at) }
{
    reader(at).read_byte(data).show()
}

// A run of n bytes: `first` is where it starts. Past the data even an empty one is refused.
#[unsafe(no_mangle)]
pub extern "C" fn tikomuci_read_bytes(data: &[u8], at: u64, n: u64) -> Answer
    ensures { result ≡ run (reached (placed (raw n)) «data».now at) }
{
    unless_past(data, at, reader(at).read_bytes(data, n as usize).show())
}

// A varint, in any of its spellings.
#[unsafe(no_mangle)]
pub extern "C" fn tikomuci_read_varint(data: &[u8], at: u64) -> Answer
    ensures { result ≡ number (varint_at «data».now at) }
{
    reader(at).read_varint(data).show()
}

// A signed varint: `first` is its bit pattern.
#[unsafe(no_mangle)]
pub extern "C" fn tikomuci_read_signed_varint(data: &[u8], at: u64) -> Answer
    ensures { result ≡ signed_number 64 (signed_varint_at «data».now at) }
{
    reader(at).read_signed_varint(data).show()
}

// A number of 8 bits.
#[unsafe(no_mangle)]
pub extern "C" fn tikomuci_read_le_u8(data: &[u8], at: u64) -> Answer
    ensures { result ≡ number (fixed 1 «data».now at) }
{
    reader(at).read_le_u8(data).show()
}

// A number of 16 bits.
#[unsafe(no_mangle)]
pub extern "C" fn tikomuci_read_le_u16(data: &[u8], at: u64) -> Answer
    ensures { result ≡ number (fixed 2 «data».now at) }
{
    reader(at).read_le_u16(data).show()
}

// A number of 32 bits.
#[unsafe(no_mangle)]
pub extern "C" fn tikomuci_read_le_u32(data: &[u8], at: u64) -> Answer
    ensures { result ≡ number (fixed 4 «data».now at) }
{
    reader(at).read_le_u32(data).show()
}

// A number of 64 bits.
#[unsafe(no_mangle)]
pub extern "C" fn tikomuci_read_le_u64(data: &[u8], at: u64) -> Answer
    ensures { result ≡ number (fixed 8 «data».now at) }
{
    reader(at).read_le_u64(data).show()
}

// A signed number of 64 bits: `first` is its bit pattern.
#[unsafe(no_mangle)]
pub extern "C" fn tikomuci_read_le_i64(data: &[u8], at: u64) -> Answer
    ensures { result ≡ signed_number 64 (signed_at 8 «data».now at) }
{
    reader(at).read_le_i64(data).show()
}

// A signed number of 32 bits: `first` is its bit pattern.
#[unsafe(no_mangle)]
pub extern "C" fn tikomuci_read_le_i32(data: &[u8], at: u64) -> Answer
    ensures { result ≡ signed_number 32 (signed_at 4 «data».now at) }
{
    reader(at).read_le_i32(data).show()
}

// A counted array: `first` is the count, and its numbers of 8 bytes stand before `second`.
#[unsafe(no_mangle)]
pub extern "C" fn tikomuci_read_le_var_size_i64(data: &[u8], at: u64) -> Answer
    ensures { result ≡ items (items_at 8 «data».now at) }
{
    reader(at).read_le_var_size_i64(data).show()
}

// A counted array: `first` is the count, and its numbers of 4 bytes stand before `second`.
#[unsafe(no_mangle)]
pub extern "C" fn tikomuci_read_le_var_size_i32(data: &[u8], at: u64) -> Answer
    ensures { result ≡ items (items_at 4 «data».now at) }
{
    reader(at).read_le_var_size_i32(data).show()
}

// Passes over padding to a multiple of `alignment`: `first` is how many bytes it has. Past the data none is refused too.
#[unsafe(no_mangle)]
pub extern "C" fn tikomuci_skip_padding(data: &[u8], at: u64, alignment: u64) -> Answer
    ensures { result ≡ skipped at (reached (padding_at alignment) «data».now at) }
{
    let padding = padded(at, reader(at).skip_padding(data, alignment));
    unless_past(data, at, padding)
}

// How many bytes are left at a place: none past the end.
#[unsafe(no_mangle)]
pub extern "C" fn tikomuci_remaining(data: &[u8], at: u64) -> u64
    ensures { result ≡ remaining_at «data».now at }
{
    reader(at).remaining(data) as u64
}

// The payload that counts for a section id: `first` is its offset in the file, `second` its length.
#[unsafe(no_mangle)]
pub extern "C" fn tikomuci_section(file: &[u8], id: u64) -> Answer
    ensures { SectionViewed file.now id result }
{
    container::section(file, id).show()
}

// How large the stores for a file have to be: `first` counts the words of the sheet, `second` the bytes of the pool.
#[unsafe(no_mangle)]
pub extern "C" fn tikomuci_measure(file: &[u8]) -> Answer
    ensures { Measured file.now result }
{
    decoder::measure(file).show()
}

// The tables of a file: the sheet's words, little-endian, and the pool. The answer is that of tikomuci_measure.
#[unsafe(no_mangle)]
pub extern "C" fn tikomuci_read(file: &[u8], sheet: &mut [u8], pool: &mut [u8]) -> Answer
    ensures { FileDone file.now sheet.old sheet.new pool.old pool.new result }
{
    decoder::read(file, sheet, pool).show()
}

// The bytes of a string: `first` is their offset in the file, `second` how many they are.
#[unsafe(no_mangle)]
pub extern "C" fn tikomuci_string(file: &[u8], index: u64) -> Answer
    ensures { RowViewed strings_in string_id file.now index result }
{
    decoder::string(file, index).show()
}

// The bytes of a constant.
#[unsafe(no_mangle)]
pub extern "C" fn tikomuci_constant(file: &[u8], index: u64) -> Answer
    ensures { RowViewed constants_in constant_id file.now index result }
{
    decoder::constant(file, index).show()
}

// The bytes of a function's body.
#[unsafe(no_mangle)]
pub extern "C" fn tikomuci_body(file: &[u8], index: u64) -> Answer
    ensures { RowViewed bodies_in func_id file.now index result }
{
    decoder::body(file, index).show()
}

// The length of the file that a sheet would be written as: `first` counts its bytes.
#[unsafe(no_mangle)]
pub extern "C" fn tikomuci_image(sheet: &[u8]) -> Answer
    ensures { SheetImaged sheet.now result }
{
    writer::image(sheet).show()
}

// Writes the file of a sheet and its pool: `first` counts its bytes.
#[unsafe(no_mangle)]
pub extern "C" fn tikomuci_write(sheet: &[u8], pool: &[u8], out: &mut [u8]) -> Answer
    ensures { SheetWritten sheet.now pool.now out.old out.new result }
{
    writer::write(sheet, pool, out).show()
}

// The name of a type row of a sheet, as text: `first` counts its bytes.
#[unsafe(no_mangle)]
pub extern "C" fn tikomuci_type_text(sheet: &[u8], row: u64, out: &mut [u8]) -> Answer
    ensures { TypeNamed sheet.now row out.old out.new result }
{
    names::type_text(sheet, row, out).show()
}

// Puts a file in the cache for an instance: `first` is its slot.
#[unsafe(no_mangle)]
pub extern "C" fn tikomuci_cache_put(
    cache: &mut [u8],
    owners: &mut [u8],
    instance: u64,
    file: &[u8],
) -> Answer
    ensures { CachePut cache_slots instance file.now (record { buffer = cache.old; owners = owners.old })
        (record { buffer = cache.new; owners = owners.new }) result }
{
    cache::put(cache, owners, CACHE_SLOTS, instance, file).show()
}

// The bytes of a constant of the file that an instance has: `first` is their offset in the buffer, `second` how many they
// are.
#[unsafe(no_mangle)]
pub extern "C" fn tikomuci_cache_fetch(
    cache: &[u8],
    owners: &[u8],
    instance: u64,
    index: u64,
) -> Answer
    ensures { CacheFetched cache_slots instance index (record { buffer = cache.now; owners = owners.now }) result }
{
    cache::fetch(cache, owners, CACHE_SLOTS, instance, index).show()
}

// Drops the file that an instance has: `first` is the slot that becomes free.
#[unsafe(no_mangle)]
pub extern "C" fn tikomuci_cache_drop(cache: &mut [u8], owners: &mut [u8], instance: u64) -> Answer
    ensures { CacheDropped cache_slots instance (record { buffer = cache.old; owners = owners.old })
        (record { buffer = cache.new; owners = owners.new }) result }
{
    cache::drop(cache, owners, CACHE_SLOTS, instance).show()
}

// The same three for a session: put ..
#[unsafe(no_mangle)]
pub extern "C" fn tikomuci_session_put(
    cache: &mut [u8],
    owners: &mut [u8],
    instance: u64,
    file: &[u8],
) -> Answer
    ensures { CachePut session_slots instance file.now (record { buffer = cache.old; owners = owners.old })
        (record { buffer = cache.new; owners = owners.new }) result }
{
    cache::put(cache, owners, SESSION_SLOTS, instance, file).show()
}

// .. fetch ..
#[unsafe(no_mangle)]
pub extern "C" fn tikomuci_session_fetch(
    cache: &[u8],
    owners: &[u8],
    instance: u64,
    index: u64,
) -> Answer
    ensures { CacheFetched session_slots instance index (record { buffer = cache.now; owners = owners.now }) result }
{
    cache::fetch(cache, owners, SESSION_SLOTS, instance, index).show()
}

// .. and drop.
#[unsafe(no_mangle)]
pub extern "C" fn tikomuci_session_drop(
    cache: &mut [u8],
    owners: &mut [u8],
    instance: u64,
) -> Answer
    ensures { CacheDropped session_slots instance (record { buffer = cache.old; owners = owners.old })
        (record { buffer = cache.new; owners = owners.new }) result }
{
    cache::drop(cache, owners, SESSION_SLOTS, instance).show()
}
