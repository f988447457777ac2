// encoding.rs over a lent slice: the writer is a place and the alignment asked for so far, handed on by value. Whether
// the bytes have room is judged before the first of them is written, so a refused call changes nothing.
#![tactic(auto)]

ghost use Rattle.std.specs.Prelude.{◌≡◌, [], ◌∷◌, map, ◌+◌, ◌*◌, ◌≤◌, ◌<◌, length, replicate, SomeIff, ℕ};
ghost use Rattle.exact.specs.Fixed.{bytes_of};
ghost use Rattle.exact.specs.Padding.{gap};
ghost use Rattle.enums.specs.Container.{P};
ghost use Rattle.encoding.specs.Varint.{spelling};
ghost use Rattle.encoding.specs.Signed.{pattern, signed, zigzag};
ghost use Rattle.encoding.specs.Out.{put, Tells, flat, counted_bytes};
ghost use Rattle.encoding.specs.Shown.{new_writer, Writes, Patches, asked};
ghost use Rattle.encoding.specs.Floats.{WritesFloat};
ghost use Rattle.encoding.specs.Widths.{narrow_4, narrow_8};

use enums::Refusal;

// Where the next byte goes, and the largest alignment asked for so far.
#[derive(Clone, Copy)]
pub struct EncodingWriter {
    pub at: usize,
    pub required_alignment: u64,
}

// The float types that a float attribute is written in.
#[derive(Clone, Copy)]
pub enum FloatType {
    F64,
    F8E4M3FN,
    F8E5M2,
}

// What a writer answers: the writer behind its bytes, or why they are not written.
pub type Written = Result<EncodingWriter, Refusal>;

// What a patch answers: the place behind its bytes, or why they are not written.
pub type Patched = Result<usize, Refusal>;

// The bits of a signed number, in two's complement: by a name for each width, as the C boundary has it.
pub fn bits_of_i64(value: i64) -> u64
    ensures { result ≡ pattern 64 value }
{
    value.cast_unsigned()
}

pub fn bits_of_i32(value: i32) -> u32
    ensures { result ≡ pattern 32 value }
{
    value.cast_unsigned()
}

// The signed number that has these bits.
pub fn i64_of_bits(bits: u64) -> i64
    ensures { result ≡ signed 64 bits }
{
    bits.cast_signed()
}

pub fn i32_of_bits(bits: u32) -> i32
    ensures { result ≡ signed 32 bits }
{
    bits.cast_signed()
}

// A signed number that an array holds: it is written by its bits, in a width of so many bytes.
trait Item: Copy {
    ghost WIDTH: { ℕ };

    const WIDTH: usize;

    ghost bits: { Self → ℕ };

    fn bits(self) -> u64
        ensures { result ≡ bits self };

    ghost narrow: { WIDTH ≤ 8 };
}

impl Item for i64 {
    ghost WIDTH = { 8 };

    const WIDTH: usize = 8;

    ghost bits = { pattern 64 };

    ghost narrow = { narrow_8 };

    fn bits(self) -> u64 {
        bits_of_i64(self)
    }
}

impl Item for i32 {
    ghost WIDTH = { 4 };

    const WIDTH: usize = 4;

    ghost bits = { pattern 32 };

    ghost narrow = { narrow_4 };

    fn bits(self) -> u64 {
        bits_of_i32(self) as u64
    }
}

// The number that stands for a signed one in a varint: 0, -1, 1, -2, .. become 0, 1, 2, 3, ..
fn zigzag(value: i64) -> u64
    ensures { result ≡ zigzag value }
{
    if value < 0 {
        2 * ((!value) as u64) + 1
    } else {
        2 * (value as u64)
    }
}

// The place behind n bytes that are put at a place of an output of len bytes, if they have room there.
fn end_of(len: usize, at: usize, n: usize) -> Option<usize>
    ensures { SomeIff result (at + n ≤ len) (at + n) }
{
    let end = at.checked_add(n)?;
    (end <= len).then_some(end)
}

// How many bytes a varint takes: one for each seven bits. Most values are below 128: they take no look at their bits.
fn varint_size(value: u64) -> usize
    ensures { result ≡ length (spelling value) }
{
    if value < 128 {
        return 1;
    }
    value.ilog2() as usize / 7 + 1
}

// Whether a varint has room; its size is counted only where ten bytes have none.
fn varint_has_room(len: usize, at: usize, value: u64) -> bool
    ensures { Tells (at + length (spelling value) ≤ len) result }
{
    end_of(len, at, 10).is_some() || end_of(len, at, varint_size(value)).is_some()
}

// The place behind a counted array, if it has room: the count, then as many numbers of `width` bytes.
fn array_end(len: usize, at: usize, count: usize, width: usize) -> Option<usize>
    ensures { SomeIff result (at + (length (spelling count) + count * width) ≤ len) (at + (length (spelling count) + count * width)) }
{
    let size = count.checked_mul(width)?;
    let start = end_of(len, at, varint_size(count as u64))?;
    end_of(len, start, size)
}

// How many bytes of padding take a place to a multiple of an alignment.
fn padding_to(alignment: u64, at: usize) -> usize
    ensures { result ≡ gap alignment at }
{
    if alignment < 2 {
        return 0;
    }
    let over = at as u64 % alignment;
    ((alignment - over) % alignment) as usize
}

// Stores a varint, and answers the place behind it. Most values are below 128 and take one byte: they take no loop. The
// loop ends where the value does, at a place that is answered: a `for` over places would have to be left by a `break`.
fn put_varint(out: &mut [u8], at: usize, value: u64) -> usize
    requires { at + length (spelling value) ≤ length out.old }
    ensures place { result ≡ at + length (spelling value) }
    ensures output { out.new ≡ put out.old at (spelling value) }
{
    if value < 128 {
        out[at] = value as u8;
        return at + 1;
    }
    let mut rest = value;
    let mut i = at;
    while 128 <= rest {
        out[i] = (128 + rest % 128) as u8;
        rest = rest / 128;
        i += 1;
    }
    out[i] = rest as u8;
    i + 1
}

// Stores the lowest `width` bytes of a number, the lowest first. Where the width is known it compiles to one store.
fn put_le(out: &mut [u8], at: usize, value: u64, width: usize)
    requires { (width ≤ 8) × (at + width ≤ length out.old) }
    ensures { out.new ≡ put out.old at (bytes_of width value) }
{
    let bytes = value.to_le_bytes();
    out[at..at + width].copy_from_slice(&bytes[..width]);
}

// Stores the numbers of an array, one behind the other.
fn put_items<T: Item>(out: &mut [u8], at: usize, items: &[T])
    requires { at + length items.now * T.WIDTH ≤ length out.old }
    ensures { out.new ≡ put out.old at (flat T.WIDTH (map T.bits items.now)) }
{
    let mut next = at;
    for item in items {
        put_le(out, next, item.bits(), T::WIDTH);
        next += T::WIDTH;
    }
}

// Fills a run with a byte. The library's `fill` stores the last byte by itself; this compiles to one call that sets them
// all.
fn fill(run: &mut [u8], byte: u8)
    ensures { run.new ≡ replicate (length run.old) byte }
{
    for place in run {
        *place = byte;
    }
}

// Stores n bytes of 0 where they have room, and else nothing.
pub fn clear(out: &mut [u8], at: usize, n: usize)
    ensures { out.new ≡ put out.old at (replicate n 0) }
{
    if let Some(end) = end_of(out.len(), at, n) {
        fill(&mut out[at..end], 0);
    }
}

impl EncodingWriter {
    pub fn new() -> Self
        ensures { result ≡ new_writer }
    {
        Self {
            at: 0,
            required_alignment: 1,
        }
    }

    // The writer at another place.
    fn moved(self, at: usize) -> Self
        ensures { result ≡ record { at = at; required_alignment = self.required_alignment } }
    {
        Self { at, ..self }
    }

    pub fn write_byte(self, out: &mut [u8], b: u8) -> Written
        ensures { Writes self (b ∷ []) out.old out.new result }
    {
        let end = end_of(out.len(), self.at, 1).ok_or(Refusal::Full)?;
        out[self.at] = b;
        Ok(self.moved(end))
    }

    pub fn write_bytes(self, out: &mut [u8], data: &[u8]) -> Written
        ensures { Writes self «data».now out.old out.new result }
    {
        let end = end_of(out.len(), self.at, data.len()).ok_or(Refusal::Full)?;
        out[self.at..end].copy_from_slice(data);
        Ok(self.moved(end))
    }

    // Write an unsigned variable-length integer (LEB128-style, 7 bits per byte, high bit = continuation). One below 128
    // is its byte: room for that is all that is asked.
    pub fn write_varint(self, out: &mut [u8], value: u64) -> Written
        ensures { Writes self (spelling value) out.old out.new result }
    {
        if value < 128 {
            return self.write_byte(out, value as u8);
        }
        if varint_has_room(out.len(), self.at, value) {
            let next = put_varint(out, self.at, value);
            return Ok(self.moved(next));
        }
        Err(Refusal::Full)
    }

    // Write a signed variable-length integer using zigzag encoding.
    pub fn write_signed_varint(self, out: &mut [u8], value: i64) -> Written
        ensures { Writes self (spelling (zigzag value)) out.old out.new result }
    {
        self.write_varint(out, zigzag(value))
    }

    // Write the lowest `width` bytes of a number, the lowest first.
    fn write_le(self, out: &mut [u8], value: u64, width: usize) -> Written
        requires { width ≤ 8 }
        ensures { Writes self (bytes_of width value) out.old out.new result }
    {
        let end = end_of(out.len(), self.at, width).ok_or(Refusal::Full)?;
        put_le(out, self.at, value, width);
        Ok(self.moved(end))
    }

    pub fn write_le_u8(self, out: &mut [u8], value: u8) -> Written
        ensures { Writes self (bytes_of 1 value) out.old out.new result }
    {
        self.write_le(out, value as u64, 1)
    }

    pub fn write_le_u16(self, out: &mut [u8], value: u16) -> Written
        ensures { Writes self (bytes_of 2 value) out.old out.new result }
    {
        self.write_le(out, value as u64, 2)
    }

    pub fn write_le_u32(self, out: &mut [u8], value: u32) -> Written
        ensures { Writes self (bytes_of 4 value) out.old out.new result }
    {
        self.write_le(out, value as u64, 4)
    }

    pub fn write_le_u64(self, out: &mut [u8], value: u64) -> Written
        ensures { Writes self (bytes_of 8 value) out.old out.new result }
    {
        self.write_le(out, value, 8)
    }

    pub fn write_le_i32(self, out: &mut [u8], value: i32) -> Written
        ensures { Writes self (bytes_of 4 (pattern 32 value)) out.old out.new result }
    {
        self.write_le_u32(out, bits_of_i32(value))
    }

    pub fn write_le_i64(self, out: &mut [u8], value: i64) -> Written
        ensures { Writes self (bytes_of 8 (pattern 64 value)) out.old out.new result }
    {
        self.write_le_u64(out, bits_of_i64(value))
    }

    // Write a 32-bit float by its bits.
    pub fn write_le_f32(self, out: &mut [u8], bits: u32) -> Written
        ensures { Writes self (bytes_of 4 bits) out.old out.new result }
    {
        self.write_le_u32(out, bits)
    }

    // Write a 64-bit float by its bits.
    pub fn write_le_f64(self, out: &mut [u8], bits: u64) -> Written
        ensures { Writes self (bytes_of 8 bits) out.old out.new result }
    {
        self.write_le_u64(out, bits)
    }

    // Write an f64, by its bits, in a float type: F64 as its bits in a signed varint, the 8-bit types as their byte.
    pub fn write_ap_float(self, out: &mut [u8], bits: u64, ty: FloatType) -> Written
        ensures { WritesFloat self bits ty out.old out.new result }
    {
        match ty {
            FloatType::F64 => self.write_signed_varint(out, i64_of_bits(bits)),
            FloatType::F8E4M3FN => self.write_byte(out, float8::f64_to_f8e4m3fn(bits)),
            FloatType::F8E5M2 => self.write_byte(out, float8::f64_to_f8e5m2(bits)),
        }
    }

    // Write `count` as a varint, then the values as little-endian i64.
    pub fn write_le_var_size_i64(self, out: &mut [u8], values: &[i64]) -> Written
        ensures { Writes self (counted_bytes 8 (map (pattern 64) values.now)) out.old out.new result }
    {
        self.write_items(out, values)
    }

    // Write `count` as a varint, then the values as little-endian i32.
    pub fn write_le_var_size_i32(self, out: &mut [u8], values: &[i32]) -> Written
        ensures { Writes self (counted_bytes 4 (map (pattern 32) values.now)) out.old out.new result }
    {
        self.write_items(out, values)
    }

    // Write the number of items as a varint, then the items.
    fn write_items<T: Item>(self, out: &mut [u8], items: &[T]) -> Written
        ensures { Writes self (counted_bytes T.WIDTH (map T.bits items.now)) out.old out.new result }
    {
        let end = array_end(out.len(), self.at, items.len(), T::WIDTH).ok_or(Refusal::Full)?;
        let start = put_varint(out, self.at, items.len() as u64);
        put_items(out, start, items);
        Ok(self.moved(end))
    }

    // Pad the output so that the next place is aligned to `alignment`.
    pub fn align_to(self, out: &mut [u8], alignment: u64) -> Written
        ensures { Writes (asked self alignment) (replicate (gap alignment self.at) P) out.old out.new result }
    {
        let padding = padding_to(alignment, self.at);
        let end = end_of(out.len(), self.at, padding).ok_or(Refusal::Full)?;
        fill(&mut out[self.at..end], enums::ALIGNMENT_BYTE);
        Ok(self.asked(alignment).moved(end))
    }

    pub fn tell(self) -> usize
        ensures { result ≡ self.at }
    {
        self.at
    }

    pub fn required_alignment(self) -> u64
        ensures { result ≡ self.required_alignment }
    {
        self.required_alignment
    }

    // The writer of which one more alignment was asked: the largest of 2 or more counts.
    fn asked(self, alignment: u64) -> Self
        ensures { result ≡ asked self alignment }
    {
        if alignment < 2 {
            return self;
        }
        Self {
            required_alignment: self.required_alignment.max(alignment),
            ..self
        }
    }
}

// Patch the lowest `width` bytes of a number into the buffer, the lowest first.
fn patch_le(buf: &mut [u8], offset: usize, value: u64, width: usize) -> Patched
    requires { width ≤ 8 }
    ensures { Patches offset (bytes_of width value) buf.old buf.new result }
{
    let end = end_of(buf.len(), offset, width).ok_or(Refusal::Absent)?;
    put_le(buf, offset, value, width);
    Ok(end)
}

// Patch a `u32` value at `offset` in the buffer (little-endian).
pub fn patch_u32(buf: &mut [u8], offset: usize, value: u32) -> Patched
    ensures { Patches offset (bytes_of 4 value) buf.old buf.new result }
{
    patch_le(buf, offset, value as u64, 4)
}

// Patch a `u64` value at `offset` in the buffer (little-endian).
pub fn patch_u64(buf: &mut [u8], offset: usize, value: u64) -> Patched
    ensures { Patches offset (bytes_of 8 value) buf.old buf.new result }
{
    patch_le(buf, offset, value, 8)
}
