// Bytes put into a lent output, each run where it has room; the next place is answered in any case, so that what fills
// an output also measures on an empty one. Places are counted modulo 2^64, which no image comes near.
#![tactic(auto, using(crate::proofs::LawsPut::puts))]

ghost use Rattle.std.specs.Prelude.{◌≡◌, [], ◌∷◌, replicate};
ghost use Rattle.exact.specs.Fixed.{bytes_of};
ghost use Rattle.exact.specs.Padding.{gap};
ghost use Rattle.enums.specs.Container.{P};
ghost use Rattle.encoding.specs.Varint.{spelling};
ghost use Rattle.images.specs.Put.{Wrote, RunPut};

use encoding::EncodingWriter;

// Puts a byte.
pub fn put_byte(out: &mut [u8], at: usize, b: u8) -> usize
    ensures { Wrote (b ∷ []) at out.old out.new result }
{
    if at < out.len() {
        out[at] = b;
    }
    at.wrapping_add(1)
}

// Puts a varint, in its shortest spelling. Most values are below 128 and take one byte: they take no loop, whether the
// output is filled or measured.
pub fn put_varint(out: &mut [u8], at: usize, value: u64) -> usize
    ensures { Wrote (spelling value) at out.old out.new result }
{
    if value < 128 {
        return put_byte(out, at, value as u8);
    }
    let mut rest = value;
    let mut next = at;
    while 128 <= rest {
        next = put_byte(out, next, (128 + rest % 128) as u8);
        rest /= 128;
    }
    put_byte(out, next, rest as u8)
}

// Puts the lowest `width` bytes of a number, the lowest first.
pub fn put_le(out: &mut [u8], at: usize, value: u64, width: usize) -> usize
    ensures { Wrote (bytes_of width value) at out.old out.new result }
{
    let mut rest = value;
    let mut next = at;
    for _ in 0..width {
        next = put_byte(out, next, (rest % 256) as u8);
        rest /= 256;
    }
    next
}

// Puts a 64-bit number, the lowest byte first. Where it has room it takes one store.
pub fn put_u64(out: &mut [u8], at: usize, value: u64) -> usize
    ensures { Wrote (bytes_of 8 value) at out.old out.new result }
{
    let writer = EncodingWriter {
        at,
        required_alignment: 1,
    };
    let _ = writer.write_le_u64(out, value);
    at.wrapping_add(8)
}

// How many bytes of padding take a place to a multiple of an alignment.
fn padding_to(alignment: usize, place: usize) -> usize
    ensures { result ≡ gap alignment place }
{
    if alignment < 2 {
        return 0;
    }
    (alignment - place % alignment) % alignment
}

// Puts the padding that takes a place, counted from the payload's or the file's start, to a multiple of an alignment.
pub fn put_padding(out: &mut [u8], at: usize, alignment: usize, place: usize) -> usize
    ensures { Wrote (replicate (gap alignment place) P) at out.old out.new result }
{
    let mut next = at;
    for _ in 0..padding_to(alignment, place) {
        next = put_byte(out, next, enums::ALIGNMENT_BYTE);
    }
    next
}

// Puts a run of the pool. Where the pool does not have it, as in a call that measures and is lent none, it is counted.
pub fn put_pool(pool: &[u8], from: usize, len: usize, out: &mut [u8], at: usize) -> usize
    ensures { RunPut pool.now «from» len at out.old out.new result }
{
    if from <= pool.len() && len <= pool.len() - from {
        sheet::put_run(out, at, &pool[from..from + len]);
    }
    at.wrapping_add(len)
}
