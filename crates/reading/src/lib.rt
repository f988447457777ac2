// decoder.rs's low-level Reader as a cursor by value: each method is lent the data, and answers the value with the reader
// behind it, or a refusal with the first byte of the number, byte run or padding that was being read.
#![tactic(auto, unfolding(exact::specs::Got::follow, exact::specs::Basic::byte_of, exact::specs::Basic::byte, exact::specs::Basic::pure, exact::specs::Sequence::bind, exact::specs::Sequence::mapped, exact::specs::Padding::here, exact::specs::Fixed::fixed, crate::specs::Numbers::signed_varint_at, crate::specs::Numbers::signed_at, crate::specs::Numbers::placed, crate::specs::Numbers::items_at))]

ghost use Rattle.std.specs.Prelude.{◌≡◌, ◌+◌, ◌≤◌, ◌<◌, min, length};
ghost use Rattle.exact.specs.Basic.{byte};
ghost use Rattle.exact.specs.Fixed.{raw, fixed};
ghost use Rattle.encoding.specs.Signed as Signed;
ghost use Rattle.reading.specs.Numbers.{varint_at, signed_varint_at, signed_at, padding_at, placed, items_at};
ghost use Rattle.reading.specs.Numbers.{remaining_at, Word, Begins};
ghost use Rattle.reading.specs.Shown.{new_reader, got_of, got_bytes, got_padding, got_items};

use enums::{ALIGNMENT_BYTE, Refusal};

// The place in the data where the next read starts.
#[derive(Clone, Copy)]
pub struct Reader {
    pub pos: usize,
}

// Why a read is refused, and the place in the data that the refusal names. The place stands first: in a `Result` it lies
// over the first word of the value, where a byte would have the compiler take that word apart.
#[derive(Clone, Copy, PartialEq, Eq)]
pub struct Refused {
    pub at: usize,
    pub refusal: Refusal,
}

// What a read answers: a value and the reader behind it, or a refusal.
pub type Read<T> = Result<(T, Reader), Refused>;

// The numbers of a counted array: how many, and the place of the first one.
#[derive(Clone, Copy)]
pub struct Items {
    pub count: usize,
    pub start: usize,
}

// The signed number that stands zigzagged in a varint: 0, 1, 2, 3, .. are 0, -1, 1, -2, ..
fn unzigzag(v: u64) -> i64
    ensures { result ≡ Signed.unzigzag v }
{
    if v % 2 == 0 {
        return encoding::i64_of_bits(v / 2);
    }
    encoding::i64_of_bits(!(v / 2))
}

impl Reader {
    // At the start of the data.
    pub fn new() -> Self
        ensures { result ≡ new_reader }
    {
        Reader { pos: 0 }
    }

    // How many bytes are left: none past the end.
    pub fn remaining(self, data: &[u8]) -> usize
        ensures { result ≡ remaining_at «data».now self.pos }
    {
        if self.pos < data.len() {
            data.len() - self.pos
        } else {
            0
        }
    }

    pub fn read_byte(self, data: &[u8]) -> Read<u8>
        ensures { got_of result ≡ byte «data».now self.pos }
    {
        let at = self.pos;
        if data.len() <= at {
            return Err(Refused {
                refusal: Refusal::Short,
                at,
            });
        }
        Ok((data[at], Reader { pos: at + 1 }))
    }

    // What is left is compared with n: a sum of the two places may wrap.
    pub fn read_bytes(self, data: &[u8], n: usize) -> Read<usize>
        ensures { got_bytes «data».now result ≡ placed (raw n) «data».now self.pos }
    {
        let at = self.pos;
        if self.remaining(data) < n {
            return Err(Refused {
                refusal: Refusal::Short,
                at,
            });
        }
        Ok((at, Reader { pos: at + n }))
    }

    // Most numbers are one byte. It is part of what reads a number: behind some steps by `?` the compiler takes a call for
    // cold, and would leave it one.
    #[inline(always)]
    pub fn read_varint(self, data: &[u8]) -> Read<u64>
        ensures { got_of result ≡ varint_at «data».now self.pos }
    {
        let at = self.pos;
        if data.len() <= at {
            return Err(Refused {
                refusal: Refusal::Short,
                at,
            });
        }
        let first = u64::from(data[at]);
        if first < 128 {
            return Ok((first, Reader { pos: at + 1 }));
        }
        self.read_digits(data, first)
    }

    // The place n bytes further on, or where the data ends before that.
    fn at_most(self, data: &[u8], n: usize) -> usize
        ensures { result ≡ self.pos + min n (remaining_at «data».now self.pos) }
    {
        self.pos + n.min(self.remaining(data))
    }

    // A number of more than one byte: each of the first nine counts seven bits, `weight` what the next of them counts, and
    // the tenth counts its lowest bit alone.
    #[inline(always)]
    fn read_digits(self, data: &[u8], first: u64) -> Read<u64>
        requires { Begins «data».now self.pos first }
        ensures { got_of result ≡ varint_at «data».now self.pos }
    {
        let at = self.pos;
        let ninth = self.at_most(data, 9);
        let mut result = first % 128;
        let mut weight: u64 = 128;
        for i in at + 1..ninth {
            let b = u64::from(data[i]);
            if b < 128 {
                return Ok((result + weight * b, Reader { pos: i + 1 }));
            }
            result += weight * (b % 128);
            weight *= 128;
        }
        if data.len() <= ninth {
            return Err(Refused {
                refusal: Refusal::Short,
                at,
            });
        }
        let b = u64::from(data[ninth]);
        if 128 <= b {
            return Err(Refused {
                refusal: Refusal::Overlong,
                at,
            });
        }
        Ok((result + weight * (b % 2), Reader { pos: ninth + 1 }))
    }

    pub fn read_signed_varint(self, data: &[u8]) -> Read<i64>
        ensures { got_of result ≡ signed_varint_at «data».now self.pos }
    {
        let (v, next) = self.read_varint(data)?;
        Ok((unzigzag(v), next))
    }

    // The next N bytes.
    fn read_array<const N: usize>(self, data: &[u8]) -> Read<[u8; N]>
        requires { 0 < N }
        ensures { got_of result ≡ raw N «data».now self.pos }
    {
        let (start, next) = self.read_bytes(data, N)?;
        let mut bytes = [0; N];
        bytes.copy_from_slice(&data[start..next.pos]);
        Ok((bytes, next))
    }

    pub fn read_le_u8(self, data: &[u8]) -> Read<u8>
        ensures { got_of result ≡ fixed 1 «data».now self.pos }
    {
        self.read_byte(data)
    }

    pub fn read_le_u16(self, data: &[u8]) -> Read<u16>
        ensures { got_of result ≡ fixed 2 «data».now self.pos }
    {
        let (bytes, next) = self.read_array(data)?;
        Ok((u16::from_le_bytes(bytes), next))
    }

    pub fn read_le_u32(self, data: &[u8]) -> Read<u32>
        ensures { got_of result ≡ fixed 4 «data».now self.pos }
    {
        let (bytes, next) = self.read_array(data)?;
        Ok((u32::from_le_bytes(bytes), next))
    }

    pub fn read_le_u64(self, data: &[u8]) -> Read<u64>
        ensures { got_of result ≡ fixed 8 «data».now self.pos }
    {
        let (bytes, next) = self.read_array(data)?;
        Ok((u64::from_le_bytes(bytes), next))
    }

    pub fn read_le_i64(self, data: &[u8]) -> Read<i64>
        ensures { got_of result ≡ signed_at 8 «data».now self.pos }
    {
        let (bits, next) = self.read_le_u64(data)?;
        Ok((encoding::i64_of_bits(bits), next))
    }

    pub fn read_le_i32(self, data: &[u8]) -> Read<i32>
        ensures { got_of result ≡ signed_at 4 «data».now self.pos }
    {
        let (bits, next) = self.read_le_u32(data)?;
        Ok((encoding::i32_of_bits(bits), next))
    }

    // A wrong byte among those that are there is told before the data's end.
    pub fn skip_padding(self, data: &[u8], alignment: u64) -> Result<Reader, Refused>
        ensures { got_padding result ≡ padding_at alignment «data».now self.pos }
    {
        if alignment < 2 {
            return Ok(self);
        }
        let at = self.pos;
        let padding = (alignment - at as u64 % alignment) % alignment;
        let end = self.at_most(data, padding as usize);
        for i in at..end {
            if data[i] != ALIGNMENT_BYTE {
                return Err(Refused {
                    refusal: Refusal::Padding,
                    at,
                });
            }
        }
        if ((end - at) as u64) < padding {
            return Err(Refused {
                refusal: Refusal::Short,
                at,
            });
        }
        Ok(Reader { pos: end })
    }

    // The numbers of a counted array stay where they are: the answer says how many, and where. What is left is divided by
    // the width, so that a count near 2^64 is refused like any other, at the first number that does not fit.
    fn read_items(self, data: &[u8], width: usize) -> Read<Items>
        requires { 0 < width }
        ensures { got_items width «data».now result ≡ items_at width «data».now self.pos }
    {
        let (count, first) = self.read_varint(data)?;
        let start = first.pos;
        let room = first.remaining(data) / width;
        if (room as u64) < count {
            return Err(Refused {
                refusal: Refusal::Short,
                at: start + room * width,
            });
        }
        let count = count as usize;
        let next = Reader {
            pos: start + count * width,
        };
        Ok((Items { count, start }, next))
    }

    pub fn read_le_var_size_i64(self, data: &[u8]) -> Read<Items>
        ensures { got_items 8 «data».now result ≡ items_at 8 «data».now self.pos }
    {
        self.read_items(data, 8)
    }

    pub fn read_le_var_size_i32(self, data: &[u8]) -> Read<Items>
        ensures { got_items 4 «data».now result ≡ items_at 4 «data».now self.pos }
    {
        self.read_items(data, 4)
    }
}
