// Eight-bit floats from the 64 bits of an f64: "F8 float conversion" of encoding.rs.
#![tactic(auto)]

ghost use Rattle.std.specs.Prelude.{ℕ, ◌≡◌, ◌+◌, ◌/◌, ◌%◌, ◌^◌, ◌<◌};
ghost use Rattle.float8.specs.Magnitude.{magnitude_by, magnitude64};
ghost use Rattle.float8.specs.Nearest.{Nearest};
ghost use Rattle.float8.specs.Formats.{Converted, E4M3FN, E5M2};
ghost use Rattle.float8.specs.Inner.{EightBits, Narrow, Rounded};

// An f64: its sign bit, its infinity, its mantissa width, the 1 that is implied above the mantissa, and its bias.
const F64_SIGN: u64 = 0x8000_0000_0000_0000;

const F64_INFINITY: u64 = 0x7FF0_0000_0000_0000;

const F64_MAN_BITS: u64 = 52;

const F64_IMPLIED: u64 = 0x10_0000_0000_0000;

const F64_BIAS: u64 = 1023;

// An 8-bit format: its exponent and mantissa bits, its bias, and the code that overflow and infinity give without the
// sign. NaN's code is the one after it.
pub trait Format {
    ghost EXP_BITS: { ℕ };

    ghost MAN_BITS: { ℕ };

    ghost BIAS: { ℕ };

    ghost OVERFLOW: { ℕ };

    const EXP_BITS: u64;

    const MAN_BITS: u64;

    const BIAS: u64;

    const OVERFLOW: u64;
}

// sign:1, exp:4, man:3. No infinities: only all ones are NaN, and overflow gives the largest number.
#[derive(Clone, Copy)]
pub struct F8E4M3FN {}

impl Format for F8E4M3FN {
    ghost EXP_BITS = { 4 };

    ghost MAN_BITS = { 3 };

    ghost BIAS = { 7 };

    ghost OVERFLOW = { 0x7E };

    const EXP_BITS: u64 = 4;

    const MAN_BITS: u64 = 3;

    const BIAS: u64 = 7;

    const OVERFLOW: u64 = 0x7E;
}

// sign:1, exp:5, man:2. IEEE-like: overflow gives infinity.
#[derive(Clone, Copy)]
pub struct F8E5M2 {}

impl Format for F8E5M2 {
    ghost EXP_BITS = { 5 };

    ghost MAN_BITS = { 2 };

    ghost BIAS = { 15 };

    ghost OVERFLOW = { 0x7C };

    const EXP_BITS: u64 = 5;

    const MAN_BITS: u64 = 2;

    const BIAS: u64 = 15;

    const OVERFLOW: u64 = 0x7C;
}

// Convert f64 to F8E4M3FN bit pattern. NaN maps to 7F, infinities and overflow to 7E, with the sign.
pub fn f64_to_f8e4m3fn(bits: u64) -> u8
    ensures { E4M3FN bits result }
{
    convert_to_f8::<F8E4M3FN>(bits)
}

// Convert f64 to F8E5M2 bit pattern. NaN maps to 7D, infinities and overflow to 7C, with the sign.
pub fn f64_to_f8e5m2(bits: u64) -> u8
    ensures { E5M2 bits result }
{
    convert_to_f8::<F8E5M2>(bits)
}

// Generic f64 to 8-bit float conversion.
fn convert_to_f8<F: Format>(bits: u64) -> u8
    requires { EightBits F.EXP_BITS F.MAN_BITS F.BIAS F.OVERFLOW }
    ensures { Converted F.EXP_BITS F.MAN_BITS F.OVERFLOW (F.OVERFLOW + 1) bits result }
{
    let sign = bits / F64_SIGN;
    let magnitude = bits % F64_SIGN;
    let overflow = F::OVERFLOW;
    if F64_INFINITY < magnitude {
        return with_sign(sign, overflow + 1);
    }
    if magnitude == 0 {
        return with_sign(sign, 0);
    }
    with_sign(
        sign,
        nearest_code(magnitude, F::MAN_BITS, F::BIAS, overflow),
    )
}

// A code of seven bits under its sign.
fn with_sign(sign: u64, code: u64) -> u8
    requires { (sign < 2) × (code < 128) }
    ensures { (result / 128 ≡ sign) × (result % 128 ≡ code) }
{
    (sign * 128 + code) as u8
}

// The code nearest to a magnitude, at most `top`, without a branch that mixed magnitudes would mispredict. Codes follow
// each other as their magnitudes do, so the binades above the least normal stand before the significand and are rounded
// with it. Below the least normal the step stays what it is there, and the significand is shifted further. What lies
// below a quarter of the least step is held to that, which rounds to 0 too, so that the shift stays short.
fn nearest_code(magnitude: u64, man_bits: u64, bias: u64, top: u64) -> u64
    requires { (magnitude < 2 ^ 63) × Narrow bias man_bits }
    ensures { Nearest (magnitude_by bias man_bits) top (magnitude64 magnitude) result }
{
    let least_normal = F64_BIAS + 1 - bias;
    let held = magnitude.max((least_normal - man_bits - 2) * F64_IMPLIED);
    let exponent = held / F64_IMPLIED;
    let significand = held % F64_IMPLIED + F64_IMPLIED;
    let target_exp = exponent.max(least_normal);
    let shift = F64_MAN_BITS - man_bits + (target_exp - exponent);
    let binades = (target_exp - least_normal) * F64_IMPLIED;
    round_shift_right_ties_even(binades + significand, shift).min(top)
}

// value / 2^shift. Half of 2^shift, less one where the quotient is even, carries into it where it is to be rounded up.
fn round_shift_right_ties_even(value: u64, shift: u64) -> u64
    requires { (0 < shift) × (shift < 63) × (value < 2 ^ 63) }
    ensures { Rounded value (2 ^ shift) result }
{
    let truncated = value >> shift;
    let half = pow2(shift - 1);
    (value + (half - 1) + truncated % 2) >> shift
}

// 2 to the exponent.
fn pow2(exponent: u64) -> u64
    requires { exponent < 64 }
    ensures { result ≡ 2 ^ exponent }
{
    1u64 << exponent
}
