//! Narrow floats as doubles, by their bits.

ghost use Rattle.std.specs.Prelude.{◌≡◌, ◌+◌, ◌-◌, ◌*◌, ◌^◌, ◌<◌, ◌≤◌};
ghost use Rattle.cbor_values.specs.Floats as spec;
ghost use Rattle.cbor_values.specs.Floats.{of_half, of_single};

/// A binary format of fewer than 64 bits (IEEE 754-2019, section 3.4): how many bits its fraction has, the greatest
/// exponent field, and the bias of the exponent.
#[derive(Clone, Copy, Debug)]
struct Format {
    fraction_bits: u32,
    greatest: u64,
    bias: u64,
}

/// binary16.
const HALF: Format = Format {
    fraction_bits: 10,
    greatest: 31,
    bias: 15,
};

/// binary32.
const SINGLE: Format = Format {
    fraction_bits: 23,
    greatest: 255,
    bias: 127,
};

/// The double with the same number as the half float of these bits, or the same kind of NaN.
pub(crate) fn half(bits: u16) -> u64
    ensures { result ≡ of_half bits }
{
    let bits = u64::from(bits);
    widened(HALF, bits >> 15, (bits >> 10) % 32, bits % 1024)
}

/// The double with the same number as the single float of these bits, or the same kind of NaN.
pub(crate) fn single(bits: u32) -> u64
    ensures { result ≡ of_single bits }
{
    let bits = u64::from(bits);
    widened(SINGLE, bits >> 31, (bits >> 23) % 256, bits % (1 << 23))
}

/// The double of a float with these fields.
#[tactic(auto, unfolding(crate::specs::Floats::widened))]
fn widened(format: Format, sign: u64, exponent: u64, fraction: u64) -> u64
    requires format_bits { format.fraction_bits ≤ 52 }
    requires format_bias { format.fraction_bits + format.bias < 1024 }
    requires format_greatest { format.greatest ≤ format.bias + 1024 }
    requires sign { sign < 2 }
    requires exponent { exponent ≤ format.greatest }
    requires fraction { fraction < 2 ^ format.fraction_bits }
    ensures { result ≡ spec.widened format.greatest format.fraction_bits format.bias sign exponent fraction }
{
    if exponent == format.greatest {
        double(sign, 2047, aligned(fraction, format.fraction_bits))
    } else if exponent > 0 {
        let exponent = exponent + 1023 - format.bias;
        double(sign, exponent, aligned(fraction, format.fraction_bits))
    } else if fraction > 0 {
        let top = fraction.ilog2();
        let exponent = u64::from(top) + 1024 - format.bias - u64::from(format.fraction_bits);
        double(sign, exponent, aligned(fraction - (1 << top), top))
    } else {
        double(sign, 0, 0)
    }
}

/// A fraction of `bits` bits as one of 52 bits.
#[tactic(auto, using(crate::proofs::Fractions::aligned_below, crate::proofs::Fractions::aligned_is))]
fn aligned(fraction: u64, bits: u32) -> u64
    requires bits { bits ≤ 52 }
    requires fits { fraction < 2 ^ bits }
    ensures value { result ≡ fraction * 2 ^ (52 - bits) }
    ensures below { result < 2 ^ 52 }
{
    fraction << (52 - bits)
}

/// The bits of the double with these fields.
fn double(sign: u64, exponent: u64, fraction: u64) -> u64
    requires sign { sign < 2 }
    requires exponent { exponent < 2048 }
    requires fraction { fraction < 2 ^ 52 }
    ensures { result ≡ spec.double sign exponent fraction }
{
    (sign << 63) + (exponent << 52) + fraction
}
