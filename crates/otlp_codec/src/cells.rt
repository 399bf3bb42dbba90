//! Readers of one field, by its kind. Each reads the value over an old one, and refuses what is not of
//! the kind.

ghost use Rattle.std.specs.Prelude.{OnOk, IfErr, IfOk};
ghost use Rattle.std.specs.Prelude.{◌≡◌, ◌%◌, ◌^◌, IsUtf8};
ghost use Rattle.otlp_wire.specs.Wire as wire;
ghost use Rattle.otlp_wire.specs.Wire.{value_of};
ghost use Rattle.otlp_messages.specs.declared.messages.FieldKind.TheVariants as kinds;
ghost use Rattle.otlp_messages.specs.Fine.{FineValue};
ghost use Rattle.otlp_messages.specs.Rows.{fixed64_in, fixed32_in, uint32_in, int32_in, bytes_in};
ghost use Rattle.otlp_codec.specs.Limits.{level_limit};
ghost use Rattle.otlp_codec.specs.PartRefusals.{RefusesValue};

use crate::refusal::ReadRefusal;
use lists::as_utf8;
use otlp_model::{Octets, Text};
use otlp_wire::Wire;
use std::alloc::Global;

/// Reads a `fixed64`.
#[inline]
pub(crate) fn take_fixed64(to: &mut u64, value: &Wire<'_>) -> Result<(), ReadRefusal>
    ensures ok { OnOk result (to.new ≡ fixed64_in to.old (value_of value.now)) }
    ensures fine { IfOk result (λ _. FineValue kinds.Fixed64 level_limit (value_of value.now)) }
    ensures fault { IfErr result (RefusesValue kinds.Fixed64 level_limit (value_of value.now)) }
{
    let Wire::Fixed64(number) = value else {
        return Err(ReadRefusal::BadMessage);
    };
    *to = *number;
    Ok(())
}

/// Reads a `fixed32`.
#[inline]
pub(crate) fn take_fixed32(to: &mut u32, value: &Wire<'_>) -> Result<(), ReadRefusal>
    ensures ok { OnOk result (to.new ≡ fixed32_in to.old (value_of value.now)) }
    ensures fine { IfOk result (λ _. FineValue kinds.Fixed32 level_limit (value_of value.now)) }
    ensures fault { IfErr result (RefusesValue kinds.Fixed32 level_limit (value_of value.now)) }
{
    let Wire::Fixed32(number) = value else {
        return Err(ReadRefusal::BadMessage);
    };
    *to = *number;
    Ok(())
}

/// Reads a `uint32`: the low 32 bits of a varint.
#[inline]
pub(crate) fn take_uint32(to: &mut u32, value: &Wire<'_>) -> Result<(), ReadRefusal>
    ensures ok { OnOk result (to.new ≡ uint32_in to.old (value_of value.now)) }
    ensures fine { IfOk result (λ _. FineValue kinds.Varint level_limit (value_of value.now)) }
    ensures fault { IfErr result (RefusesValue kinds.Varint level_limit (value_of value.now)) }
{
    let Wire::Varint(number) = value else {
        return Err(ReadRefusal::BadMessage);
    };
    *to = low_bits(*number);
    Ok(())
}

/// Reads an `int32` or an enum: the low 32 bits of a varint, in two's complement.
#[inline]
pub(crate) fn take_int32(to: &mut i32, value: &Wire<'_>) -> Result<(), ReadRefusal>
    ensures ok { OnOk result (to.new ≡ int32_in to.old (value_of value.now)) }
    ensures fine { IfOk result (λ _. FineValue kinds.Varint level_limit (value_of value.now)) }
    ensures fault { IfErr result (RefusesValue kinds.Varint level_limit (value_of value.now)) }
{
    let Wire::Varint(number) = value else {
        return Err(ReadRefusal::BadMessage);
    };
    *to = low_bits(*number).cast_signed();
    Ok(())
}

/// Reads a string.
#[inline]
pub(crate) fn take_text(alloc: Global, to: &mut Text, value: &Wire<'_>) -> Result<(), ReadRefusal>
    ensures ok { OnOk result (to.new ≡ bytes_in to.old (value_of value.now)) }
    ensures fine { IfOk result (λ _. FineValue kinds.Text level_limit (value_of value.now)) }
    ensures fault { IfErr result (RefusesValue kinds.Text level_limit (value_of value.now)) }
{
    set_text(alloc, to, value)
}

/// Makes the text the string that the value is.
#[inline]
pub(crate) fn set_text(alloc: Global, to: &mut Text, value: &Wire<'_>) -> Result<(), ReadRefusal>
    ensures ok { OnOk result (value_of value.now ≡ wire.Bytes to.new) }
    ensures fine { OnOk result (IsUtf8 to.new) }
    ensures fault { IfErr result (RefusesValue kinds.Text level_limit (value_of value.now)) }
{
    let Wire::Bytes(part) = value else {
        return Err(ReadRefusal::BadMessage);
    };
    let Some(part) = as_utf8(part) else {
        return Err(ReadRefusal::BadUtf8);
    };
    to.set(alloc, part)?;
    Ok(())
}

/// The string that the value is.
#[inline]
pub(crate) fn text_of(alloc: Global, value: &Wire<'_>) -> Result<Text, ReadRefusal>
    ensures ok { IfOk result (λ text. value_of value.now ≡ wire.Bytes text) }
    ensures fine { IfOk result (λ text. IsUtf8 text) }
    ensures fault { IfErr result (RefusesValue kinds.Text level_limit (value_of value.now)) }
{
    let mut text = Text::new(alloc);
    set_text(alloc, &mut text, value)?;
    Ok(text)
}

/// Reads an id that has no bytes, or exactly this number.
#[inline]
pub(crate) fn take_id(
    alloc: Global,
    to: &mut Octets,
    size: usize,
    value: &Wire<'_>,
) -> Result<(), ReadRefusal>
    ensures ok { OnOk result (to.new ≡ bytes_in to.old (value_of value.now)) }
    ensures fine { IfOk result (λ _. FineValue (kinds.Id size) level_limit (value_of value.now)) }
    ensures fault { IfErr result (RefusesValue (kinds.Id size) level_limit (value_of value.now)) }
{
    let Wire::Bytes(part) = value else {
        return Err(ReadRefusal::BadMessage);
    };
    if !part.is_empty() && part.len() != size {
        return Err(ReadRefusal::BadLength);
    }
    *to = Octets::from_slice(alloc, part)?;
    Ok(())
}

/// The low 32 bits.
#[inline]
fn low_bits(number: u64) -> u32
    ensures { result ≡ number % 2 ^ 32 }
{
    (number % (1 << 32)) as u32
}
