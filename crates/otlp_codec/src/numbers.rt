//! Fields that only points have: the oneof of a number, doubles that may be missing, packed numbers.

ghost use Rattle.std.specs.Prelude.{◌≡◌, ◌≤◌, ◌<◌, ◌/◌, ◌^◌, ◌++◌, min, length, IsTrue, OnOk, OnErr, IfErr, IfOk};
ghost use Rattle.otlp_wire.specs.Wire.{value_of, IsNumber};
ghost use Rattle.otlp_messages.specs.Kept.{KeepsEnd};
ghost use Rattle.otlp_messages.specs.declared.messages.FieldKind.TheVariants as kinds;
ghost use Rattle.otlp_codec.specs.Limits.{level_limit};
ghost use Rattle.otlp_messages.specs.Fine.{FineValue};
ghost use Rattle.lists.specs.Numbers.{little_numbers};
ghost use Rattle.otlp_messages.specs.Rows.{bool_in, optional_in, packed_in};
ghost use Rattle.otlp_messages.specs.Canon.{canon_row, bool_row, optional_row, packed_row};
ghost use Rattle.otlp_model.specs.Each.{Each};
ghost use Rattle.otlp_model.specs.Limits.{count_cap};
ghost use Rattle.otlp_model.specs.Real.{is_real_number, is_real_optional};
ghost use Rattle.otlp_codec.specs.PartRefusals.{RefusesValue};
ghost use Rattle.otlp_codec.specs.Numbers.{double_in, int_in, double_row, int_row};

use crate::lengths::{len_fixed64_field, len_part, len_varint_row};
use crate::refusal::ReadRefusal;
use byteorder::{ByteOrder, LittleEndian};
use otlp_messages::Backward;
use otlp_model::{CAP, Items, Number};
use otlp_wire::Wire;
use std::alloc::AllocError;

/// Reads a bool.
#[inline]
pub(crate) fn take_bool(to: &mut bool, value: &Wire<'_>) -> Result<(), ReadRefusal>
    ensures ok { OnOk result (to.new ≡ bool_in to.old (value_of value.now)) }
    ensures fine { IfOk result (λ _. FineValue kinds.Varint level_limit (value_of value.now)) }
    ensures fault { IfErr result (RefusesValue kinds.Varint level_limit (value_of value.now)) }
{
    let Wire::Varint(number) = value else {
        return Err(ReadRefusal::BadMessage);
    };
    *to = *number != 0;
    Ok(())
}

/// Reads a double that may be missing, as its 64 bits.
#[inline]
pub(crate) fn take_optional(to: &mut Option<u64>, value: &Wire<'_>) -> Result<(), ReadRefusal>
    ensures ok { OnOk result (to.new ≡ optional_in to.old (value_of value.now)) }
    ensures fine { IfOk result (λ _. FineValue kinds.Fixed64 level_limit (value_of value.now)) }
    ensures fault { IfErr result (RefusesValue kinds.Fixed64 level_limit (value_of value.now)) }
{
    let Wire::Fixed64(bits) = value else {
        return Err(ReadRefusal::BadMessage);
    };
    *to = Some(*bits);
    Ok(())
}

/// Reads `as_double`, as its 64 bits.
#[inline]
pub(crate) fn take_double(to: &mut Number, value: &Wire<'_>) -> Result<(), ReadRefusal>
    ensures ok { OnOk result (to.new ≡ double_in to.old (value_of value.now)) }
    ensures fine { IfOk result (λ _. FineValue kinds.Fixed64 level_limit (value_of value.now)) }
    ensures fault { IfErr result (RefusesValue kinds.Fixed64 level_limit (value_of value.now)) }
{
    let Wire::Fixed64(bits) = value else {
        return Err(ReadRefusal::BadMessage);
    };
    *to = Number::Double(*bits);
    Ok(())
}

/// Reads `as_int`, an `sfixed64`.
#[inline]
pub(crate) fn take_int(to: &mut Number, value: &Wire<'_>) -> Result<(), ReadRefusal>
    ensures ok { OnOk result (to.new ≡ int_in to.old (value_of value.now)) }
    ensures fine { IfOk result (λ _. FineValue kinds.Fixed64 level_limit (value_of value.now)) }
    ensures fault { IfErr result (RefusesValue kinds.Fixed64 level_limit (value_of value.now)) }
{
    let Wire::Fixed64(bits) = value else {
        return Err(ReadRefusal::BadMessage);
    };
    *to = Number::Int(bits.cast_signed());
    Ok(())
}

/// Reads one more number, or more packed numbers.
#[inline]
pub(crate) fn take_packed(to: &mut Items<u64>, value: &Wire<'_>) -> Result<(), ReadRefusal>
    ensures ok { OnOk result (to.new ≡ packed_in to.old (value_of value.now)) }
    ensures fine { IfOk result (λ _. FineValue kinds.Packed64 level_limit (value_of value.now)) }
    ensures fault { IfErr result (RefusesValue kinds.Packed64 level_limit (value_of value.now)) }
{
    match value {
        Wire::Fixed64(bits) => to.push(*bits)?,
        Wire::Bytes(part) if part.len() % 8 == 0 => push_numbers(to, part)?,
        _ => return Err(ReadRefusal::BadMessage),
    }
    Ok(())
}

/// Appends the numbers of 64 bits that the bytes hold, each little-endian.
fn push_numbers(to: &mut Items<u64>, part: &[u8]) -> Result<(), AllocError>
    ensures { OnOk result (to.new ≡ to.old ++ little_numbers (length part.now / 8) part.now) }
{
    to.reserve(part.len() / 8)?;
    'numbers: for place in 0..part.len() / 8 {
        to.push(LittleEndian::read_u64(&part[8 * place..]))?;
    }
    Ok(())
}

/// Writes `as_double`, where the number is a double.
pub(crate) fn write_double(to: &mut Backward, number: u32, value: Number) -> Result<(), AllocError>
    requires { IsNumber number }
    ensures ok { OnOk result (to.new ≡ canon_row number (double_row value) ++ to.old) }
    ensures err { OnErr result (KeepsEnd to.old to.new) }
    ensures real { OnOk result (IsTrue (is_real_number value)) }
{
    match value {
        Number::Double(bits) => to.put_fixed64_field(number, bits),
        _ => Ok(()),
    }
}

/// Writes `as_int`, where the number is an integer.
pub(crate) fn write_int(to: &mut Backward, number: u32, value: Number) -> Result<(), AllocError>
    requires { IsNumber number }
    ensures ok { OnOk result (to.new ≡ canon_row number (int_row value) ++ to.old) }
    ensures err { OnErr result (KeepsEnd to.old to.new) }
    ensures real { OnOk result (IsTrue (is_real_number value)) }
{
    match value {
        Number::Int(int) => to.put_fixed64_field(number, int.cast_unsigned()),
        _ => Ok(()),
    }
}

/// Writes a double that may be missing.
pub(crate) fn write_optional(
    to: &mut Backward,
    number: u32,
    value: Option<u64>,
) -> Result<(), AllocError>
    requires { IsNumber number }
    ensures ok { OnOk result (to.new ≡ canon_row number (optional_row value) ++ to.old) }
    ensures err { OnErr result (KeepsEnd to.old to.new) }
    ensures real { OnOk result (IsTrue (is_real_optional value)) }
{
    to.put_optional_row(number, value)
}

/// Writes packed numbers.
pub(crate) fn write_packed(
    to: &mut Backward,
    number: u32,
    values: &Items<u64>,
) -> Result<(), AllocError>
    requires { IsNumber number }
    ensures ok { OnOk result (to.new ≡ canon_row number (packed_row values.now) ++ to.old) }
    ensures err { OnErr result (KeepsEnd to.old to.new) }
    ensures real { OnOk result (Each (λ value. value < 2 ^ 64) values.now) }
{
    // The variable shows the proof that each number fits its type.
    let values = values.as_slice();
    to.put_packed64_row(number, values)
}

/// How many bytes `as_double` takes.
pub(crate) fn len_double(number: u32, value: Number) -> u64
    requires { IsNumber number }
    ensures len { result ≡ length (canon_row number (double_row value)) }
    ensures few { result ≤ 20 }
{
    match value {
        Number::Double(_) => len_fixed64_field(number),
        _ => 0,
    }
}

/// How many bytes `as_int` takes.
pub(crate) fn len_int(number: u32, value: Number) -> u64
    requires { IsNumber number }
    ensures len { result ≡ length (canon_row number (int_row value)) }
    ensures few { result ≤ 20 }
{
    match value {
        Number::Int(_) => len_fixed64_field(number),
        _ => 0,
    }
}

/// How many bytes a double takes that may be missing.
pub(crate) fn len_optional(number: u32, value: Option<u64>) -> u64
    requires { IsNumber number }
    ensures len { result ≡ length (canon_row number (optional_row value)) }
    ensures few { result ≤ 20 }
{
    match value {
        Some(_) => len_fixed64_field(number),
        None => 0,
    }
}

/// How many bytes a bool takes.
pub(crate) fn len_bool(number: u32, value: bool) -> u64
    requires { IsNumber number }
    ensures len { result ≡ length (canon_row number (bool_row value)) }
    ensures few { result ≤ 20 }
{
    len_varint_row(number, u64::from(value))
}

/// How many bytes packed numbers take, or 2^63 where there are more.
pub(crate) fn len_packed(number: u32, values: &[u64]) -> u64
    requires { IsNumber number }
    ensures { result ≡ min (length (canon_row number (packed_row values.now))) count_cap }
{
    if values.is_empty() {
        return 0;
    }
    let size = (values.len() as u64).saturating_mul(8).min(CAP);
    len_part(number, size)
}
