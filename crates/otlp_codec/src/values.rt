//! Reading values: the four messages that hold one another.

ghost use Rattle.std.specs.Prelude.{◌≡◌, OnOk, IfErr, IfOk};
ghost use Rattle.otlp_wire.specs.Wire.{value_of, entry};
ghost use Rattle.otlp_messages.specs.declared.messages.Message.TheVariants as messages;
ghost use Rattle.otlp_messages.specs.Table.{kind_of};
ghost use Rattle.otlp_model.specs.declared.value.Value.TheVariants as values;
ghost use Rattle.otlp_messages.specs.Defects.{IsFine};
ghost use Rattle.otlp_messages.specs.Fine.{FineValue};
ghost use Rattle.otlp_codec.specs.PartRefusals.{Refuses, RefusesValue};
ghost use Rattle.otlp_codec.specs.Values.{any_in, any_value_at, key_value_at};
ghost use Rattle.otlp_codec.specs.Steps.{array_at, map_at, array_step, map_step, no_pair, pair_step};

use crate::cells::{set_text, text_of};
use crate::refusal::ReadRefusal;
use crate::short::{only_field, short_field, short_pair};
use otlp_messages::{MARKS, Message, row_of};
use otlp_model::{Items, Octets, Pair, Text, Value};
use otlp_wire::{Field, Fields, Wire};
use std::alloc::Global;

/// Reads an `AnyValue` into an empty one. At most `levels` levels of members may be below it.
///
/// Most values are a short text, which is read without a loop.
#[cycle(value)]
pub(crate) fn fill_value(
    alloc: Global,
    levels: u8,
    value: &mut Value,
    bytes: &[u8],
) -> Result<(), ReadRefusal>
    requires { value.old ≡ values.Empty }
    ensures value { OnOk result (IsFine messages.AnyValue levels bytes.now × (value.new ≡ any_value_at levels bytes.now)) }
    ensures fault { IfErr result (Refuses messages.AnyValue levels bytes.now) }
{
    match short_field(1, bytes) {
        Some((text, [])) => {
            *value = Value::Str(text_of(alloc, &Wire::Bytes(text))?);
            Ok(())
        }
        _ => fill_value_by_field(alloc, levels, value, bytes),
    }
}

/// The same for any `AnyValue`: its only field, or one field after the other.
#[cycle(value)]
#[inline(never)]
fn fill_value_by_field(
    alloc: Global,
    levels: u8,
    value: &mut Value,
    bytes: &[u8],
) -> Result<(), ReadRefusal>
    requires { value.old ≡ values.Empty }
    ensures value { OnOk result (IsFine messages.AnyValue levels bytes.now × (value.new ≡ any_value_at levels bytes.now)) }
    ensures fault { IfErr result (Refuses messages.AnyValue levels bytes.now) }
{
    if let Some(field) = only_field(bytes) {
        return take_member(alloc, levels, value, &field);
    }
    let mut seen = [false; MARKS];
    'fields: for next in Fields::new(bytes) {
        let Ok(field) = next else {
            return Err(ReadRefusal::BadMessage);
        };
        let mark = row_of(Message::AnyValue, field.number).mark;
        if seen[mark] {
            return Err(ReadRefusal::Repeated);
        }
        seen[mark] = mark != 0;
        take_member(alloc, levels, value, &field)?;
    }
    Ok(())
}

/// Reads an `ArrayValue`.
#[cycle(value)]
fn read_array(alloc: Global, levels: u8, bytes: &[u8]) -> Result<Items<Value>, ReadRefusal>
    ensures value { IfOk result (λ values. IsFine messages.ArrayValue levels bytes.now × (values ≡ array_at levels bytes.now)) }
    ensures fault { IfErr result (Refuses messages.ArrayValue levels bytes.now) }
{
    let mut values = Items::new(alloc);
    let mut seen = [false; MARKS];
    'fields: for next in Fields::new(bytes) {
        let Ok(field) = next else {
            return Err(ReadRefusal::BadMessage);
        };
        let mark = row_of(Message::ArrayValue, field.number).mark;
        if seen[mark] {
            return Err(ReadRefusal::Repeated);
        }
        seen[mark] = mark != 0;
        take_array(alloc, levels, &mut values, &field)?;
    }
    Ok(values)
}

/// Reads a `KeyValueList`.
#[cycle(value)]
fn read_map(alloc: Global, levels: u8, bytes: &[u8]) -> Result<Items<Pair>, ReadRefusal>
    ensures value { IfOk result (λ pairs. IsFine messages.KeyValueList levels bytes.now × (pairs ≡ map_at levels bytes.now)) }
    ensures fault { IfErr result (Refuses messages.KeyValueList levels bytes.now) }
{
    let mut pairs = Items::new(alloc);
    let mut seen = [false; MARKS];
    'fields: for next in Fields::new(bytes) {
        let Ok(field) = next else {
            return Err(ReadRefusal::BadMessage);
        };
        let mark = row_of(Message::KeyValueList, field.number).mark;
        if seen[mark] {
            return Err(ReadRefusal::Repeated);
        }
        seen[mark] = mark != 0;
        take_map(alloc, levels, &mut pairs, &field)?;
    }
    Ok(pairs)
}

/// Reads a `KeyValue` into an empty one.
///
/// Most pairs are a short key and a short value and nothing else, which are read without a loop.
#[cycle(value)]
pub(crate) fn fill_pair(
    alloc: Global,
    levels: u8,
    pair: &mut Pair,
    bytes: &[u8],
) -> Result<(), ReadRefusal>
    requires { pair.old ≡ no_pair }
    ensures value { OnOk result (IsFine messages.KeyValue levels bytes.now × (pair.new ≡ key_value_at levels bytes.now)) }
    ensures fault { IfErr result (Refuses messages.KeyValue levels bytes.now) }
{
    let Some((key, value)) = short_pair(bytes) else {
        return fill_pair_by_field(alloc, levels, pair, bytes);
    };
    set_text(alloc, &mut pair.key, &Wire::Bytes(key))?;
    fill_value(alloc, levels, &mut pair.value, value)
}

/// The same for any `KeyValue`, one field after the other.
#[cycle(value)]
#[inline(never)]
fn fill_pair_by_field(
    alloc: Global,
    levels: u8,
    pair: &mut Pair,
    bytes: &[u8],
) -> Result<(), ReadRefusal>
    requires { pair.old ≡ no_pair }
    ensures value { OnOk result (IsFine messages.KeyValue levels bytes.now × (pair.new ≡ key_value_at levels bytes.now)) }
    ensures fault { IfErr result (Refuses messages.KeyValue levels bytes.now) }
{
    let mut seen = [false; MARKS];
    'fields: for next in Fields::new(bytes) {
        let Ok(field) = next else {
            return Err(ReadRefusal::BadMessage);
        };
        let mark = row_of(Message::KeyValue, field.number).mark;
        if seen[mark] {
            return Err(ReadRefusal::Repeated);
        }
        seen[mark] = mark != 0;
        take_pair(alloc, levels, pair, &field)?;
    }
    Ok(())
}

/// A pair of which nothing is read.
#[inline]
pub(crate) fn empty_pair(alloc: Global) -> Pair
    ensures { result ≡ no_pair }
{
    Pair {
        key: Text::new(alloc),
        value: Value::Empty,
    }
}

/// Reads a member of the oneof of `AnyValue`.
#[cycle(value)]
#[inline]
fn take_member(
    alloc: Global,
    levels: u8,
    to: &mut Value,
    field: &Field<'_>,
) -> Result<(), ReadRefusal>
    ensures ok { OnOk result (to.new ≡ any_in (array_at levels) (map_at levels) to.old (entry field.now)) }
    ensures fine { IfOk result (λ _. FineValue (kind_of messages.AnyValue field.now.number) levels (value_of field.now.value)) }
    ensures fault { IfErr result (RefusesValue (kind_of messages.AnyValue field.now.number) levels (value_of field.now.value)) }
{
    match (field.number, &field.value) {
        (1, value) => *to = Value::Str(text_of(alloc, value)?),
        (2, Wire::Varint(number)) => *to = Value::Bool(*number != 0),
        (3, Wire::Varint(number)) => *to = Value::Int(number.cast_signed()),
        (4, Wire::Fixed64(bits)) => *to = Value::Double(*bits),
        (5, Wire::Bytes(part)) => *to = Value::Array(read_array(alloc, levels, part)?),
        (6, Wire::Bytes(part)) => *to = Value::Map(read_map(alloc, levels, part)?),
        (7, Wire::Bytes(part)) => *to = Value::Bytes(Octets::from_slice(alloc, part)?),
        (2..=7, _) => return Err(ReadRefusal::BadMessage),
        _ => {}
    }
    Ok(())
}

/// Reads a member of an array.
#[cycle(value)]
#[inline]
fn take_array(
    alloc: Global,
    levels: u8,
    values: &mut Items<Value>,
    field: &Field<'_>,
) -> Result<(), ReadRefusal>
    ensures ok { OnOk result (values.new ≡ array_step levels values.old (entry field.now)) }
    ensures fine { IfOk result (λ _. FineValue (kind_of messages.ArrayValue field.now.number) levels (value_of field.now.value)) }
    ensures fault { IfErr result (RefusesValue (kind_of messages.ArrayValue field.now.number) levels (value_of field.now.value)) }
{
    match (field.number, &field.value) {
        (1, Wire::Bytes(_)) if levels == 0 => Err(ReadRefusal::TooDeep),
        (1, Wire::Bytes(part)) => {
            let value = values.push_mut(Value::Empty)?;
            fill_value(alloc, levels - 1, value, part)
        }
        (1, _) => Err(ReadRefusal::BadMessage),
        _ => Ok(()),
    }
}

/// Reads a member of a key-value list.
#[cycle(value)]
#[inline]
fn take_map(
    alloc: Global,
    levels: u8,
    pairs: &mut Items<Pair>,
    field: &Field<'_>,
) -> Result<(), ReadRefusal>
    ensures ok { OnOk result (pairs.new ≡ map_step levels pairs.old (entry field.now)) }
    ensures fine { IfOk result (λ _. FineValue (kind_of messages.KeyValueList field.now.number) levels (value_of field.now.value)) }
    ensures fault { IfErr result (RefusesValue (kind_of messages.KeyValueList field.now.number) levels (value_of field.now.value)) }
{
    match (field.number, &field.value) {
        (1, Wire::Bytes(_)) if levels == 0 => Err(ReadRefusal::TooDeep),
        (1, Wire::Bytes(part)) => {
            let pair = pairs.push_mut(empty_pair(alloc))?;
            fill_pair(alloc, levels - 1, pair, part)
        }
        (1, _) => Err(ReadRefusal::BadMessage),
        _ => Ok(()),
    }
}

/// Reads a field of a pair.
#[cycle(value)]
#[inline]
fn take_pair(
    alloc: Global,
    levels: u8,
    pair: &mut Pair,
    field: &Field<'_>,
) -> Result<(), ReadRefusal>
    ensures ok { OnOk result (pair.new ≡ pair_step levels pair.old (entry field.now)) }
    ensures fine { IfOk result (λ _. FineValue (kind_of messages.KeyValue field.now.number) levels (value_of field.now.value)) }
    ensures fault { IfErr result (RefusesValue (kind_of messages.KeyValue field.now.number) levels (value_of field.now.value)) }
{
    match (field.number, &field.value) {
        (1, value) => {
            set_text(alloc, &mut pair.key, value)?;
            Ok(())
        }
        (2, Wire::Bytes(part)) => {
            pair.value = Value::Empty;
            fill_value(alloc, levels, &mut pair.value, part)
        }
        (2, _) => Err(ReadRefusal::BadMessage),
        _ => Ok(()),
    }
}
