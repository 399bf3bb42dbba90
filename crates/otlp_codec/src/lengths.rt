//! How long canonical spellings are, without writing them. A length above 2^63 is returned as 2^63.

ghost use Rattle.std.specs.Prelude.{◌≡◌, ◌≤◌, ◌+◌, ℕ, min, length, map, ◌∷◌, []};
ghost use Rattle.otlp_wire.specs.Wire as wire;
ghost use Rattle.otlp_wire.specs.Wire.{IsNumber};
ghost use Rattle.otlp_messages.specs.Canon.{canon, canon_row, varint_row, fixed64_row, fixed32_row, bytes_row, many_row};
ghost use Rattle.otlp_model.specs.Limits.{count_cap};
ghost use Rattle.otlp_codec.specs.Canonical.{canon_value, canon_pair, members_rows};
ghost use Rattle.otlp_codec.specs.Lengths.{part_len};

use crate::writing::Spelled;
use otlp_model::{Items, Pair, Value, add_capped};
use otlp_wire::len_varint;

/// A field of wire type 2 whose part has `size` bytes.
pub(crate) fn len_part(number: u32, size: u64) -> u64
    requires { IsNumber number }
    ensures { result ≡ min (part_len number size) count_cap }
{
    let head = len_varint(8 * u64::from(number) + 2) + len_varint(size);
    add_capped(head as u64, size)
}

/// Bytes as a field of wire type 2.
fn len_bytes_field(number: u32, part: &[u8]) -> u64
    requires { IsNumber number }
    ensures { result ≡ min (length (canon_row number (wire.Bytes part.now ∷ []))) count_cap }
{
    len_part(number, part.len() as u64)
}

/// A field of wire type 1.
pub(crate) fn len_fixed64_field(number: u32) -> u64
    requires { IsNumber number }
    ensures len { (bits : ℕ) → result ≡ length (canon_row number (wire.Fixed64 bits ∷ [])) }
    ensures few { result ≤ 20 }
{
    len_varint(8 * u64::from(number) + 1) as u64 + 8
}

/// A field of wire type 0.
fn len_varint_field(number: u32, value: u64) -> u64
    requires { IsNumber number }
    ensures len { result ≡ length (canon_row number (wire.Varint value ∷ [])) }
    ensures few { result ≤ 20 }
{
    (len_varint(8 * u64::from(number)) + len_varint(value)) as u64
}

/// An unsigned number.
pub(crate) fn len_varint_row(number: u32, value: u64) -> u64
    requires { IsNumber number }
    ensures len { result ≡ length (canon_row number (varint_row value)) }
    ensures few { result ≤ 20 }
{
    if value == 0 {
        0
    } else {
        len_varint_field(number, value)
    }
}

/// 64 bits.
pub(crate) fn len_fixed64_row(number: u32, value: u64) -> u64
    requires { IsNumber number }
    ensures len { result ≡ length (canon_row number (fixed64_row value)) }
    ensures few { result ≤ 20 }
{
    if value == 0 {
        0
    } else {
        len_fixed64_field(number)
    }
}

/// 32 bits.
pub(crate) fn len_fixed32_row(number: u32, value: u32) -> u64
    requires { IsNumber number }
    ensures len { result ≡ length (canon_row number (fixed32_row value)) }
    ensures few { result ≤ 20 }
{
    if value == 0 {
        0
    } else {
        len_varint(8 * u64::from(number) + 5) as u64 + 4
    }
}

/// A text or bytes.
pub(crate) fn len_bytes_row(number: u32, part: &[u8]) -> u64
    requires { IsNumber number }
    ensures { result ≡ min (length (canon_row number (bytes_row part.now))) count_cap }
{
    if part.is_empty() {
        0
    } else {
        len_bytes_field(number, part)
    }
}

/// A message that occurs once.
pub(crate) fn len_one<P: Spelled>(number: u32, part: &P) -> u64
    requires { IsNumber number }
    ensures { result ≡ min (length (canon_row number (bytes_row (P.spelled part.now)))) count_cap }
{
    let size = Spelled::len(part);
    if size == 0 { 0 } else { len_part(number, size) }
}

/// The messages of a repeated field.
pub(crate) fn len_more<P: Spelled>(number: u32, parts: &[P]) -> u64
    requires { IsNumber number }
    ensures { result ≡ min (length (canon_row number (many_row (map P.spelled parts.now)))) count_cap }
{
    let mut total = 0;
    for part in parts {
        total = add_capped(total, len_part(number, part.len()));
    }
    total
}

/// An `AnyValue`.
#[cycle(lengths)]
pub(crate) fn len_value(value: &Value) -> u64
    ensures { result ≡ min (length (canon_value value.now)) count_cap }
{
    match value {
        Value::Empty => 0,
        Value::Str(text) => len_bytes_field(1, text.as_slice()),
        Value::Bool(truth) => len_varint_field(2, u64::from(*truth)),
        Value::Int(number) => len_varint_field(3, number.cast_unsigned()),
        Value::Double(_) => len_fixed64_field(4),
        Value::Array(members) => len_array(members),
        Value::Map(pairs) => len_map(pairs),
        Value::Bytes(bytes) => len_bytes_field(7, bytes.as_slice()),
    }
}

/// An array as the member of the oneof that it is.
#[cycle(lengths)]
fn len_array(members: &Items<Value>) -> u64
    ensures { result ≡ min (length (canon_row 5 (wire.Bytes (canon (members_rows (map canon_value members.now))) ∷ []))) count_cap }
{
    len_part(5, len_members(members.as_slice()))
}

/// A key-value list as the member of the oneof that it is.
#[cycle(lengths)]
fn len_map(pairs: &Items<Pair>) -> u64
    ensures { result ≡ min (length (canon_row 6 (wire.Bytes (canon (members_rows (map canon_pair pairs.now))) ∷ []))) count_cap }
{
    len_part(6, len_pairs(1, pairs.as_slice()))
}

/// The members of an array.
#[cycle(lengths)]
fn len_members(members: &[Value]) -> u64
    ensures { result ≡ min (length (canon_row 1 (many_row (map canon_value members.now)))) count_cap }
{
    let mut total = 0;
    for member in members {
        total = add_capped(total, len_part(1, len_value(member)));
    }
    total
}

/// The pairs of a repeated field.
#[cycle(lengths)]
pub(crate) fn len_pairs(number: u32, pairs: &[Pair]) -> u64
    requires { IsNumber number }
    ensures { result ≡ min (length (canon_row number (many_row (map canon_pair pairs.now)))) count_cap }
{
    let mut total = 0;
    for pair in pairs {
        total = add_capped(total, len_part(number, len_pair(pair)));
    }
    total
}

/// A `KeyValue`.
#[cycle(lengths)]
fn len_pair(pair: &Pair) -> u64
    ensures { result ≡ min (length (canon_pair pair.now)) count_cap }
{
    let value = len_value(&pair.value);
    let row = if value == 0 { 0 } else { len_part(2, value) };
    add_capped(len_bytes_row(1, pair.key.as_slice()), row)
}
