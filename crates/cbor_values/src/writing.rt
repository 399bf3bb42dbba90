//! Bytes of values.

ghost use Rattle.std.specs.Prelude.{◌≡◌, ◌+◌, ◌^◌, ◌<◌, ◌≤◌, ◌∷◌, ◌++◌, length, min, vec_len, vec_capacity, OnOk, OnErr};
ghost use Rattle.byteorder.specs.Endian.{big_bytes};
ghost use Rattle.otlp_model.specs.Limits.{weight_limit, count_cap};
ghost use Rattle.otlp_model.specs.Weight.{weight_of_value};
ghost use Rattle.otlp_model.specs.declared.value.Value as values;
ghost use Rattle.cbor_values.specs.Heads.{argument_len};
ghost use Rattle.cbor_values.specs.Written as spec;
ghost use Rattle.cbor_values.specs.Written.{cbor_of, string, long_head};
ghost use Rattle.cbor_values.specs.Lengths.{cbor_of_pair, int_argument, head_len, lengths};

use crate::heads::{ARRAY, BYTES, DOUBLE, FALSE, MAP, NEGATIVE, NULL, TEXT, TRUE, WHOLE};
use byteorder::{BigEndian, ByteOrder};
use otlp_model::{Pair, Value, add_capped};
use std::alloc::AllocError;

/// How many bytes `write_value` appends for the value.
///
/// Linear in the value. It recurses once for each level, as dropping the value does.
#[tactic(auto, using(crate::proofs::WrittenLaws::length_bound))]
pub fn len_value(value: &Value) -> u64
    requires { weight_of_value value.now ≤ weight_limit }
    ensures { result ≡ length (cbor_of value.now) }
{
    len(value)
}

/// Appends the written form of the value (RFC 8949, section 4.1): definite lengths, the shortest heads, doubles of
/// 64 bits, and the pairs of a map in their order.
///
/// Linear in the value. It recurses once for each level, as dropping the value does.
pub fn write_value(to: &mut Vec<u8>, value: &Value) -> Result<(), AllocError>
    requires { weight_of_value value.now ≤ weight_limit }
    ensures ok { OnOk result (to.new.items ≡ to.old.items ++ cbor_of value.now) }
    ensures err { OnErr result (to.new.items ≡ to.old.items) }
    ensures full { OnErr result (vec_capacity to.old < vec_len to.old + length (cbor_of value.now)) }
    ensures capacity { vec_capacity to.old ≤ vec_capacity to.new }
{
    to.reserve(len_value(value) as usize)?;
    put_value(to, value);
    Ok(())
}

/// The length of the written form, or 2^63 where it is larger.
#[cycle(len)]
#[tactic(auto, using(crate::proofs::WrittenForm::length_empty, crate::proofs::WrittenForm::length_bool, crate::proofs::WrittenForm::length_int, crate::proofs::WrittenForm::length_double, crate::proofs::WrittenForm::length_str, crate::proofs::WrittenForm::length_bytes, crate::proofs::WrittenForm::length_array, crate::proofs::WrittenForm::length_map))]
fn len(value: &Value) -> u64
    ensures { result ≡ min (length (cbor_of value.now)) count_cap }
{
    match value {
        Value::Empty | Value::Bool(_) => 1,
        Value::Int(number) => len_head(argument_of(*number)),
        Value::Double(_) => 9,
        Value::Str(text) => len_string(text.len()),
        Value::Bytes(octets) => len_string(octets.len()),
        Value::Array(members) => {
            let members = members.as_slice();
            add_capped(len_head(members.len() as u64), len_members(members))
        }
        Value::Map(pairs) => {
            let pairs = pairs.as_slice();
            add_capped(len_head(pairs.len() as u64), len_pairs(pairs))
        }
    }
}

#[cycle(len)]
fn len_members(members: &[Value]) -> u64
    ensures { result ≡ min (lengths cbor_of members.now) count_cap }
{
    let mut total = 0;
    for member in members {
        total = add_capped(total, len(member));
    }
    total
}

#[cycle(len)]
fn len_pairs(pairs: &[Pair]) -> u64
    ensures { result ≡ min (lengths cbor_of_pair pairs.now) count_cap }
{
    let mut total = 0;
    for pair in pairs {
        total = add_capped(total, len_pair(pair));
    }
    total
}

#[cycle(len)]
#[tactic(auto, using(crate::proofs::WrittenForm::length_pair))]
fn len_pair(pair: &Pair) -> u64
    ensures { result ≡ min (length (cbor_of_pair pair.now)) count_cap }
{
    add_capped(len_string(pair.key.len()), len(&pair.value))
}

/// The length of a string of `len` bytes, with its head.
fn len_string(len: usize) -> u64
    ensures { result ≡ min (head_len len + len) count_cap }
{
    let len = len as u64;
    add_capped(len_head(len), len)
}

/// The length of the shortest head with this argument.
#[tactic(auto, unfolding(crate::specs::Lengths::head_len))]
fn len_head(argument: u64) -> u64
    ensures value { result ≡ head_len argument }
    ensures short { result ≤ 9 }
{
    match argument {
        0..24 => 1,
        24..0x100 => 2,
        0x100..0x1_0000 => 3,
        0x1_0000..0x1_0000_0000 => 5,
        _ => 9,
    }
}

/// The argument of an integer's head: the number, or -1 minus it where it is below 0.
fn argument_of(number: i64) -> u64
    ensures { result ≡ int_argument number }
{
    if number < 0 {
        (-1 - number) as u64
    } else {
        number as u64
    }
}

/// Appends the written form of the value, for which there is room.
#[cycle(put)]
#[tactic(auto, using(crate::proofs::WrittenForm::length_int, crate::proofs::WrittenForm::length_str, crate::proofs::WrittenForm::length_bytes))]
fn put_value(to: &mut Vec<u8>, value: &Value)
    requires { vec_len to.old + length (cbor_of value.now) ≤ vec_capacity to.old }
    ensures items { to.new.items ≡ to.old.items ++ cbor_of value.now }
    ensures len { vec_len to.new ≡ vec_len to.old + length (cbor_of value.now) }
    ensures capacity { vec_capacity to.old ≤ vec_capacity to.new }
{
    match value {
        Value::Empty => put(to, &[NULL]),
        Value::Bool(false) => put(to, &[FALSE]),
        Value::Bool(true) => put(to, &[TRUE]),
        Value::Int(number) => put_int(to, *number),
        Value::Double(bits) => put_double(to, *bits),
        Value::Str(text) => put_string(to, TEXT, text.as_slice()),
        Value::Bytes(octets) => put_string(to, BYTES, octets.as_slice()),
        Value::Array(members) => put_members(to, members.as_slice()),
        Value::Map(pairs) => put_pairs(to, pairs.as_slice()),
    }
}

#[cycle(put)]
#[tactic(auto, using(crate::proofs::WrittenForm::length_array))]
fn put_members(to: &mut Vec<u8>, members: &[Value])
    requires { vec_len to.old + length (cbor_of (values.Array members.now)) ≤ vec_capacity to.old }
    ensures items { to.new.items ≡ to.old.items ++ cbor_of (values.Array members.now) }
    ensures len { vec_len to.new ≡ vec_len to.old + length (cbor_of (values.Array members.now)) }
    ensures capacity { vec_capacity to.old ≤ vec_capacity to.new }
{
    put_head(to, ARRAY, members.len() as u64);
    for member in members {
        put_value(to, member);
    }
}

#[cycle(put)]
#[tactic(auto, using(crate::proofs::WrittenForm::length_map))]
fn put_pairs(to: &mut Vec<u8>, pairs: &[Pair])
    requires { vec_len to.old + length (cbor_of (values.Map pairs.now)) ≤ vec_capacity to.old }
    ensures items { to.new.items ≡ to.old.items ++ cbor_of (values.Map pairs.now) }
    ensures len { vec_len to.new ≡ vec_len to.old + length (cbor_of (values.Map pairs.now)) }
    ensures capacity { vec_capacity to.old ≤ vec_capacity to.new }
{
    put_head(to, MAP, pairs.len() as u64);
    for pair in pairs {
        put_pair(to, pair);
    }
}

#[cycle(put)]
#[tactic(auto, using(crate::proofs::WrittenForm::length_pair))]
fn put_pair(to: &mut Vec<u8>, pair: &Pair)
    requires { vec_len to.old + length (cbor_of_pair pair.now) ≤ vec_capacity to.old }
    ensures items { to.new.items ≡ to.old.items ++ cbor_of_pair pair.now }
    ensures len { vec_len to.new ≡ vec_len to.old + length (cbor_of_pair pair.now) }
    ensures capacity { vec_capacity to.old ≤ vec_capacity to.new }
{
    put_string(to, TEXT, pair.key.as_slice());
    put_value(to, &pair.value);
}

fn put_int(to: &mut Vec<u8>, number: i64)
    requires { vec_len to.old + head_len (int_argument number) ≤ vec_capacity to.old }
    ensures items { to.new.items ≡ to.old.items ++ spec.int number }
    ensures len { vec_len to.new ≡ vec_len to.old + head_len (int_argument number) }
    ensures capacity { vec_capacity to.old ≤ vec_capacity to.new }
{
    if number < 0 {
        put_head(to, NEGATIVE, argument_of(number));
    } else {
        put_head(to, WHOLE, argument_of(number));
    }
}

fn put_double(to: &mut Vec<u8>, bits: u64)
    requires { vec_len to.old + 9 ≤ vec_capacity to.old }
    ensures items { to.new.items ≡ to.old.items ++ 251 ∷ big_bytes 8 bits }
    ensures len { vec_len to.new ≡ vec_len to.old + 9 }
    ensures capacity { vec_capacity to.old ≤ vec_capacity to.new }
{
    let mut bytes = [0; 8];
    BigEndian::write_u64(&mut bytes, bits);
    put(to, &[DOUBLE]);
    put(to, &bytes);
}

/// A string with its head.
fn put_string(to: &mut Vec<u8>, major: u8, part: &[u8])
    requires major { major < 6 }
    requires room { vec_len to.old + (head_len (length part.now) + length part.now) ≤ vec_capacity to.old }
    ensures items { to.new.items ≡ to.old.items ++ string major part.now }
    ensures len { vec_len to.new ≡ vec_len to.old + (head_len (length part.now) + length part.now) }
    ensures capacity { vec_capacity to.old ≤ vec_capacity to.new }
{
    put_head(to, major, part.len() as u64);
    put(to, part);
}

/// The shortest head of this major type with this argument.
#[tactic(auto, unfolding(crate::specs::Written::head, crate::specs::Lengths::head_len))]
fn put_head(to: &mut Vec<u8>, major: u8, argument: u64)
    requires major { major < 6 }
    requires room { vec_len to.old + head_len argument ≤ vec_capacity to.old }
    ensures items { to.new.items ≡ to.old.items ++ spec.head major argument }
    ensures len { vec_len to.new ≡ vec_len to.old + head_len argument }
    ensures capacity { vec_capacity to.old ≤ vec_capacity to.new }
{
    match argument {
        0..24 => put(to, &[32 * major + argument as u8]),
        24..0x100 => put_long_head(to, major, 24, argument),
        0x100..0x1_0000 => put_long_head(to, major, 25, argument),
        0x1_0000..0x1_0000_0000 => put_long_head(to, major, 26, argument),
        _ => put_long_head(to, major, 27, argument),
    }
}

/// A head whose argument follows the first byte.
#[tactic(auto, using(crate::proofs::Fractions::width_small, crate::proofs::Fractions::width_is))]
fn put_long_head(to: &mut Vec<u8>, major: u8, info: u8, argument: u64)
    requires major { major < 6 }
    requires low { 24 ≤ info }
    requires high { info < 28 }
    requires fits { argument < 256 ^ argument_len info }
    requires room { vec_len to.old + (1 + argument_len info) ≤ vec_capacity to.old }
    ensures items { to.new.items ≡ to.old.items ++ long_head major info argument }
    ensures len { vec_len to.new ≡ vec_len to.old + (1 + argument_len info) }
    ensures capacity { vec_capacity to.old ≤ vec_capacity to.new }
{
    let width = 1 << (info - 24);
    let mut bytes = [0; 8];
    BigEndian::write_uint(&mut bytes, argument, width);
    put(to, &[32 * major + info]);
    put(to, &bytes[..width]);
}

/// Appends a part for which there is room.
fn put(to: &mut Vec<u8>, part: &[u8])
    requires { vec_len to.old + length part.now ≤ vec_capacity to.old }
    ensures items { to.new.items ≡ to.old.items ++ part.now }
    ensures len { vec_len to.new ≡ vec_len to.old + length part.now }
    ensures capacity { vec_capacity to.old ≤ vec_capacity to.new }
{
    to.extend_from_slice(part).unwrap();
}
