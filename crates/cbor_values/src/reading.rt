//! Values from bytes.

ghost use Rattle.std.specs.Prelude.{◌≤◌, Some, IfOk, IfErr};
ghost use Rattle.otlp_model.specs.declared.value.Value.{Value};
ghost use Rattle.otlp_model.specs.Depth.{depth_of};
ghost use Rattle.otlp_model.specs.Limits.{depth_limit};
ghost use Rattle.cbor_values.specs.Cbor.{Cbor};
ghost use Rattle.cbor_values.specs.Refusals.{Refuses};
ghost use Rattle.cbor_values.specs.Values.{GivesValue, value_of};
ghost use Rattle.cbor_values.specs.Reading.{many_at, open_at, pair_at, body_at, item_at, all_at};
ghost use Rattle.cbor_values.specs.Returned.{ReturnsReading, int_of};

use crate::heads::{Head, after_break, read_head};
use crate::refusal::CborRefusal;
use crate::strings::{key, octets, text};
use otlp_model::{Items, MAX_DEPTH, Pair, Value};
use std::alloc::Global;

/// For how many members room is found at once.
const FIRST_ROOM: u64 = 32;

/// The value of the bytes, all of them: one item of the read forms (RFC 8949) that is at most 32 deep.
///
/// Read are heads of any width, strings, arrays and maps of definite and of indefinite length, integers of 64 bits with
/// a sign, `false`, `true`, `null`, and floats of 16, 32 and 64 bits, which become doubles with the same number. Keys
/// are texts and may repeat. Tags, `undefined` and other simple values are refused.
///
/// It goes over the bytes once. Before members are read it takes memory for 32 of them at most, whatever number a head claims.
pub fn read_value(alloc: Global, bytes: &[u8]) -> Result<Value, CborRefusal>
    // The value is the one that the bytes encode.
    ensures found { IfOk result (λ v. Cbor bytes.now v × (depth_of v ≤ depth_limit)) }
    // A value that is at most 32 deep is read, unless memory runs out.
    ensures only { (v : Value) → Cbor bytes.now v → depth_of v ≤ depth_limit → GivesValue result (Some v) }
    // A refusal is returned only where it applies, `Memory` for any bytes.
    ensures refused { IfErr result (Refuses bytes.now) }
    // The same as an equation, for callers.
    ensures value { GivesValue result (value_of bytes.now) }
{
    all(alloc, bytes)
}

#[tactic(auto, unfolding(crate::specs::Reading::all_at))]
fn all(alloc: Global, bytes: &[u8]) -> Result<Value, CborRefusal>
    ensures { ReturnsReading (λ v. v) result (all_at bytes.now) }
{
    let (value, rest) = item(alloc, MAX_DEPTH, bytes)?;
    if !rest.is_empty() {
        return Err(CborRefusal::Trailing);
    }
    Ok(value)
}

/// The value of the item at the front of the bytes, which may be `depth` deep, and the bytes after it.
#[cycle(read)]
#[tactic(auto, unfolding(crate::specs::Reading::item_at))]
fn item(alloc: Global, depth: u64, bytes: &[u8]) -> Result<(Value, &[u8]), CborRefusal>
    ensures { ReturnsReading (λ x. (x.0, x.1.now)) result (item_at depth bytes.now) }
{
    let (head, rest) = read_head(bytes)?;
    if depth == 0 {
        return Err(CborRefusal::TooDeep);
    }
    body(alloc, depth - 1, head, rest)
}

/// The value of an item after its head. Its members may be `depth` deep.
#[cycle(read)]
#[tactic(auto, unfolding(crate::specs::Reading::body_at))]
fn body(alloc: Global, depth: u64, head: Head, bytes: &[u8]) -> Result<(Value, &[u8]), CborRefusal>
    ensures { ReturnsReading (λ x. (x.0, x.1.now)) result (body_at (item_at depth) head bytes.now) }
{
    match head {
        Head::Null => Ok((Value::Empty, bytes)),
        Head::Bool(flag) => Ok((Value::Bool(flag), bytes)),
        Head::Whole(n) => Ok((Value::Int(whole(n)?), bytes)),
        Head::Negative(n) => Ok((Value::Int(-1 - whole(n)?), bytes)),
        Head::Double(bits) => Ok((Value::Double(bits), bytes)),
        Head::Bytes(length) => {
            let (octets, rest) = octets(alloc, length, bytes)?;
            Ok((Value::Bytes(octets), rest))
        }
        Head::Text(length) => {
            let (text, rest) = text(alloc, length, bytes)?;
            Ok((Value::Str(text), rest))
        }
        Head::Array(Some(count)) => {
            let (members, rest) = members(alloc, depth, count, bytes)?;
            Ok((Value::Array(members), rest))
        }
        Head::Array(None) => {
            let (members, rest) = open_members(alloc, depth, bytes)?;
            Ok((Value::Array(members), rest))
        }
        Head::Map(Some(count)) => {
            let (pairs, rest) = pairs(alloc, depth, count, bytes)?;
            Ok((Value::Map(pairs), rest))
        }
        Head::Map(None) => {
            let (pairs, rest) = open_pairs(alloc, depth, bytes)?;
            Ok((Value::Map(pairs), rest))
        }
    }
}

/// The number, where it is below 2^63.
fn whole(n: u64) -> Result<i64, CborRefusal>
    ensures { ReturnsReading (λ n. n) result (int_of n) }
{
    i64::try_from(n).map_err(|_| CborRefusal::OutOfRange)
}

/// For how many members room is found before they are read, where a head claims this many.
fn room(count: u64) -> usize {
    count.min(FIRST_ROOM) as usize
}

/// `count` members of an array.
#[cycle(read)]
fn members(
    alloc: Global,
    depth: u64,
    count: u64,
    bytes: &[u8],
) -> Result<(Items<Value>, &[u8]), CborRefusal>
    ensures { ReturnsReading (λ x. (x.0, x.1.now)) result (many_at (item_at depth) count bytes.now) }
{
    let mut members = Items::new(alloc);
    members.reserve(room(count))?;
    let mut rest = bytes;
    for _ in 0..count {
        let (member, after) = item(alloc, depth, rest)?;
        members.push(member)?;
        rest = after;
    }
    Ok((members, rest))
}

/// The members of an array up to its break.
#[cycle(read)]
fn open_members(
    alloc: Global,
    depth: u64,
    bytes: &[u8],
) -> Result<(Items<Value>, &[u8]), CborRefusal>
    ensures { ReturnsReading (λ x. (x.0, x.1.now)) result (open_at (item_at depth) bytes.now) }
{
    let mut members = Items::new(alloc);
    let mut rest = bytes;
    'members: loop {
        if let Some(after) = after_break(rest) {
            return Ok((members, after));
        }
        let (member, after) = item(alloc, depth, rest)?;
        members.push(member)?;
        rest = after;
    }
}

/// `count` pairs of a map.
#[cycle(read)]
fn pairs(
    alloc: Global,
    depth: u64,
    count: u64,
    bytes: &[u8],
) -> Result<(Items<Pair>, &[u8]), CborRefusal>
    ensures { ReturnsReading (λ x. (x.0, x.1.now)) result (many_at (pair_at (item_at depth)) count bytes.now) }
{
    let mut pairs = Items::new(alloc);
    pairs.reserve(room(count))?;
    let mut rest = bytes;
    for _ in 0..count {
        let (pair, after) = pair(alloc, depth, rest)?;
        pairs.push(pair)?;
        rest = after;
    }
    Ok((pairs, rest))
}

/// The pairs of a map up to its break.
#[cycle(read)]
fn open_pairs(alloc: Global, depth: u64, bytes: &[u8]) -> Result<(Items<Pair>, &[u8]), CborRefusal>
    ensures { ReturnsReading (λ x. (x.0, x.1.now)) result (open_at (pair_at (item_at depth)) bytes.now) }
{
    let mut pairs = Items::new(alloc);
    let mut rest = bytes;
    'pairs: loop {
        if let Some(after) = after_break(rest) {
            return Ok((pairs, after));
        }
        let (next, after) = pair(alloc, depth, rest)?;
        pairs.push(next)?;
        rest = after;
    }
}

/// A key and its value.
#[cycle(read)]
#[tactic(auto, unfolding(crate::specs::Reading::pair_at))]
fn pair(alloc: Global, depth: u64, bytes: &[u8]) -> Result<(Pair, &[u8]), CborRefusal>
    ensures { ReturnsReading (λ x. (x.0, x.1.now)) result (pair_at (item_at depth) bytes.now) }
{
    let (key, rest) = key(alloc, bytes)?;
    let (value, rest) = item(alloc, depth, rest)?;
    Ok((Pair { key, value }, rest))
}
