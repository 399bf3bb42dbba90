//! What an encoded value weighs and whether it holds others, read without building it.
ghost use Rattle.std.specs.Prelude.{◌≡◌, None, IfErr, IfOk, OnOk, length};
ghost use Rattle.cbor_values.specs.declared.heads.Head.TheVariants as heads;
ghost use Rattle.cbor_values.specs.declared.refusal.CborRefusal.{CborRefusal};
ghost use Rattle.cbor_values.specs.Refusals.{Stands};
ghost use Rattle.cbor_values.specs.Values.{value_of};
ghost use Rattle.cbor_values.specs.Reading.{all_at, body_at, chunks_at, item_at, key_at, many_at, octets_at, octets_chunk_at, open_at, pair_at, text_at, text_chunk_at, whole_of};
ghost use Rattle.cbor_values.specs.Weighing.{IsWeighed, weighed};
ghost use Rattle.lists.specs.Results.{Gives};
ghost use Rattle.cbor_values.specs.Returned.{TellsReading, TellsAll, long, pair_weighed, told_of, weight_of_members, weight_of_pairs};

use crate::heads::{Head, after_break, part, read_head};
use crate::refusal::CborRefusal;
use crate::strings::{letters, octets_chunk, text_chunk};
use otlp_model::{CAP, MAX_DEPTH, PART_WEIGHT, add_capped, capped_len};

/// Whether a value holds others.
#[derive(Clone, Copy, Debug, PartialEq, Eq)]
pub enum Nesting {
    /// A map.
    Map,
    /// An array.
    Array,
    /// Neither: it holds no others.
    Plain,
}

/// What weighing a value returns.
#[derive(Clone, Copy, Debug)]
pub struct WeighedValue {
    pub nesting: Nesting,
    /// The weight, or `CAP` where it is more.
    pub weight: u64,
}

/// What the value of the bytes weighs, and whether it holds others. It builds nothing and takes no memory, and refuses what
/// [`read_value`](crate::read_value) refuses.
pub fn weigh_value(bytes: &[u8]) -> Result<WeighedValue, CborRefusal>
    ensures found { IfOk result (IsWeighed bytes.now) }
    ensures fine { OnOk result ((refusal : CborRefusal) → Stands refusal bytes.now → ⊥) }
    ensures refused { IfErr result (λ refusal. Stands refusal bytes.now) }
    ensures none { IfErr result (λ refusal. value_of bytes.now ≡ None) }
{
    all(bytes)
}

#[tactic(auto, unfolding(crate::specs::Reading::all_at))]
fn all(bytes: &[u8]) -> Result<WeighedValue, CborRefusal>
    ensures { TellsAll weighed result (all_at bytes.now) }
{
    let (told, rest) = item(MAX_DEPTH, bytes)?;
    if !rest.is_empty() {
        return Err(CborRefusal::Trailing);
    }
    Ok(told)
}

/// Weighs the item at the front, which may be `depth` deep; also returns the bytes after it.
#[cycle(weigh)]
#[tactic(auto, unfolding(crate::specs::Reading::item_at))]
fn item(depth: u64, bytes: &[u8]) -> Result<(WeighedValue, &[u8]), CborRefusal>
    ensures { TellsReading (λ x. (x.0, x.1.now)) weighed result (item_at depth bytes.now) }
{
    let (head, rest) = read_head(bytes)?;
    if depth == 0 {
        return Err(CborRefusal::TooDeep);
    }
    body(depth - 1, head, rest)
}

/// Weighs an item after its head. Its members may be `depth` deep.
#[cycle(weigh)]
#[tactic(auto, unfolding(crate::specs::Reading::body_at))]
fn body(depth: u64, head: Head, bytes: &[u8]) -> Result<(WeighedValue, &[u8]), CborRefusal>
    ensures { TellsReading (λ x. (x.0, x.1.now)) weighed result (body_at (item_at depth) head bytes.now) }
{
    match head {
        Head::Null => Ok((told(Nesting::Plain, 0), bytes)),
        Head::Bool(_) => Ok((told(Nesting::Plain, 0), bytes)),
        Head::Double(_) => Ok((told(Nesting::Plain, 0), bytes)),
        Head::Whole(n) => {
            whole(n)?;
            Ok((told(Nesting::Plain, 0), bytes))
        }
        Head::Negative(n) => {
            whole(n)?;
            Ok((told(Nesting::Plain, 0), bytes))
        }
        Head::Bytes(length) => {
            let (weight, rest) = octets(length, bytes)?;
            Ok((told(Nesting::Plain, weight), rest))
        }
        Head::Text(length) => {
            let (weight, rest) = text(length, bytes)?;
            Ok((told(Nesting::Plain, weight), rest))
        }
        Head::Array(count) => array(depth, count, bytes),
        Head::Map(count) => map(depth, count, bytes),
    }
}

#[cycle(weigh)]
#[tactic(auto, unfolding(crate::specs::Reading::body_at))]
fn array(depth: u64, count: Option<u64>, bytes: &[u8]) -> Result<(WeighedValue, &[u8]), CborRefusal>
    ensures { TellsReading (λ x. (x.0, x.1.now)) weighed result (body_at (item_at depth) (heads.Array count) bytes.now) }
{
    match count {
        Some(count) => {
            let (weight, rest) = members(depth, count, bytes)?;
            Ok((told(Nesting::Array, weight), rest))
        }
        None => {
            let (weight, rest) = open_members(depth, bytes)?;
            Ok((told(Nesting::Array, weight), rest))
        }
    }
}

#[cycle(weigh)]
#[tactic(auto, unfolding(crate::specs::Reading::body_at))]
fn map(depth: u64, count: Option<u64>, bytes: &[u8]) -> Result<(WeighedValue, &[u8]), CborRefusal>
    ensures { TellsReading (λ x. (x.0, x.1.now)) weighed result (body_at (item_at depth) (heads.Map count) bytes.now) }
{
    match count {
        Some(count) => {
            let (weight, rest) = pairs(depth, count, bytes)?;
            Ok((told(Nesting::Map, weight), rest))
        }
        None => {
            let (weight, rest) = open_pairs(depth, bytes)?;
            Ok((told(Nesting::Map, weight), rest))
        }
    }
}

fn told(nesting: Nesting, weight: u64) -> WeighedValue
    ensures { result ≡ told_of nesting weight }
{
    WeighedValue { nesting, weight }
}

/// Refuses a number that isn't below 2^63.
fn whole(n: u64) -> Result<(), CborRefusal>
    ensures { Gives (λ unit. n) result (whole_of n) }
{
    if n < CAP {
        Ok(())
    } else {
        Err(CborRefusal::OutOfRange)
    }
}

/// What `count` members of an array weigh.
#[cycle(weigh)]
fn members(depth: u64, count: u64, bytes: &[u8]) -> Result<(u64, &[u8]), CborRefusal>
    ensures { TellsReading (λ x. (x.0, x.1.now)) weight_of_members result (many_at (item_at depth) count bytes.now) }
{
    let mut weight = 0;
    let mut rest = bytes;
    for _ in 0..count {
        let (member, after) = item(depth, rest)?;
        weight = add_capped(weight, add_capped(PART_WEIGHT, member.weight));
        rest = after;
    }
    Ok((weight, rest))
}

/// What the members of an array up to its break weigh.
#[cycle(weigh)]
fn open_members(depth: u64, bytes: &[u8]) -> Result<(u64, &[u8]), CborRefusal>
    ensures { TellsReading (λ x. (x.0, x.1.now)) weight_of_members result (open_at (item_at depth) bytes.now) }
{
    let mut weight = 0;
    let mut rest = bytes;
    'members: loop {
        if let Some(after) = after_break(rest) {
            return Ok((weight, after));
        }
        let (member, after) = item(depth, rest)?;
        weight = add_capped(weight, add_capped(PART_WEIGHT, member.weight));
        rest = after;
    }
}

/// What `count` pairs of a map weigh.
#[cycle(weigh)]
fn pairs(depth: u64, count: u64, bytes: &[u8]) -> Result<(u64, &[u8]), CborRefusal>
    ensures { TellsReading (λ x. (x.0, x.1.now)) weight_of_pairs result (many_at (pair_at (item_at depth)) count bytes.now) }
{
    let mut weight = 0;
    let mut rest = bytes;
    for _ in 0..count {
        let (own, after) = pair(depth, rest)?;
        weight = add_capped(weight, add_capped(PART_WEIGHT, own));
        rest = after;
    }
    Ok((weight, rest))
}

/// What the pairs of a map up to its break weigh.
#[cycle(weigh)]
fn open_pairs(depth: u64, bytes: &[u8]) -> Result<(u64, &[u8]), CborRefusal>
    ensures { TellsReading (λ x. (x.0, x.1.now)) weight_of_pairs result (open_at (pair_at (item_at depth)) bytes.now) }
{
    let mut weight = 0;
    let mut rest = bytes;
    'pairs: loop {
        if let Some(after) = after_break(rest) {
            return Ok((weight, after));
        }
        let (own, after) = pair(depth, rest)?;
        weight = add_capped(weight, add_capped(PART_WEIGHT, own));
        rest = after;
    }
}

/// What a key and its value weigh.
#[cycle(weigh)]
#[tactic(auto, unfolding(crate::specs::Reading::pair_at))]
fn pair(depth: u64, bytes: &[u8]) -> Result<(u64, &[u8]), CborRefusal>
    ensures { TellsReading (λ x. (x.0, x.1.now)) pair_weighed result (pair_at (item_at depth) bytes.now) }
{
    let (key, rest) = key(bytes)?;
    let (value, rest) = item(depth, rest)?;
    Ok((add_capped(key, value.weight), rest))
}

/// How long a key is.
#[tactic(auto, unfolding(crate::specs::Reading::key_at))]
fn key(bytes: &[u8]) -> Result<(u64, &[u8]), CborRefusal>
    ensures { TellsReading (λ x. (x.0, x.1.now)) long result (key_at bytes.now) }
{
    let (head, rest) = read_head(bytes)?;
    match head {
        Head::Text(length) => text(length, rest),
        _ => Err(CborRefusal::BadKey),
    }
}

/// How long a byte string is.
#[tactic(auto, unfolding(crate::specs::Reading::octets_at))]
fn octets(length: Option<u64>, bytes: &[u8]) -> Result<(u64, &[u8]), CborRefusal>
    ensures { TellsReading (λ x. (x.0, x.1.now)) long result (octets_at length bytes.now) }
{
    match length {
        Some(len) => {
            let (part, rest) = part(len, bytes)?;
            Ok((capped_len(part), rest))
        }
        None => chunked_octets(bytes),
    }
}

fn chunked_octets(bytes: &[u8]) -> Result<(u64, &[u8]), CborRefusal>
    ensures { TellsReading (λ x. (x.0, x.1.now)) long result (chunks_at octets_chunk_at bytes.now) }
{
    let mut len = 0;
    let mut rest = bytes;
    'parts: loop {
        if let Some(after) = after_break(rest) {
            return Ok((len, after));
        }
        let (part, after) = octets_chunk(rest)?;
        len = add_capped(len, capped_len(part));
        rest = after;
    }
}

/// How long a text is.
#[tactic(auto, unfolding(crate::specs::Reading::text_at))]
fn text(length: Option<u64>, bytes: &[u8]) -> Result<(u64, &[u8]), CborRefusal>
    ensures { TellsReading (λ x. (x.0, x.1.now)) long result (text_at length bytes.now) }
{
    match length {
        Some(len) => {
            let (letters, rest) = letters(len, bytes)?;
            Ok((capped_len(letters.as_bytes()), rest))
        }
        None => chunked_text(bytes),
    }
}

fn chunked_text(bytes: &[u8]) -> Result<(u64, &[u8]), CborRefusal>
    ensures { TellsReading (λ x. (x.0, x.1.now)) long result (chunks_at text_chunk_at bytes.now) }
{
    let mut len = 0;
    let mut rest = bytes;
    'parts: loop {
        if let Some(after) = after_break(rest) {
            return Ok((len, after));
        }
        let (letters, after) = text_chunk(rest)?;
        len = add_capped(len, capped_len(letters.as_bytes()));
        rest = after;
    }
}
