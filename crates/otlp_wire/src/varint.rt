//! Base 128 varints (protobuf encoding, "Base 128 Varints").

ghost use Rattle.std.specs.Prelude.{◌≡◌, ◌+◌, ◌<◌, ◌≤◌, ◌++◌, length, take, vec_len, vec_capacity, IfOk, IfErr, OnOk, OnErr};
ghost use Rattle.otlp_wire.specs.Varint.{IsVarint, varint};
ghost use Rattle.otlp_wire.specs.Reading.{Begins, VarintFaults};

use crate::parts::WireError;
use std::alloc::AllocError;

/// The most bytes that a varint of 64 bits has.
const MAX_LEN: usize = 10;

/// The index of the last of them.
const LAST: usize = MAX_LEN - 1;

/// The greatest value of the last of them, whose lowest bit is the 64th.
const MAX_LAST: u8 = 1;

/// The varint at the front of the bytes, and the bytes after it.
#[inline(always)]
pub(crate) fn take_varint(bytes: &[u8]) -> Result<(u64, &[u8]), WireError>
    ensures ok { IfOk result (λ r. Begins (λ front. IsVarint front r.0) bytes.now r.1.now) }
    ensures err { IfErr result (VarintFaults bytes.now) }
{
    match bytes {
        [byte, rest @ ..] if *byte < 128 => Ok((u64::from(*byte), rest)),
        _ => take_long_varint(bytes),
    }
}

/// The same without the short way of a varint of one byte.
#[inline(never)]
fn take_long_varint(bytes: &[u8]) -> Result<(u64, &[u8]), WireError>
    ensures ok { IfOk result (λ r. Begins (λ front. IsVarint front r.0) bytes.now r.1.now) }
    ensures err { IfErr result (VarintFaults bytes.now) }
{
    let mut value = 0;
    'bytes: for (i, byte) in bytes.iter().enumerate() {
        if i == LAST && *byte > MAX_LAST {
            return Err(WireError::BadVarint);
        }
        value += u64::from(*byte % 128) << (7 * i);
        if *byte < 128 {
            return Ok((value, &bytes[i + 1..]));
        }
    }
    Err(WireError::Cut)
}

/// How many bytes the shortest varint of the value has.
#[tactic(auto, using(crate::proofs::Shortest::varint_small, crate::proofs::Shortest::varint_large, crate::proofs::Shortest::ten_at_most))]
pub fn len_varint(value: u64) -> usize
    ensures len { result ≡ length (varint value) }
    ensures at_most_ten { result ≤ 10 }
{
    let mut len = 1;
    let mut rest = value;
    'sevens: while rest >= 128 {
        len += 1;
        rest /= 128;
    }
    len
}

/// The shortest varint of the value, in the first bytes of an array, and how many they are.
fn spell(value: u64) -> ([u8; MAX_LEN], usize)
    ensures spelling { take result.1 result.0 ≡ varint value }
    ensures len { result.1 ≡ length (varint value) }
    ensures room { result.1 ≤ length result.0 }
{
    let mut bytes = [0; MAX_LEN];
    let mut len = 0;
    let mut rest = value;
    'sevens: while rest >= 128 {
        bytes[len] = (rest % 128) as u8 + 128;
        len += 1;
        rest /= 128;
    }
    bytes[len] = rest as u8;
    (bytes, len + 1)
}

/// Appends the shortest varint of the value. After an `Err` the target is as it was.
pub fn put_varint(to: &mut Vec<u8>, value: u64) -> Result<(), AllocError>
    ensures ok { OnOk result (to.new.items ≡ to.old.items ++ varint value) }
    ensures err { OnErr result (to.new.items ≡ to.old.items) }
    ensures full { OnErr result (vec_capacity to.old < vec_len to.old + length (varint value)) }
    ensures capacity { vec_capacity to.old ≤ vec_capacity to.new }
{
    let (bytes, len) = spell(value);
    to.extend_from_slice(&bytes[..len])?;
    Ok(())
}
