//! The heads of items (RFC 8949, section 3).

ghost use Rattle.std.specs.Prelude.{◌≡◌, ◌<◌};
ghost use Rattle.std.specs.Option.{option_map};
ghost use Rattle.lists.specs.Results.{Gives};
ghost use Rattle.cbor_values.specs.Returned.{ReturnsReading};
ghost use Rattle.cbor_values.specs.Reading.{front_part, argument_at, head_by, head_at, break_at};

use crate::floats::{half, single};
use crate::refusal::CborRefusal;
use byteorder::{BigEndian, ByteOrder};

/// Major types (RFC 8949, section 3.1).
pub(crate) const WHOLE: u8 = 0;

pub(crate) const NEGATIVE: u8 = 1;

pub(crate) const BYTES: u8 = 2;

pub(crate) const TEXT: u8 = 3;

pub(crate) const ARRAY: u8 = 4;

pub(crate) const MAP: u8 = 5;

/// First bytes of major type 7 (RFC 8949, section 3.3).
pub(crate) const FALSE: u8 = 0xf4;

pub(crate) const TRUE: u8 = 0xf5;

pub(crate) const NULL: u8 = 0xf6;

const HALF: u8 = 0xf9;

const SINGLE: u8 = 0xfa;

pub(crate) const DOUBLE: u8 = 0xfb;

const BREAK: u8 = 0xff;

/// The head of an item. A length is `None` where it is indefinite.
#[derive(Clone, Copy, Debug)]
pub(crate) enum Head {
    /// This number.
    Whole(u64),
    /// -1 minus this number.
    Negative(u64),
    Bytes(Option<u64>),
    Text(Option<u64>),
    Array(Option<u64>),
    Map(Option<u64>),
    Bool(bool),
    Null,
    Double(u64),
}

/// The head at the front of the bytes, and the bytes after it.
#[tactic(auto, unfolding(crate::specs::Reading::head_at))]
pub(crate) fn read_head(bytes: &[u8]) -> Result<(Head, &[u8]), CborRefusal>
    ensures reads { ReturnsReading (λ x. (x.0, x.1.now)) result (head_at bytes.now) }
    ensures exact { Gives (λ x. (x.0, x.1.now)) result (head_at bytes.now) }
{
    let Some((&first, rest)) = bytes.split_first() else {
        return Err(CborRefusal::Cut);
    };
    match first {
        FALSE => Ok((Head::Bool(false), rest)),
        TRUE => Ok((Head::Bool(true), rest)),
        NULL => Ok((Head::Null, rest)),
        HALF => {
            let (bits, rest) = part(2, rest)?;
            Ok((Head::Double(half(BigEndian::read_u16(bits))), rest))
        }
        SINGLE => {
            let (bits, rest) = part(4, rest)?;
            Ok((Head::Double(single(BigEndian::read_u32(bits))), rest))
        }
        DOUBLE => {
            let (bits, rest) = part(8, rest)?;
            Ok((Head::Double(BigEndian::read_u64(bits)), rest))
        }
        _ => {
            let (argument, rest) = argument(first % 32, rest)?;
            Ok((kind(first / 32, argument)?, rest))
        }
    }
}

/// The head of this major type below 6 with this argument.
#[tactic(auto, unfolding(crate::specs::Reading::head_by))]
fn kind(major: u8, argument: Option<u64>) -> Result<Head, CborRefusal>
    ensures reads { ReturnsReading (λ head. head) result (head_by major argument) }
    ensures exact { Gives (λ head. head) result (head_by major argument) }
{
    match (major, argument) {
        (WHOLE, Some(n)) => Ok(Head::Whole(n)),
        (NEGATIVE, Some(n)) => Ok(Head::Negative(n)),
        (BYTES, length) => Ok(Head::Bytes(length)),
        (TEXT, length) => Ok(Head::Text(length)),
        (ARRAY, length) => Ok(Head::Array(length)),
        (MAP, length) => Ok(Head::Map(length)),
        _ => Err(CborRefusal::BadHead),
    }
}

/// The argument of a head, by its additional information, and the bytes after it; `None` for an indefinite length.
#[tactic(auto, using(crate::proofs::Fractions::width_small), unfolding(crate::specs::Reading::argument_at))]
fn argument(info: u8, bytes: &[u8]) -> Result<(Option<u64>, &[u8]), CborRefusal>
    ensures reads { ReturnsReading (λ x. (x.0, x.1.now)) result (argument_at info bytes.now) }
    ensures exact { Gives (λ x. (x.0, x.1.now)) result (argument_at info bytes.now) }
{
    match info {
        0..24 => Ok((Some(u64::from(info)), bytes)),
        24..28 => {
            let width = 1 << (info - 24);
            let (number, rest) = part(width, bytes)?;
            Ok((Some(BigEndian::read_uint(number, width as usize)), rest))
        }
        31 => Ok((None, bytes)),
        _ => Err(CborRefusal::BadHead),
    }
}

/// The first `len` bytes, and the bytes after them.
pub(crate) fn part(len: u64, bytes: &[u8]) -> Result<(&[u8], &[u8]), CborRefusal>
    ensures reads { ReturnsReading (λ x. (x.0.now, x.1.now)) result (front_part len bytes.now) }
    ensures exact { Gives (λ x. (x.0.now, x.1.now)) result (front_part len bytes.now) }
{
    if len > bytes.len() as u64 {
        return Err(CborRefusal::Cut);
    }
    Ok(bytes.split_at(len as usize))
}

/// The bytes after a break, where the bytes begin with one.
pub(crate) fn after_break(bytes: &[u8]) -> Option<&[u8]>
    ensures { option_map (λ rest. rest.now) result ≡ break_at bytes.now }
{
    match bytes.split_first() {
        Some((&BREAK, rest)) => Some(rest),
        _ => None,
    }
}
