//! Byte strings and texts, whole or in chunks (RFC 8949, section 3.2.3).

ghost use Rattle.std.specs.Prelude.{◌≡◌, ◌++◌, OnOk};
ghost use Rattle.lists.specs.Results.{Gives};
ghost use Rattle.cbor_values.specs.Returned.{ReturnsReading};
ghost use Rattle.cbor_values.specs.Reading.{chunks_at, letters_at, octets_chunk_at, text_chunk_at, octets_at, text_at, key_at};

use crate::heads::{Head, after_break, part, read_head};
use crate::refusal::CborRefusal;
use lists::as_utf8;
use otlp_model::{Octets, Text};
use std::alloc::{AllocError, Global};

/// The byte string after its head, and the bytes after that.
#[tactic(auto, unfolding(crate::specs::Reading::octets_at))]
pub(crate) fn octets(
    alloc: Global,
    length: Option<u64>,
    bytes: &[u8],
) -> Result<(Octets, &[u8]), CborRefusal>
    ensures { ReturnsReading (λ x. (x.0, x.1.now)) result (octets_at length bytes.now) }
{
    match length {
        Some(len) => {
            let (part, rest) = part(len, bytes)?;
            Ok((Octets::from_slice(alloc, part)?, rest))
        }
        None => chunked_octets(alloc, bytes),
    }
}

fn chunked_octets(alloc: Global, bytes: &[u8]) -> Result<(Octets, &[u8]), CborRefusal>
    ensures { ReturnsReading (λ x. (x.0, x.1.now)) result (chunks_at octets_chunk_at bytes.now) }
{
    let mut octets = Octets::new(alloc);
    let mut rest = bytes;
    'parts: loop {
        if let Some(after) = after_break(rest) {
            return Ok((octets, after));
        }
        let (part, after) = octets_chunk(rest)?;
        append_octets(&mut octets, part)?;
        rest = after;
    }
}

#[tactic(auto, unfolding(crate::specs::Reading::octets_chunk_at))]
pub(crate) fn octets_chunk(bytes: &[u8]) -> Result<(&[u8], &[u8]), CborRefusal>
    ensures reads { ReturnsReading (λ x. (x.0.now, x.1.now)) result (octets_chunk_at bytes.now) }
    ensures exact { Gives (λ x. (x.0.now, x.1.now)) result (octets_chunk_at bytes.now) }
{
    let (head, rest) = read_head(bytes)?;
    match head {
        Head::Bytes(Some(len)) => part(len, rest),
        _ => Err(CborRefusal::BadHead),
    }
}

fn append_octets(octets: &mut Octets, part: &[u8]) -> Result<(), AllocError>
    ensures { OnOk result (octets.new ≡ octets.old ++ part.now) }
{
    for byte in part {
        octets.push(*byte)?;
    }
    Ok(())
}

/// The key of a pair, and the bytes after it.
#[tactic(auto, unfolding(crate::specs::Reading::key_at))]
pub(crate) fn key(alloc: Global, bytes: &[u8]) -> Result<(Text, &[u8]), CborRefusal>
    ensures { ReturnsReading (λ x. (x.0, x.1.now)) result (key_at bytes.now) }
{
    let (head, rest) = read_head(bytes)?;
    match head {
        Head::Text(length) => text(alloc, length, rest),
        _ => Err(CborRefusal::BadKey),
    }
}

/// The text after its head, and the bytes after that.
#[tactic(auto, unfolding(crate::specs::Reading::text_at))]
pub(crate) fn text(
    alloc: Global,
    length: Option<u64>,
    bytes: &[u8],
) -> Result<(Text, &[u8]), CborRefusal>
    ensures { ReturnsReading (λ x. (x.0, x.1.now)) result (text_at length bytes.now) }
{
    match length {
        Some(len) => {
            let (letters, rest) = letters(len, bytes)?;
            Ok((Text::from_str(alloc, letters)?, rest))
        }
        None => chunked_text(alloc, bytes),
    }
}

fn chunked_text(alloc: Global, bytes: &[u8]) -> Result<(Text, &[u8]), CborRefusal>
    ensures { ReturnsReading (λ x. (x.0, x.1.now)) result (chunks_at text_chunk_at bytes.now) }
{
    let mut text = Text::new(alloc);
    let mut rest = bytes;
    'parts: loop {
        if let Some(after) = after_break(rest) {
            return Ok((text, after));
        }
        let (letters, after) = text_chunk(rest)?;
        append_letters(&mut text, letters)?;
        rest = after;
    }
}

#[tactic(auto, unfolding(crate::specs::Reading::text_chunk_at))]
pub(crate) fn text_chunk(bytes: &[u8]) -> Result<(&str, &[u8]), CborRefusal>
    ensures reads { ReturnsReading (λ x. (x.0.now, x.1.now)) result (text_chunk_at bytes.now) }
    ensures exact { Gives (λ x. (x.0.now, x.1.now)) result (text_chunk_at bytes.now) }
{
    let (head, rest) = read_head(bytes)?;
    match head {
        Head::Text(Some(len)) => letters(len, rest),
        _ => Err(CborRefusal::BadHead),
    }
}

fn append_letters(text: &mut Text, letters: &str) -> Result<(), AllocError>
    ensures { OnOk result (text.new ≡ text.old ++ letters.now) }
{
    for letter in letters.chars() {
        text.push(letter)?;
    }
    Ok(())
}

/// The first `len` bytes, which are to be UTF-8, and the bytes after them.
#[tactic(auto, unfolding(crate::specs::Reading::letters_at))]
pub(crate) fn letters(len: u64, bytes: &[u8]) -> Result<(&str, &[u8]), CborRefusal>
    ensures reads { ReturnsReading (λ x. (x.0.now, x.1.now)) result (letters_at len bytes.now) }
    ensures exact { Gives (λ x. (x.0.now, x.1.now)) result (letters_at len bytes.now) }
{
    let (part, rest) = part(len, bytes)?;
    match as_utf8(part) {
        Some(letters) => Ok((letters, rest)),
        None => Err(CborRefusal::BadUtf8),
    }
}
