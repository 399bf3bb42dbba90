//! Bytes as a text, where they are UTF-8.
ghost use Rattle.std.specs.Prelude.{◌≡◌, ◌≤◌, ◌<◌, ◌+◌, true, length, slice_index, IsUtf8, ℕ};
ghost use Rattle.std.specs.Option.{MatchOption};
ghost use Rattle.std.specs.Str.{IsAscii};

use byteorder::{ByteOrder, LittleEndian};

/// The highest bit of each of eight bytes.
const HIGH_BITS: u64 = 0x8080_8080_8080_8080;

/// The bytes as a text; `None` exactly where they aren't UTF-8 (RFC 3629). ASCII is recognised eight bytes at a time; other texts are
/// left to std.
#[inline]
pub fn as_utf8(part: &[u8]) -> Option<&str>
    ensures { MatchOption result (IsUtf8 part.now → ⊥) (λ text. (text.now ≡ part.now) × IsUtf8 part.now) }
{
    if is_ascii(part) {
        // SAFETY: ASCII is UTF-8.
        return Some(unsafe { str::from_utf8_unchecked(part) });
    }
    match str::from_utf8(part) {
        Ok(text) => Some(text),
        Err(_) => None,
    }
}

/// Whether each byte is ASCII. The last look is at the last eight bytes, some of which may have been seen before.
#[inline]
fn is_ascii(part: &[u8]) -> bool
    ensures { result ≡ true → IsAscii part.now }
{
    if part.len() < 8 {
        return are_ascii(part);
    }
    let last = part.len() - 8;
    let mut at = 0;
    'words: while at < last {
        if !is_ascii_at(part, at) {
            return false;
        }
        at += 8;
    }
    is_ascii_at(part, last)
}

/// Whether the eight bytes from an offset on are ASCII.
#[inline(always)]
fn is_ascii_at(part: &[u8], at: usize) -> bool
    requires { at + 8 ≤ length part.now }
    ensures { result ≡ true → (k : ℕ) → at ≤ k → k < at + 8 → slice_index part.now k < 128 }
{
    LittleEndian::read_u64(&part[at..]) & HIGH_BITS == 0
}

/// The same of a few bytes, one by one.
#[inline(always)]
fn are_ascii(part: &[u8]) -> bool
    ensures { result ≡ true → IsAscii part.now }
{
    'bytes: for byte in part {
        if *byte >= 128 {
            return false;
        }
    }
    true
}
