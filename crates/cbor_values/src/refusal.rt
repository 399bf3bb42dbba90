//! Why bytes are not read as a value.
ghost use Rattle.cbor_values.specs.declared.refusal.CborRefusal.TheVariants.{Memory};
ghost use Rattle.std.specs.Prelude.{◌≡◌};

use std::alloc::AllocError;
use thiserror::Error;

/// What is wrong with the bytes, or that memory ran out. Where several things are wrong, any of them may be returned.
#[derive(Debug, Drop, Error)]
pub enum CborRefusal {
    /// A head, a string or an item that is needed runs past the bytes.
    #[error("the bytes end inside an item")]
    Cut,
    /// A head that no read form has: reserved additional information, an indefinite length where none may be, a tag, a
    /// simple value other than `false`, `true` and `null`, a break in a wrong place, or a chunk of another kind.
    #[error("a head of no read form")]
    BadHead,
    /// A key of a map that is no text, or a break instead of a value.
    #[error("a key that is no text, or that has no value")]
    BadKey,
    /// A text, or a chunk of one, that isn't UTF-8 (RFC 3629).
    #[error("a text that isn't UTF-8")]
    BadUtf8,
    /// An integer below -2^63 or above 2^63 - 1.
    #[error("an integer of more than 64 bits")]
    OutOfRange,
    /// An item begins inside 32 arrays and maps.
    #[error("an item inside 32 arrays and maps")]
    TooDeep,
    /// Bytes follow the item.
    #[error("bytes after the item")]
    Trailing,
    /// Memory ran out.
    #[error(transparent)]
    Memory(AllocError),
}

impl From<AllocError> for CborRefusal {
    ghost from_gives = { λ error refusal. refusal ≡ Memory error };

    fn from(error: AllocError) -> CborRefusal {
        CborRefusal::Memory(error)
    }
}
