ghost use Rattle.otlp_codec.specs.declared.refusal.ReadRefusal.TheVariants.{Memory};
ghost use Rattle.otlp_codec.specs.Refusals.{refusal_of};
ghost use Rattle.std.specs.Prelude.{◌≡◌};

use otlp_messages::Defect;
use std::alloc::AllocError;
use thiserror::Error;

/// Why bytes are not read as a request. Where several of these are in the bytes, any of them may be
/// named.
#[derive(Debug, Drop, Error)]
pub enum ReadRefusal {
    /// The bytes do not end with a whole field, a known field has another wire type, or the bytes of packed 64 bits are
    /// no multiple of 8.
    #[error("the message is malformed")]
    BadMessage,
    /// A singular field occurs twice, or two members of one oneof.
    #[error("a singular field occurs twice")]
    Repeated,
    /// A string is not UTF-8.
    #[error("a string is not UTF-8")]
    BadUtf8,
    /// A trace id has neither 0 nor 16 bytes, or a span id neither 0 nor 8.
    #[error("an id has another length")]
    BadLength,
    /// A shape of metric occurs that is left out.
    #[error("a message occurs that is not supported")]
    Unsupported,
    /// A member of an array or of a key-value list is inside 32 of them.
    #[error("a value is nested too deep")]
    TooDeep,
    /// Memory ran out.
    #[error(transparent)]
    Memory(AllocError),
}

impl From<Defect> for ReadRefusal {
    ghost from_gives = { λ defect refusal. refusal ≡ refusal_of defect };

    fn from(defect: Defect) -> Self {
        match defect {
            Defect::BadMessage => ReadRefusal::BadMessage,
            Defect::Repeated => ReadRefusal::Repeated,
            Defect::BadUtf8 => ReadRefusal::BadUtf8,
            Defect::BadLength => ReadRefusal::BadLength,
            Defect::Unsupported => ReadRefusal::Unsupported,
            Defect::TooDeep => ReadRefusal::TooDeep,
        }
    }
}

impl From<AllocError> for ReadRefusal {
    ghost from_gives = { λ error refusal. refusal ≡ Memory error };

    fn from(error: AllocError) -> Self {
        ReadRefusal::Memory(error)
    }
}
