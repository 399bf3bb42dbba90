ghost use Rattle.std.specs.Prelude.{◌≡◌};
ghost use Rattle.arrow_file.specs.declared.refusal.FileRefusal.TheVariants.{BadFooter, Memory};

use flat_tables::FlatFault;
use std::alloc::AllocError;
use thiserror::Error;

/// Why bytes aren't taken as an Arrow file. Of the first five the first that holds is returned.
#[derive(Debug, Drop, Error)]
pub enum FileRefusal {
    /// There are more than [`MAX_FILE`](crate::MAX_FILE) bytes.
    #[error("the file is too long")]
    TooLong,
    /// There are fewer than 18 bytes, or they don't begin with `ARROW1` and two zero bytes, or don't end with `ARROW1`.
    #[error("the bytes don't begin and end as an Arrow file")]
    BadMagic,
    /// The footer's size is below zero or larger than the file has room for, or a part of the footer that is needed can't be
    /// read.
    #[error("the footer can't be read: {0}")]
    BadFooter(FlatFault),
    /// No Schema message is at offset 8.
    #[error("no Schema message is at its place")]
    BadSchema,
    /// At the offset of a block is no message of the block's kind, or it begins before the end of the one before it.
    #[error("no message is at the offset of a block")]
    BadBlock,
    /// Memory ran out.
    #[error("out of memory")]
    Memory(AllocError),
}

impl From<FlatFault> for FileRefusal {
    ghost from_gives = { λ fault refusal. refusal ≡ BadFooter fault };

    fn from(fault: FlatFault) -> FileRefusal {
        FileRefusal::BadFooter(fault)
    }
}

impl From<AllocError> for FileRefusal {
    ghost from_gives = { λ error refusal. refusal ≡ Memory error };

    fn from(error: AllocError) -> FileRefusal {
        FileRefusal::Memory(error)
    }
}
