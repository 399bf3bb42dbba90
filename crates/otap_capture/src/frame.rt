//! A frame of a capture, and what a step over a capture gives.
ghost use Rattle.otap_capture.specs.declared.frame.FramesRefusal.TheVariants.{Memory};
ghost use Rattle.std.specs.Prelude.{◌≡◌};

use std::alloc::AllocError;
use thiserror::Error;

/// How many bytes the head of a frame has: a flag, and four bytes of length.
pub const FRAME_HEAD: usize = 5;

/// A frame has at most this many bytes after its head.
pub const MAX_FRAME: u32 = 1 << 29;

/// Each frame of a capture begins below this offset.
pub const MAX_CAPTURE: u64 = 1 << 40;

/// A frame of a capture (gRPC's length-prefixed messages; the reset is this project's own mark).
#[derive(Clone, Copy, Debug, PartialEq, Eq)]
pub enum Frame<'f> {
    /// A message, by its bytes.
    Message(&'f [u8]),
    /// A compressed message, whose bytes are passed over.
    Packed,
    /// A reset of the stream.
    Reset,
}

/// Why no frame begins at an offset.
#[derive(Clone, Copy, Debug, PartialEq, Eq)]
pub enum Why {
    /// The bytes end within a frame.
    Truncated,
    /// The flag is above 2, or a reset has a length.
    BadFrame,
    /// The length is above [`MAX_FRAME`].
    TooLong,
    /// The frames before reach [`MAX_CAPTURE`].
    Endless,
}

/// An offset of a capture at which no frame begins, counted from 0, and the first reason why.
#[derive(Clone, Copy, Debug, PartialEq, Eq)]
pub struct Damage {
    /// The offset: how many bytes of the capture come before it.
    pub at: u64,
    /// The first reason.
    pub why: Why,
}

/// What comes next in a capture.
#[derive(Clone, Copy, Debug, PartialEq, Eq)]
pub enum Step {
    /// A frame.
    Frame,
    /// The capture ends well.
    End,
    /// No frame begins at this offset.
    Damage(Damage),
}

/// Why the next step of a capture was not returned. A further call goes on.
#[derive(Debug, Drop, Error)]
pub enum FramesRefusal {
    /// The source failed: its count of faults rose in that call.
    #[error("the source failed")]
    Source,
    /// Memory ran out.
    #[error(transparent)]
    Memory(AllocError),
}

impl From<AllocError> for FramesRefusal {
    ghost from_gives = { λ error refusal. refusal ≡ Memory error };

    fn from(error: AllocError) -> Self {
        FramesRefusal::Memory(error)
    }
}
