//! What is at the front of the bytes of a capture that are left.
ghost use Rattle.std.specs.Prelude.{◌≡◌};
ghost use Rattle.otap_capture.specs.Cutting.{StandsAt, StandsAfter, leaves_open};

use crate::frame::{MAX_CAPTURE, MAX_FRAME, Why};
use byteorder::{BigEndian, ByteOrder};

#[derive(Clone, Copy)]
pub(crate) enum Flag {
    Message,
    Packed,
    Reset,
}

#[derive(Clone, Copy)]
pub(crate) enum NextFrame {
    /// A frame with that flag and that number of bytes after its head.
    Frame(Flag, usize),
    End,
    Nothing(Why),
}

impl NextFrame {
    /// Whether more bytes could change it.
    pub(crate) fn is_open(&self) -> bool
        ensures { result ≡ leaves_open self.now }
    {
        matches!(self, NextFrame::End | NextFrame::Nothing(Why::Truncated))
    }
}

pub(crate) fn front_at(place: u64, bytes: &[u8]) -> NextFrame
    ensures { StandsAt place bytes.now result }
{
    if place >= MAX_CAPTURE {
        return NextFrame::Nothing(Why::Endless);
    }
    match bytes {
        [] => NextFrame::End,
        [flag, a, b, c, d, rest @ ..] => {
            let size = BigEndian::read_u32(&[*a, *b, *c, *d]);
            front_after(*flag, size, rest.len())
        }
        _ => NextFrame::Nothing(Why::Truncated),
    }
}

/// What a head is, with that number of bytes after it.
fn front_after(byte: u8, size: u32, left: usize) -> NextFrame
    ensures { StandsAfter byte size left result }
{
    let flag = match byte {
        0 => Flag::Message,
        1 => Flag::Packed,
        2 if size == 0 => Flag::Reset,
        _ => return NextFrame::Nothing(Why::BadFrame),
    };
    if size > MAX_FRAME {
        return NextFrame::Nothing(Why::TooLong);
    }
    let size = size as usize;
    if left < size {
        return NextFrame::Nothing(Why::Truncated);
    }
    NextFrame::Frame(flag, size)
}
