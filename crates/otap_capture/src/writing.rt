//! Frames are written.
ghost use Rattle.std.specs.Prelude.{◌≤◌, length, OnOk};
ghost use Rattle.std.specs.Io.KnownBytes.{Appends, Keeps};
ghost use Rattle.otap_capture.specs.Capture.{longest_frame, message_frame, reset_frame};
ghost use Rattle.otap_capture.specs.Outside.{SinkCounts, AppendsFront};

use crate::frame::FRAME_HEAD;
use crate::outside::{Sink, SinkRefusal, write_whole};
use byteorder::{BigEndian, ByteOrder};

/// Writes a message as a frame. After a refusal the sink holds a front of the frame more than before.
pub fn write_frame<O: Sink>(sink: &mut O, part: &[u8]) -> Result<(), SinkRefusal>
    requires { length part.now ≤ longest_frame }
    ensures whole { OnOk result (Appends (O.written sink.old) (O.written sink.new) (message_frame part.now)) }
    ensures front { AppendsFront (O.written sink.old) (O.written sink.new) (message_frame part.now) }
    ensures kept { Keeps (O.passed sink.old) (O.passed sink.new) }
    ensures count { SinkCounts (O.faults sink.old) (O.faults sink.new) result }
{
    let mut head = [0; FRAME_HEAD];
    BigEndian::write_u32(&mut head[1..], part.len() as u32);
    write_whole(sink, &head)?;
    write_whole(sink, part)
}

/// Writes a reset. After a refusal the sink holds a front of it more than before.
pub fn write_reset<O: Sink>(sink: &mut O) -> Result<(), SinkRefusal>
    ensures whole { OnOk result (Appends (O.written sink.old) (O.written sink.new) reset_frame) }
    ensures front { AppendsFront (O.written sink.old) (O.written sink.new) reset_frame }
    ensures kept { Keeps (O.passed sink.old) (O.passed sink.new) }
    ensures count { SinkCounts (O.faults sink.old) (O.faults sink.new) result }
{
    write_whole(sink, &[2, 0, 0, 0, 0])
}
