//! What a job puts on its sinks for a frame.
ghost use Rattle.std.specs.Prelude.{◌≡◌, ◌≤◌, [], true, false, IfOk, length, string_bytes};
ghost use Rattle.otap_capture.specs.Capture.{longest_frame, message_frame, reset_frame};
ghost use Rattle.otap_capture.specs.Statuses.{status_content, canon_status};
ghost use Rattle.otap_gateway.specs.Lines.{printed, refuses};

use byteorder::{BigEndian, ByteOrder};
use otap_capture::{FRAME_HEAD, Status, write_status};
use otlp_messages::Backward;
use std::alloc::{AllocError, Global};
use std::marker::Model;

/// The bytes for out and for err, and whether the frame is refused.
#[derive(Drop)]
pub(crate) struct Reply {
    out: Backward,
    err: Vec<u8>,
    refused: bool,
}

impl Model for Reply {
    ghost use Rattle.otap_gateway.specs.Reply.{ReplyText};

    ghost Value = { ReplyText };

    ghost view = { λ s. record { out = s.out; err = s.err.items; refused = s.refused } };
}

impl Reply {
    /// A text on out.
    pub(crate) fn printed(alloc: Global, text: String) -> Reply
        ensures { result ≡ printed (string_bytes text) }
    {
        Reply::on_out(alloc, text.into_bytes())
    }

    /// A message on out, as a frame, whose head is written before it.
    pub(crate) fn message(alloc: Global, mut part: Backward) -> Result<Reply, AllocError>
        requires { length part ≤ longest_frame }
        ensures { IfOk result (λ reply. reply ≡ printed (message_frame part)) }
    {
        let mut head = [0; FRAME_HEAD];
        BigEndian::write_u32(&mut head[1..], part.len() as u32);
        part.push_slice(&head)?;
        Ok(Reply {
            out: part,
            err: Vec::new(alloc),
            refused: false,
        })
    }

    /// These bytes on out, as a frame.
    pub(crate) fn frame(alloc: Global, part: &[u8]) -> Result<Reply, AllocError>
        requires { length part.now ≤ longest_frame }
        ensures { IfOk result (λ reply. reply ≡ printed (message_frame part.now)) }
    {
        let mut head = [0; FRAME_HEAD];
        BigEndian::write_u32(&mut head[1..], part.len() as u32);
        let mut out = Vec::new(alloc);
        out.reserve(FRAME_HEAD + part.len())?;
        out.extend_from_slice(&head)?;
        out.extend_from_slice(part)?;
        Ok(Reply::on_out(alloc, out))
    }

    /// A reset on out.
    pub(crate) fn reset(alloc: Global) -> Result<Reply, AllocError>
        ensures { IfOk result (λ reply. reply ≡ printed reset_frame) }
    {
        Ok(Reply::on_out(alloc, [2, 0, 0, 0, 0].to_vec(alloc)?))
    }

    /// Bytes on out.
    pub(crate) fn on_out(alloc: Global, out: Vec<u8>) -> Reply
        ensures { result ≡ printed out.items }
    {
        Reply {
            out: Backward::from_vec(out),
            err: Vec::new(alloc),
            refused: false,
        }
    }

    /// A line on err, for a frame that isn't refused.
    pub(crate) fn on_err(alloc: Global, line: Vec<u8>) -> Reply
        ensures { result ≡ record { out = []; err = line.items; refused = false } }
    {
        Reply {
            out: Backward::new(alloc),
            err: line,
            refused: false,
        }
    }

    /// A refusal, by its line on err.
    pub(crate) fn refusal(alloc: Global, line: Vec<u8>) -> Reply
        ensures { result ≡ refuses line.items }
    {
        Reply {
            out: Backward::new(alloc),
            err: line,
            refused: true,
        }
    }

    /// A status on out, as a frame.
    pub(crate) fn status(alloc: Global, status: &Status<'_>) -> Result<Reply, AllocError>
        ensures { IfOk result (λ reply. reply ≡ printed (message_frame (canon_status (status_content status.now)))) }
    {
        let part = write_status(alloc, status)?;
        let Ok(size) = u32::try_from(part.len()) else {
            return Err(AllocError);
        };
        let mut head = [0; FRAME_HEAD];
        BigEndian::write_u32(&mut head[1..], size);
        let mut out = head.to_vec(alloc)?;
        out.extend_from_slice(&part)?;
        Ok(Reply::on_out(alloc, out))
    }

    /// The reply, to a frame that is refused by this line on err.
    pub(crate) fn refusing(self, line: Vec<u8>) -> Reply
        ensures { result ≡ record { out = self.out; err = line.items; refused = true } }
    {
        let Reply { out, .. } = self;
        Reply {
            out,
            err: line,
            refused: true,
        }
    }

    pub(crate) fn out(&self) -> &[u8]
        ensures { result.now ≡ self.now.out }
    {
        self.out.as_slice()
    }

    pub(crate) fn err(&self) -> &[u8]
        ensures { result.now ≡ self.now.err }
    {
        &self.err
    }

    /// The bytes for out, with their memory.
    pub(crate) fn into_out(self) -> Backward
        ensures { result ≡ self.out }
    {
        let Reply {
            out,
            err: _,
            refused: _,
        } = self;
        out
    }

    pub(crate) fn is_refused(&self) -> bool
        ensures { result ≡ self.now.refused }
    {
        self.refused
    }

    /// Whether there are bytes for out or for err.
    pub(crate) fn is_written(&self) -> bool
        ensures { result ≡ false → (self.now.out ≡ []) × (self.now.err ≡ []) }
    {
        !self.out.is_empty() || !self.err.is_empty()
    }
}
