//! A status: what a Collector replies to a batch message.

ghost use Rattle.std.specs.Prelude.{◌≡◌, IfOk, IfErr};
ghost use Rattle.otlp_messages.specs.Defects.{IsFine};
ghost use Rattle.otap_capture.specs.Statuses.{status_content, status_in, canon_status, ReadsStatus, RefusesStatus};

use crate::batch::{BatchRefusal, refusal_of};
use otlp_messages::{Backward, Message, bytes_of, check, int32_of, int64_of};
use std::alloc::{AllocError, Global};

/// A status: the id of the batch, the code (0 where it was accepted), and a message for a reader.
#[derive(Clone, Copy, Debug, PartialEq, Eq)]
pub struct Status<'a> {
    pub id: i64,
    pub code: i32,
    pub message: &'a str,
}

/// Reads a status (BatchStatus), where it lies.
pub fn read_status(bytes: &[u8]) -> Result<Status<'_>, BatchRefusal>
    ensures read { IfOk result (λ status. ReadsStatus bytes.now (status_content status)) }
    ensures refused { IfErr result (RefusesStatus bytes.now) }
{
    if let Err(defect) = check(Message::BatchStatus, 0, bytes) {
        return Err(refusal_of(defect));
    }
    Ok(status_of(bytes))
}

/// What the fields of a status say, in which no defect is.
pub(crate) fn status_of(bytes: &[u8]) -> Status<'_>
    requires { IsFine Message.BatchStatus 0 bytes.now }
    ensures { status_content result ≡ status_in bytes.now }
{
    let Ok(message) = std::str::from_utf8(bytes_of(bytes, 3)) else {
        unreachable!()
    };
    Status {
        id: int64_of(bytes, 1),
        code: int32_of(bytes, 2),
        message,
    }
}

/// The canonical spelling of a status.
pub fn write_status(alloc: Global, status: &Status<'_>) -> Result<Vec<u8>, AllocError>
    ensures { IfOk result (λ bytes. bytes.items ≡ canon_status (status_content status.now)) }
{
    let Status { id, code, message } = *status;
    let mut to = Backward::new(alloc);
    to.put_bytes_row(3, message.as_bytes())?;
    to.put_signed_row(2, i64::from(code))?;
    to.put_signed_row(1, id)?;
    Ok(to.finish())
}
