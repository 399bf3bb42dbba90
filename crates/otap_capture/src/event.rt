//! An event of a resending exporter: a request to send, or the status of a batch.

ghost use Rattle.std.specs.Prelude.{IfOk, IfErr};
ghost use Rattle.otap_capture.specs.SendEvents.{event_content, ReadsEvent, RefusesEvent};

use crate::batch::{BatchRefusal, refusal_of};
use crate::status::{Status, status_of};
use otlp_messages::{Message, check};
use otlp_wire::{Fields, Wire};

/// An event, read where its bytes lie.
#[derive(Clone, Copy, Debug, PartialEq, Eq)]
pub enum SendEvent<'a> {
    /// The bytes of an export request, which aren't looked into.
    Request(&'a [u8]),
    /// What a Collector replied to a batch.
    Status(Status<'a>),
}

/// Reads an event (SendEvent), where it lies. One without a request and without a status is
/// [`BatchRefusal::BadMessage`].
pub fn read_event(bytes: &[u8]) -> Result<SendEvent<'_>, BatchRefusal>
    ensures read { IfOk result (λ event. ReadsEvent bytes.now (event_content event)) }
    ensures refused { IfErr result (RefusesEvent bytes.now) }
{
    if let Err(defect) = check(Message::SendEvent, 0, bytes) {
        return Err(refusal_of(defect));
    }
    'fields: for next in Fields::new(bytes) {
        let Ok(field) = next else { unreachable!() };
        match (field.number, field.value) {
            (1, Wire::Bytes(request)) => return Ok(SendEvent::Request(request)),
            (2, Wire::Bytes(status)) => return Ok(SendEvent::Status(status_of(status))),
            _ => {}
        }
    }
    Err(BatchRefusal::BadMessage)
}
