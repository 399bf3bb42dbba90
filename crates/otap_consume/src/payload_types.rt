//! The payload types of a batch.
ghost use Rattle.std.specs.Prelude.{◌≡◌, nat_lt, MatchResult};
ghost use Rattle.otap_consume.specs.PayloadTypes.{HasFineTypes, IsDefectOfTypes, times};

use otap_capture::Batch;
use otap_cells::table_of;
use otlp_model::Signal;
use thiserror::Error;

/// What is wrong with the payload types of a batch. Where several of these hold, any may be named.
#[derive(Clone, Copy, Debug, PartialEq, Eq, Error)]
pub enum TypesRefusal {
    /// A payload type is none of the signal's.
    #[error("the payload type {0} is none of the signal's")]
    PayloadType(i32),
    /// Two payloads have this type.
    #[error("the payload type {0} stands twice")]
    PayloadTwice(i32),
}

/// Looks at the payload types of a batch: each is to be one of the signal's, and to occur once.
/// It takes linear time, since a signal has few types: where there are more payloads, one of the first is refused.
pub fn check_types(signal: Signal, batch: &Batch<'_>) -> Result<(), TypesRefusal>
    ensures { MatchResult result (λ x. HasFineTypes signal batch.now.payloads) (IsDefectOfTypes signal batch.now.payloads) }
{
    'payloads: for payload in batch.payloads() {
        let kind = payload.kind;
        if table_of(signal, kind).is_none() {
            return Err(TypesRefusal::PayloadType(kind));
        }
        if occurs_twice(batch, kind) {
            return Err(TypesRefusal::PayloadTwice(kind));
        }
    }
    Ok(())
}

/// Whether two payloads of a batch have a type.
fn occurs_twice(batch: &Batch<'_>, kind: i32) -> bool
    ensures { result ≡ nat_lt 1 (times kind batch.now.payloads) }
{
    let mut found = false;
    'payloads: for payload in batch.payloads() {
        if payload.kind == kind {
            if found {
                return true;
            }
            found = true;
        }
    }
    false
}
