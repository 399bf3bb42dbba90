//! What the calls of a resending exporter answer.

ghost use Rattle.std.specs.Prelude.{◌≡◌};
ghost use Rattle.otap_resend.specs.Inside.{refusal_of};
ghost use Rattle.otap_resend.specs.Turns.{is_accepted, is_refused};

use otap_produce::ProduceRefusal;
use otlp_model::Request;
use std::alloc::AllocError;
use thiserror::Error;

/// Why a request is not sent: the first of these that holds.
#[derive(Debug, Drop, Error)]
pub enum SendRefusal {
    /// As many requests as the window are unanswered.
    #[error("the window is full")]
    Full,
    /// An unanswered request wasn't written since the last reset: see [`Resender::resend`](crate::Resender::resend).
    #[error("an unanswered request is still to be written again")]
    Pending,
    /// Memory ran out since the last reset.
    #[error("memory ran out since the last reset")]
    Broken,
    /// The request has more than [`MAX_ITEMS`](otlp_model::MAX_ITEMS) items.
    #[error("the request has too many items")]
    TooManyItems,
    /// The request weighs more than [`MAX_TREE_WEIGHT`](otlp_model::MAX_TREE_WEIGHT), or its tables more than
    /// [`MAX_ROW_WEIGHT`](otap_cells::MAX_ROW_WEIGHT).
    #[error("the request is too heavy")]
    TooHeavy,
    /// Memory ran out in this call.
    #[error("out of memory")]
    Memory(AllocError),
}

/// A request that is not sent, and why.
#[derive(Debug, Drop)]
pub struct NotSent {
    pub request: Request,
    pub why: SendRefusal,
}

/// Why no request is written again.
#[derive(Debug, Drop, Error)]
pub enum ResendRefusal {
    /// Memory ran out since the last reset.
    #[error("memory ran out since the last reset")]
    Broken,
    /// Memory ran out in this call.
    #[error("out of memory")]
    Memory(AllocError),
}

/// What a status means for the request of its batch.
#[derive(Debug, Drop)]
pub enum Answered {
    /// The far end accepted the request with this number. It isn't kept any longer.
    Done(u64),
    /// The far end refuses the request, and would again. It isn't kept any longer.
    GivenUp { number: u64, request: Request },
    /// The request with this number is kept, and is written again after the next reset.
    Kept(u64),
    /// No unanswered request was written with this id since the last reset.
    Unknown,
}

/// An exporter's refusal, as one of a resending exporter.
pub(crate) fn refusal_of(refusal: ProduceRefusal) -> SendRefusal
    ensures { result ≡ refusal_of refusal }
{
    match refusal {
        ProduceRefusal::Broken => SendRefusal::Broken,
        ProduceRefusal::TooManyItems => SendRefusal::TooManyItems,
        ProduceRefusal::TooHeavy => SendRefusal::TooHeavy,
        ProduceRefusal::Memory(error) => SendRefusal::Memory(error),
    }
}

/// Whether a status with this code accepts its batch: OK of gRPC.
pub(crate) fn is_accepted(code: i32) -> bool
    ensures { result ≡ is_accepted code }
{
    code == 0
}

/// Whether a status with this code refuses its batch for good: INVALID_ARGUMENT or RESOURCE_EXHAUSTED of gRPC.
pub(crate) fn is_refused(code: i32) -> bool
    ensures { result ≡ is_refused code }
{
    code == 3 || code == 8
}
