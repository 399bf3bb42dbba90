//! The replies to refused requests.
ghost use Rattle.std.specs.Prelude.{◌≡◌, IfOk};
ghost use Rattle.otlp_codec.specs.Refusals.{refusal_of};
ghost use Rattle.otap_gateway.specs.EncodingSteps.{NamesDefect};
ghost use Rattle.otap_gateway.specs.RefusedRequests.{refused_request};

use crate::jobs::reply::Reply;
use crate::texts::lines::request_line;
use otlp_codec::ReadRefusal;
use otlp_messages::{Defect, defect_name};
use std::alloc::{AllocError, Global};

/// The reply to a frame whose request is refused, by the name of the cause.
pub(crate) fn refused(alloc: Global, number: u64, cause: &str) -> Result<Reply, AllocError>
    ensures { IfOk result (λ reply. reply ≡ refused_request number cause.now) }
{
    Ok(Reply::refusal(alloc, request_line(alloc, number, cause)?))
}

/// The printed name of the defect that a refusal names. Out of memory is passed on.
pub(crate) fn refusal_name(refusal: ReadRefusal) -> Result<&'static str, AllocError>
    ensures { IfOk result (λ name. NamesDefect refusal name.now) }
{
    Ok(defect_name(defect_of(refusal)?))
}

fn defect_of(refusal: ReadRefusal) -> Result<Defect, AllocError>
    ensures { IfOk result (λ defect. refusal ≡ refusal_of defect) }
{
    match refusal {
        ReadRefusal::BadMessage => Ok(Defect::BadMessage),
        ReadRefusal::Repeated => Ok(Defect::Repeated),
        ReadRefusal::BadUtf8 => Ok(Defect::BadUtf8),
        ReadRefusal::BadLength => Ok(Defect::BadLength),
        ReadRefusal::Unsupported => Ok(Defect::Unsupported),
        ReadRefusal::TooDeep => Ok(Defect::TooDeep),
        ReadRefusal::Memory(error) => Err(error),
    }
}
