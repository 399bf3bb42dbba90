//! The replies to refused batches.
ghost use Rattle.std.specs.Prelude.{◌≡◌, IfOk, Some};
ghost use Rattle.otap_gateway.specs.Refused.{refused_unread, unread_name, refused_batch};

use crate::jobs::reply::Reply;
use crate::texts::lines::refused_line;
use otap_capture::BatchRefusal;
use otlp_messages::defect_name;
use std::alloc::{AllocError, Global};

/// The reply to a frame whose message can't be read, by the name of the cause.
pub(crate) fn refused_unread(alloc: Global, number: u64, cause: &str) -> Result<Reply, AllocError>
    ensures { IfOk result (λ reply. reply ≡ refused_unread number cause.now) }
{
    let line = refused_line(alloc, number, None, 1, cause, None)?;
    Ok(Reply::refusal(alloc, line))
}

/// The printed name of a refusal.
pub(crate) fn unread_name(refusal: BatchRefusal) -> &'static str
    ensures { result.now ≡ unread_name refusal }
{
    defect_name(refusal.defect())
}

/// The reply to a batch that a stage refuses, by the name of the cause and the payload type
/// of the payload that it is in.
pub(crate) fn refused_batch(
    alloc: Global,
    number: u64,
    id: i64,
    stage: u8,
    cause: &str,
    payload: Option<i32>,
) -> Result<Reply, AllocError>
    ensures { IfOk result (λ reply. reply ≡ refused_batch number id stage cause.now payload) }
{
    let payload = payload.map(i64::from);
    let line = refused_line(alloc, number, Some(id), stage, cause, payload)?;
    Ok(Reply::refusal(alloc, line))
}
