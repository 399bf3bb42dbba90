//! `status`: what a Collector replies to each batch.
ghost use Rattle.std.specs.Prelude.{◌≡◌, ℕ, IfOk};
ghost use Rattle.otap_consume.specs.declared.taken.Taken.TheVariants as taken;
ghost use Rattle.otap_consume.specs.Receivers.{weighed_as};
ghost use Rattle.otap_gateway.specs.Receptions.{code_of, id_or_less, statused};

use crate::jobs::reply::Reply;
use crate::texts::causes::cause_name;
use crate::texts::lines::{refusal_text, refused_line};
use otap_capture::Status;
use otap_consume::{Given, Refusal};
use std::alloc::{AllocError, Global};

/// The reply to what a frame gave.
pub(crate) fn status_of(alloc: Global, number: u64, given: Given) -> Result<Reply, AllocError>
    ensures { IfOk result (λ reply. (rows tree : ℕ) → reply ≡ statused number (weighed_as given rows tree)) }
{
    match given {
        Given::Accepted { id, request: _ } => {
            let status = Status {
                id,
                code: 0,
                message: "",
            };
            Reply::status(alloc, &status)
        }
        Given::Refused(refusal) => refuse(alloc, number, refusal),
        Given::Reset => Reply::reset(alloc),
    }
}

/// The status of a refused batch, beside the line that names the same cause.
fn refuse(alloc: Global, number: u64, refusal: Refusal) -> Result<Reply, AllocError>
    ensures { IfOk result (λ reply. reply ≡ statused number (taken.Refused refusal)) }
{
    let payload = refusal.payload.map(i64::from);
    let cause = cause_name(refusal.cause)?;
    let message = refusal_text(alloc, refusal.stage, cause, payload)?;
    let line = refused_line(alloc, number, refusal.id, refusal.stage, cause, payload)?;
    let status = Status {
        id: id_or_less(refusal.id),
        code: code_of(refusal.stage),
        message: message.as_str(),
    };
    Ok(Reply::status(alloc, &status)?.refusing(line))
}

fn id_or_less(id: Option<i64>) -> i64
    ensures { result ≡ id_or_less id }
{
    id.unwrap_or(-1)
}

/// The code of gRPC for a stage.
fn code_of(stage: u8) -> i32
    ensures { result ≡ code_of stage }
{
    match stage {
        0 => 10,
        4 | 6 => 8,
        _ => 3,
    }
}
