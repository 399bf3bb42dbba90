//! `replay`: what each batch holds.
ghost use Rattle.std.specs.Prelude.{◌≡◌, ◌≤◌, ◌++◌, IfOk, OnOk, length};
ghost use Rattle.otlp_model.specs.Limits.{weight_limit};
ghost use Rattle.otlp_model.specs.Telemetry.{telemetry};
ghost use Rattle.otlp_model.specs.Weight.{weight_of};
ghost use Rattle.otap_consume.specs.Receivers.{HasLightRequest};
ghost use Rattle.otap_gateway.specs.Receptions.{replayed, replay_line, weights_text};

use crate::jobs::receiving::refused;
use crate::jobs::reply::Reply;
use crate::texts::lines::{push_head, reset_line};
use crate::texts::numbers::push_number;
use otap_consume::Taken;
use otlp_model::{Request, items};
use std::alloc::{AllocError, Global};

/// The reply to what a frame gave.
pub(crate) fn replay(alloc: Global, number: u64, taken: Taken) -> Result<Reply, AllocError>
    requires { HasLightRequest taken }
    ensures { IfOk result (λ reply. reply ≡ replayed number taken) }
{
    match taken {
        Taken::Accepted {
            id,
            request,
            rows,
            tree,
        } => {
            let line = replay_line(alloc, number, id, count_items(&request), rows, tree)?;
            Ok(Reply::on_out(alloc, line))
        }
        Taken::Refused(refusal) => refused(alloc, number, refusal),
        Taken::Reset => Ok(Reply::printed(alloc, reset_line(alloc, number)?)),
    }
}

/// How many items a request has, which is within the limit on its weight.
fn count_items(request: &Request) -> u64
    requires { weight_of request.now ≤ weight_limit }
    ensures { result ≡ length (telemetry request.now) }
{
    items(request)
}

fn replay_line(
    alloc: Global,
    number: u64,
    id: i64,
    items: u64,
    rows: u64,
    tree: u64,
) -> Result<Vec<u8>, AllocError>
    ensures { IfOk result (λ line. line.items ≡ replay_line number id items rows tree) }
{
    let mut line = Vec::new(alloc);
    push_head(&mut line, number, id)?;
    line.extend_from_slice(b" accepted items ")?;
    push_number(&mut line, items)?;
    push_weights(&mut line, rows, tree)?;
    Ok(line)
}

/// Appends the weights, and ends the line.
fn push_weights(to: &mut Vec<u8>, rows: u64, tree: u64) -> Result<(), AllocError>
    ensures { OnOk result (to.new.items ≡ to.old.items ++ weights_text rows tree) }
{
    to.extend_from_slice(b" rows ")?;
    push_number(to, rows)?;
    to.extend_from_slice(b" weight ")?;
    push_number(to, tree)?;
    to.push(b'\n')?;
    Ok(())
}
