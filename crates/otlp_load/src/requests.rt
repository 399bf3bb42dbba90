ghost use Rattle.std.specs.Prelude.{◌≡◌, ◌<◌, IfOk};
ghost use Rattle.otlp_load.specs.Load.{generated, requests_at_most};

mod logs;
mod metrics;
mod spans;

use crate::groups::groups;
use otlp_model::{Request, Signal};
use std::alloc::{AllocError, Global};

/// How many items a request has.
pub const ITEMS: u32 = 8_192;

/// How many requests there are at most.
pub const REQUESTS: u32 = 1_000;

/// Request number `request` of a signal. Linear in its items.
pub fn generated(alloc: Global, signal: Signal, request: u32) -> Result<Request, AllocError>
    requires { request < requests_at_most }
    ensures { IfOk result (λ made. made ≡ generated signal request) }
{
    Ok(match signal {
        Signal::Traces => Request::Traces(groups(alloc, request)?),
        Signal::Logs => Request::Logs(groups(alloc, request)?),
        Signal::Metrics => Request::Metrics(groups(alloc, request)?),
    })
}
