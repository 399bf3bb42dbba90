//! `decode`: the request of each batch.
ghost use Rattle.std.specs.Prelude.{◌≡◌, ℕ, IfOk};
ghost use Rattle.otap_consume.specs.Receivers.{GivesLightRequest, weighed_as};
ghost use Rattle.otap_gateway.specs.Receptions.{decoded};

use crate::jobs::receiving::refused;
use crate::jobs::reply::Reply;
use crate::jobs::spare::Spare;
use otap_consume::Given;
use otlp_codec::put_request;
use std::alloc::{AllocError, Global};

/// The reply to what a frame gave. A request is written into the memory of an earlier reply.
pub(crate) fn decode(
    alloc: Global,
    number: u64,
    given: Given,
    spare: &mut Spare,
) -> Result<Reply, AllocError>
    requires { GivesLightRequest given }
    ensures { IfOk result (λ reply. (rows tree : ℕ) → reply ≡ decoded number (weighed_as given rows tree)) }
{
    match given {
        Given::Accepted { id: _, request } => {
            let mut spelling = spare.take(alloc);
            put_request(&mut spelling, &request)?;
            Reply::message(alloc, spelling)
        }
        Given::Refused(refusal) => refused(alloc, number, refusal),
        Given::Reset => Reply::reset(alloc),
    }
}
