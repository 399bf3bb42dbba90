//! Requests, read and written.

ghost use Rattle.std.specs.Prelude.{◌≡◌, ◌≤◌, ◌++◌, ◌+◌, length, min, IfOk, IfErr, OnOk, OnErr};
ghost use Rattle.otlp_model.specs.Limits.{count_cap, weight_limit};
ghost use Rattle.otlp_model.specs.Weight.{weight_of};
ghost use Rattle.otlp_model.specs.Profile.{IsProfile};
ghost use Rattle.otlp_model.specs.Real.{IsReal};
ghost use Rattle.otlp_messages.specs.Kept.{KeepsEnd};
ghost use Rattle.otlp_codec.specs.Limits.{longest_request};
ghost use Rattle.otlp_codec.specs.Refusals.{HoldsNamed};
ghost use Rattle.otlp_codec.specs.Requests.{Stands, Reads, canon_request};

use crate::lengths::len_more;
use crate::part::read_part;
use crate::pool::{Pool, give_back_all};
use crate::refusal::ReadRefusal;
use crate::writing::write_more;
use otlp_messages::Backward;
use otlp_model::{Request, Signal};
use std::alloc::{AllocError, Global};
use std::marker::Model;

/// The most that a byte of a request that is read adds to its weight: a part weighs 32, and takes up two bytes at least.
pub const WEIGHT_FOR_BYTE: u64 = 16;

/// A reader of requests, one after the other. It reads into the lists of requests that it took back, of which it keeps some
/// thousand short ones. A contract sees nothing of it: each request is read as if it were the first.
#[derive(Debug, Drop)]
pub struct RequestReader {
    pool: Pool,
}

impl Model for RequestReader {
    ghost Value = { Unit {0} };

    ghost view = { λ _. tt };
}

impl RequestReader {
    /// A reader that keeps nothing yet.
    pub fn new(alloc: Global) -> RequestReader {
        RequestReader {
            pool: Pool::new(alloc),
        }
    }

    /// Reads an export request of the signal, as [`read_request`] does.
    pub fn read(&mut self, signal: Signal, bytes: &[u8]) -> Result<Request, ReadRefusal>
        ensures reads { IfOk result (Reads signal bytes.now) }
        ensures profile { IfOk result IsProfile }
        ensures fault { IfErr result (λ refusal. HoldsNamed refusal (Stands signal bytes.now)) }
    {
        let pool = &mut self.pool;
        match signal {
            Signal::Traces => Ok(Request::Traces(read_part(pool, bytes)?)),
            Signal::Logs => Ok(Request::Logs(read_part(pool, bytes)?)),
            Signal::Metrics => Ok(Request::Metrics(read_part(pool, bytes)?)),
        }
    }

    /// Takes a request that is done with, for the memory of its lists. One walk.
    pub fn take_back(&mut self, mut request: Request) {
        let pool = &mut self.pool;
        match &mut request {
            Request::Traces(groups) => give_back_all(groups, pool),
            Request::Logs(groups) => give_back_all(groups, pool),
            Request::Metrics(groups) => give_back_all(groups, pool),
        }
    }
}

/// Reads an export request of the signal (OTLP 1.x): `ExportTraceServiceRequest`,
/// `ExportLogsServiceRequest` or `ExportMetricsServiceRequest`.
///
/// Unknown fields are passed over. What is read has ids that are absent or of their lengths, and values at most 32 deep.
/// One pass over the bytes.
pub fn read_request(alloc: Global, signal: Signal, bytes: &[u8]) -> Result<Request, ReadRefusal>
    ensures reads { IfOk result (Reads signal bytes.now) }
    ensures profile { IfOk result IsProfile }
    ensures fault { IfErr result (λ refusal. HoldsNamed refusal (Stands signal bytes.now)) }
{
    RequestReader::new(alloc).read(signal, bytes)
}

/// How many bytes the canonical spelling of the request has, or 2^63 where there are more; a request that
/// weighs at most `MAX_TREE_WEIGHT` has at most 2^29. One walk.
pub fn len_request(request: &Request) -> u64
    ensures { result ≡ min (length (canon_request request.now)) count_cap }
{
    match request {
        Request::Traces(groups) => len_more(1, groups.as_slice()),
        Request::Logs(groups) => len_more(1, groups.as_slice()),
        Request::Metrics(groups) => len_more(1, groups.as_slice()),
    }
}

/// Writes the canonical spelling of the request: fields in ascending number, the shortest varints, and a
/// field that holds its default only where it belongs to a oneof or is optional. One walk, from the last
/// field to the first.
///
/// A request that weighs at most `MAX_TREE_WEIGHT` takes at most 2^29 bytes.
pub fn write_request(alloc: Global, request: &Request) -> Result<Vec<u8>, AllocError>
    ensures spelled { IfOk result (λ bytes. bytes.items ≡ canon_request request.now) }
    ensures bound { IfOk result (λ bytes. weight_of request.now ≤ weight_limit → length bytes.items ≤ longest_request) }
{
    let mut to = Backward::new(alloc);
    put_request(&mut to, request)?;
    Ok(to.finish())
}

/// Writes the same before what is written, so that a head can be written before it without a copy. After an `Err`, what was
/// written before is still the end of what is there.
pub fn put_request(to: &mut Backward, request: &Request) -> Result<(), AllocError>
    ensures spelled { OnOk result (to.new ≡ canon_request request.now ++ to.old) }
    ensures err { OnErr result (KeepsEnd to.old to.new) }
    ensures bound { OnOk result (weight_of request.now ≤ weight_limit → length to.new ≤ length to.old + longest_request) }
{
    put_groups(to, request)?;
    Ok(())
}

/// Writes the groups of the request.
fn put_groups(to: &mut Backward, request: &Request) -> Result<(), AllocError>
    ensures ok { OnOk result (to.new ≡ canon_request request.now ++ to.old) }
    ensures err { OnErr result (KeepsEnd to.old to.new) }
    ensures real { OnOk result (IsReal request.now) }
{
    match request {
        Request::Traces(groups) => write_more(to, 1, groups.as_slice()),
        Request::Logs(groups) => write_more(to, 1, groups.as_slice()),
        Request::Metrics(groups) => write_more(to, 1, groups.as_slice()),
    }
}
