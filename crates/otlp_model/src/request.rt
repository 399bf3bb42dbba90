ghost use Rattle.std.specs.Prelude.{◌≡◌, ◌↔◌, min, length, IsTrue};
ghost use Rattle.otlp_model.specs.Limits.{count_cap};
ghost use Rattle.otlp_model.specs.Telemetry.{telemetry, signal_of};
ghost use Rattle.otlp_model.specs.Weight.{weight_of};
ghost use Rattle.otlp_model.specs.Real.{IsReal};
ghost use Rattle.otlp_model.specs.Profile.{IsProfile};
ghost use Rattle.otlp_model.specs.Same.{Same};

use crate::counts::item_count;
use crate::groups::ResourceGroup;
use crate::logs::LogRecord;
use crate::metrics::Metric;
use crate::profile::all_profile;
use crate::spans::Span;
use crate::walk::same_groups;
use crate::weights::{PART_WEIGHT, parts_weight};
use lists::Items;

/// The kinds of telemetry.
#[derive(Clone, Copy, Debug, PartialEq, Eq)]
pub enum Signal {
    Traces,
    Logs,
    Metrics,
}

/// A request to export telemetry (OTLP `ExportTraceServiceRequest`, `ExportLogsServiceRequest` and
/// `ExportMetricsServiceRequest`).
#[derive(Debug, Drop)]
pub enum Request {
    Traces(Items<ResourceGroup<Span>>),
    Logs(Items<ResourceGroup<LogRecord>>),
    Metrics(Items<ResourceGroup<Metric>>),
}

impl Request {
    /// The signal of the request.
    pub fn signal(&self) -> Signal
        ensures { result ≡ signal_of self.now }
    {
        match self {
            Request::Traces(_) => Signal::Traces,
            Request::Logs(_) => Signal::Logs,
            Request::Metrics(_) => Signal::Metrics,
        }
    }
}

/// How many items the request has (spans, log records or metrics), or `CAP` where there are more.
pub fn items(request: &Request) -> u64
    ensures { result ≡ min (length (telemetry request.now)) count_cap }
{
    match request {
        Request::Traces(groups) => item_count(groups.as_slice()),
        Request::Logs(groups) => item_count(groups.as_slice()),
        Request::Metrics(groups) => item_count(groups.as_slice()),
    }
}

/// What the request weighs, or `CAP` where that is more: the bytes of its texts and byte strings; 32 for each resource
/// group, scope group, item, event, link, point, exemplar, pair, and member of an array or a key-value list; 8 for each
/// bucket count and each bound; and 16 for each quantile.
///
/// The walk also shows a proof that the request is one that a program can hold: its texts are UTF-8 and its numbers
/// fit their types. Linear in the request; it recurses as `depth` does.
pub fn weight(request: &Request) -> u64
    ensures weight { result ≡ min (weight_of request.now) count_cap }
    ensures real { IsReal request.now }
{
    match request {
        Request::Traces(groups) => parts_weight(PART_WEIGHT, groups.as_slice()),
        Request::Logs(groups) => parts_weight(PART_WEIGHT, groups.as_slice()),
        Request::Metrics(groups) => parts_weight(PART_WEIGHT, groups.as_slice()),
    }
}

/// Whether trace ids have 0 or 16 bytes, span ids 0 or 8, and values are at most `MAX_DEPTH` deep.
///
/// Linear in the request; it recurses as `depth` does.
pub fn is_profile(request: &Request) -> bool
    ensures { IsTrue result ↔ IsProfile request.now }
{
    match request {
        Request::Traces(groups) => all_profile(groups),
        Request::Logs(groups) => all_profile(groups),
        Request::Metrics(groups) => all_profile(groups),
    }
}

/// Whether both requests denote the same telemetry: the same items in order over all groups, each with the same resource
/// and scope. Lists of attributes are compared by how often each pair occurs, everything else in order; groups without
/// items don't count. Requests of different signals denote the same exactly where neither has items.
///
/// It takes no memory. Linear in both requests as far as lists of attributes have the same order; from the first
/// difference on, a list is compared by counting, each two of its pairs. It recurses as `depth` does.
pub fn same(a: &Request, b: &Request) -> bool
    ensures { IsTrue result ↔ Same a.now b.now }
{
    match (a, b) {
        (Request::Traces(x), Request::Traces(y)) => same_groups(x.as_slice(), y.as_slice()),
        (Request::Logs(x), Request::Logs(y)) => same_groups(x.as_slice(), y.as_slice()),
        (Request::Metrics(x), Request::Metrics(y)) => same_groups(x.as_slice(), y.as_slice()),
        _ => items(a) == 0 && items(b) == 0,
    }
}
