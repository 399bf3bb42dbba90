ghost use Rattle.std.specs.Prelude.{◌↔◌, IsTrue};
ghost use Rattle.otlp_model.specs.Each.{Each};
ghost use Rattle.otlp_model.specs.Profile.{IsTraceId, IsSpanId, IsProfileValue, IsProfilePair};

use crate::depths::depth;
use crate::limits::MAX_DEPTH;
use crate::value::{Pair, Value};
use lists::{Items, Octets};

/// How many bytes a trace id has (W3C Trace Context).
const TRACE_ID: usize = 16;

/// How many bytes a span id has.
const SPAN_ID: usize = 8;

/// A part of a request that can be within the profile or not.
pub(crate) trait Profiled {
    ghost within: { Self → Type 0 };

    /// Whether its ids have their lengths and its values are at most `MAX_DEPTH` deep.
    fn is_profile(&self) -> bool
        ensures { IsTrue result ↔ within self.now };
}

pub(crate) fn all_profile<P: Profiled>(parts: &Items<P>) -> bool
    ensures { IsTrue result ↔ Each P.within parts.now }
{
    parts.as_slice().iter().all(|part| part.is_profile())
}

/// Whether the bytes are the id of a trace, or absent.
pub(crate) fn is_trace_id(id: &Octets) -> bool
    ensures { IsTrue result ↔ IsTraceId id.now }
{
    id.is_empty() || id.len() == TRACE_ID
}

/// Whether the bytes are the id of a span, or absent.
pub(crate) fn is_span_id(id: &Octets) -> bool
    ensures { IsTrue result ↔ IsSpanId id.now }
{
    id.is_empty() || id.len() == SPAN_ID
}

impl Profiled for Value {
    ghost within = { IsProfileValue };

    fn is_profile(&self) -> bool {
        depth(self) <= MAX_DEPTH
    }
}

impl Profiled for Pair {
    ghost within = { IsProfilePair };

    fn is_profile(&self) -> bool {
        self.value.is_profile()
    }
}
