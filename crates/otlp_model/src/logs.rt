ghost use Rattle.std.specs.Prelude.{◌≡◌};
ghost use Rattle.otlp_model.specs.Empty.{no_log_record};
ghost use Rattle.otlp_model.specs.Weight.{weight_of_log_record};
ghost use Rattle.otlp_model.specs.Real.{IsRealLogRecord};
ghost use Rattle.otlp_model.specs.Profile.{IsProfileLogRecord};
ghost use Rattle.otlp_model.specs.Same.{SameLogRecord};

use crate::limits::sum_capped;
use crate::profile::{Profiled, all_profile, is_span_id, is_trace_id};
use crate::sameness::{Alike, same_pairs, same_value};
use crate::value::{Pair, Value};
use crate::weights::{HasWeight, pairs_weight, value_weight};
use lists::{Items, Octets, Text};
use std::alloc::Global;

/// A log record (OTLP `LogRecord`). Times are nanoseconds since the Unix epoch.
#[derive(Debug, Drop)]
pub struct LogRecord {
    pub time: u64,
    pub observed: u64,
    pub severity: i32,
    pub severity_text: Text,
    pub body: Value,
    pub pairs: Items<Pair>,
    pub dropped: u32,
    pub flags: u32,
    pub trace_id: Octets,
    pub span_id: Octets,
    pub event_name: Text,
}

impl LogRecord {
    /// A record of which nothing is set: numbers are 0; texts, lists and ids are empty, and so is the body.
    pub fn empty(alloc: Global) -> LogRecord
        ensures { result ≡ no_log_record }
    {
        LogRecord {
            time: 0,
            observed: 0,
            severity: 0,
            severity_text: Text::new(alloc),
            body: Value::Empty,
            pairs: Items::new(alloc),
            dropped: 0,
            flags: 0,
            trace_id: Octets::new(alloc),
            span_id: Octets::new(alloc),
            event_name: Text::new(alloc),
        }
    }
}

impl HasWeight for LogRecord {
    ghost weight_of = { weight_of_log_record };

    ghost is_real = { IsRealLogRecord };

    fn weight(&self) -> u64 {
        let _time = self.time;
        let _observed = self.observed;
        let _severity = self.severity;
        let _dropped = self.dropped;
        let _flags = self.flags;
        sum_capped(&[
            self.severity_text.weight(),
            self.trace_id.weight(),
            self.span_id.weight(),
            self.event_name.weight(),
            value_weight(&self.body),
            pairs_weight(self.pairs.as_slice()),
        ])
    }
}

impl Profiled for LogRecord {
    ghost within = { IsProfileLogRecord };

    fn is_profile(&self) -> bool {
        is_trace_id(&self.trace_id)
            && is_span_id(&self.span_id)
            && self.body.is_profile()
            && all_profile(&self.pairs)
    }
}

impl Alike for LogRecord {
    ghost alike = { SameLogRecord };

    fn is_same(&self, other: &Self) -> bool {
        self.time == other.time
            && self.observed == other.observed
            && self.severity == other.severity
            && self.severity_text.as_slice() == other.severity_text.as_slice()
            && same_value(&self.body, &other.body)
            && same_pairs(self.pairs.as_slice(), other.pairs.as_slice())
            && self.dropped == other.dropped
            && self.flags == other.flags
            && self.trace_id.as_slice() == other.trace_id.as_slice()
            && self.span_id.as_slice() == other.span_id.as_slice()
            && self.event_name.as_slice() == other.event_name.as_slice()
    }
}
