//! Telemetry as values: requests of traces, logs and metrics, what they weigh, and which of them denote the same telemetry.
#![tactic(auto)]

mod counts;
mod depths;
mod groups;
mod histograms;
pub mod laws;
mod limits;
mod logs;
mod metrics;
mod profile;
mod request;
mod sameness;
mod spans;
mod value;
mod walk;
mod weights;

pub use depths::depth;
pub use groups::{Resource, ResourceGroup, Scope, ScopeGroup};
pub use histograms::{HistPoint, Quantile, SumPoint};
pub use limits::{CAP, MAX_DEPTH, MAX_ITEMS, MAX_TREE_WEIGHT, add_capped, capped_len, sum_capped};
pub use lists::{Items, Octets, Text};
pub use logs::LogRecord;
pub use metrics::{Exemplar, Metric, Number, Point, Shape};
pub use request::{Request, Signal, is_profile, items, same, weight};
pub use spans::{Event, Link, Span};
pub use value::{Pair, Value};
pub use weights::{PART_WEIGHT, value_weight};
