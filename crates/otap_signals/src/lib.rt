//! The signals: for each one the tables of its requests, and the requests that its tables make. Above this crate a signal is a
//! value.
#![tactic(auto)]

mod by_signal;
pub mod laws;
mod logs;
mod metrics;
mod regrouped;
mod signal_tables;
mod spans;

pub use by_signal::{check_set, regroup, row_weight, tables_of};
pub use logs::LogSignal;
pub use metrics::MetricSignal;
pub use regrouped::Regrouped;
pub use signal_tables::{SignalTables, regroup_request};
pub use spans::SpanSignal;
