//! Requests to export telemetry, as the messages of OTLP: read exactly, and written canonically.
#![tactic(auto)]

mod cells;
mod groups;
mod histograms;
mod laws;
mod lengths;
mod logs;
mod metrics;
mod numbers;
mod part;
mod points;
mod pool;
mod refusal;
mod request;
mod shapes;
mod short;
mod spans;
mod values;
mod writing;

pub use laws::{
    limits, one_reading, read_is_light, read_is_real, some_reading, spelling_is_short,
    tidy_is_stable, written_is_read,
};
pub use refusal::ReadRefusal;
pub use request::{
    RequestReader, WEIGHT_FOR_BYTE, len_request, put_request, read_request, write_request,
};
