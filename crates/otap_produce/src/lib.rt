//! The exporter: the batch messages of the requests of a segment, and of any sets of tables.
#![tactic(auto)]

mod exporter;
pub mod laws;
mod refusal;
mod sender;
mod senders;

pub use exporter::Exporter;
pub use refusal::ProduceRefusal;
pub use senders::Senders;
