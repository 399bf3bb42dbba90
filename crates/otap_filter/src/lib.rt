//! A filter of batches: of each batch it keeps the items that have a pair, or whose resources have it, and sends them as a batch.
#![tactic(auto)]

mod filter;
mod filtered;
pub mod laws;

pub use filter::Filter;
pub use filtered::Filtered;
pub use otap_kept::Whose;
