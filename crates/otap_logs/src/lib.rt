//! The rows of log records: the tables of a request, and the request of tables.
#![tactic(auto)]

pub mod laws;
mod reading;
pub mod reading_laws;
mod requests;
mod weights;
mod writing;

pub use requests::{check_rows, regroup, request_of};
pub use weights::table_weight;
pub use writing::tables_of;
