//! The rows of spans: the tables of a request, and the request of tables.
#![tactic(auto)]

mod below;
mod columns;
pub mod laws;
mod reading;
pub mod reading_laws;
mod requests;
mod weights;
mod writers;
mod writing;

pub use requests::{check_rows, regroup, request_of};
pub use weights::table_weight;
pub use writing::tables_of;
