//! The rows of metrics: the tables of a request, and the request of tables.
#![tactic(auto)]

mod columns;
pub mod laws;
mod reading;
pub mod reading_laws;
mod requests;
mod shapes;
mod weights;
mod writing;

pub use reading::Metrics;
pub use requests::{check_rows, regroup, request_of};
pub use weights::table_weight;
pub use writing::tables_of;
