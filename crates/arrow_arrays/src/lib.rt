//! The arrays of a record batch: which node and which buffers belong to each field of a schema,
//! what is wrong with them, and the cell of each row.
#![tactic(auto)]

mod arrays;
mod column;
mod found;
pub mod laws;
mod layout;
mod place;
mod spec;
mod view;

pub use crate::arrays::Arrays;
pub use crate::column::ColumnView;
pub use crate::layout::Layout;
pub use crate::place::ArrayPlace;
pub use crate::spec::{Above, ArraySpec};
