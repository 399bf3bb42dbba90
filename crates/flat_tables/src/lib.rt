//! FlatBuffers tables: read in place from any bytes, and built so that every reader takes them.
#![tactic(auto)]

mod builder;
mod fault;
pub mod laws;
mod layout;
mod place;
mod reading;
mod views;

pub use crate::builder::{Builder, MAX_SIZE, MAX_SLOTS};
pub use crate::fault::FlatFault;
pub use crate::place::{Place, Slot};
pub use crate::views::{MAX_WIDTH, TableView, VectorView};
