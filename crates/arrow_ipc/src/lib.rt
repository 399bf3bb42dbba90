//! Arrow IPC messages: read in place from any bytes, and written so that every reader takes them.
#![tactic(auto)]

mod batch;
mod builder;
mod fault;
mod header;
pub mod laws;
mod messages;
mod write;

pub use crate::batch::BatchView;
pub use crate::builder::{BatchBuilder, MAX_BODY, MAX_PARTS};
pub use crate::fault::IpcFault;
pub use crate::messages::{IpcMessage, Messages, rows_at};
pub use crate::write::write_schema;
