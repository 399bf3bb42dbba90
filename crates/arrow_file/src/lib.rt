//! Arrow files: a schema and record batches written as a file, and the messages of any file found in place.
#![tactic(auto)]

mod block;
mod footer;
mod framing;
pub mod laws;
mod message;
mod refusal;
mod view;
mod writer;

pub use crate::framing::MAX_FILE;
pub use crate::refusal::FileRefusal;
pub use crate::view::FileView;
pub use crate::writer::{FileWriter, MAX_BATCHES};
