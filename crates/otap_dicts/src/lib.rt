//! Dictionaries of the exporter: in which form a column is written, and which index each of its values has.
#![tactic(auto)]

mod form;
mod key;
mod ladder;
pub mod laws;

pub use crate::form::{Form, MAX_BYTES, MAX_NARROW, MAX_VALUES};
pub use crate::ladder::Ladder;
