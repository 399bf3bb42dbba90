//! The load that the program makes for itself: requests of any signal, each determined by its number.
#![tactic(auto)]

mod groups;
mod items;
pub mod laws;
mod pairs;
mod requests;

pub use requests::{ITEMS, REQUESTS, generated};
