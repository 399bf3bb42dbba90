//! Lists: growing lists, texts and byte strings that contracts see as plain lists, and definitions for lists that look back.
//!
//! These are a relation that holds of each element after what came before it, the list from its latest element on that
//! passes a test, and its last element, with their few laws.
#![tactic(auto)]

mod items;
mod octets;
mod text;
mod utf8;

pub use items::Items;
pub use octets::Octets;
pub use text::Text;
pub use utf8::as_utf8;
