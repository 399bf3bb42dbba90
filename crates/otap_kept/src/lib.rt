//! What a filter keeps of the tables of a batch: the items that have a pair, or whose resources have it, with all that is below them.
#![tactic(auto)]

mod attributes;
mod below;
mod copying;
mod first_ids;
mod holders;
mod keeping;
pub mod laws;
mod main_ids;
mod main_rows;
mod main_table;
mod numbering;
mod parts;
mod places;
mod text_pair;
mod whose;

pub use keeping::kept;
pub use text_pair::TextPair;
pub use whose::Whose;
