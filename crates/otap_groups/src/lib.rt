//! What the row tables of all signals share: groups of main rows, children of a parent, and how both are written.
#![tactic(auto)]

mod cells;
mod children;
mod disagree;
mod entry;
mod flat;
mod found;
mod front;
mod groups;
mod index;
pub mod laws;
mod level;
mod linked;
mod parts;
mod reading;
mod sources;
mod starts;
mod weighing;
mod weights;
mod writing;

pub use cells::FrontCells;
pub use children::ChildIndex;
pub use entry::ChildEntry;
pub use flat::{Flat, Placed, flatten};
pub use found::Children;
pub use front::FrontColumns;
pub use groups::Main;
pub use parts::{PartWriter, PartsOf, parts_of, write_parts};
pub use reading::{Lookup, RowReader};
pub use sources::{items_of, resources_of, scopes_of};
pub use weighing::{PartWeights, RowWeights, part_rows_weight, rows_weight};
pub use writing::{RowWriter, write_rows};
