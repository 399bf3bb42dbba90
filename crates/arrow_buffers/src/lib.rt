//! The buffers of an Arrow column: validity bitmaps, offsets and values, read in place and written.
#![tactic(auto)]

mod bits;
mod builder;
mod fault;
mod fixed;
mod flags;
pub mod laws;
mod list_cells;
mod nulls;
mod offsets;
mod packing;
mod vars;
mod width;

pub use bits::Bits;
pub use builder::{Buffers, ColumnBuilder};
pub use fault::BufferFault;
pub use fixed::Fixed;
pub use list_cells::Lists;
pub use vars::Vars;
pub use width::Width;
