//! The rows of attributes: values in cells, pairs of a parent, the sort, and what may be wrong in rows.
#![tactic(auto)]

mod adding;
mod appending;
mod facts;
mod fronts;
mod index;
mod laws;
mod names;
mod orphans;
mod pairs;
mod reading;
mod recoding;
mod refusal;
mod sorting;
mod values;
mod written;

pub use adding::{add_attributes, add_parts, add_resources, add_scopes};
pub use appending::add_pairs;
pub use facts::{AttributeFacts, read_attributes};
pub use index::{PairIndex, index_pairs, weights_of};
pub use laws::{
    attribute_tables_have_their_rows, attribute_tables_weigh_their_rows, written_values_come_back,
};
pub use orphans::has_orphan;
pub use reading::{Pairs, WeighedPairs};
pub use recoding::code_parents;
pub use refusal::{CheckRefusal, RowRefusal};
pub use values::{check_value, nested_bytes, value_at, value_cells, weight_at};
pub use written::{
    Attributed, attributes_weight, push_filled, value_cells_weight, write_attributes,
};
