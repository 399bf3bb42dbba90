//! The tables of a batch: which payload types a signal has, which columns a table has, and what its cells hold.
#![tactic(auto)]

mod column_ids;
mod continuing;
mod grouping;
mod ids;
mod kept;
mod laws;
mod logical;
mod paths;
mod payload;
mod profile;
mod reads;
mod rows;
mod scalars;
mod sets;
pub mod shared_columns;
mod view;
mod weight;

pub use column_ids::{IdsRefusal, ids_of, read_ids, stored_numbers};
pub use continuing::{
    Attribute, attribute_at, continues, continuing_rows, is_run_kind, says_again,
};
pub use grouping::{ColumnGroup, GroupMember};
pub use ids::{IdFault, delta_ids, has_twice, run_ids, undo, undo_delta, undo_run};
pub use laws::{
    named_columns, names_tell_columns_apart, numbers_stand_for_one_list, numbers_tell_kinds_apart,
    the_row_weight_is_limited, values_come_back,
};
pub use logical::LogicalTable;
pub use paths::column_of;
pub use payload::{Kind, has_attributes, is_main, kinds, main_of, table_of};
pub use profile::{Base, Coding, Column, base_of, coding_of, column_groups, columns};
pub use reads::{
    bits_in, bytes_in, flag_in, int_in, number_in, octets_in, set_text, small_int_in, text_in,
};
pub use rows::Rows;
pub use scalars::{bits_cell, flag_cell, int_cell, number_cell, octets_cell, text_cell};
pub use sets::TableSet;
pub use view::CellView;
pub use weight::{MAX_ROW_WEIGHT, ROW_UNIT, is_light, row_weight};
