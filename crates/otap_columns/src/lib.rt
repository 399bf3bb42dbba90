//! Sub-streams: the schema and the dictionaries that a sub-stream has after its records, and the tables that its record
//! batches hold.
#![tactic(auto)]

mod forms;
pub mod laws;
mod plain;
mod reader;
mod refusal;
mod writer;

pub use forms::ColumnForm;
pub use plain::{plain_batch, plain_schema};
pub use reader::Reader;
pub use reader::dictionary::MAX_VALUES;
pub use reader::view::RowsView;
pub use refusal::ColumnRefusal;
pub use writer::{Writer, Written, laws as writer_laws};
