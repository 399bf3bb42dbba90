//! The messages of OTLP and OTAP as a table, and what every reader and writer of them shares: the
//! defects that a message can have, and the canonical spelling.
#![tactic(auto)]

mod backward;
mod checking;
mod laws;
mod messages;
mod metric_table;
mod names;
mod rows;
mod single;
mod table;

pub use backward::Backward;
pub use checking::{check, is_text};
pub use laws::{fine_or_defect, limits, rows_are_read};
pub use messages::{Defect, FieldKind, ItemKind, Message, Row};
pub use names::defect_name;
pub use single::{bytes_of, int32_of, int64_of};
pub use table::{MARKS, row_of};
