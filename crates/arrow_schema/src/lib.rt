//! Arrow schemas: read from the tables of IPC metadata, and written as tables.
#![tactic(auto)]

mod agreement;
mod encoding;
mod field;
pub mod laws;
mod reading;
mod refusal;
mod spec;
mod writing;

pub use crate::reading::read_schema;
pub use crate::refusal::SchemaRefusal;
pub use crate::spec::{
    ArrowType, DictSpec, Encoding, FieldSpec, MAX_DEPTH, MAX_FIELDS, MAX_FIXED, SchemaSpec,
};
pub use crate::writing::{MAX_SIZE_BEFORE, MAX_WRITTEN_FIELDS, MAX_WRITTEN_NAMES, add_schema};
pub use lists::{Items as FieldList, Text as Name};
