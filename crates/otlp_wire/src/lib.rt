//! The protobuf wire format: the fields that bytes encode, and the bytes that encode a field.
#![tactic(auto)]

mod laws;
mod parts;
mod reading;
mod varint;
mod writing;

pub use laws::{
    joined_reading, limits, one_reading, shortest_spelling, some_reading, written_is_read,
};
pub use parts::{Field, MAX_NUMBER, Wire, WireError};
pub use reading::Fields;
pub use varint::{len_varint, put_varint};
pub use writing::{put_bytes_field, put_fixed32_field, put_fixed64_field, put_varint_field};
