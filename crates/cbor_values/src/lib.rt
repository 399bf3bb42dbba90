//! Nested values as CBOR (RFC 8949): any of the forms that are read here becomes a value, and a value is written in one form.
#![tactic(auto)]

mod floats;
mod heads;
mod laws;
mod reading;
mod refusal;
mod strings;
mod weighing;
mod writing;

pub use laws::{one_value, same_number, value_or_refusal, written_form};
pub use reading::read_value;
pub use refusal::CborRefusal;
pub use weighing::{Nesting, WeighedValue, weigh_value};
pub use writing::{len_value, write_value};
