//! A field, its value, and what can be wrong with its bytes.

use thiserror::Error;

/// The greatest number of a field (protobuf language specification, field numbers).
pub const MAX_NUMBER: u32 = (1 << 29) - 1;

/// A field's value by its wire type (protobuf encoding, "Message Structure"). The deprecated groups,
/// wire types 3 and 4, are not read.
#[derive(Clone, Copy, Debug, PartialEq, Eq)]
pub enum Wire<'a> {
    /// Wire type 0, a base 128 varint of up to 64 bits.
    Varint(u64),
    /// Wire type 1, eight bytes, lowest first.
    Fixed64(u64),
    /// Wire type 2, a length and as many bytes: a string, bytes, a message or packed numbers.
    Bytes(&'a [u8]),
    /// Wire type 5, four bytes, lowest first.
    Fixed32(u32),
}

/// A field's number, from 1 to [`MAX_NUMBER`], and its value.
#[derive(Clone, Copy, Debug, PartialEq, Eq)]
pub struct Field<'a> {
    pub number: u32,
    pub value: Wire<'a>,
}

/// Why bytes are no field: the first of these from left to right.
#[derive(Clone, Copy, Debug, PartialEq, Eq, Error)]
pub enum WireError {
    /// A part runs past the bytes.
    #[error("the bytes end inside a field")]
    Cut,
    /// A varint has more than ten bytes, or a tenth byte above 1, so it does not fit 64 bits.
    #[error("a varint is longer than 64 bits")]
    BadVarint,
    /// The wire type is 3, 4, 6 or 7.
    #[error("a field has an unknown wire type")]
    BadWireType,
    /// The field's number is 0 or above [`MAX_NUMBER`].
    #[error("a field's number is out of range")]
    BadTag,
}
