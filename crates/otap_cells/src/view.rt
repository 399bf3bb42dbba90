/// A cell, seen where it is kept.
#[derive(Clone, Copy, Debug, PartialEq, Eq)]
pub enum CellView<'a> {
    /// No value.
    Null,
    /// A number of the bases `U8` to `U32`, `I32`, `I64` and `Id`.
    Num(i64),
    /// The 64 bits of a `U64`, a double, a timestamp or a duration.
    Bits(u64),
    /// A truth value.
    Flag(bool),
    /// A text, which is UTF-8, or bytes; the elements of a list, 8 bytes each, with the lowest byte first.
    Bytes(&'a [u8]),
}
