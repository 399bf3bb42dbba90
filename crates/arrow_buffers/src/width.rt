/// How the values of a column are stored.
#[derive(Clone, Copy, Debug, PartialEq, Eq)]
pub enum Width {
    /// One bit each: a cell is one byte, 0 or 1.
    Bit,
    /// A number of bytes each.
    Fixed(u32),
    /// Any number of bytes each, by offsets.
    Var,
    /// Any number of elements each, by offsets that count elements. This is the bytes of an element,
    /// at least 1.
    List(u32),
}
