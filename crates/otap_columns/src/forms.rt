use otap_cells::Coding;

/// How a column is written in a record.
#[derive(Clone, Copy, Debug, PartialEq, Eq)]
pub enum ColumnForm {
    /// Not at all.
    Absent,
    /// As its values; ids as numbers of 16 bits.
    Plain,
    /// As indexes of 8 bits into a dictionary.
    Dict8,
    /// As indexes of 16 bits into a dictionary.
    Dict16,
    /// As ids of 32 bits.
    Wide,
    /// As ids of 32 bits, in a field that names how they are stored.
    Coded(Coding),
}
