use thiserror::Error;

/// What is wrong with the buffers of a column.
#[derive(Clone, Copy, Debug, PartialEq, Eq, Error)]
pub enum BufferFault {
    /// A buffer is too small for the rows.
    #[error("a buffer is too small for the rows")]
    Short,
    /// An offset is negative, less than the one before, or past the values.
    #[error("an offset is negative, falls, or passes the values")]
    BadOffsets,
    /// There are nulls and no bitmap that says where, or a list that is not null has a null element.
    #[error("nulls are counted where no bitmap stands")]
    BadNulls,
    /// The text of a row that is not null is not UTF-8.
    #[error("a text is not UTF-8")]
    BadUtf8,
}
