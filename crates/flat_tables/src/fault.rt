use thiserror::Error;

/// Why bytes can't be read as tables.
#[derive(Clone, Copy, Debug, PartialEq, Eq, Error)]
pub enum FlatFault {
    /// A part that is needed does not lie in the bytes.
    #[error("a part lies outside of the bytes")]
    OutOfRange,
    /// A vtable gives its own size as less than 4 or as an odd number.
    #[error("a vtable has a size below 4 or an odd one")]
    BadVtable,
}
