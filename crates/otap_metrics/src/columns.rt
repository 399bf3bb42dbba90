//! The places of the own columns of metrics in their table.

/// Of metrics.
pub mod metric {
    /// The number of the shape.
    pub const TYPE: u32 = 9;

    pub const NAME: u32 = 10;

    pub const DESCRIPTION: u32 = 11;

    pub const UNIT: u32 = 12;

    pub const TEMPORALITY: u32 = 13;

    pub const MONOTONIC: u32 = 14;
}
