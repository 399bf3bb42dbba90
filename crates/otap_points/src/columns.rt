//! The places of the own columns of points and exemplars in their tables.

/// Of the points of gauges and sums.
pub mod point {
    pub const START: u32 = 2;

    pub const TIME: u32 = 3;
    /// The integer, and in the column after it the double.
    pub const VALUE: u32 = 4;

    pub const FLAGS: u32 = 6;
}

/// Of exemplars.
pub mod exemplar {
    pub const TIME: u32 = 2;
    /// The integer, and in the column after it the double.
    pub const VALUE: u32 = 3;

    pub const SPAN_ID: u32 = 5;

    pub const TRACE_ID: u32 = 6;
}

/// Of the points of histograms.
pub mod hist_point {
    pub const START: u32 = 2;

    pub const TIME: u32 = 3;

    pub const COUNT: u32 = 4;

    pub const BUCKETS: u32 = 5;

    pub const BOUNDS: u32 = 6;

    pub const SUM: u32 = 7;

    pub const FLAGS: u32 = 8;

    pub const MIN: u32 = 9;

    pub const MAX: u32 = 10;
}

/// Of the points of summaries.
pub mod sum_point {
    pub const START: u32 = 2;

    pub const TIME: u32 = 3;

    pub const COUNT: u32 = 4;

    pub const SUM: u32 = 5;

    pub const QUANTILES: u32 = 6;

    pub const VALUES: u32 = 7;

    pub const FLAGS: u32 = 8;
}
