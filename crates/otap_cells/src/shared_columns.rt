//! The indexes of columns that all tables of one shape share, and of those that rules name.

/// Of main tables.
pub mod main {
    /// `id`
    pub const ID: u32 = 0;

    /// `resource.id`
    pub const RESOURCE_ID: u32 = 1;

    /// `resource.schema_url`
    pub const RESOURCE_URL: u32 = 2;

    /// `resource.dropped_attributes_count`
    pub const RESOURCE_DROPPED: u32 = 3;

    /// `scope.id`
    pub const SCOPE_ID: u32 = 4;

    /// `scope.name`
    pub const SCOPE_NAME: u32 = 5;
}

/// Of tables of parts.
pub mod part {
    /// `id`
    pub const ID: u32 = 0;

    /// `parent_id`
    pub const PARENT_ID: u32 = 1;

    /// The first column of the part itself.
    pub const OWN: u32 = 2;
}

/// Of tables of attributes.
pub mod attribute {
    /// `parent_id`
    pub const PARENT_ID: u32 = 0;

    /// `key`
    pub const KEY: u32 = 1;

    /// `type`
    pub const TYPE: u32 = 2;

    /// `str`
    pub const STR: u32 = 3;

    /// `int`
    pub const INT: u32 = 4;

    /// `double`
    pub const DOUBLE: u32 = 5;

    /// `bool`
    pub const BOOL: u32 = 6;

    /// `bytes`
    pub const BYTES: u32 = 7;

    /// `ser`
    pub const SER: u32 = 8;
}

/// Of the table of events.
pub mod event {
    /// `name`
    pub const NAME: u32 = 3;
}

/// Of the table of links.
pub mod link {
    /// `trace_id`
    pub const TRACE_ID: u32 = 2;
}

/// Of the table of log records.
pub mod log {
    /// `body.type`, the first of the seven columns of a value.
    pub const BODY_TYPE: u32 = 15;
}

/// Of the table of metrics.
pub mod metric {
    /// `metric_type`
    pub const TYPE: u32 = 9;
}

/// Of the table of number points.
pub mod number_point {
    /// `int_value`, right before `double_value`.
    pub const INT: u32 = 4;
}

/// Of tables of exemplars.
pub mod exemplar {
    /// `int_value`, right before `double_value`.
    pub const INT: u32 = 3;
}

/// Of the table of points of summaries.
pub mod summary_point {
    /// `quantiles`
    pub const QUANTILES: u32 = 6;

    /// `quantile_values`
    pub const VALUES: u32 = 7;
}
