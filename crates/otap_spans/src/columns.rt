//! The places of the own columns of spans, events and links in their tables.

/// Of spans.
pub mod span {
    pub const START: u32 = 9;

    pub const DURATION: u32 = 10;

    pub const TRACE_ID: u32 = 11;

    pub const SPAN_ID: u32 = 12;

    pub const TRACE_STATE: u32 = 13;

    pub const PARENT_SPAN_ID: u32 = 14;

    pub const NAME: u32 = 15;

    pub const KIND: u32 = 16;

    pub const DROPPED_PAIRS: u32 = 17;

    pub const DROPPED_EVENTS: u32 = 18;

    pub const DROPPED_LINKS: u32 = 19;

    pub const STATUS_CODE: u32 = 20;

    pub const STATUS_MESSAGE: u32 = 21;

    pub const FLAGS: u32 = 22;
}

/// Of events.
pub mod event {
    pub const TIME: u32 = 2;

    pub const NAME: u32 = 3;

    pub const DROPPED: u32 = 4;
}

/// Of links.
pub mod link {
    pub const TRACE_ID: u32 = 2;

    pub const SPAN_ID: u32 = 3;

    pub const TRACE_STATE: u32 = 4;

    pub const DROPPED: u32 = 5;

    pub const FLAGS: u32 = 6;
}
