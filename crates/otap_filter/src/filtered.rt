use otap_consume::Refusal;

/// What a frame gives a filter.
#[derive(Debug, Drop)]
pub enum Filtered {
    /// A batch: its id, and the batch message of what is kept of it, under the same id.
    Batch { id: i64, bytes: Vec<u8> },
    /// A batch of which what is kept can't be written: the ids of its resources or scopes would fall.
    Unordered { id: i64 },
    /// A frame that is refused.
    Refused(Refusal),
    /// A reset.
    Reset,
}
