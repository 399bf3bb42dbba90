use crate::refusal::Refusal;

/// What a frame gives.
#[derive(Debug, Drop)]
pub enum Seen {
    /// A batch, by its id and its row weight (`rows`, which is no number of rows).
    Batch { id: i64, rows: u64 },
    /// A frame that is refused.
    Refused(Refusal),
    /// A reset.
    Reset,
}
