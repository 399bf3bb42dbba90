use crate::refusal::Refusal;
use otap_capture::Batch;
use otap_cells::TableSet;
use otap_columns::RowsView;

/// A frame that is opened: a batch as far as its records.
#[derive(Debug, Drop)]
pub enum Opened<'f> {
    /// A batch, read where its message lies. Nothing is wrong with its list of payloads or with their records.
    Batch(Batch<'f>),
    /// A frame that is refused.
    Refused(Refusal),
    /// A reset.
    Reset,
}

/// The tables of a batch that is within the limits, one for each payload, and their row weight.
#[derive(Drop)]
pub struct Weighed<'v> {
    pub tables: TableSet<RowsView<'v>>,
    /// The row weight, not a number of rows.
    pub rows: u64,
}

/// The tables of a batch with which nothing is wrong, one for each payload, and what their request weighs.
#[derive(Drop)]
pub struct Checked<'v> {
    pub tables: TableSet<RowsView<'v>>,
    /// The tree weight of the request that the tables make.
    pub tree: u64,
}
