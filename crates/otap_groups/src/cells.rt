use otap_cells::CellView;

/// The cells in front of an item's own: its ids, and what it comes from.
#[derive(Clone, Copy, Debug)]
pub struct FrontCells<'a> {
    pub id: CellView<'a>,
    pub resource_id: CellView<'a>,
    pub resource_url: CellView<'a>,
    pub resource_dropped: CellView<'a>,
    pub scope_id: CellView<'a>,
    pub scope_name: CellView<'a>,
    pub scope_version: CellView<'a>,
    pub scope_dropped: CellView<'a>,
    pub schema_url: CellView<'a>,
}
