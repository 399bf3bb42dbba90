/// A row that names a parent.
#[derive(Clone, Copy, Debug)]
pub struct ChildEntry {
    pub parent: u32,
    pub place: usize,
}
