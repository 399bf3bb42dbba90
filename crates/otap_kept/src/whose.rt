/// Whose pairs a filter looks at.
#[derive(Clone, Copy, Debug, PartialEq, Eq)]
pub enum Whose {
    /// Those of spans and of log records. Metrics have none.
    Item,
    /// Those of their resources.
    Resource,
}
