/// What the rows of a group have in common.
#[derive(Clone, Copy, Debug)]
pub(crate) enum Level {
    Resource,
    Scope,
}
