use otlp_model::Request;

/// The request of a batch, and what it weighs.
#[derive(Debug, Drop)]
pub struct Regrouped {
    pub request: Request,
    /// What the request weighs.
    pub tree: u64,
}
