use crate::refusal::Refusal;
use otlp_model::Request;

/// What a frame gives a receiver.
#[derive(Debug, Drop)]
pub enum Taken {
    /// A batch in which nothing is wrong: its id, its request, its row weight and the weight of its request.
    Accepted {
        id: i64,
        request: Request,
        /// The row weight, not a number of rows.
        rows: u64,
        /// The tree weight of the request.
        tree: u64,
    },
    /// A frame that is refused.
    Refused(Refusal),
    /// A reset.
    Reset,
}

/// What a frame gives where nobody asks for the weights of a batch.
#[derive(Debug, Drop)]
pub enum Given {
    /// A batch in which nothing is wrong: its id and its request.
    Accepted { id: i64, request: Request },
    /// A frame that is refused.
    Refused(Refusal),
    /// A reset.
    Reset,
}
