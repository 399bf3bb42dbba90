//! Why a request is not exported.
ghost use Rattle.std.specs.Prelude.{◌≡◌};
ghost use Rattle.otap_produce.specs.declared.refusal.ProduceRefusal.TheVariants.{Memory};

use std::alloc::AllocError;
use thiserror::Error;

/// Why a request is not exported: the first of these that holds.
#[derive(Debug, Drop, Error)]
pub enum ProduceRefusal {
    /// Memory ran out since the last reset.
    #[error("memory ran out since the last reset")]
    Broken,
    /// The request has more than [`MAX_ITEMS`](otlp_model::MAX_ITEMS) items.
    #[error("the request has too many items")]
    TooManyItems,
    /// The request weighs more than [`MAX_TREE_WEIGHT`](otlp_model::MAX_TREE_WEIGHT), or its tables more than
    /// [`MAX_ROW_WEIGHT`](otap_cells::MAX_ROW_WEIGHT).
    #[error("the request is too heavy")]
    TooHeavy,
    /// Memory ran out in this call.
    #[error("out of memory")]
    Memory(AllocError),
}

impl From<AllocError> for ProduceRefusal {
    ghost from_gives = { λ error refusal. refusal ≡ Memory error };

    fn from(error: AllocError) -> ProduceRefusal {
        ProduceRefusal::Memory(error)
    }
}
