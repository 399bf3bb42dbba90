//! What a signal brings to read its rows.
ghost use Rattle.std.specs.Prelude.{◌≡◌, ◌<◌, ◌++◌, ◌∷◌, ℕ, List, [], Option, length, min, IfOk, OnOk};
ghost use Rattle.std.specs.List.{slice_index_or};
ghost use Rattle.otlp_model.specs.Limits.{count_cap, part_weight};
ghost use Rattle.otlp_model.specs.Weight.{total};
ghost use Rattle.otap_cells.specs.Cells.{Cell};

use otlp_model::Items;
use std::alloc::{AllocError, Global};

/// Reads the item of a row: from its own cells, and from the tables below, in which it is found by its id.
pub trait RowReader: Drop {
    type Item: Drop;

    /// The own cells of each row.
    ghost cells: { Self → List (List Cell) };

    /// The item of an id and own cells.
    ghost item: { Self → Option ℕ → List Cell → Self.Item };

    /// What an item weighs.
    ghost weigh: { Self.Item → ℕ };

    /// The item of a row that has this id.
    fn read(&self, alloc: Global, id: Option<u32>, row: usize) -> Result<Self::Item, AllocError>
        requires { row < length (cells self.now) }
        ensures { IfOk result (λ read. read ≡ item self.now id (slice_index_or (cells self.now) row [])) };

    /// Appends the item of a row that has this id.
    #[inline]
    fn add(
        &self,
        alloc: Global,
        id: Option<u32>,
        row: usize,
        to: &mut Items<Self::Item>,
    ) -> Result<(), AllocError>
        requires { row < length (cells self.now) }
        ensures { OnOk result (to.new ≡ to.old ++ item self.now id (slice_index_or (cells self.now) row []) ∷ []) }
    {
        to.push(self.read(alloc, id, row)?)
    }

    /// What the item of a row weighs, or `CAP` where it is more. It builds nothing.
    fn weight(&self, id: Option<u32>, row: usize) -> u64
        requires { row < length (cells self.now) }
        ensures { result ≡ min (weigh (item self.now id (slice_index_or (cells self.now) row []))) count_cap };
}

/// Finds the children of a parent.
pub trait Lookup: Drop {
    type Child: Drop;

    /// The children of a parent; of a row without an id there are none.
    ghost finds: { Self → Option ℕ → List Self.Child };

    /// What a child weighs.
    ghost weigh: { Self.Child → ℕ };

    fn of(&self, alloc: Global, parent: Option<u32>) -> Result<Items<Self::Child>, AllocError>
        ensures { IfOk result (λ children. children ≡ finds self.now parent) };

    /// What the children weigh, with 32 for each, or `CAP` where it is more. It builds nothing.
    fn weight_of(&self, parent: Option<u32>) -> u64
        ensures { result ≡ min (total part_weight weigh (finds self.now parent)) count_cap };
}
