//! The children of a parent.
ghost use Rattle.std.specs.Prelude.{◌≡◌, ℕ, length, IfOk};
ghost use Rattle.otap_groups.specs.Beside.{Finds, beside};
ghost use Rattle.otap_groups.specs.Children.{children};
ghost use Rattle.otap_groups.specs.Rows.{child_rows};

use crate::children::ChildIndex;
use crate::reading::{Lookup, RowReader};
use otlp_model::Items;
use std::alloc::{AllocError, Global};
use std::marker::Model;

/// The rows of a table, found by their parents. Contracts see it as the children, each beside its parent.
#[derive(Drop)]
pub struct Children<'a, C: RowReader> {
    index: ChildIndex<'a, C>,
}

impl<'a, C: RowReader> Model for Children<'a, C> {
    ghost use Rattle.std.specs.Prelude.{ℕ, List};
    ghost use Rattle.otap_groups.specs.Beside.{with_parents};

    ghost Value = { List (ℕ × C.Item) };

    ghost view = { λ a. with_parents (C.item a.index.reader) a.index.ids.now (C.cells a.index.reader) a.index.entries.items };
}

impl<'a, C: RowReader> Children<'a, C> {
    /// The rows that a reader reads, with their ids, or none of them, and their parents. Takes n log n for n rows, and time in
    /// proportion to them where parents aren't far above their number.
    pub fn new(
        alloc: Global,
        reader: C,
        ids: &'a [Option<u32>],
        parents: &[Option<u32>],
    ) -> Result<Children<'a, C>, AllocError>
        requires { length parents.now ≡ length (C.cells reader) }
        ensures { IfOk result (Finds (children (C.item reader) (child_rows ids.now parents.now (C.cells reader)))) }
    {
        let index = ChildIndex::new(alloc, reader, ids, parents)?;
        Ok(Children { index })
    }
}

impl<C: RowReader> Lookup for Children<'_, C> {
    type Child = C::Item;

    ghost finds = { λ s parent. beside parent s };

    ghost weigh = { C.weigh };

    fn of(&self, alloc: Global, parent: Option<u32>) -> Result<Items<C::Item>, AllocError> {
        let children = self.index.of(alloc, parent)?;
        Ok(children)
    }

    fn weight_of(&self, parent: Option<u32>) -> u64 {
        self.index.weight_of(parent)
    }
}
