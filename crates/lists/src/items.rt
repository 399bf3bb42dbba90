ghost use Rattle.std.specs.Prelude.{◌≡◌, [], ◌∷◌, ◌++◌, ◌↔◌, length, slice_get, IsTrue, IfOk, OnOk, OnErr};
ghost use Rattle.std.specs.Option.{option_copied, option_copied_mut};
ghost use Rattle.std.specs.Borrow.{sem};
ghost use Rattle.lists.specs.Lends.{lends_added, lends_item};

use std::alloc::{AllocError, Global};
use std::marker::Model;

/// A growing list. Contracts see it as the list of its items, so that a tree of such lists is plain data.
#[derive(Debug, Drop)]
pub struct Items<T> {
    items: Vec<T>,
}

impl<T> Model for Items<T> {
    ghost use Rattle.std.specs.Prelude.{List};
    ghost use Rattle.std.specs.Coded.{coded_list};

    ghost Value = { List T };

    ghost coded = { coded_list T.code };

    ghost view = { λ a. a.items.items };
}

impl<T> Items<T> {
    /// An empty list.
    #[inline]
    pub fn new(alloc: Global) -> Items<T>
        ensures { result ≡ [] }
    {
        Items {
            items: Vec::new(alloc),
        }
    }

    /// How many items there are.
    #[inline]
    pub fn len(&self) -> usize
        ensures { result ≡ length self.now }
    {
        self.items.len()
    }

    /// Whether there is none.
    #[inline]
    pub fn is_empty(&self) -> bool
        ensures { IsTrue result ↔ (self.now ≡ []) }
    {
        self.items.is_empty()
    }

    /// The item at the index; `None` exactly where the index isn't below `len`.
    #[inline]
    pub fn get(&self, place: usize) -> Option<&T>
        ensures { option_copied result ≡ slice_get self.now place }
    {
        self.items.get(place)
    }

    /// The item at the index, to write to; `None` exactly where the index isn't below `len`. The other items stay.
    pub fn get_mut(&mut self, place: usize) -> Option<&mut T>
        ensures* writes_back { sem 𝓛 (lends_item T.row self.entry place result) }
        ensures value { option_copied_mut result ≡ slice_get self.old place }
    {
        self.items.get_mut(place)
    }

    /// The items as a slice, for a `for` or a chain over them.
    #[inline]
    pub fn as_slice(&self) -> &[T]
        ensures { result.now ≡ self.now }
    {
        self.items.as_slice()
    }
}

impl<T: Drop> Items<T> {
    /// Appends the item. Out of memory, the item is dropped and the list is as before.
    #[inline]
    pub fn push(&mut self, item: T) -> Result<(), AllocError>
        ensures ok { OnOk result (self.new ≡ self.old ++ item ∷ []) }
        ensures err { OnErr result (self.new ≡ self.old) }
    {
        self.items.push(item)?;
        Ok(())
    }

    /// Appends the item and lends it, so that it can be written where it stays. Out of memory, the item is dropped and the list is
    /// as before.
    #[inline]
    pub fn push_mut(&mut self, item: T) -> Result<&mut T, AllocError>
        ensures* writes_back { sem 𝓛 (lends_added T.row self.entry result) }
        ensures value { IfOk result (λ lent. lent.now ≡ item) }
    {
        Ok(self.items.push_mut(item)?)
    }

    /// Drops all items. The room for them stays.
    pub fn clear(&mut self)
        ensures { self.new ≡ [] }
    {
        self.items.clear();
    }

    /// Reserves room for `more` items beside those in the list, so that pushing them allocates nothing. The list stays as it
    /// is, and one that has no room at all gets exactly that much.
    pub fn reserve(&mut self, more: usize) -> Result<(), AllocError>
        ensures { self.new ≡ self.old }
    {
        if self.items.capacity() == 0 {
            self.items.reserve_exact(more)
        } else {
            self.items.reserve(more)
        }
    }
}
