//! The items that the load is made of.
ghost use Rattle.std.specs.Prelude.{◌≡◌, ◌<◌, [], ◌∷◌, IfOk};
ghost use Rattle.otlp_load.specs.Items.{time_of};
ghost use Rattle.otlp_load.specs.Inside.{numbers_end};

use otlp_model::Items;
use std::alloc::{AllocError, Global};

/// An item that the load is made of.
pub(crate) trait LoadItem: Drop + Sized {
    ghost use Rattle.std.specs.Prelude.{ℕ};

    /// The item, by the number of its request and its own.
    ghost item_of: { ℕ → ℕ → Self };

    /// The item with this number.
    fn made(alloc: Global, request: u32, number: u32) -> Result<Self, AllocError>
        requires { number < numbers_end }
        ensures { IfOk result (λ item. item ≡ item_of request number) };
}

/// Nanoseconds in a second.
const SECOND: u64 = 1_000_000_000;

/// The time of an item: one second for each.
pub(crate) fn time(number: u32) -> u64
    ensures { result ≡ time_of number }
{
    SECOND * u64::from(number)
}

pub(crate) fn list_of_one<T: Drop>(alloc: Global, item: T) -> Result<Items<T>, AllocError>
    ensures { IfOk result (λ items. items ≡ item ∷ []) }
{
    let mut items = Items::new(alloc);
    items.push(item)?;
    Ok(items)
}
