//! Laws of the definitions that the contracts cite.

ghost use Rattle.std.specs.Prelude.{◌≡◌, ℕ, ◌-◌, List, length, Ok, Err};
ghost use Rattle.flat_tables.specs.declared.place.Slot.{Slot};
ghost use Rattle.flat_tables.specs.Limits.{max_width, max_slots, max_size};
ghost use Rattle.flat_tables.specs.Tables.{table_at};
ghost use Rattle.flat_tables.specs.Words.{IsTableAt, HasBadVtable};
ghost use Rattle.flat_tables.specs.Building.{Grows, StaysAt, IsText, IsParts, IsPlaces, HasSlots};

use crate::builder::{MAX_SIZE, MAX_SLOTS};
use crate::fault::FlatFault;
use crate::views::MAX_WIDTH;

/// The limits have their values.
pub fn limits_hold()
    ensures width { MAX_WIDTH ≡ max_width }
    ensures slots { MAX_SLOTS ≡ max_slots }
    ensures size { MAX_SIZE ≡ max_size }
{}

/// When a table is read at an offset, and which fault is returned when none is.
pub fn tables_in_words()
    ensures table { (bytes : List ℕ) (place vtable size : ℕ) → IsTableAt bytes place vtable size
        → table_at bytes place ≡ Ok (record { bytes = bytes; place = place; vtable = vtable; size = size }) }
    ensures bad { (bytes : List ℕ) (place : ℕ) → HasBadVtable bytes place → table_at bytes place ≡ Err FlatFault.BadVtable }
    ensures neither { (bytes : List ℕ) (place : ℕ) → ((vtable size : ℕ) → IsTableAt bytes place vtable size → ⊥)
        → (HasBadVtable bytes place → ⊥) → table_at bytes place ≡ Err FlatFault.OutOfRange }
{}

/// What holds at an offset of a builder, counted from the end, also holds after later calls.
pub fn places_stay()
    ensures texts { (text old new : List ℕ) (place : ℕ) → Grows old new → StaysAt (IsText text) old place → StaysAt (IsText text) new place }
    ensures parts { (width : ℕ) (parts old new : List ℕ) (place : ℕ) → Grows old new
        → StaysAt (IsParts width parts) old place → StaysAt (IsParts width parts) new place }
    ensures places { (places old new : List ℕ) (place : ℕ) → Grows old new → StaysAt (IsPlaces places) old place → StaysAt (IsPlaces places) new place }
    ensures tables { (slots : List Slot) (old new : List ℕ) (place : ℕ) → Grows old new → StaysAt (HasSlots slots) old place → StaysAt (HasSlots slots) new place }
{}

/// What was added to a builder is read in the finished bytes, at its distance from their end.
pub fn added_is_read()
    ensures texts { (text built bytes : List ℕ) (place : ℕ) → Grows built bytes → StaysAt (IsText text) built place → IsText text bytes (length bytes - place) }
    ensures parts { (width : ℕ) (parts built bytes : List ℕ) (place : ℕ) → Grows built bytes
        → StaysAt (IsParts width parts) built place → IsParts width parts bytes (length bytes - place) }
    ensures places { (places built bytes : List ℕ) (place : ℕ) → Grows built bytes → StaysAt (IsPlaces places) built place → IsPlaces places bytes (length bytes - place) }
    ensures tables { (slots : List Slot) (built bytes : List ℕ) (place : ℕ) → Grows built bytes → StaysAt (HasSlots slots) built place → HasSlots slots bytes (length bytes - place) }
{}
