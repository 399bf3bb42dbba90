//! Ids at places.
ghost use Rattle.std.specs.Prelude.{◌≡◌, map, IfOk};
ghost use Rattle.otap_groups.specs.declared.entry.ChildEntry.{ChildEntry};
ghost use Rattle.otap_groups.specs.Rows.{id_at};

use otap_groups::ChildEntry;
use std::alloc::{AllocError, Global};

/// The ids at these places.
pub(crate) fn ids_at(
    alloc: Global,
    ids: &[Option<u32>],
    places: &[usize],
) -> Result<Vec<Option<u32>>, AllocError>
    ensures { IfOk result (λ found. found.items ≡ map (id_at ids.now) places.now) }
{
    let mut found = Vec::with_capacity(alloc, places.len())?;
    'places: for place in places {
        found.push(id_at(ids, *place))?;
    }
    Ok(found)
}

/// The ids at the places of entries.
pub(crate) fn ids_of(
    alloc: Global,
    ids: &[Option<u32>],
    entries: &[ChildEntry],
) -> Result<Vec<Option<u32>>, AllocError>
    ensures { IfOk result (λ found. found.items ≡ map (λ (e : ChildEntry). id_at ids.now e.place) entries.now) }
{
    let mut found = Vec::with_capacity(alloc, entries.len())?;
    'entries: for entry in entries {
        found.push(id_at(ids, entry.place))?;
    }
    Ok(found)
}

/// The id at a place, none past the end.
fn id_at(ids: &[Option<u32>], place: usize) -> Option<u32>
    ensures { result ≡ id_at ids.now place }
{
    if place < ids.len() { ids[place] } else { None }
}
