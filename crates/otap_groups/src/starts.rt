//! Where the entries of each parent begin.
ghost use Rattle.std.specs.Prelude.{◌≡◌, IfOk};
ghost use Rattle.otap_groups.specs.Inside.{AreByParent, AreStarts};
ghost use Rattle.otap_groups.specs.Found.{of_parent};

use crate::entry::ChildEntry;
use crate::index::{SPREAD, of_parent};
use std::alloc::{AllocError, Global};

/// Where the entries of each parent begin, up to the parent after the greatest; nothing where parents are far above the number
/// of the entries.
pub(crate) fn starts_of(alloc: Global, entries: &[ChildEntry]) -> Result<Vec<usize>, AllocError>
    requires { AreByParent entries.now }
    ensures { IfOk result (λ starts. AreStarts entries.now starts.items) }
{
    if !are_dense(entries) {
        return Ok(Vec::new(alloc));
    }
    let starts = starts_up_to_last(alloc, entries)?;
    Ok(starts)
}

/// Whether no parent is far above the number of the entries, the last of which has the greatest parent.
fn are_dense(entries: &[ChildEntry]) -> bool {
    match entries.last() {
        Some(entry) => entry.parent as usize / SPREAD <= entries.len(),
        None => false,
    }
}

fn starts_up_to_last(alloc: Global, entries: &[ChildEntry]) -> Result<Vec<usize>, AllocError>
    requires { AreByParent entries.now }
    ensures { IfOk result (λ starts. AreStarts entries.now starts.items) }
{
    let mut starts = Vec::with_capacity(alloc, room_of(entries))?;
    'entries: for place in 0..entries.len() {
        let parent = entries[place].parent as usize;
        if parent < starts.len() {
            continue;
        }
        starts.resize(parent + 1, place)?;
    }
    starts.push(entries.len())?;
    Ok(starts)
}

/// For how many parents there are starts.
fn room_of(entries: &[ChildEntry]) -> usize {
    match entries.last() {
        Some(entry) => entry.parent as usize + 2,
        None => 1,
    }
}

/// The part of the entries that has this parent, found at its start where that is known.
pub(crate) fn part_of<'a>(
    entries: &'a [ChildEntry],
    starts: &[usize],
    parent: u32,
) -> &'a [ChildEntry]
    requires rising { AreByParent entries.now }
    requires starts { AreStarts entries.now starts.now }
    ensures { result.now ≡ of_parent parent entries.now }
{
    let at = parent as usize;
    if at + 1 < starts.len() {
        let start = starts[at];
        let rest = entries.split_at(start).1;
        rest.split_at(starts[at + 1] - start).0
    } else {
        of_parent(entries, parent)
    }
}
