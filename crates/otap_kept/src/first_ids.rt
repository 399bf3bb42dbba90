//! The first of each id, where new numbers don't fall.
ghost use Rattle.std.specs.Prelude.{◌≡◌, false, IfNone, IfOk, IfSome, None};
ghost use Rattle.otap_kept.specs.Numbering.{IsFirstIds, numbers_rise, runs_after};

use otap_cells::has_twice;
use std::alloc::{AllocError, Global};

/// The first of each id, in the order in which they come; `None` where the new numbers of the ids fall. Takes n log n for n runs
/// of equal ids, and is linear beside that.
pub(crate) fn first_ids(
    alloc: Global,
    ids: &[Option<u32>],
) -> Result<Option<Vec<Option<u32>>>, AllocError>
    ensures ordered { IfOk result (λ found. IfSome found (λ first. IsFirstIds ids.now first.items)) }
    ensures unordered { IfOk result (λ found. IfNone found (numbers_rise ids.now ≡ false)) }
{
    let runs = runs_of(alloc, ids)?;
    let comes_back = has_twice(alloc, &runs)?;
    if comes_back {
        return Ok(None);
    }
    Ok(Some(runs))
}

/// The ids without those that are null, or equal to the one before.
fn runs_of(alloc: Global, ids: &[Option<u32>]) -> Result<Vec<Option<u32>>, AllocError>
    ensures { IfOk result (λ runs. runs.items ≡ runs_after None ids.now) }
{
    let mut runs = Vec::new(alloc);
    let mut last = None;
    'ids: for place in 0..ids.len() {
        let id = ids[place];
        if id.is_none() || id == last {
            continue;
        }
        runs.push(id)?;
        last = id;
    }
    Ok(runs)
}
