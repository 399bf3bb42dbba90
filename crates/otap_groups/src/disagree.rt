//! Whether rows of one id differ in another cell.
ghost use Rattle.std.specs.Prelude.{◌≡◌, ◌<◌, ◌≤◌, true, false, length, IfOk};
ghost use Rattle.otap_groups.specs.Disagree.{Disagree, ResourcesDisagree, ScopesDisagree};
ghost use Rattle.otap_groups.specs.Inside.{ArePlacesBelow, DifferAt, clash_at};

use crate::entry::ChildEntry;
use crate::front::FrontColumns;
use crate::index::entries_of;
use crate::level::Level;
use otap_cells::Rows;
use std::alloc::{AllocError, Global};

impl<R: Rows> FrontColumns<'_, R> {
    /// Whether rows of one resource id, or of one scope id, differ in another cell of `resource` or of `scope`.
    pub fn disagrees(&self, alloc: Global) -> Result<bool, AllocError>
        ensures yes { IfOk result (λ found. found ≡ true → Disagree self.now) }
        ensures no { IfOk result (λ found. found ≡ false → Disagree self.now → ⊥) }
    {
        if self.resources_differ(alloc)? {
            return Ok(true);
        }
        let found = self.scopes_differ(alloc)?;
        Ok(found)
    }

    /// Whether rows of one resource id differ in another cell of `resource`. Takes n log n for n rows.
    fn resources_differ(&self, alloc: Global) -> Result<bool, AllocError>
        ensures yes { IfOk result (λ found. found ≡ true → ResourcesDisagree self.now) }
        ensures no { IfOk result (λ found. found ≡ false → ResourcesDisagree self.now → ⊥) }
    {
        let found = self.differ(alloc, Level::Resource)?;
        Ok(found)
    }

    /// Whether rows of one scope id differ in another cell of `scope`. Takes n log n for n rows.
    fn scopes_differ(&self, alloc: Global) -> Result<bool, AllocError>
        ensures yes { IfOk result (λ found. found ≡ true → ScopesDisagree self.now) }
        ensures no { IfOk result (λ found. found ≡ false → ScopesDisagree self.now → ⊥) }
    {
        let found = self.differ(alloc, Level::Scope)?;
        Ok(found)
    }

    /// Whether rows of one id have cells beside it that aren't equal. Rows of one id are together among the entries, so
    /// neighbours are compared.
    fn differ(&self, alloc: Global, level: Level) -> Result<bool, AllocError>
        ensures yes { IfOk result (λ found. found ≡ true → DifferAt level self.now) }
        ensures no { IfOk result (λ found. found ≡ false → DifferAt level self.now → ⊥) }
    {
        let ids = self.ids_by(alloc, level)?;
        let entries = entries_of(alloc, &ids)?;
        'entries: for place in 1..entries.len() {
            if self.clash(level, &entries, place) {
                return Ok(true);
            }
        }
        Ok(false)
    }

    /// Whether an entry has the parent of the one before it, and other cells.
    fn clash(&self, level: Level, entries: &[ChildEntry], place: usize) -> bool
        requires below { ArePlacesBelow (length self.now) entries.now }
        requires some { 1 ≤ place }
        requires within { place < length entries.now }
        ensures { result ≡ clash_at level self.now entries.now place }
    {
        let before = entries[place - 1];
        let entry = entries[place];
        before.parent == entry.parent && !self.same_cells(level, before.place, entry.place)
    }
}
