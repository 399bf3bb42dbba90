ghost use Rattle.std.specs.Prelude.{◌≡◌, ◌+◌, ◌≤◌, ◌<◌, ◌^◌, ◌↔◌, [], length, IsTrue, IfSome, IfNone};
ghost use Rattle.std.specs.List.{AllZip};
ghost use Rattle.otlp_model.specs.Telemetry.{item_entries};
ghost use Rattle.otlp_model.specs.Same.{SameResource, SameEntry};
ghost use Rattle.otlp_model.specs.Walk.{left, IsRun, StartsSame};

use crate::groups::{Resource, ResourceGroup, Scope};
use crate::sameness::{Alike, each_same};

/// A position among the items of some groups: the indices of the group, of its scope group and of its item.
#[derive(Drop)]
struct ItemCursor<'a, I> {
    groups: &'a [ResourceGroup<I>],
    group: usize,
    scope: usize,
    item: usize,
}

/// Some items of one scope group, with what they come from: the resource is that of the group with this index.
#[derive(Drop)]
struct Run<'a, I> {
    group: usize,
    resource: &'a Resource,
    scope: &'a Scope,
    items: &'a [I],
}

impl<'a, I> ItemCursor<'a, I> {
    fn new(groups: &'a [ResourceGroup<I>]) -> Self
        ensures groups { result.groups.now ≡ groups.now }
        ensures all { left result.groups.now result.group result.scope result.item ≡ item_entries groups.now }
    {
        ItemCursor {
            groups,
            group: 0,
            scope: 0,
            item: 0,
        }
    }

    /// The items from here to the end of their scope group, or `None` where nothing is left. It steps over scope groups
    /// and groups without items.
    fn run(&mut self) -> Option<Run<'a, I>>
        ensures groups { self.new.groups.now ≡ self.old.groups.now }
        ensures left { left self.new.groups.now self.new.group self.new.scope self.new.item ≡ left self.old.groups.now self.old.group self.old.scope self.old.item }
        ensures end { IfNone result (left self.new.groups.now self.new.group self.new.scope self.new.item ≡ []) }
        ensures group { IfSome result (λ run. run.group ≡ self.new.group) }
        ensures run { IfSome result (λ run. IsRun self.new.groups.now self.new.group self.new.scope self.new.item run.resource.now run.scope.now run.items.now) }
        ensures room { IfSome result (λ run. self.new.item + length run.items.now < 2 ^ 64) }
    {
        while self.group < self.groups.len() {
            let group = &self.groups[self.group];
            let scopes = group.scopes.as_slice();
            if self.scope < scopes.len() {
                let scope = &scopes[self.scope];
                let items = scope.items.as_slice();
                if self.item < items.len() {
                    return Some(Run {
                        group: self.group,
                        resource: &group.resource,
                        scope: &scope.scope,
                        items: &items[self.item..],
                    });
                }
                self.scope += 1;
                self.item = 0;
            } else {
                self.group += 1;
                self.scope = 0;
                self.item = 0;
            }
        }
        None
    }
}

/// Whether the first `n` items of both runs are the same; `known` says that their resources are.
fn starts_same<I: Alike>(x: &Run<'_, I>, y: &Run<'_, I>, n: usize, known: bool) -> bool
    requires in_x { n ≤ length x.now.items.now }
    requires in_y { n ≤ length y.now.items.now }
    requires known { IsTrue known → SameResource x.now.resource.now y.now.resource.now }
    ensures { IsTrue result ↔ StartsSame I.alike n x.now.resource.now y.now.resource.now x.now.scope.now y.now.scope.now x.now.items.now y.now.items.now }
{
    (known || x.resource.is_same(y.resource))
        && x.scope.is_same(y.scope)
        && each_same(&x.items[..n], &y.items[..n])
}

/// Whether both lists of groups have the same items in order, each with the same resource and scope.
///
/// It goes over both at once, run by run, so each two resources that items have in common are compared once.
pub(crate) fn same_groups<I: Alike>(a: &[ResourceGroup<I>], b: &[ResourceGroup<I>]) -> bool
    ensures { IsTrue result ↔ AllZip (SameEntry I.alike) (item_entries a.now) (item_entries b.now) }
{
    let mut left = ItemCursor::new(a);
    let mut right = ItemCursor::new(b);
    let mut compared = (a.len(), b.len());
    'runs: loop {
        let Some(x) = left.run() else {
            return right.run().is_none();
        };
        let Some(y) = right.run() else {
            return false;
        };
        let n = x.items.len().min(y.items.len());
        let known = compared.0 == x.group && compared.1 == y.group;
        if !starts_same(&x, &y, n, known) {
            return false;
        }
        compared = (x.group, y.group);
        left.item += n;
        right.item += n;
    }
}
