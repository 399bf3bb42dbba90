//! A request as one list of items, and the parts of a list of parents as one list.
ghost use Rattle.std.specs.Prelude.{◌≡◌, ◌<◌, ◌+◌, ◌++◌, ◌^◌, map, length, IfOk, OnOk};
ghost use Rattle.std.specs.List.{flat_map};
ghost use Rattle.otap_groups.specs.Flat.{flat_items, flat_at, flat_scopes, items_of, past, scopes_past};
ghost use Rattle.otap_groups.specs.Stored.{Rising};
ghost use Rattle.otap_groups.specs.Views.{seen_flat};

use otlp_model::{Resource, ResourceGroup, Scope, ScopeGroup};
use std::alloc::{AllocError, Global};

/// An item with what it comes from, and the numbers of its resource and its scope among those that have items.
#[derive(Drop)]
pub struct Flat<'a, I> {
    pub resource_id: u32,
    pub scope_id: u32,
    pub resource: &'a Resource,
    pub scope: &'a Scope,
    pub item: &'a I,
}

/// A part with the place of its parent in the list of parents.
#[derive(Drop)]
pub struct Placed<'a, C> {
    pub parent: u32,
    pub part: &'a C,
}

/// The items of a request in order. Groups without items have no number.
pub fn flatten<'a, I>(
    alloc: Global,
    groups: &'a [ResourceGroup<I>],
) -> Result<Vec<Flat<'a, I>>, AllocError>
    requires few { length (items_of groups.now) < 2 ^ 32 }
    ensures items { IfOk result (λ found. map seen_flat found.items ≡ flat_items groups.now) }
    ensures rising { IfOk result (λ found. Rising 0 0 (map seen_flat found.items)) }
{
    let mut found = Vec::new(alloc);
    let mut resource_id = 0;
    let mut scope_id = 0;
    'groups: for group in groups {
        let before = found.len();
        scope_id = add_group(&mut found, resource_id, scope_id, group)?;
        resource_id = past(resource_id, &found[before..]);
    }
    Ok(found)
}

/// Appends the items of a group, and returns the next number of a scope.
fn add_group<'a, I>(
    found: &mut Vec<Flat<'a, I>>,
    resource_id: u32,
    scope_id: u32,
    group: &'a ResourceGroup<I>,
) -> Result<u32, AllocError>
    requires few { scope_id + length (flat_map (λ scope. scope.items) group.now.scopes) < 2 ^ 32 }
    ensures items { OnOk result (map seen_flat found.new.items ≡ map seen_flat found.old.items ++ flat_scopes resource_id scope_id group.now.resource group.now.scopes) }
    ensures next { IfOk result (λ next. next ≡ scopes_past scope_id group.now.scopes) }
{
    let mut next = scope_id;
    'scopes: for scope in group.scopes.as_slice() {
        add_items(found, resource_id, next, &group.resource, scope)?;
        next = past(next, scope.items.as_slice());
    }
    Ok(next)
}

fn add_items<'a, I>(
    found: &mut Vec<Flat<'a, I>>,
    resource_id: u32,
    scope_id: u32,
    resource: &'a Resource,
    group: &'a ScopeGroup<I>,
) -> Result<(), AllocError>
    ensures { OnOk result (map seen_flat found.new.items ≡ map seen_flat found.old.items ++ map (flat_at resource_id scope_id resource.now group.now.scope) group.now.items) }
{
    found.reserve(group.items.len())?;
    'items: for item in group.items.as_slice() {
        found.push(Flat {
            resource_id,
            scope_id,
            resource,
            scope: &group.scope,
            item,
        })?;
    }
    Ok(())
}

/// The next number, where these have the number `n`.
fn past<T>(n: u32, items: &[T]) -> u32
    requires { n + length items.now < 2 ^ 32 }
    ensures { result ≡ past n items.now }
{
    if items.is_empty() { n } else { n + 1 }
}
