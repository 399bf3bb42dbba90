//! What the items of a request come from, and its items, as lists.
ghost use Rattle.std.specs.Prelude.{◌≡◌, ◌<◌, ◌++◌, ◌^◌, filter, length, map, nat_lt, IfOk, OnOk};
ghost use Rattle.otap_groups.specs.Flat.{resources_of, scopes_of};

use crate::flat::{Flat, Placed};
use otlp_model::{Resource, ResourceGroup, Scope, ScopeGroup};
use std::alloc::{AllocError, Global};

/// The resources that have items, in the order of their numbers.
pub fn resources_of<'a, I>(
    alloc: Global,
    groups: &'a [ResourceGroup<I>],
) -> Result<Vec<&'a Resource>, AllocError>
    ensures { IfOk result (λ found. map (λ resource. resource.now) found.items ≡ resources_of groups.now) }
{
    let mut found = Vec::new(alloc);
    'groups: for group in groups {
        if !has_scopes(group) {
            continue;
        }
        found.push(&group.resource)?;
    }
    Ok(found)
}

/// The scopes that have items, in the order of their numbers.
pub fn scopes_of<'a, I>(
    alloc: Global,
    groups: &'a [ResourceGroup<I>],
) -> Result<Vec<&'a Scope>, AllocError>
    ensures { IfOk result (λ found. map (λ scope. scope.now) found.items ≡ scopes_of groups.now) }
{
    let mut found = Vec::new(alloc);
    'groups: for group in groups {
        add_scopes(&mut found, group.scopes.as_slice())?;
    }
    Ok(found)
}

fn add_scopes<'a, I>(
    found: &mut Vec<&'a Scope>,
    groups: &'a [ScopeGroup<I>],
) -> Result<(), AllocError>
    ensures { OnOk result (map (λ scope. scope.now) found.new.items
        ≡ map (λ scope. scope.now) found.old.items ++ map (λ group. group.scope) (filter (λ group. nat_lt 0 (length group.items)) groups.now)) }
{
    'groups: for group in groups {
        if !has_items(group) {
            continue;
        }
        found.push(&group.scope)?;
    }
    Ok(())
}

/// The items, each with its place, as the list of parents for what is below them.
pub fn items_of<'a, I>(
    alloc: Global,
    flat: &[Flat<'a, I>],
) -> Result<Vec<Placed<'a, I>>, AllocError>
    requires { length flat.now < 2 ^ 32 }
    ensures { IfOk result (λ found. map (λ p. p.part.now) found.items ≡ map (λ f. f.item.now) flat.now) }
{
    let mut found = Vec::with_capacity(alloc, flat.len())?;
    'items: for place in 0..flat.len() {
        let parent = place as u32;
        let part = flat[place].item;
        found.push(Placed { parent, part })?;
    }
    Ok(found)
}

/// Whether some scope group has items.
fn has_scopes<I>(group: &ResourceGroup<I>) -> bool
    ensures { result ≡ nat_lt 0 (length (filter (λ scope. nat_lt 0 (length scope.items)) group.now.scopes)) }
{
    'scopes: for scope in group.scopes.as_slice() {
        if has_items(scope) {
            return true;
        }
    }
    false
}

pub(crate) fn has_items<I>(group: &ScopeGroup<I>) -> bool
    ensures { result ≡ nat_lt 0 (length group.now.items) }
{
    0 < group.items.len()
}
