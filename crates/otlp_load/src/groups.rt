//! The groups of a request, for items of any signal.
ghost use Rattle.std.specs.Prelude.{◌≡◌, ◌<◌, IfOk, map};
ghost use Rattle.otlp_load.specs.Limits.{groups_each, items_each, requests_at_most};
ghost use Rattle.otlp_load.specs.Load.{item_number, places_below, load_resource, scope_of_all, group_of, groups_of};

use crate::items::{LoadItem, list_of_one};
use crate::pairs::numbered;
use crate::requests::ITEMS;
use otlp_model::{Items, Pair, Resource, ResourceGroup, Scope, ScopeGroup, Text, Value};
use std::alloc::{AllocError, Global};

/// How many resource groups a request has, with one scope group each.
pub(crate) const GROUPS: u32 = 3;

/// The groups of a request.
#[tactic(auto, using(crate::proofs::GroupPlaces::one_more))]
pub(crate) fn groups<I: LoadItem>(
    alloc: Global,
    request: u32,
) -> Result<Items<ResourceGroup<I>>, AllocError>
    requires { request < requests_at_most }
    ensures { IfOk result (λ groups. groups ≡ groups_of I.item_of request) }
{
    let mut groups = Items::new(alloc);
    groups.reserve(GROUPS as usize)?;
    'groups: for place in 0..GROUPS {
        groups.push(group(alloc, request, place)?)?;
    }
    Ok(groups)
}

fn group<I: LoadItem>(
    alloc: Global,
    request: u32,
    place: u32,
) -> Result<ResourceGroup<I>, AllocError>
    requires request { request < requests_at_most }
    requires place { place < groups_each }
    ensures { IfOk result (λ group. group ≡ group_of I.item_of request place) }
{
    let scope = ScopeGroup {
        scope: scope(alloc)?,
        items: items(alloc, request, place)?,
    };
    Ok(ResourceGroup {
        resource: resource(alloc, place)?,
        scopes: list_of_one(alloc, scope)?,
    })
}

fn resource(alloc: Global, place: u32) -> Result<Resource, AllocError>
    ensures { IfOk result (λ resource. resource ≡ load_resource place) }
{
    let mut pairs = Items::new(alloc);
    pairs.reserve(2)?;
    pairs.push(Pair {
        key: Text::from_str(alloc, "service.name")?,
        value: Value::Str(numbered(alloc, "svc-", place)?),
    })?;
    pairs.push(Pair {
        key: Text::from_str(alloc, "host.id")?,
        value: Value::Int(i64::from(place)),
    })?;
    Ok(Resource {
        schema_url: Text::new(alloc),
        dropped: 0,
        pairs,
    })
}

fn scope(alloc: Global) -> Result<Scope, AllocError>
    ensures { IfOk result (λ scope. scope ≡ scope_of_all) }
{
    Ok(Scope {
        schema_url: Text::new(alloc),
        name: Text::from_str(alloc, "gen")?,
        version: Text::from_str(alloc, "1")?,
        dropped: 0,
        pairs: Items::new(alloc),
    })
}

/// The items of a group: every third one, from the group's own index on.
fn items<I: LoadItem>(alloc: Global, request: u32, group: u32) -> Result<Items<I>, AllocError>
    requires request { request < requests_at_most }
    requires group { group < groups_each }
    ensures { IfOk result (λ items. items ≡ map (λ k. I.item_of request (item_number request k)) (places_below items_each group)) }
{
    let mut items = Items::new(alloc);
    items.reserve((ITEMS / GROUPS + 1) as usize)?;
    'places: for place in 0..ITEMS {
        if place % GROUPS == group {
            items.push(I::made(alloc, request, ITEMS * request + place)?)?;
        }
    }
    Ok(items)
}
