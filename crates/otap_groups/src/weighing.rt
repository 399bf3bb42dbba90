//! What the rows of a request weigh, without making them.
ghost use Rattle.std.specs.Prelude.{◌≡◌, ◌∷◌, [], ℕ, min, sum_by, All};
ghost use Rattle.otlp_model.specs.Limits.{count_cap};
ghost use Rattle.otlp_model.specs.declared.groups.Resource.{Resource};
ghost use Rattle.otlp_model.specs.declared.groups.Scope.{Scope};
ghost use Rattle.otap_groups.specs.Weighing.{CanWriteGroup, CanWriteScope, front_weight, rows_of_groups, rows_of_scope};

use crate::sources::has_items;
use otap_cells::ROW_UNIT;
use otlp_model::{Resource, ResourceGroup, Scope, ScopeGroup, add_capped, sum_capped};

/// What a request's rows weigh beside the fronts of its main rows: a number for each resource, scope and item.
pub trait RowWeights {
    type Item;

    /// The rows of a resource's pairs, and of a scope's.
    ghost of_resource: { Resource → ℕ };

    ghost of_scope: { Scope → ℕ };

    /// The own cells of an item, and the rows of its parts.
    ghost of_item: { Self.Item → ℕ };

    /// What can be written.
    ghost CanWriteResource: { Resource → Type 0 };

    ghost CanWriteScope: { Scope → Type 0 };

    ghost CanWriteItem: { Self.Item → Type 0 };

    fn resource(&self, resource: &Resource) -> u64
        requires { CanWriteResource resource.now }
        ensures { result ≡ min (of_resource resource.now) count_cap };

    fn scope(&self, scope: &Scope) -> u64
        requires { CanWriteScope scope.now }
        ensures { result ≡ min (of_scope scope.now) count_cap };

    fn item(&self, item: &Self::Item) -> u64
        requires { CanWriteItem item.now }
        ensures { result ≡ min (of_item item.now) count_cap };
}

/// What a part's row weighs with the rows below it: a number for each part.
pub trait PartWeights {
    type Part;

    /// The row of a part, and the rows of its own parts.
    ghost of_part: { Self.Part → ℕ };

    /// What can be written.
    ghost CanWrite: { Self.Part → Type 0 };

    fn part(&self, part: &Self::Part) -> u64
        requires { CanWrite part.now }
        ensures { result ≡ min (of_part part.now) count_cap };
}

/// What the rows of parts weigh, or `CAP` where it is more. It makes no table.
pub fn part_rows_weight<W: PartWeights>(weights: &W, parts: &[W::Part]) -> u64
    requires { All W.CanWrite parts.now }
    ensures { result ≡ min (sum_by W.of_part parts.now) count_cap }
{
    let mut weight = 0;
    'parts: for part in parts {
        weight = add_capped(weight, weights.part(part));
    }
    weight
}

/// What the rows of a request weigh, or `CAP` where it is more. It makes no table. Groups without items have no rows.
#[tactic(auto, using(crate::proofs::RowSums::rows_split))]
pub fn rows_weight<W: RowWeights>(writer: &W, groups: &[ResourceGroup<W::Item>]) -> u64
    requires { All (CanWriteGroup W.CanWriteResource W.CanWriteScope W.CanWriteItem) groups.now }
    ensures { result ≡ min (rows_of_groups W.of_resource W.of_scope W.of_item groups.now) count_cap }
{
    let mut weight = 0;
    'groups: for group in groups {
        weight = add_capped(weight, group_weight(writer, group));
    }
    weight
}

#[tactic(auto, using(crate::proofs::RowSums::rows_some, crate::proofs::RowSums::rows_none))]
fn group_weight<W: RowWeights>(writer: &W, group: &ResourceGroup<W::Item>) -> u64
    requires { CanWriteGroup W.CanWriteResource W.CanWriteScope W.CanWriteItem group.now }
    ensures { result ≡ min (rows_of_groups W.of_resource W.of_scope W.of_item (group.now ∷ [])) count_cap }
{
    let mut weight = 0;
    let mut some = false;
    'scopes: for scope in group.scopes.as_slice() {
        if !has_items(scope) {
            continue;
        }
        some = true;
        weight = add_capped(weight, scope_weight(writer, &group.resource, scope));
    }
    if !some {
        return 0;
    }
    add_capped(weight, writer.resource(&group.resource))
}

fn scope_weight<W: RowWeights>(writer: &W, resource: &Resource, group: &ScopeGroup<W::Item>) -> u64
    requires { CanWriteScope W.CanWriteScope W.CanWriteItem group.now }
    ensures { result ≡ min (rows_of_scope W.of_scope W.of_item resource.now group.now) count_cap }
{
    let front = front_weight(resource, &group.scope);
    let mut weight = writer.scope(&group.scope);
    'items: for item in group.items.as_slice() {
        weight = add_capped(weight, add_capped(front, writer.item(item)));
    }
    weight
}

fn front_weight(resource: &Resource, scope: &Scope) -> u64
    ensures { result ≡ min (front_weight resource.now scope.now) count_cap }
{
    sum_capped(&[
        ROW_UNIT,
        resource.schema_url.len() as u64,
        scope.name.len() as u64,
        scope.version.len() as u64,
        scope.schema_url.len() as u64,
    ])
}
