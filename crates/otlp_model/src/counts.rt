ghost use Rattle.std.specs.Prelude.{◌≡◌, min, length};
ghost use Rattle.otlp_model.specs.Limits.{count_cap};
ghost use Rattle.otlp_model.specs.Telemetry.{item_entries, entries_of_group};

use crate::groups::ResourceGroup;
use crate::limits::add_capped;

/// How many items the groups have.
pub(crate) fn item_count<I>(groups: &[ResourceGroup<I>]) -> u64
    ensures { result ≡ min (length (item_entries groups.now)) count_cap }
{
    let mut count = 0;
    for group in groups {
        count = add_capped(count, group_count(group));
    }
    count
}

fn group_count<I>(group: &ResourceGroup<I>) -> u64
    ensures { result ≡ min (length (entries_of_group group.now)) count_cap }
{
    let mut count = 0;
    for scope in group.scopes.as_slice() {
        count = add_capped(count, scope.items.len() as u64);
    }
    count
}
