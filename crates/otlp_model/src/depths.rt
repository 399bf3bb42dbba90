ghost use Rattle.std.specs.Prelude.{◌≡◌, min, map};
ghost use Rattle.otlp_model.specs.Limits.{count_cap};
ghost use Rattle.otlp_model.specs.Depth.{depth_of, greatest};
ghost use Rattle.otlp_model.specs.PairDepth.{depth_of_pair};

use crate::limits::add_capped;
use crate::value::{Pair, Value};

/// How deep the value nests, or `CAP` where that is larger: 1, and for an array or a key-value list 1 more than its
/// deepest member.
///
/// Linear in the value. It recurses once for each level, as all that goes down a [`Value`] does.
#[cycle(depth)]
#[tactic(auto, using(crate::proofs::Levels::depth_of_map))]
pub fn depth(value: &Value) -> u64
    ensures { result ≡ min (depth_of value.now) count_cap }
{
    match value {
        Value::Array(members) => add_capped(deepest_member(members.as_slice()), 1),
        Value::Map(pairs) => add_capped(deepest_pair(pairs.as_slice()), 1),
        _ => 1,
    }
}

#[cycle(depth)]
fn deepest_member(members: &[Value]) -> u64
    ensures { result ≡ min (greatest (map depth_of members.now)) count_cap }
{
    let mut deepest = 0;
    for member in members {
        deepest = depth(member).max(deepest);
    }
    deepest
}

#[cycle(depth)]
fn deepest_pair(pairs: &[Pair]) -> u64
    ensures { result ≡ min (greatest (map depth_of_pair pairs.now)) count_cap }
{
    let mut deepest = 0;
    for pair in pairs {
        deepest = depth(&pair.value).max(deepest);
    }
    deepest
}
