ghost use Rattle.std.specs.Prelude.{◌≡◌, ℕ, min, length, IsTrue};
ghost use Rattle.std.specs.List.{list_all};
ghost use Rattle.lists.specs.Bytes.{is_real_text, is_real_octets};
ghost use Rattle.otlp_model.specs.Limits.{count_cap, part_weight};
ghost use Rattle.otlp_model.specs.Each.{Each};
ghost use Rattle.otlp_model.specs.Weight.{weight_of_value, weight_of_pair, total};
ghost use Rattle.otlp_model.specs.Real.{is_real_value, are_real_pairs};

use crate::limits::add_capped;
use crate::value::{Pair, Value};
use lists::{Octets, Text};

/// What a part of a request weighs, beside its texts, byte strings and numbers.
pub const PART_WEIGHT: u64 = 32;

/// The weight of a value, or `CAP` where it is larger: the bytes of its texts, byte strings and keys, and 32 for each
/// member of an array or a key-value list.
///
/// It recurses once for each level, as `depth` does.
#[cycle(weight)]
#[tactic(auto, using(crate::proofs::Levels::weight_of_array, crate::proofs::Levels::weight_of_map, crate::proofs::Levels::is_real_array, crate::proofs::Levels::is_real_map))]
pub fn value_weight(value: &Value) -> u64
    ensures weight { result ≡ min (weight_of_value value.now) count_cap }
    ensures real { IsTrue (is_real_value value.now) }
{
    match value {
        Value::Empty | Value::Bool(_) => 0,
        Value::Int(number) => {
            let _number = *number;
            0
        }
        Value::Double(bits) => {
            let _bits = *bits;
            0
        }
        Value::Str(text) => text.weight(),
        Value::Bytes(octets) => octets.weight(),
        Value::Array(members) => members_weight(members.as_slice()),
        Value::Map(pairs) => pairs_weight(pairs.as_slice()),
    }
}

/// The weight of the members of an array, with 32 for each.
#[cycle(weight)]
fn members_weight(members: &[Value]) -> u64
    ensures weight { result ≡ min (total part_weight weight_of_value members.now) count_cap }
    ensures real { IsTrue (list_all is_real_value members.now) }
{
    let mut weight = 0;
    for member in members {
        weight = add_capped(weight, add_capped(PART_WEIGHT, value_weight(member)));
    }
    weight
}

/// The weight of a list of pairs, with 32 for each.
#[cycle(weight)]
pub(crate) fn pairs_weight(pairs: &[Pair]) -> u64
    ensures weight { result ≡ min (total part_weight weight_of_pair pairs.now) count_cap }
    ensures real { IsTrue (are_real_pairs pairs.now) }
{
    let mut weight = 0;
    for pair in pairs {
        let own = add_capped(pair.key.weight(), value_weight(&pair.value));
        weight = add_capped(weight, add_capped(PART_WEIGHT, own));
    }
    weight
}

/// A part of a request that weighs: an item, an event, a link, a point, a quantile, an exemplar, a group, or a text or
/// byte string, which weighs its bytes.
///
/// An `impl` reads the part's numbers too, which shows a proof that they fit their types.
pub(crate) trait HasWeight {
    ghost weight_of: { Self → ℕ };

    ghost is_real: { Self → Type 0 };

    fn weight(&self) -> u64
        ensures weight { result ≡ min (weight_of self.now) count_cap }
        ensures real { is_real self.now };
}

impl HasWeight for Text {
    ghost weight_of = { λ text. length text };

    ghost is_real = { λ text. IsTrue (is_real_text text) };

    #[inline]
    #[tactic(auto, using(lists::proofs::RealBytes::real_text))]
    fn weight(&self) -> u64 {
        self.as_slice().len() as u64
    }
}

impl HasWeight for Octets {
    ghost weight_of = { λ octets. length octets };

    ghost is_real = { λ octets. IsTrue (is_real_octets octets) };

    #[inline]
    #[tactic(auto, using(lists::proofs::RealBytes::real_octets))]
    fn weight(&self) -> u64 {
        self.as_slice().len() as u64
    }
}

/// The weight of some parts, with `each` for every one.
pub(crate) fn parts_weight<P: HasWeight>(each: u64, parts: &[P]) -> u64
    ensures weight { result ≡ min (total each P.weight_of parts.now) count_cap }
    ensures real { Each P.is_real parts.now }
{
    let mut weight = 0;
    for part in parts {
        weight = add_capped(weight, add_capped(each, part.weight()));
    }
    weight
}
