ghost use Rattle.std.specs.Prelude.{◌≡◌, ◌↔◌, ◌≤◌, IsTrue, length, take};
ghost use Rattle.std.specs.List.{AllZip};
ghost use Rattle.otlp_model.specs.Each.{Each};
ghost use Rattle.otlp_model.specs.Equal.{pair_is, occurrences};
ghost use Rattle.otlp_model.specs.Same.{SameOften};

use crate::value::{Pair, Value};

/// A part of a request that can be the same as another one: an item, an event, a link, a point, an exemplar, a resource
/// or a scope.
pub(crate) trait Alike: Drop {
    ghost alike: { Self → Self → Type 0 };

    /// Whether both are the same: equal but for the order of their attributes.
    fn is_same(&self, other: &Self) -> bool
        ensures { IsTrue result ↔ alike self.now other.now };
}

/// Whether both lists are the same, element by element.
pub(crate) fn each_same<P: Alike>(a: &[P], b: &[P]) -> bool
    ensures { IsTrue result ↔ AllZip P.alike a.now b.now }
{
    if a.len() != b.len() {
        return false;
    }
    for (i, x) in a.iter().enumerate() {
        if !x.is_same(&b[i]) {
            return false;
        }
    }
    true
}

/// Whether both values are equal, key-value lists in order. Doubles are compared by their bits.
#[cycle(same)]
pub(crate) fn same_value(a: &Value, b: &Value) -> bool
    ensures { IsTrue result ↔ (a.now ≡ b.now) }
{
    match (a, b) {
        (Value::Empty, Value::Empty) => true,
        (Value::Str(x), Value::Str(y)) => x.as_slice() == y.as_slice(),
        (Value::Bool(x), Value::Bool(y)) => x == y,
        (Value::Int(x), Value::Int(y)) => x == y,
        (Value::Double(x), Value::Double(y)) => x == y,
        (Value::Array(xs), Value::Array(ys)) => same_values(xs.as_slice(), ys.as_slice()),
        (Value::Map(xs), Value::Map(ys)) => pairs_in_order(xs.as_slice(), ys.as_slice()),
        (Value::Bytes(x), Value::Bytes(y)) => x.as_slice() == y.as_slice(),
        _ => false,
    }
}

#[cycle(same)]
fn same_values(a: &[Value], b: &[Value]) -> bool
    ensures { IsTrue result ↔ (a.now ≡ b.now) }
{
    if a.len() != b.len() {
        return false;
    }
    for (i, x) in a.iter().enumerate() {
        if !same_value(x, &b[i]) {
            return false;
        }
    }
    true
}

#[cycle(same)]
fn pairs_in_order(a: &[Pair], b: &[Pair]) -> bool
    ensures { IsTrue result ↔ (a.now ≡ b.now) }
{
    if a.len() != b.len() {
        return false;
    }
    for (i, x) in a.iter().enumerate() {
        if !same_pair(x, &b[i]) {
            return false;
        }
    }
    true
}

#[cycle(same)]
fn same_pair(a: &Pair, b: &Pair) -> bool
    ensures { IsTrue result ↔ (a.now ≡ b.now) }
{
    a.key.as_slice() == b.key.as_slice() && same_value(&a.value, &b.value)
}

/// Whether it is the same pair.
fn is_pair(a: &Pair, b: &Pair) -> bool
    ensures { result ≡ pair_is a.now b.now }
{
    same_pair(a, b)
}

/// How often the pair occurs.
#[tactic(auto, unfolding(crate::specs::Equal::occurrences))]
fn count(wanted: &Pair, pairs: &[Pair]) -> usize
    ensures { result ≡ occurrences wanted.now pairs.now }
{
    pairs.iter().filter(|pair| is_pair(wanted, pair)).count()
}

/// Whether each of the wanted pairs occurs in `a` as often as in `b`.
fn each_as_often(wanted: &[Pair], a: &[Pair], b: &[Pair]) -> bool
    ensures { IsTrue result ↔ Each (λ pair. occurrences pair a.now ≡ occurrences pair b.now) wanted.now }
{
    wanted.iter().all(|pair| count(pair, a) == count(pair, b))
}

/// How many pairs at the front of both lists are the same.
fn common_front(a: &[Pair], b: &[Pair]) -> usize
    ensures within { (result ≤ length a.now) × (result ≤ length b.now) }
    ensures same { take result a.now ≡ take result b.now }
{
    let mut front = 0;
    while front < a.len() && front < b.len() && same_pair(&a[front], &b[front]) {
        front += 1;
    }
    front
}

/// Whether each pair occurs in both lists equally often, by counting.
#[tactic(auto, using(crate::proofs::Often::same_often, crate::proofs::Often::each_as_often))]
fn same_counts(a: &[Pair], b: &[Pair]) -> bool
    ensures { IsTrue result ↔ SameOften a.now b.now }
{
    each_as_often(a, a, b) && each_as_often(b, a, b)
}

/// Whether each pair occurs in both lists equally often.
///
/// Linear as far as both have the same pairs in the same order; the rest is counted, which takes a comparison for each
/// two of its pairs.
pub(crate) fn same_pairs(a: &[Pair], b: &[Pair]) -> bool
    ensures { IsTrue result ↔ SameOften a.now b.now }
{
    let front = common_front(a, b);
    same_counts(&a[front..], &b[front..])
}
