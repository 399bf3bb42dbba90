//! The texts and the pairs of an item.
ghost use Rattle.std.specs.Prelude.{◌≡◌, ◌<◌, IfOk, codes};
ghost use Rattle.otlp_load.specs.Inside.{numbers_end};
ghost use Rattle.otlp_load.specs.Limits.{pairs_each};
ghost use Rattle.otlp_load.specs.Pairs.{double_bits, numbered_text, load_value, load_pair, pairs_of};

use otlp_model::{Items, Pair, Text, Value};
use std::alloc::{AllocError, Global};
use std::num::f64_to_bits_with_nan;

/// How many pairs an item has.
pub(crate) const PAIRS: u32 = 12;

/// The text with the number after it.
pub(crate) fn numbered(alloc: Global, text: &str, number: u32) -> Result<Text, AllocError>
    ensures { IfOk result (λ made. made ≡ numbered_text text.now number) }
{
    let made = format!(in alloc; "{text}{number}")?;
    Text::from_str(alloc, &made)
}

/// The bits of the double that is this number.
pub(crate) fn double_bits(number: u32) -> u64
    ensures { result ≡ double_bits number }
{
    f64_to_bits_with_nan(f64::from(number))
}

/// The pairs of an item: its number, and that of its request.
#[tactic(auto, using(crate::proofs::GroupPlaces::one_more), unfolding(crate::specs::Pairs::pairs_of))]
pub(crate) fn pairs(alloc: Global, request: u32, number: u32) -> Result<Items<Pair>, AllocError>
    requires { number < numbers_end }
    ensures { IfOk result (λ pairs. pairs ≡ pairs_of request number) }
{
    let mut pairs = Items::new(alloc);
    pairs.reserve(PAIRS as usize)?;
    'places: for place in 0..PAIRS {
        pairs.push(pair(alloc, request, number, place)?)?;
    }
    Ok(pairs)
}

fn pair(alloc: Global, request: u32, number: u32, place: u32) -> Result<Pair, AllocError>
    requires number { number < numbers_end }
    requires place { place < pairs_each }
    ensures { IfOk result (λ pair. pair ≡ load_pair request number place) }
{
    Ok(Pair {
        key: Text::from_str(alloc, key(place))?,
        value: value(alloc, request, number, place)?,
    })
}

/// The key at an index.
fn key(place: u32) -> &'static str
    requires { place < pairs_each }
    ensures { result.now ≡ numbered_text (codes "k") place }
{
    match place {
        0 => "k0",
        1 => "k1",
        2 => "k2",
        3 => "k3",
        4 => "k4",
        5 => "k5",
        6 => "k6",
        7 => "k7",
        8 => "k8",
        9 => "k9",
        10 => "k10",
        11 => "k11",
        _ => unreachable!(),
    }
}

/// The value at an index.
fn value(alloc: Global, request: u32, number: u32, place: u32) -> Result<Value, AllocError>
    requires number { number < numbers_end }
    requires place { place < pairs_each }
    ensures { IfOk result (λ value. value ≡ load_value request number place) }
{
    Ok(match place % 4 {
        0 if place == 8 => Value::Str(numbered(alloc, "batch-", request)?),
        0 => Value::Str(numbered(alloc, "v", (number + place) % (64 * (place + 1)))?),
        1 => Value::Int(i64::from(number % 1000)),
        2 => Value::Bool(number % 2 == 1),
        _ => Value::Double(double_bits(number)),
    })
}
