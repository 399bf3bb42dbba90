ghost use Rattle.otlp_model.specs.Weight.{weight_of_hist_point, weight_of_quantile, weight_of_sum_point};
ghost use Rattle.otlp_model.specs.Real.{is_real_optional, IsRealHistPoint, IsRealQuantile, IsRealSumPoint};
ghost use Rattle.otlp_model.specs.Profile.{IsProfileHistPoint, IsProfileSumPoint};
ghost use Rattle.otlp_model.specs.Same.{SameHistPoint, SameSumPoint};
ghost use Rattle.std.specs.Prelude.{◌≡◌, ◌↔◌, ◌*◌, ◌<◌, ◌^◌, min, length, IsTrue};
ghost use Rattle.otlp_model.specs.Limits.{count_cap, number_weight};
ghost use Rattle.otlp_model.specs.Each.{Each};

use crate::limits::{CAP, sum_capped};
use crate::metrics::Exemplar;
use crate::profile::{Profiled, all_profile};
use crate::sameness::{Alike, each_same, same_pairs};
use crate::value::Pair;
use crate::weights::{HasWeight, PART_WEIGHT, pairs_weight, parts_weight};
use lists::Items;

/// What a bucket count and a bound weigh.
const NUMBER: u64 = 8;

/// What a quantile weighs.
const QUANTILE: u64 = 16;

/// A point of a histogram (OTLP `HistogramDataPoint`). Times are nanoseconds since the Unix epoch; `sum`, `bounds`, `min`
/// and `max` are doubles, as their 64 bits.
#[derive(Debug, Drop)]
pub struct HistPoint {
    pub start: u64,
    pub time: u64,
    pub count: u64,
    pub sum: Option<u64>,
    pub buckets: Items<u64>,
    pub bounds: Items<u64>,
    pub min: Option<u64>,
    pub max: Option<u64>,
    pub flags: u32,
    pub pairs: Items<Pair>,
    pub exemplars: Items<Exemplar>,
}

/// A quantile and the value at it (OTLP `SummaryDataPoint.ValueAtQuantile`): two doubles, as their 64 bits.
#[derive(Clone, Copy, Debug, PartialEq, Eq)]
pub struct Quantile {
    pub quantile: u64,
    pub value: u64,
}

/// A point of a summary (OTLP `SummaryDataPoint`). Times are nanoseconds since the Unix epoch; `sum` is a double, as its
/// 64 bits.
#[derive(Debug, Drop)]
pub struct SumPoint {
    pub start: u64,
    pub time: u64,
    pub count: u64,
    pub sum: u64,
    pub quantiles: Items<Quantile>,
    pub flags: u32,
    pub pairs: Items<Pair>,
}

/// What a list of bucket counts or of bounds weighs.
fn numbers_weight(numbers: &[u64]) -> u64
    ensures weight { result ≡ min (number_weight * length numbers.now) count_cap }
    ensures real { Each (λ number. number < 2 ^ 64) numbers.now }
{
    // The variable shows the proof that each number fits its type.
    let numbers = numbers;
    NUMBER.saturating_mul(numbers.len() as u64).min(CAP)
}

/// Reads a double that may be there, which shows a proof that it fits its type.
fn touch(bits: &Option<u64>)
    ensures { IsTrue (is_real_optional bits.now) }
{
    if let Some(bits) = bits {
        let _bits = *bits;
    }
}

impl HasWeight for HistPoint {
    ghost weight_of = { weight_of_hist_point };

    ghost is_real = { IsRealHistPoint };

    fn weight(&self) -> u64 {
        let _start = self.start;
        let _time = self.time;
        let _count = self.count;
        let _flags = self.flags;
        touch(&self.sum);
        touch(&self.min);
        touch(&self.max);
        sum_capped(&[
            numbers_weight(self.buckets.as_slice()),
            numbers_weight(self.bounds.as_slice()),
            pairs_weight(self.pairs.as_slice()),
            parts_weight(PART_WEIGHT, self.exemplars.as_slice()),
        ])
    }
}

impl HasWeight for Quantile {
    ghost weight_of = { weight_of_quantile };

    ghost is_real = { IsRealQuantile };

    fn weight(&self) -> u64 {
        let _quantile = self.quantile;
        let _value = self.value;
        0
    }
}

impl HasWeight for SumPoint {
    ghost weight_of = { weight_of_sum_point };

    ghost is_real = { IsRealSumPoint };

    fn weight(&self) -> u64 {
        let _start = self.start;
        let _time = self.time;
        let _count = self.count;
        let _sum = self.sum;
        let _flags = self.flags;
        sum_capped(&[
            parts_weight(QUANTILE, self.quantiles.as_slice()),
            pairs_weight(self.pairs.as_slice()),
        ])
    }
}

impl Profiled for HistPoint {
    ghost within = { IsProfileHistPoint };

    fn is_profile(&self) -> bool {
        all_profile(&self.pairs) && all_profile(&self.exemplars)
    }
}

impl Profiled for SumPoint {
    ghost within = { IsProfileSumPoint };

    fn is_profile(&self) -> bool {
        all_profile(&self.pairs)
    }
}

impl Alike for HistPoint {
    ghost alike = { SameHistPoint };

    fn is_same(&self, other: &Self) -> bool {
        self.start == other.start
            && self.time == other.time
            && self.count == other.count
            && self.sum == other.sum
            && self.buckets.as_slice() == other.buckets.as_slice()
            && self.bounds.as_slice() == other.bounds.as_slice()
            && self.min == other.min
            && self.max == other.max
            && self.flags == other.flags
            && same_pairs(self.pairs.as_slice(), other.pairs.as_slice())
            && each_same(self.exemplars.as_slice(), other.exemplars.as_slice())
    }
}

/// Whether both lists are equal.
fn same_quantiles(a: &[Quantile], b: &[Quantile]) -> bool
    ensures { IsTrue result ↔ (a.now ≡ b.now) }
{
    if a.len() != b.len() {
        return false;
    }
    for (i, x) in a.iter().enumerate() {
        if *x != b[i] {
            return false;
        }
    }
    true
}

impl Alike for SumPoint {
    ghost alike = { SameSumPoint };

    fn is_same(&self, other: &Self) -> bool {
        self.start == other.start
            && self.time == other.time
            && self.count == other.count
            && self.sum == other.sum
            && same_quantiles(self.quantiles.as_slice(), other.quantiles.as_slice())
            && self.flags == other.flags
            && same_pairs(self.pairs.as_slice(), other.pairs.as_slice())
    }
}
