ghost use Rattle.std.specs.Prelude.{IsTrue};
ghost use Rattle.otlp_model.specs.Weight.{weight_of_exemplar, weight_of_point, weight_of_shape, weight_of_metric};
ghost use Rattle.otlp_model.specs.Real.{is_real_number, IsRealExemplar, IsRealPoint, IsRealShape, IsRealMetric};
ghost use Rattle.otlp_model.specs.Profile.{IsProfileExemplar, IsProfilePoint, IsProfileShape, IsProfileMetric};
ghost use Rattle.otlp_model.specs.Same.{SameExemplar, SamePoint, SameShape, SameMetric};

use crate::histograms::{HistPoint, SumPoint};
use crate::limits::sum_capped;
use crate::profile::{Profiled, all_profile, is_span_id, is_trace_id};
use crate::sameness::{Alike, each_same, same_pairs};
use crate::value::Pair;
use crate::weights::{HasWeight, PART_WEIGHT, pairs_weight, parts_weight};
use lists::{Items, Octets, Text};

/// A metric (OTLP `Metric`).
#[derive(Debug, Drop)]
pub struct Metric {
    pub name: Text,
    pub description: Text,
    pub unit: Text,
    pub shape: Shape,
}

/// What a metric measures, with its points (the oneof `data` of OTLP `Metric`).
#[derive(Debug, Drop)]
pub enum Shape {
    Empty,
    Gauge(Items<Point>),
    Sum {
        points: Items<Point>,
        temporality: i32,
        monotonic: bool,
    },
    Histogram {
        points: Items<HistPoint>,
        temporality: i32,
    },
    Summary(Items<SumPoint>),
}

/// A measured number; a double is its 64 bits (the oneof `value` of OTLP `NumberDataPoint` and `Exemplar`).
#[derive(Clone, Copy, Debug, PartialEq, Eq)]
pub enum Number {
    Missing,
    Int(i64),
    Double(u64),
}

/// A point of a metric (OTLP `NumberDataPoint`). Times are nanoseconds since the Unix epoch.
#[derive(Debug, Drop)]
pub struct Point {
    pub start: u64,
    pub time: u64,
    pub value: Number,
    pub flags: u32,
    pub pairs: Items<Pair>,
    pub exemplars: Items<Exemplar>,
}

/// A measurement that a point rests on (OTLP `Exemplar`).
#[derive(Debug, Drop)]
pub struct Exemplar {
    pub time: u64,
    pub value: Number,
    pub span_id: Octets,
    pub trace_id: Octets,
    pub pairs: Items<Pair>,
}

impl HasWeight for Number {
    ghost weight_of = { λ _. 0 };

    ghost is_real = { λ number. IsTrue (is_real_number number) };

    fn weight(&self) -> u64 {
        match self {
            Number::Missing => {}
            Number::Int(number) => {
                let _number = *number;
            }
            Number::Double(bits) => {
                let _bits = *bits;
            }
        }
        0
    }
}

impl HasWeight for Exemplar {
    ghost weight_of = { weight_of_exemplar };

    ghost is_real = { IsRealExemplar };

    fn weight(&self) -> u64 {
        let _time = self.time;
        sum_capped(&[
            self.value.weight(),
            self.span_id.weight(),
            self.trace_id.weight(),
            pairs_weight(self.pairs.as_slice()),
        ])
    }
}

impl HasWeight for Point {
    ghost weight_of = { weight_of_point };

    ghost is_real = { IsRealPoint };

    fn weight(&self) -> u64 {
        let _start = self.start;
        let _time = self.time;
        let _flags = self.flags;
        sum_capped(&[
            self.value.weight(),
            pairs_weight(self.pairs.as_slice()),
            parts_weight(PART_WEIGHT, self.exemplars.as_slice()),
        ])
    }
}

impl HasWeight for Shape {
    ghost weight_of = { weight_of_shape };

    ghost is_real = { IsRealShape };

    fn weight(&self) -> u64 {
        match self {
            Shape::Empty => 0,
            Shape::Gauge(points) => parts_weight(PART_WEIGHT, points.as_slice()),
            Shape::Sum {
                points,
                temporality,
                ..
            } => {
                let _temporality = *temporality;
                parts_weight(PART_WEIGHT, points.as_slice())
            }
            Shape::Histogram {
                points,
                temporality,
            } => {
                let _temporality = *temporality;
                parts_weight(PART_WEIGHT, points.as_slice())
            }
            Shape::Summary(points) => parts_weight(PART_WEIGHT, points.as_slice()),
        }
    }
}

impl HasWeight for Metric {
    ghost weight_of = { weight_of_metric };

    ghost is_real = { IsRealMetric };

    fn weight(&self) -> u64 {
        sum_capped(&[
            self.name.weight(),
            self.description.weight(),
            self.unit.weight(),
            self.shape.weight(),
        ])
    }
}

impl Profiled for Exemplar {
    ghost within = { IsProfileExemplar };

    fn is_profile(&self) -> bool {
        is_trace_id(&self.trace_id) && is_span_id(&self.span_id) && all_profile(&self.pairs)
    }
}

impl Profiled for Point {
    ghost within = { IsProfilePoint };

    fn is_profile(&self) -> bool {
        all_profile(&self.pairs) && all_profile(&self.exemplars)
    }
}

impl Profiled for Shape {
    ghost within = { IsProfileShape };

    fn is_profile(&self) -> bool {
        match self {
            Shape::Empty => true,
            Shape::Gauge(points) => all_profile(points),
            Shape::Sum { points, .. } => all_profile(points),
            Shape::Histogram { points, .. } => all_profile(points),
            Shape::Summary(points) => all_profile(points),
        }
    }
}

impl Profiled for Metric {
    ghost within = { IsProfileMetric };

    fn is_profile(&self) -> bool {
        self.shape.is_profile()
    }
}

impl Alike for Exemplar {
    ghost alike = { SameExemplar };

    fn is_same(&self, other: &Self) -> bool {
        self.time == other.time
            && self.value == other.value
            && self.span_id.as_slice() == other.span_id.as_slice()
            && self.trace_id.as_slice() == other.trace_id.as_slice()
            && same_pairs(self.pairs.as_slice(), other.pairs.as_slice())
    }
}

impl Alike for Point {
    ghost alike = { SamePoint };

    fn is_same(&self, other: &Self) -> bool {
        self.start == other.start
            && self.time == other.time
            && self.value == other.value
            && self.flags == other.flags
            && same_pairs(self.pairs.as_slice(), other.pairs.as_slice())
            && each_same(self.exemplars.as_slice(), other.exemplars.as_slice())
    }
}

impl Alike for Shape {
    ghost alike = { SameShape };

    fn is_same(&self, other: &Self) -> bool {
        match (self, other) {
            (Shape::Empty, Shape::Empty) => true,
            (Shape::Gauge(xs), Shape::Gauge(ys)) => each_same(xs.as_slice(), ys.as_slice()),
            (
                Shape::Sum {
                    points: xs,
                    temporality: t,
                    monotonic: m,
                },
                Shape::Sum {
                    points: ys,
                    temporality: u,
                    monotonic: n,
                },
            ) => each_same(xs.as_slice(), ys.as_slice()) && t == u && m == n,
            (
                Shape::Histogram {
                    points: xs,
                    temporality: t,
                },
                Shape::Histogram {
                    points: ys,
                    temporality: u,
                },
            ) => each_same(xs.as_slice(), ys.as_slice()) && t == u,
            (Shape::Summary(xs), Shape::Summary(ys)) => each_same(xs.as_slice(), ys.as_slice()),
            _ => false,
        }
    }
}

impl Alike for Metric {
    ghost alike = { SameMetric };

    fn is_same(&self, other: &Self) -> bool {
        self.name.as_slice() == other.name.as_slice()
            && self.description.as_slice() == other.description.as_slice()
            && self.unit.as_slice() == other.unit.as_slice()
            && self.shape.is_same(&other.shape)
    }
}
