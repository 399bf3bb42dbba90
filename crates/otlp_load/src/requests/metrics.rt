//! Metrics.
ghost use Rattle.std.specs.Prelude.{◌≡◌, ◌<◌, IfOk};
ghost use Rattle.otlp_load.specs.Items.{load_metric, load_point, load_shape};
ghost use Rattle.otlp_load.specs.Inside.{numbers_end};

use crate::items::{LoadItem, list_of_one, time};
use crate::pairs::{double_bits, numbered, pairs};
use otlp_model::{Items, Metric, Number, Point, Shape, Text};
use std::alloc::{AllocError, Global};

impl LoadItem for Metric {
    ghost item_of = { load_metric };

    fn made(alloc: Global, request: u32, number: u32) -> Result<Metric, AllocError> {
        Ok(Metric {
            name: numbered(alloc, "m-", number % 300)?,
            description: Text::new(alloc),
            unit: Text::from_str(alloc, "1")?,
            shape: shape(alloc, request, number)?,
        })
    }
}

/// What a metric measures: an odd number has a monotonic sum, an even one a gauge.
fn shape(alloc: Global, request: u32, number: u32) -> Result<Shape, AllocError>
    requires { number < numbers_end }
    ensures { IfOk result (λ shape. shape ≡ load_shape request number) }
{
    if number % 2 == 1 {
        let value = Number::Int(i64::from(number));
        Ok(Shape::Sum {
            points: list_of_one(alloc, point(alloc, request, number, value)?)?,
            temporality: 2,
            monotonic: true,
        })
    } else {
        let value = Number::Double(double_bits(number));
        let point = point(alloc, request, number, value)?;
        Ok(Shape::Gauge(list_of_one(alloc, point)?))
    }
}

fn point(alloc: Global, request: u32, number: u32, value: Number) -> Result<Point, AllocError>
    requires { number < numbers_end }
    ensures { IfOk result (λ point. point ≡ load_point request number value) }
{
    Ok(Point {
        start: 0,
        time: time(number),
        value,
        flags: 0,
        pairs: pairs(alloc, request, number)?,
        exemplars: Items::new(alloc),
    })
}
