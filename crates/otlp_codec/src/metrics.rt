//! Metrics.

ghost use Rattle.std.specs.Prelude.{◌≡◌, ◌++◌, min, length, OnOk, OnErr};
ghost use Rattle.otlp_wire.specs.Wire.{value_of};
ghost use Rattle.otlp_messages.specs.Kept.{KeepsEnd};
ghost use Rattle.otlp_messages.specs.declared.messages.FieldKind.TheVariants as kinds;
ghost use Rattle.otlp_messages.specs.declared.messages.Message.TheVariants as messages;
ghost use Rattle.otlp_codec.specs.Limits.{level_limit};
ghost use Rattle.otlp_messages.specs.Canon.{canon};
ghost use Rattle.otlp_codec.specs.PartRefusals.{RefusesValue};
ghost use Rattle.otlp_codec.specs.Metrics.{metric_in};
ghost use Rattle.otlp_codec.specs.MetricSteps.{no_metric, metric_step};
ghost use Rattle.otlp_codec.specs.MetricSpelling.{shape_rows, canon_metric};
ghost use Rattle.otlp_codec.specs.lemmas.MetricsPassed.{metric_passes};
ghost use Rattle.otlp_messages.specs.declared.messages.ItemKind.TheVariants as ofs;
ghost use Rattle.std.proofs.Common.{refl};
ghost use Rattle.otlp_model.specs.Real.{IsRealMetric, IsRealShape};
ghost use Rattle.otlp_model.specs.Limits.{count_cap};

use crate::cells::take_text;
use crate::lengths::len_bytes_row;
use crate::part::{ItemMessage, Submessage};
use crate::pool::Pool;
use crate::refusal::ReadRefusal;
use crate::shapes::{
    len_gauge, len_histogram, len_sum, len_summary, take_gauge, take_histogram, take_sum,
    take_summary, write_gauge, write_histogram, write_sum, write_summary,
};
use crate::writing::{Spelled, write_text};
use otlp_messages::{Backward, ItemKind, Message};
use otlp_model::{Metric, Shape, Text, sum_capped};
use otlp_wire::{Field, Wire};
use std::alloc::{AllocError, Global};

impl Submessage for Metric {
    ghost named = { messages.Metric };

    ghost none = { no_metric };

    ghost step = { metric_step };

    ghost reads = { metric_in };

    ghost passes = { metric_passes };

    fn message() -> Message {
        Message::Metric
    }

    fn empty(alloc: Global) -> Self {
        Metric {
            name: Text::new(alloc),
            description: Text::new(alloc),
            unit: Text::new(alloc),
            shape: Shape::Empty,
        }
    }

    fn take(&mut self, pool: &mut Pool, field: &Field<'_>) -> Result<(), ReadRefusal> {
        let value = &field.value;
        match field.number {
            1 => take_text(pool.alloc(), &mut self.name, value),
            2 => take_text(pool.alloc(), &mut self.description, value),
            3 => take_text(pool.alloc(), &mut self.unit, value),
            5 => take_gauge(pool, &mut self.shape, value),
            7 => take_sum(pool, &mut self.shape, value),
            9 => take_histogram(pool, &mut self.shape, value),
            10 => Err(unsupported(value)),
            11 => take_summary(pool, &mut self.shape, value),
            _ => Ok(()),
        }
    }
}

impl ItemMessage for Metric {
    ghost of = { ofs.Metrics };

    ghost is_item = { refl };

    fn of() -> ItemKind {
        ItemKind::Metrics
    }
}

/// Why a member of the oneof that is left out is refused.
fn unsupported(value: &Wire<'_>) -> ReadRefusal
    ensures { RefusesValue kinds.Refused level_limit (value_of value.now) result }
{
    match value {
        Wire::Bytes(_) => ReadRefusal::Unsupported,
        _ => ReadRefusal::BadMessage,
    }
}

impl Spelled for Metric {
    ghost spelled = { canon_metric };

    ghost is_real = { IsRealMetric };

    #[tactic(auto, using(otlp_messages::proofs::Keeping::keeps_more, otlp_messages::proofs::Keeping::keeps_four), unfolding(crate::specs::MetricSpelling::canon_metric))]
    fn write(&self, to: &mut Backward) -> Result<(), AllocError> {
        write_shape(to, &self.shape)?;
        write_text(to, 3, &self.unit)?;
        write_text(to, 2, &self.description)?;
        write_text(to, 1, &self.name)?;
        Ok(())
    }

    #[tactic(auto, unfolding(crate::specs::MetricSpelling::canon_metric))]
    fn len(&self) -> u64 {
        sum_capped(&[
            len_bytes_row(1, self.name.as_slice()),
            len_bytes_row(2, self.description.as_slice()),
            len_bytes_row(3, self.unit.as_slice()),
            len_shape(&self.shape),
        ])
    }
}

/// Writes the member of the oneof that the shape is.
fn write_shape(to: &mut Backward, shape: &Shape) -> Result<(), AllocError>
    ensures ok { OnOk result (to.new ≡ canon (shape_rows shape.now) ++ to.old) }
    ensures err { OnErr result (KeepsEnd to.old to.new) }
    ensures real { OnOk result (IsRealShape shape.now) }
{
    match shape {
        Shape::Empty => Ok(()),
        Shape::Gauge(points) => write_gauge(to, points),
        Shape::Sum {
            points,
            temporality,
            monotonic,
        } => write_sum(to, points, *temporality, *monotonic),
        Shape::Histogram {
            points,
            temporality,
        } => write_histogram(to, points, *temporality),
        Shape::Summary(points) => write_summary(to, points),
    }
}

/// How many bytes the member of the oneof takes, or 2^63 where there are more.
fn len_shape(shape: &Shape) -> u64
    ensures { result ≡ min (length (canon (shape_rows shape.now))) count_cap }
{
    match shape {
        Shape::Empty => 0,
        Shape::Gauge(points) => len_gauge(points),
        Shape::Sum {
            points,
            temporality,
            monotonic,
        } => len_sum(points, *temporality, *monotonic),
        Shape::Histogram {
            points,
            temporality,
        } => len_histogram(points, *temporality),
        Shape::Summary(points) => len_summary(points),
    }
}
