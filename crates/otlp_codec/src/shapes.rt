//! Gauges, sums, histograms and summaries: the members of a metric's oneof.

ghost use Rattle.std.specs.Prelude.{◌≡◌, [], ◌∷◌, ◌++◌, min, length, OnOk, OnErr, IfErr, IfOk};
ghost use Rattle.otlp_wire.specs.Wire as wire;
ghost use Rattle.otlp_wire.specs.Wire.{value_of};
ghost use Rattle.otlp_messages.specs.Kept.{KeepsEnd};
ghost use Rattle.otlp_messages.specs.declared.messages.FieldKind.TheVariants as kinds;
ghost use Rattle.otlp_messages.specs.declared.messages.Message.TheVariants as messages;
ghost use Rattle.otlp_codec.specs.Limits.{level_limit};
ghost use Rattle.otlp_messages.specs.Fine.{FineValue};
ghost use Rattle.otlp_messages.specs.Canon.{canon_row};
ghost use Rattle.otlp_model.specs.Limits.{count_cap};
ghost use Rattle.otlp_model.specs.Real.{IsRealShape};
ghost use Rattle.otlp_model.specs.declared.metrics.Shape.TheVariants as shapes;
ghost use Rattle.otlp_codec.specs.PartRefusals.{RefusesValue};
ghost use Rattle.otlp_codec.specs.Metrics.{gauge_in, sum_in, histogram_in, summary_in, gauge_shape_in, sum_shape_in, histogram_shape_in, summary_shape_in};
ghost use Rattle.otlp_codec.specs.MetricSteps.{gauge_step, no_sum, sum_step, no_histogram, histogram_step, summary_step};
ghost use Rattle.otlp_codec.specs.MetricSpelling.{canon_gauge, canon_sum, canon_histogram, canon_summary};
ghost use Rattle.otlp_codec.specs.lemmas.MetricsPassed.{gauge_passes, sum_passes, histogram_passes, summary_passes};

use crate::cells::take_int32;
use crate::lengths::{len_more, len_part, len_varint_row};
use crate::numbers::{len_bool, take_bool};
use crate::part::{Submessage, read_part, take_more};
use crate::pool::Pool;
use crate::refusal::ReadRefusal;
use crate::writing::write_more;
use otlp_messages::{Backward, Message};
use otlp_model::{HistPoint, Items, Point, Shape, SumPoint, sum_capped};
use otlp_wire::{Field, Wire};
use std::alloc::{AllocError, Global};

/// What a `Sum` holds.
#[derive(Drop)]
pub(crate) struct Sum {
    points: Items<Point>,
    temporality: i32,
    monotonic: bool,
}

/// What a `Histogram` holds.
#[derive(Drop)]
pub(crate) struct Histogram {
    points: Items<HistPoint>,
    temporality: i32,
}

impl Submessage for Items<Point> {
    ghost named = { messages.Gauge };

    ghost none = { [] };

    ghost step = { gauge_step };

    ghost reads = { gauge_in };

    ghost passes = { gauge_passes };

    fn message() -> Message {
        Message::Gauge
    }

    fn empty(alloc: Global) -> Self {
        Items::new(alloc)
    }

    fn take(&mut self, pool: &mut Pool, field: &Field<'_>) -> Result<(), ReadRefusal> {
        match field.number {
            1 => take_more(pool, self, &field.value),
            _ => Ok(()),
        }
    }
}

impl Submessage for Sum {
    ghost named = { messages.Sum };

    ghost none = { no_sum };

    ghost step = { sum_step };

    ghost reads = { sum_in };

    ghost passes = { sum_passes };

    fn message() -> Message {
        Message::Sum
    }

    fn empty(alloc: Global) -> Self {
        Sum {
            points: Items::new(alloc),
            temporality: 0,
            monotonic: false,
        }
    }

    fn take(&mut self, pool: &mut Pool, field: &Field<'_>) -> Result<(), ReadRefusal> {
        let value = &field.value;
        match field.number {
            1 => take_more(pool, &mut self.points, value),
            2 => take_int32(&mut self.temporality, value),
            3 => take_bool(&mut self.monotonic, value),
            _ => Ok(()),
        }
    }
}

impl Submessage for Histogram {
    ghost named = { messages.Histogram };

    ghost none = { no_histogram };

    ghost step = { histogram_step };

    ghost reads = { histogram_in };

    ghost passes = { histogram_passes };

    fn message() -> Message {
        Message::Histogram
    }

    fn empty(alloc: Global) -> Self {
        Histogram {
            points: Items::new(alloc),
            temporality: 0,
        }
    }

    fn take(&mut self, pool: &mut Pool, field: &Field<'_>) -> Result<(), ReadRefusal> {
        let value = &field.value;
        match field.number {
            1 => take_more(pool, &mut self.points, value),
            2 => take_int32(&mut self.temporality, value),
            _ => Ok(()),
        }
    }
}

impl Submessage for Items<SumPoint> {
    ghost named = { messages.Summary };

    ghost none = { [] };

    ghost step = { summary_step };

    ghost reads = { summary_in };

    ghost passes = { summary_passes };

    fn message() -> Message {
        Message::Summary
    }

    fn empty(alloc: Global) -> Self {
        Items::new(alloc)
    }

    fn take(&mut self, pool: &mut Pool, field: &Field<'_>) -> Result<(), ReadRefusal> {
        match field.number {
            1 => take_more(pool, self, &field.value),
            _ => Ok(()),
        }
    }
}

/// Reads a gauge.
pub(crate) fn take_gauge(
    pool: &mut Pool,
    to: &mut Shape,
    value: &Wire<'_>,
) -> Result<(), ReadRefusal>
    ensures ok { OnOk result (to.new ≡ gauge_shape_in to.old (value_of value.now)) }
    ensures fine { IfOk result (λ _. FineValue (kinds.Embedded messages.Gauge) level_limit (value_of value.now)) }
    ensures fault { IfErr result (RefusesValue (kinds.Embedded messages.Gauge) level_limit (value_of value.now)) }
{
    let Wire::Bytes(part) = value else {
        return Err(ReadRefusal::BadMessage);
    };
    let points = read_part(pool, part)?;
    *to = Shape::Gauge(points);
    Ok(())
}

/// Reads a sum.
pub(crate) fn take_sum(pool: &mut Pool, to: &mut Shape, value: &Wire<'_>) -> Result<(), ReadRefusal>
    ensures ok { OnOk result (to.new ≡ sum_shape_in to.old (value_of value.now)) }
    ensures fine { IfOk result (λ _. FineValue (kinds.Embedded messages.Sum) level_limit (value_of value.now)) }
    ensures fault { IfErr result (RefusesValue (kinds.Embedded messages.Sum) level_limit (value_of value.now)) }
{
    let Wire::Bytes(part) = value else {
        return Err(ReadRefusal::BadMessage);
    };
    let sum = read_part::<Sum>(pool, part)?;
    *to = Shape::Sum {
        points: sum.points,
        temporality: sum.temporality,
        monotonic: sum.monotonic,
    };
    Ok(())
}

/// Reads a histogram.
pub(crate) fn take_histogram(
    pool: &mut Pool,
    to: &mut Shape,
    value: &Wire<'_>,
) -> Result<(), ReadRefusal>
    ensures ok { OnOk result (to.new ≡ histogram_shape_in to.old (value_of value.now)) }
    ensures fine { IfOk result (λ _. FineValue (kinds.Embedded messages.Histogram) level_limit (value_of value.now)) }
    ensures fault { IfErr result (RefusesValue (kinds.Embedded messages.Histogram) level_limit (value_of value.now)) }
{
    let Wire::Bytes(part) = value else {
        return Err(ReadRefusal::BadMessage);
    };
    let histogram = read_part::<Histogram>(pool, part)?;
    *to = Shape::Histogram {
        points: histogram.points,
        temporality: histogram.temporality,
    };
    Ok(())
}

/// Reads a summary.
pub(crate) fn take_summary(
    pool: &mut Pool,
    to: &mut Shape,
    value: &Wire<'_>,
) -> Result<(), ReadRefusal>
    ensures ok { OnOk result (to.new ≡ summary_shape_in to.old (value_of value.now)) }
    ensures fine { IfOk result (λ _. FineValue (kinds.Embedded messages.Summary) level_limit (value_of value.now)) }
    ensures fault { IfErr result (RefusesValue (kinds.Embedded messages.Summary) level_limit (value_of value.now)) }
{
    let Wire::Bytes(part) = value else {
        return Err(ReadRefusal::BadMessage);
    };
    let points = read_part(pool, part)?;
    *to = Shape::Summary(points);
    Ok(())
}

/// Writes a gauge as the member of the oneof that it is.
#[tactic(auto, using(otlp_messages::proofs::Keeping::keeps_more, otlp_messages::proofs::Keeping::keeps_four), unfolding(crate::specs::MetricSpelling::canon_gauge))]
pub(crate) fn write_gauge(to: &mut Backward, points: &Items<Point>) -> Result<(), AllocError>
    ensures ok { OnOk result (to.new ≡ canon_row 5 (wire.Bytes (canon_gauge points.now) ∷ []) ++ to.old) }
    ensures err { OnErr result (KeepsEnd to.old to.new) }
    ensures real { OnOk result (IsRealShape (shapes.Gauge points.now)) }
{
    let before = to.len();
    write_more(to, 1, points.as_slice())?;
    let size = to.len() - before;
    to.close_field(5, size)?;
    Ok(())
}

/// Writes a sum as the member of the oneof that it is.
#[tactic(auto, using(otlp_messages::proofs::Keeping::keeps_more, otlp_messages::proofs::Keeping::keeps_four), unfolding(crate::specs::MetricSpelling::canon_sum))]
pub(crate) fn write_sum(
    to: &mut Backward,
    points: &Items<Point>,
    temporality: i32,
    monotonic: bool,
) -> Result<(), AllocError>
    ensures ok { OnOk result (to.new ≡ canon_row 7 (wire.Bytes (canon_sum (record { points = points.now; temporality = temporality; monotonic = monotonic })) ∷ []) ++ to.old) }
    ensures err { OnErr result (KeepsEnd to.old to.new) }
    ensures real { OnOk result (IsRealShape (shapes.Sum points.now temporality monotonic)) }
{
    let before = to.len();
    to.put_bool_row(3, monotonic)?;
    to.put_signed_row(2, i64::from(temporality))?;
    write_more(to, 1, points.as_slice())?;
    let size = to.len() - before;
    to.close_field(7, size)?;
    Ok(())
}

/// Writes a histogram as the member of the oneof that it is.
#[tactic(auto, using(otlp_messages::proofs::Keeping::keeps_more, otlp_messages::proofs::Keeping::keeps_four), unfolding(crate::specs::MetricSpelling::canon_histogram))]
pub(crate) fn write_histogram(
    to: &mut Backward,
    points: &Items<HistPoint>,
    temporality: i32,
) -> Result<(), AllocError>
    ensures ok { OnOk result (to.new ≡ canon_row 9 (wire.Bytes (canon_histogram (record { points = points.now; temporality = temporality })) ∷ []) ++ to.old) }
    ensures err { OnErr result (KeepsEnd to.old to.new) }
    ensures real { OnOk result (IsRealShape (shapes.Histogram points.now temporality)) }
{
    let before = to.len();
    to.put_signed_row(2, i64::from(temporality))?;
    write_more(to, 1, points.as_slice())?;
    let size = to.len() - before;
    to.close_field(9, size)?;
    Ok(())
}

/// Writes a summary as the member of the oneof that it is.
#[tactic(auto, using(otlp_messages::proofs::Keeping::keeps_more, otlp_messages::proofs::Keeping::keeps_four), unfolding(crate::specs::MetricSpelling::canon_summary))]
pub(crate) fn write_summary(to: &mut Backward, points: &Items<SumPoint>) -> Result<(), AllocError>
    ensures ok { OnOk result (to.new ≡ canon_row 11 (wire.Bytes (canon_summary points.now) ∷ []) ++ to.old) }
    ensures err { OnErr result (KeepsEnd to.old to.new) }
    ensures real { OnOk result (IsRealShape (shapes.Summary points.now)) }
{
    let before = to.len();
    write_more(to, 1, points.as_slice())?;
    let size = to.len() - before;
    to.close_field(11, size)?;
    Ok(())
}

/// How many bytes a gauge takes as the member of the oneof, or 2^63 where there are more.
#[tactic(auto, unfolding(crate::specs::MetricSpelling::canon_gauge))]
pub(crate) fn len_gauge(points: &Items<Point>) -> u64
    ensures { result ≡ min (length (canon_row 5 (wire.Bytes (canon_gauge points.now) ∷ []))) count_cap }
{
    len_part(5, len_more(1, points.as_slice()))
}

/// How many bytes a sum takes as the member of the oneof, or 2^63 where there are more.
#[tactic(auto, unfolding(crate::specs::MetricSpelling::canon_sum))]
pub(crate) fn len_sum(points: &Items<Point>, temporality: i32, monotonic: bool) -> u64
    ensures { result ≡ min (length (canon_row 7 (wire.Bytes (canon_sum (record { points = points.now; temporality = temporality; monotonic = monotonic })) ∷ []))) count_cap }
{
    let size = sum_capped(&[
        len_more(1, points.as_slice()),
        len_varint_row(2, i64::from(temporality).cast_unsigned()),
        len_bool(3, monotonic),
    ]);
    len_part(7, size)
}

/// How many bytes a histogram takes as the member of the oneof, or 2^63 where there are more.
#[tactic(auto, unfolding(crate::specs::MetricSpelling::canon_histogram))]
pub(crate) fn len_histogram(points: &Items<HistPoint>, temporality: i32) -> u64
    ensures { result ≡ min (length (canon_row 9 (wire.Bytes (canon_histogram (record { points = points.now; temporality = temporality })) ∷ []))) count_cap }
{
    let size = sum_capped(&[
        len_more(1, points.as_slice()),
        len_varint_row(2, i64::from(temporality).cast_unsigned()),
    ]);
    len_part(9, size)
}

/// How many bytes a summary takes as the member of the oneof, or 2^63 where there are more.
#[tactic(auto, unfolding(crate::specs::MetricSpelling::canon_summary))]
pub(crate) fn len_summary(points: &Items<SumPoint>) -> u64
    ensures { result ≡ min (length (canon_row 11 (wire.Bytes (canon_summary points.now) ∷ []))) count_cap }
{
    len_part(11, len_more(1, points.as_slice()))
}
