//! The points of histograms and summaries, and the quantiles of the latter.

ghost use Rattle.otlp_messages.specs.declared.messages.Message.TheVariants as messages;
ghost use Rattle.otlp_codec.specs.Points.{hist_point_in, quantile_in, sum_point_in};
ghost use Rattle.otlp_model.specs.Real.{IsRealHistPoint, IsRealQuantile, IsRealSumPoint};
ghost use Rattle.otlp_codec.specs.MetricSteps.{no_hist_point, hist_point_step, no_quantile, quantile_step, no_sum_point, sum_point_step};
ghost use Rattle.otlp_codec.specs.MetricSpelling.{canon_hist_point, canon_quantile, canon_sum_point};
ghost use Rattle.otlp_codec.specs.lemmas.MetricsPassed.{hist_point_passes, quantile_passes, sum_point_passes};

use crate::cells::{take_fixed64, take_uint32};
use crate::lengths::{len_fixed64_row, len_more, len_pairs, len_varint_row};
use crate::numbers::{
    len_optional, len_packed, take_optional, take_packed, write_optional, write_packed,
};
use crate::part::{Submessage, take_more, take_pairs};
use crate::pool::Pool;
use crate::refusal::ReadRefusal;
use crate::writing::{Spelled, write_more, write_pairs};
use otlp_messages::{Backward, Message};
use otlp_model::{HistPoint, Items, Quantile, SumPoint, sum_capped};
use otlp_wire::Field;
use std::alloc::{AllocError, Global};

impl Submessage for HistPoint {
    ghost named = { messages.HistogramDataPoint };

    ghost none = { no_hist_point };

    ghost step = { hist_point_step };

    ghost reads = { hist_point_in };

    ghost passes = { hist_point_passes };

    fn message() -> Message {
        Message::HistogramDataPoint
    }

    fn empty(alloc: Global) -> Self {
        HistPoint {
            start: 0,
            time: 0,
            count: 0,
            sum: None,
            buckets: Items::new(alloc),
            bounds: Items::new(alloc),
            min: None,
            max: None,
            flags: 0,
            pairs: Items::new(alloc),
            exemplars: Items::new(alloc),
        }
    }

    fn take(&mut self, pool: &mut Pool, field: &Field<'_>) -> Result<(), ReadRefusal> {
        let value = &field.value;
        match field.number {
            2 => take_fixed64(&mut self.start, value),
            3 => take_fixed64(&mut self.time, value),
            4 => take_fixed64(&mut self.count, value),
            5 => take_optional(&mut self.sum, value),
            6 => take_packed(&mut self.buckets, value),
            7 => take_packed(&mut self.bounds, value),
            8 => take_more(pool, &mut self.exemplars, value),
            9 => take_pairs(pool, &mut self.pairs, value),
            10 => take_uint32(&mut self.flags, value),
            11 => take_optional(&mut self.min, value),
            12 => take_optional(&mut self.max, value),
            _ => Ok(()),
        }
    }
}

impl Spelled for HistPoint {
    ghost spelled = { canon_hist_point };

    ghost is_real = { IsRealHistPoint };

    #[tactic(auto, using(otlp_messages::proofs::Keeping::keeps_more, otlp_messages::proofs::Keeping::keeps_four), unfolding(crate::specs::MetricSpelling::canon_hist_point))]
    fn write(&self, to: &mut Backward) -> Result<(), AllocError> {
        write_optional(to, 12, self.max)?;
        write_optional(to, 11, self.min)?;
        to.put_varint_row(10, u64::from(self.flags))?;
        write_pairs(to, 9, self.pairs.as_slice())?;
        write_more(to, 8, self.exemplars.as_slice())?;
        write_packed(to, 7, &self.bounds)?;
        write_packed(to, 6, &self.buckets)?;
        write_optional(to, 5, self.sum)?;
        to.put_fixed64_row(4, self.count)?;
        to.put_fixed64_row(3, self.time)?;
        to.put_fixed64_row(2, self.start)?;
        Ok(())
    }

    #[tactic(auto, unfolding(crate::specs::MetricSpelling::canon_hist_point))]
    fn len(&self) -> u64 {
        sum_capped(&[
            len_fixed64_row(2, self.start),
            len_fixed64_row(3, self.time),
            len_fixed64_row(4, self.count),
            len_optional(5, self.sum),
            len_packed(6, self.buckets.as_slice()),
            len_packed(7, self.bounds.as_slice()),
            len_more(8, self.exemplars.as_slice()),
            len_pairs(9, self.pairs.as_slice()),
            len_varint_row(10, u64::from(self.flags)),
            len_optional(11, self.min),
            len_optional(12, self.max),
        ])
    }
}

impl Submessage for Quantile {
    ghost named = { messages.ValueAtQuantile };

    ghost none = { no_quantile };

    ghost step = { quantile_step };

    ghost reads = { quantile_in };

    ghost passes = { quantile_passes };

    fn message() -> Message {
        Message::ValueAtQuantile
    }

    fn empty(_alloc: Global) -> Self {
        Quantile {
            quantile: 0,
            value: 0,
        }
    }

    fn take(&mut self, _room: &mut Pool, field: &Field<'_>) -> Result<(), ReadRefusal> {
        let value = &field.value;
        match field.number {
            1 => take_fixed64(&mut self.quantile, value),
            2 => take_fixed64(&mut self.value, value),
            _ => Ok(()),
        }
    }
}

impl Spelled for Quantile {
    ghost spelled = { canon_quantile };

    ghost is_real = { IsRealQuantile };

    #[tactic(auto, using(otlp_messages::proofs::Keeping::keeps_more, otlp_messages::proofs::Keeping::keeps_four), unfolding(crate::specs::MetricSpelling::canon_quantile))]
    fn write(&self, to: &mut Backward) -> Result<(), AllocError> {
        to.put_fixed64_row(2, self.value)?;
        to.put_fixed64_row(1, self.quantile)?;
        Ok(())
    }

    #[tactic(auto, unfolding(crate::specs::MetricSpelling::canon_quantile))]
    fn len(&self) -> u64 {
        len_fixed64_row(1, self.quantile) + len_fixed64_row(2, self.value)
    }
}

impl Submessage for SumPoint {
    ghost named = { messages.SummaryDataPoint };

    ghost none = { no_sum_point };

    ghost step = { sum_point_step };

    ghost reads = { sum_point_in };

    ghost passes = { sum_point_passes };

    fn message() -> Message {
        Message::SummaryDataPoint
    }

    fn empty(alloc: Global) -> Self {
        SumPoint {
            start: 0,
            time: 0,
            count: 0,
            sum: 0,
            quantiles: Items::new(alloc),
            flags: 0,
            pairs: Items::new(alloc),
        }
    }

    fn take(&mut self, pool: &mut Pool, field: &Field<'_>) -> Result<(), ReadRefusal> {
        let value = &field.value;
        match field.number {
            2 => take_fixed64(&mut self.start, value),
            3 => take_fixed64(&mut self.time, value),
            4 => take_fixed64(&mut self.count, value),
            5 => take_fixed64(&mut self.sum, value),
            6 => take_more(pool, &mut self.quantiles, value),
            7 => take_pairs(pool, &mut self.pairs, value),
            8 => take_uint32(&mut self.flags, value),
            _ => Ok(()),
        }
    }
}

impl Spelled for SumPoint {
    ghost spelled = { canon_sum_point };

    ghost is_real = { IsRealSumPoint };

    #[tactic(auto, using(otlp_messages::proofs::Keeping::keeps_more, otlp_messages::proofs::Keeping::keeps_four), unfolding(crate::specs::MetricSpelling::canon_sum_point))]
    fn write(&self, to: &mut Backward) -> Result<(), AllocError> {
        to.put_varint_row(8, u64::from(self.flags))?;
        write_pairs(to, 7, self.pairs.as_slice())?;
        write_more(to, 6, self.quantiles.as_slice())?;
        to.put_fixed64_row(5, self.sum)?;
        to.put_fixed64_row(4, self.count)?;
        to.put_fixed64_row(3, self.time)?;
        to.put_fixed64_row(2, self.start)?;
        Ok(())
    }

    #[tactic(auto, unfolding(crate::specs::MetricSpelling::canon_sum_point))]
    fn len(&self) -> u64 {
        sum_capped(&[
            len_fixed64_row(2, self.start),
            len_fixed64_row(3, self.time),
            len_fixed64_row(4, self.count),
            len_fixed64_row(5, self.sum),
            len_more(6, self.quantiles.as_slice()),
            len_pairs(7, self.pairs.as_slice()),
            len_varint_row(8, u64::from(self.flags)),
        ])
    }
}
