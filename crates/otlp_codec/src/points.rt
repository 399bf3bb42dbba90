//! Exemplars, and the points of gauges and sums.

ghost use Rattle.otlp_messages.specs.declared.messages.Message.TheVariants as messages;
ghost use Rattle.otlp_codec.specs.Points.{exemplar_in, point_in};
ghost use Rattle.otlp_model.specs.Real.{IsRealExemplar, IsRealPoint};
ghost use Rattle.otlp_codec.specs.MetricSteps.{no_exemplar, exemplar_step, no_point, point_step};
ghost use Rattle.otlp_codec.specs.MetricSpelling.{canon_exemplar, canon_point};
ghost use Rattle.otlp_codec.specs.lemmas.MetricsPassed.{exemplar_passes, point_passes};

use crate::cells::{take_fixed64, take_id, take_uint32};
use crate::lengths::{len_bytes_row, len_fixed64_row, len_more, len_pairs, len_varint_row};
use crate::numbers::{len_double, len_int, take_double, take_int, write_double, write_int};
use crate::part::{Submessage, take_more, take_pairs};
use crate::pool::Pool;
use crate::refusal::ReadRefusal;
use crate::writing::{Spelled, write_more, write_octets, write_pairs};
use otlp_messages::{Backward, Message};
use otlp_model::{Exemplar, Items, Number, Octets, Point, sum_capped};
use otlp_wire::Field;
use std::alloc::{AllocError, Global};

impl Submessage for Exemplar {
    ghost named = { messages.Exemplar };

    ghost none = { no_exemplar };

    ghost step = { exemplar_step };

    ghost reads = { exemplar_in };

    ghost passes = { exemplar_passes };

    fn message() -> Message {
        Message::Exemplar
    }

    fn empty(alloc: Global) -> Self {
        Exemplar {
            time: 0,
            value: Number::Missing,
            span_id: Octets::new(alloc),
            trace_id: Octets::new(alloc),
            pairs: Items::new(alloc),
        }
    }

    fn take(&mut self, pool: &mut Pool, field: &Field<'_>) -> Result<(), ReadRefusal> {
        let value = &field.value;
        match field.number {
            2 => take_fixed64(&mut self.time, value),
            3 => take_double(&mut self.value, value),
            4 => take_id(pool.alloc(), &mut self.span_id, 8, value),
            5 => take_id(pool.alloc(), &mut self.trace_id, 16, value),
            6 => take_int(&mut self.value, value),
            7 => take_pairs(pool, &mut self.pairs, value),
            _ => Ok(()),
        }
    }
}

impl Spelled for Exemplar {
    ghost spelled = { canon_exemplar };

    ghost is_real = { IsRealExemplar };

    #[tactic(auto, using(otlp_messages::proofs::Keeping::keeps_more, otlp_messages::proofs::Keeping::keeps_four), unfolding(crate::specs::MetricSpelling::canon_exemplar))]
    fn write(&self, to: &mut Backward) -> Result<(), AllocError> {
        write_pairs(to, 7, self.pairs.as_slice())?;
        write_int(to, 6, self.value)?;
        write_octets(to, 5, &self.trace_id)?;
        write_octets(to, 4, &self.span_id)?;
        write_double(to, 3, self.value)?;
        to.put_fixed64_row(2, self.time)?;
        Ok(())
    }

    #[tactic(auto, unfolding(crate::specs::MetricSpelling::canon_exemplar))]
    fn len(&self) -> u64 {
        sum_capped(&[
            len_fixed64_row(2, self.time),
            len_double(3, self.value),
            len_bytes_row(4, self.span_id.as_slice()),
            len_bytes_row(5, self.trace_id.as_slice()),
            len_int(6, self.value),
            len_pairs(7, self.pairs.as_slice()),
        ])
    }
}

impl Submessage for Point {
    ghost named = { messages.NumberDataPoint };

    ghost none = { no_point };

    ghost step = { point_step };

    ghost reads = { point_in };

    ghost passes = { point_passes };

    fn message() -> Message {
        Message::NumberDataPoint
    }

    fn empty(alloc: Global) -> Self {
        Point {
            start: 0,
            time: 0,
            value: Number::Missing,
            flags: 0,
            pairs: Items::new(alloc),
            exemplars: Items::new(alloc),
        }
    }

    fn take(&mut self, pool: &mut Pool, field: &Field<'_>) -> Result<(), ReadRefusal> {
        let value = &field.value;
        match field.number {
            2 => take_fixed64(&mut self.start, value),
            3 => take_fixed64(&mut self.time, value),
            4 => take_double(&mut self.value, value),
            5 => take_more(pool, &mut self.exemplars, value),
            6 => take_int(&mut self.value, value),
            7 => take_pairs(pool, &mut self.pairs, value),
            8 => take_uint32(&mut self.flags, value),
            _ => Ok(()),
        }
    }
}

impl Spelled for Point {
    ghost spelled = { canon_point };

    ghost is_real = { IsRealPoint };

    #[tactic(auto, using(otlp_messages::proofs::Keeping::keeps_more, otlp_messages::proofs::Keeping::keeps_four), unfolding(crate::specs::MetricSpelling::canon_point))]
    fn write(&self, to: &mut Backward) -> Result<(), AllocError> {
        to.put_varint_row(8, u64::from(self.flags))?;
        write_pairs(to, 7, self.pairs.as_slice())?;
        write_int(to, 6, self.value)?;
        write_more(to, 5, self.exemplars.as_slice())?;
        write_double(to, 4, self.value)?;
        to.put_fixed64_row(3, self.time)?;
        to.put_fixed64_row(2, self.start)?;
        Ok(())
    }

    #[tactic(auto, unfolding(crate::specs::MetricSpelling::canon_point))]
    fn len(&self) -> u64 {
        sum_capped(&[
            len_fixed64_row(2, self.start),
            len_fixed64_row(3, self.time),
            len_double(4, self.value),
            len_more(5, self.exemplars.as_slice()),
            len_int(6, self.value),
            len_pairs(7, self.pairs.as_slice()),
            len_varint_row(8, u64::from(self.flags)),
        ])
    }
}
