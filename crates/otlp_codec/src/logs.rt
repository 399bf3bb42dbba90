//! Log records.

ghost use Rattle.std.proofs.Common.{refl};
ghost use Rattle.otlp_model.specs.Empty.{no_log_record};
ghost use Rattle.otlp_model.specs.Real.{IsRealLogRecord};
ghost use Rattle.otlp_messages.specs.declared.messages.Message.TheVariants as messages;
ghost use Rattle.otlp_messages.specs.declared.messages.ItemKind.TheVariants as ofs;
ghost use Rattle.otlp_codec.specs.Canonical.{canon_log_record};
ghost use Rattle.otlp_codec.specs.Logs.{log_record_in};
ghost use Rattle.otlp_codec.specs.Steps.{log_record_step};
ghost use Rattle.otlp_codec.specs.lemmas.Passed.{log_record_passes};

use crate::cells::{take_fixed32, take_fixed64, take_id, take_int32, take_text, take_uint32};
use crate::lengths::{
    len_bytes_row, len_fixed32_row, len_fixed64_row, len_one, len_pairs, len_varint_row,
};
use crate::part::{ItemMessage, Submessage, take_pairs, take_value};
use crate::pool::Pool;
use crate::refusal::ReadRefusal;
use crate::writing::{Spelled, write_octets, write_one, write_pairs, write_text};
use otlp_messages::{Backward, ItemKind, Message};
use otlp_model::{LogRecord, sum_capped};
use otlp_wire::Field;
use std::alloc::{AllocError, Global};

impl Submessage for LogRecord {
    ghost named = { messages.LogRecord };

    ghost none = { no_log_record };

    ghost step = { log_record_step };

    ghost reads = { log_record_in };

    ghost passes = { log_record_passes };

    fn message() -> Message {
        Message::LogRecord
    }

    fn empty(alloc: Global) -> Self {
        LogRecord::empty(alloc)
    }

    fn take(&mut self, pool: &mut Pool, field: &Field<'_>) -> Result<(), ReadRefusal> {
        let value = &field.value;
        match field.number {
            1 => take_fixed64(&mut self.time, value),
            2 => take_int32(&mut self.severity, value),
            3 => take_text(pool.alloc(), &mut self.severity_text, value),
            5 => take_value(pool.alloc(), &mut self.body, value),
            6 => take_pairs(pool, &mut self.pairs, value),
            7 => take_uint32(&mut self.dropped, value),
            8 => take_fixed32(&mut self.flags, value),
            9 => take_id(pool.alloc(), &mut self.trace_id, 16, value),
            10 => take_id(pool.alloc(), &mut self.span_id, 8, value),
            11 => take_fixed64(&mut self.observed, value),
            12 => take_text(pool.alloc(), &mut self.event_name, value),
            _ => Ok(()),
        }
    }
}

impl Spelled for LogRecord {
    ghost spelled = { canon_log_record };

    ghost is_real = { IsRealLogRecord };

    #[tactic(auto, using(otlp_messages::proofs::Keeping::keeps_more, otlp_messages::proofs::Keeping::keeps_four), unfolding(crate::specs::Canonical::canon_log_record))]
    fn write(&self, to: &mut Backward) -> Result<(), AllocError> {
        write_text(to, 12, &self.event_name)?;
        to.put_fixed64_row(11, self.observed)?;
        write_octets(to, 10, &self.span_id)?;
        write_octets(to, 9, &self.trace_id)?;
        to.put_fixed32_row(8, self.flags)?;
        to.put_varint_row(7, u64::from(self.dropped))?;
        write_pairs(to, 6, self.pairs.as_slice())?;
        write_one(to, 5, &self.body)?;
        write_text(to, 3, &self.severity_text)?;
        to.put_signed_row(2, i64::from(self.severity))?;
        to.put_fixed64_row(1, self.time)?;
        Ok(())
    }

    #[tactic(auto, unfolding(crate::specs::Canonical::canon_log_record))]
    fn len(&self) -> u64 {
        sum_capped(&[
            len_fixed64_row(1, self.time),
            len_varint_row(2, i64::from(self.severity).cast_unsigned()),
            len_bytes_row(3, self.severity_text.as_slice()),
            len_one(5, &self.body),
            len_pairs(6, self.pairs.as_slice()),
            len_varint_row(7, u64::from(self.dropped)),
            len_fixed32_row(8, self.flags),
            len_bytes_row(9, self.trace_id.as_slice()),
            len_bytes_row(10, self.span_id.as_slice()),
            len_fixed64_row(11, self.observed),
            len_bytes_row(12, self.event_name.as_slice()),
        ])
    }
}

impl ItemMessage for LogRecord {
    ghost of = { ofs.LogRecords };

    ghost is_item = { refl };

    fn of() -> ItemKind {
        ItemKind::LogRecords
    }
}
