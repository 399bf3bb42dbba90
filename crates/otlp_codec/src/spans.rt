//! Spans, their events, links and statuses.

ghost use Rattle.std.specs.Prelude.{◌≡◌, length, min, IsTrue, FitsSigned, OnOk, IfOk, IfErr};
ghost use Rattle.std.specs.Int.{w32};
ghost use Rattle.std.proofs.Common.{refl};
ghost use Rattle.lists.specs.Bytes.{is_real_text};
ghost use Rattle.otlp_model.specs.Empty.{no_span};
ghost use Rattle.otlp_model.specs.Real.{IsRealEvent, IsRealLink, IsRealSpan};
ghost use Rattle.otlp_messages.specs.Canon.{canon};
ghost use Rattle.otlp_messages.specs.declared.messages.Message.TheVariants as messages;
ghost use Rattle.otlp_messages.specs.declared.messages.ItemKind.TheVariants as ofs;
ghost use Rattle.otlp_wire.specs.Wire.{value_of};
ghost use Rattle.otlp_messages.specs.declared.messages.FieldKind.TheVariants as kinds;
ghost use Rattle.otlp_messages.specs.Fine.{FineValue};
ghost use Rattle.otlp_messages.specs.Rows.{embedded_in};
ghost use Rattle.otlp_codec.specs.Limits.{level_limit};
ghost use Rattle.otlp_model.specs.Limits.{count_cap};
ghost use Rattle.otlp_codec.specs.PartRefusals.{RefusesValue};
ghost use Rattle.otlp_codec.specs.Spans.{event_in, link_in, no_status, span_status_in, span_in};
ghost use Rattle.otlp_codec.specs.SpanSteps.{no_event, event_step, no_link, link_step, status_step, span_step};
ghost use Rattle.otlp_codec.specs.SpanSpelling.{canon_event, canon_link, canon_span_status, canon_span, span_front, span_back};
ghost use Rattle.otlp_codec.specs.lemmas.SpansPassed.{event_passes, link_passes, status_passes, span_passes};

use crate::cells::{take_fixed32, take_fixed64, take_id, take_int32, take_text, take_uint32};
use crate::lengths::{
    len_bytes_row, len_fixed32_row, len_fixed64_row, len_more, len_one, len_pairs, len_varint_row,
};
use crate::part::{ItemMessage, Submessage, read_part, take_more, take_pairs};
use crate::pool::Pool;
use crate::refusal::ReadRefusal;
use crate::writing::{Spelled, write_more, write_octets, write_one, write_pairs, write_text};
use otlp_messages::{Backward, ItemKind, Message};
use otlp_model::{Event, Items, Link, Octets, Span, Text, add_capped, sum_capped};
use otlp_wire::{Field, Wire};
use std::alloc::{AllocError, Global};

/// How a span ended (OTLP `Status`); the model holds its parts in the span.
#[derive(Drop)]
pub(crate) struct SpanStatus {
    message: Text,
    code: i32,
}

/// The same, as it is written.
#[derive(Clone, Copy)]
struct SpanStatusOf<'a> {
    message: &'a Text,
    code: i32,
}

impl Submessage for Event {
    ghost named = { messages.Event };

    ghost none = { no_event };

    ghost step = { event_step };

    ghost reads = { event_in };

    ghost passes = { event_passes };

    fn message() -> Message {
        Message::Event
    }

    fn empty(alloc: Global) -> Self {
        Event {
            time: 0,
            name: Text::new(alloc),
            pairs: Items::new(alloc),
            dropped: 0,
        }
    }

    fn take(&mut self, pool: &mut Pool, field: &Field<'_>) -> Result<(), ReadRefusal> {
        let value = &field.value;
        match field.number {
            1 => take_fixed64(&mut self.time, value),
            2 => take_text(pool.alloc(), &mut self.name, value),
            3 => take_pairs(pool, &mut self.pairs, value),
            4 => take_uint32(&mut self.dropped, value),
            _ => Ok(()),
        }
    }
}

impl Submessage for Link {
    ghost named = { messages.Link };

    ghost none = { no_link };

    ghost step = { link_step };

    ghost reads = { link_in };

    ghost passes = { link_passes };

    fn message() -> Message {
        Message::Link
    }

    fn empty(alloc: Global) -> Self {
        Link {
            trace_id: Octets::new(alloc),
            span_id: Octets::new(alloc),
            trace_state: Text::new(alloc),
            flags: 0,
            pairs: Items::new(alloc),
            dropped: 0,
        }
    }

    fn take(&mut self, pool: &mut Pool, field: &Field<'_>) -> Result<(), ReadRefusal> {
        let value = &field.value;
        match field.number {
            1 => take_id(pool.alloc(), &mut self.trace_id, 16, value),
            2 => take_id(pool.alloc(), &mut self.span_id, 8, value),
            3 => take_text(pool.alloc(), &mut self.trace_state, value),
            4 => take_pairs(pool, &mut self.pairs, value),
            5 => take_uint32(&mut self.dropped, value),
            6 => take_fixed32(&mut self.flags, value),
            _ => Ok(()),
        }
    }
}

impl Submessage for SpanStatus {
    ghost named = { messages.Status };

    ghost none = { no_status };

    ghost step = { status_step };

    ghost reads = { span_status_in };

    ghost passes = { status_passes };

    fn message() -> Message {
        Message::Status
    }

    fn empty(alloc: Global) -> Self {
        SpanStatus {
            message: Text::new(alloc),
            code: 0,
        }
    }

    fn take(&mut self, pool: &mut Pool, field: &Field<'_>) -> Result<(), ReadRefusal> {
        let value = &field.value;
        match field.number {
            2 => take_text(pool.alloc(), &mut self.message, value),
            3 => take_int32(&mut self.code, value),
            _ => Ok(()),
        }
    }
}

impl Submessage for Span {
    ghost named = { messages.Span };

    ghost none = { no_span };

    ghost step = { span_step };

    ghost reads = { span_in };

    ghost passes = { span_passes };

    fn message() -> Message {
        Message::Span
    }

    fn empty(alloc: Global) -> Self {
        Span::empty(alloc)
    }

    fn take(&mut self, pool: &mut Pool, field: &Field<'_>) -> Result<(), ReadRefusal> {
        let value = &field.value;
        match field.number {
            1 => take_id(pool.alloc(), &mut self.trace_id, 16, value),
            2 => take_id(pool.alloc(), &mut self.span_id, 8, value),
            3 => take_text(pool.alloc(), &mut self.trace_state, value),
            4 => take_id(pool.alloc(), &mut self.parent_span_id, 8, value),
            5 => take_text(pool.alloc(), &mut self.name, value),
            6 => take_int32(&mut self.kind, value),
            7 => take_fixed64(&mut self.start, value),
            8 => take_fixed64(&mut self.end, value),
            9 => take_pairs(pool, &mut self.pairs, value),
            10 => take_uint32(&mut self.dropped_pairs, value),
            11 => take_more(pool, &mut self.events, value),
            12 => take_uint32(&mut self.dropped_events, value),
            13 => take_more(pool, &mut self.links, value),
            14 => take_uint32(&mut self.dropped_links, value),
            15 => take_status(pool, &mut self.status_message, &mut self.status_code, value),
            16 => take_fixed32(&mut self.flags, value),
            _ => Ok(()),
        }
    }
}

impl ItemMessage for Span {
    ghost of = { ofs.Spans };

    ghost is_item = { refl };

    fn of() -> ItemKind {
        ItemKind::Spans
    }
}

/// Reads the status of a span into its parts.
fn take_status(
    pool: &mut Pool,
    message: &mut Text,
    code: &mut i32,
    value: &Wire<'_>,
) -> Result<(), ReadRefusal>
    ensures ok { OnOk result (record { message = message.new; code = code.new } ≡ embedded_in span_status_in (record { message = message.old; code = code.old }) (value_of value.now)) }
    ensures fine { IfOk result (λ _. FineValue (kinds.Embedded messages.Status) level_limit (value_of value.now)) }
    ensures fault { IfErr result (RefusesValue (kinds.Embedded messages.Status) level_limit (value_of value.now)) }
{
    let Wire::Bytes(bytes) = value else {
        return Err(ReadRefusal::BadMessage);
    };
    let status: SpanStatus = read_part(pool, bytes)?;
    *message = status.message;
    *code = status.code;
    Ok(())
}

impl Spelled for Event {
    ghost spelled = { canon_event };

    ghost is_real = { IsRealEvent };

    #[tactic(auto, using(otlp_messages::proofs::Keeping::keeps_more, otlp_messages::proofs::Keeping::keeps_four), unfolding(crate::specs::SpanSpelling::canon_event))]
    fn write(&self, to: &mut Backward) -> Result<(), AllocError> {
        to.put_varint_row(4, u64::from(self.dropped))?;
        write_pairs(to, 3, self.pairs.as_slice())?;
        write_text(to, 2, &self.name)?;
        to.put_fixed64_row(1, self.time)?;
        Ok(())
    }

    #[tactic(auto, unfolding(crate::specs::SpanSpelling::canon_event))]
    fn len(&self) -> u64 {
        sum_capped(&[
            len_fixed64_row(1, self.time),
            len_bytes_row(2, self.name.as_slice()),
            len_pairs(3, self.pairs.as_slice()),
            len_varint_row(4, u64::from(self.dropped)),
        ])
    }
}

impl Spelled for Link {
    ghost spelled = { canon_link };

    ghost is_real = { IsRealLink };

    #[tactic(auto, using(otlp_messages::proofs::Keeping::keeps_more, otlp_messages::proofs::Keeping::keeps_four), unfolding(crate::specs::SpanSpelling::canon_link))]
    fn write(&self, to: &mut Backward) -> Result<(), AllocError> {
        to.put_fixed32_row(6, self.flags)?;
        to.put_varint_row(5, u64::from(self.dropped))?;
        write_pairs(to, 4, self.pairs.as_slice())?;
        write_text(to, 3, &self.trace_state)?;
        write_octets(to, 2, &self.span_id)?;
        write_octets(to, 1, &self.trace_id)?;
        Ok(())
    }

    #[tactic(auto, unfolding(crate::specs::SpanSpelling::canon_link))]
    fn len(&self) -> u64 {
        sum_capped(&[
            len_bytes_row(1, self.trace_id.as_slice()),
            len_bytes_row(2, self.span_id.as_slice()),
            len_bytes_row(3, self.trace_state.as_slice()),
            len_pairs(4, self.pairs.as_slice()),
            len_varint_row(5, u64::from(self.dropped)),
            len_fixed32_row(6, self.flags),
        ])
    }
}

impl Spelled for Span {
    ghost spelled = { canon_span };

    ghost is_real = { IsRealSpan };

    #[tactic(auto, using(otlp_messages::proofs::Keeping::keeps_more, otlp_messages::proofs::Keeping::keeps_four), unfolding(crate::specs::SpanSpelling::canon_span))]
    fn write(&self, to: &mut Backward) -> Result<(), AllocError> {
        to.put_fixed32_row(16, self.flags)?;
        write_one(to, 15, &ending(self))?;
        to.put_varint_row(14, u64::from(self.dropped_links))?;
        write_more(to, 13, self.links.as_slice())?;
        to.put_varint_row(12, u64::from(self.dropped_events))?;
        write_more(to, 11, self.events.as_slice())?;
        to.put_varint_row(10, u64::from(self.dropped_pairs))?;
        write_pairs(to, 9, self.pairs.as_slice())?;
        to.put_fixed64_row(8, self.end)?;
        to.put_fixed64_row(7, self.start)?;
        to.put_signed_row(6, i64::from(self.kind))?;
        write_text(to, 5, &self.name)?;
        write_octets(to, 4, &self.parent_span_id)?;
        write_text(to, 3, &self.trace_state)?;
        write_octets(to, 2, &self.span_id)?;
        write_octets(to, 1, &self.trace_id)
    }

    #[tactic(auto, unfolding(crate::specs::SpanSpelling::canon_span))]
    fn len(&self) -> u64 {
        add_capped(len_front(self), len_back(self))
    }
}

impl Spelled for SpanStatusOf<'_> {
    ghost spelled = { λ s. canon_span_status (record { message = s.message.now; code = s.code }) };

    ghost is_real = { λ s. IsTrue (is_real_text s.message.now) × FitsSigned w32 s.code };

    #[tactic(auto, using(otlp_messages::proofs::Keeping::keeps_more))]
    fn write(&self, to: &mut Backward) -> Result<(), AllocError> {
        to.put_signed_row(3, i64::from(self.code))?;
        write_text(to, 2, self.message)?;
        Ok(())
    }

    fn len(&self) -> u64 {
        add_capped(
            len_bytes_row(2, self.message.as_slice()),
            len_varint_row(3, i64::from(self.code).cast_unsigned()),
        )
    }
}

/// The status of a span, as it is written.
fn ending(span: &Span) -> SpanStatusOf<'_>
    ensures message { result.message.now ≡ span.now.status_message }
    ensures code { result.code ≡ span.now.status_code }
{
    SpanStatusOf {
        message: &span.status_message,
        code: span.status_code,
    }
}

/// How long the first half of a span's fields is.
fn len_front(span: &Span) -> u64
    ensures { result ≡ min (length (canon (span_front span.now))) count_cap }
{
    sum_capped(&[
        len_bytes_row(1, span.trace_id.as_slice()),
        len_bytes_row(2, span.span_id.as_slice()),
        len_bytes_row(3, span.trace_state.as_slice()),
        len_bytes_row(4, span.parent_span_id.as_slice()),
        len_bytes_row(5, span.name.as_slice()),
        len_varint_row(6, i64::from(span.kind).cast_unsigned()),
        len_fixed64_row(7, span.start),
        len_fixed64_row(8, span.end),
    ])
}

/// How long the second half of a span's fields is.
fn len_back(span: &Span) -> u64
    ensures { result ≡ min (length (canon (span_back span.now))) count_cap }
{
    sum_capped(&[
        len_pairs(9, span.pairs.as_slice()),
        len_varint_row(10, u64::from(span.dropped_pairs)),
        len_more(11, span.events.as_slice()),
        len_varint_row(12, u64::from(span.dropped_events)),
        len_more(13, span.links.as_slice()),
        len_varint_row(14, u64::from(span.dropped_links)),
        len_one(15, &ending(span)),
        len_fixed32_row(16, span.flags),
    ])
}
