//! The rows of spans, of events and of links, written and weighed.
ghost use Rattle.std.specs.Prelude.{◌≡◌, min};
ghost use Rattle.otlp_model.specs.Limits.{count_cap};
ghost use Rattle.otap_cells.specs.declared.payload.Kind.TheVariants as table;
ghost use Rattle.otap_groups.specs.Weighing.{cells_weight};
ghost use Rattle.otap_spans.specs.Records.{event_cells, link_cells, span_cells};
ghost use Rattle.otap_spans.specs.Writable.{CanWriteEvent, CanWriteLink, CanWriteSpan};

use otap_cells::{
    CellView, Kind, LogicalTable, bits_cell, int_cell, number_cell, octets_cell, text_cell,
};
use otap_groups::{FrontCells, PartWriter, PartsOf, RowWriter};
use otlp_model::{Event, Link, Span, sum_capped};
use std::alloc::AllocError;

/// Writes the rows of spans.
#[derive(Clone, Copy, Debug)]
pub(crate) struct SpanWriter;

impl RowWriter for SpanWriter {
    type Item = Span;

    ghost kind = { table.Spans };

    ghost cells_of = { span_cells };

    ghost CanWrite = { CanWriteSpan };

    fn kind(&self) -> Kind {
        Kind::Spans
    }

    fn push<'a>(
        &self,
        table: &mut LogicalTable,
        front: &FrontCells<'a>,
        span: &'a Span,
    ) -> Result<(), AllocError> {
        table.push_cells(&[
            front.id,
            front.resource_id,
            front.resource_url,
            front.resource_dropped,
            front.scope_id,
            front.scope_name,
            front.scope_version,
            front.scope_dropped,
            front.schema_url,
            bits_cell(span.start),
            bits_cell(span.end.wrapping_sub(span.start)),
            octets_cell(&span.trace_id),
            octets_cell(&span.span_id),
            text_cell(&span.trace_state),
            octets_cell(&span.parent_span_id),
            text_cell(&span.name),
            int_cell(i64::from(span.kind)),
            number_cell(span.dropped_pairs),
            number_cell(span.dropped_events),
            number_cell(span.dropped_links),
            int_cell(i64::from(span.status_code)),
            text_cell(&span.status_message),
            number_cell(span.flags),
        ])
    }
}

/// Writes the rows of events.
#[derive(Clone, Copy, Debug)]
pub(crate) struct EventWriter;

impl PartsOf for EventWriter {
    type Parent = Span;

    type Part = Event;

    ghost parts = { λ span. span.events };

    fn parts<'a>(&self, span: &'a Span) -> &'a [Event] {
        span.events.as_slice()
    }
}

impl PartWriter for EventWriter {
    type Part = Event;

    ghost kind = { λ s. table.SpanEvents };

    ghost cells_of = { event_cells };

    ghost CanWrite = { CanWriteEvent };

    fn kind(&self) -> Kind {
        Kind::SpanEvents
    }

    fn goes_on(&self, before: &Event, event: &Event) -> bool {
        before.name.as_slice() == event.name.as_slice()
    }

    fn push(
        &self,
        table: &mut LogicalTable,
        id: u32,
        parent: u32,
        event: &Event,
    ) -> Result<(), AllocError> {
        table.push_cells(&[
            CellView::Num(i64::from(id)),
            CellView::Num(i64::from(parent)),
            bits_cell(event.time),
            text_cell(&event.name),
            number_cell(event.dropped),
        ])
    }
}

/// Writes the rows of links.
#[derive(Clone, Copy, Debug)]
pub(crate) struct LinkWriter;

impl PartsOf for LinkWriter {
    type Parent = Span;

    type Part = Link;

    ghost parts = { λ span. span.links };

    fn parts<'a>(&self, span: &'a Span) -> &'a [Link] {
        span.links.as_slice()
    }
}

impl PartWriter for LinkWriter {
    type Part = Link;

    ghost kind = { λ s. table.SpanLinks };

    ghost cells_of = { link_cells };

    ghost CanWrite = { CanWriteLink };

    fn kind(&self) -> Kind {
        Kind::SpanLinks
    }

    fn goes_on(&self, before: &Link, link: &Link) -> bool {
        before.trace_id.as_slice() == link.trace_id.as_slice()
    }

    fn push(
        &self,
        table: &mut LogicalTable,
        id: u32,
        parent: u32,
        link: &Link,
    ) -> Result<(), AllocError> {
        table.push_cells(&[
            CellView::Num(i64::from(id)),
            CellView::Num(i64::from(parent)),
            octets_cell(&link.trace_id),
            octets_cell(&link.span_id),
            text_cell(&link.trace_state),
            number_cell(link.dropped),
            number_cell(link.flags),
        ])
    }
}

/// The bytes of a span's own cells, or `CAP` where they are more.
pub(crate) fn span_weight(span: &Span) -> u64
    ensures { result ≡ min (cells_weight (span_cells span.now)) count_cap }
{
    sum_capped(&[
        span.trace_id.len() as u64,
        span.span_id.len() as u64,
        span.trace_state.len() as u64,
        span.parent_span_id.len() as u64,
        span.name.len() as u64,
        span.status_message.len() as u64,
    ])
}

/// The bytes of an event's own cells, or `CAP` where they are more.
pub(crate) fn event_weight(event: &Event) -> u64
    ensures { result ≡ min (cells_weight (event_cells event.now)) count_cap }
{
    sum_capped(&[event.name.len() as u64])
}

/// The bytes of a link's own cells, or `CAP` where they are more.
pub(crate) fn link_weight(link: &Link) -> u64
    ensures { result ≡ min (cells_weight (link_cells link.now)) count_cap }
{
    sum_capped(&[
        link.trace_id.len() as u64,
        link.span_id.len() as u64,
        link.trace_state.len() as u64,
    ])
}
