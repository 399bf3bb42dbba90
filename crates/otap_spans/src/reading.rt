//! Spans, events and links, read from the rows of their tables.
ghost use Rattle.std.specs.Prelude.{◌≡◌, map, drop};
ghost use Rattle.otlp_model.specs.Weight.{weight_of_event, weight_of_link, weight_of_pair, weight_of_span};
ghost use Rattle.otlp_model.specs.declared.spans.Event.{Event};
ghost use Rattle.otlp_model.specs.declared.spans.Link.{Link};
ghost use Rattle.otlp_model.specs.declared.value.Pair.{Pair};
ghost use Rattle.otap_cells.specs.declared.payload.Kind.TheVariants as table;
ghost use Rattle.otap_spans.specs.Records.{event_of, link_of, span_of};

use crate::columns::{event, link, span};
use otap_cells::{Rows, bits_in, bytes_in, number_in, octets_in, small_int_in, text_in};
use otap_groups::{Lookup, RowReader};
use otlp_model::{Event, Link, Pair, Span, sum_capped};
use std::alloc::{AllocError, Global};

/// The spans of a table's rows.
#[derive(Drop)]
pub struct Spans<
    'a,
    R: Rows,
    P: Lookup<Child = Pair>,
    E: Lookup<Child = Event>,
    L: Lookup<Child = Link>,
> {
    pub rows: &'a R,
    pub pairs: P,
    pub events: E,
    pub links: L,
    ghost of_spans: { (R.table rows.now).kind ≡ table.Spans },
    ghost pairs_weighed: { (pair : Pair) → P.weigh pair ≡ weight_of_pair pair },
    ghost events_weighed: { (event : Event) → E.weigh event ≡ weight_of_event event },
    ghost links_weighed: { (link : Link) → L.weigh link ≡ weight_of_link link },
}

impl<R: Rows, P: Lookup<Child = Pair>, E: Lookup<Child = Event>, L: Lookup<Child = Link>> RowReader
    for Spans<'_, R, P, E, L> {
    type Item = Span;

    ghost cells = { λ s. map (drop 9) (R.table s.rows.now).rows };

    ghost item = { λ s id own. span_of own (P.finds s.pairs id) (E.finds s.events id) (L.finds s.links id) };

    ghost weigh = { weight_of_span };

    #[tactic(auto, unfolding(otap_cells::specs::Columns::spans))]
    fn read(&self, alloc: Global, id: Option<u32>, row: usize) -> Result<Span, AllocError> {
        let at = row as u64;
        let start = bits_in(self.rows, span::START, at);
        let duration = bits_in(self.rows, span::DURATION, at);
        let kind = small_int_in(self.rows, span::KIND, at);
        let status_code = small_int_in(self.rows, span::STATUS_CODE, at);
        Ok(Span {
            trace_id: octets_in(alloc, self.rows, span::TRACE_ID, at)?,
            span_id: octets_in(alloc, self.rows, span::SPAN_ID, at)?,
            parent_span_id: octets_in(alloc, self.rows, span::PARENT_SPAN_ID, at)?,
            trace_state: text_in(alloc, self.rows, span::TRACE_STATE, at)?,
            name: text_in(alloc, self.rows, span::NAME, at)?,
            kind,
            start,
            end: start.wrapping_add(duration),
            flags: number_in(self.rows, span::FLAGS, at),
            pairs: self.pairs.of(alloc, id)?,
            dropped_pairs: number_in(self.rows, span::DROPPED_PAIRS, at),
            events: self.events.of(alloc, id)?,
            dropped_events: number_in(self.rows, span::DROPPED_EVENTS, at),
            links: self.links.of(alloc, id)?,
            dropped_links: number_in(self.rows, span::DROPPED_LINKS, at),
            status_code,
            status_message: text_in(alloc, self.rows, span::STATUS_MESSAGE, at)?,
        })
    }

    #[tactic(auto, unfolding(otap_cells::specs::Columns::spans))]
    fn weight(&self, id: Option<u32>, row: usize) -> u64 {
        let at = row as u64;
        sum_capped(&[
            bytes_in(self.rows, span::TRACE_ID, at).len() as u64,
            bytes_in(self.rows, span::SPAN_ID, at).len() as u64,
            bytes_in(self.rows, span::PARENT_SPAN_ID, at).len() as u64,
            bytes_in(self.rows, span::TRACE_STATE, at).len() as u64,
            bytes_in(self.rows, span::NAME, at).len() as u64,
            bytes_in(self.rows, span::STATUS_MESSAGE, at).len() as u64,
            self.pairs.weight_of(id),
            self.events.weight_of(id),
            self.links.weight_of(id),
        ])
    }
}

/// The events of a table's rows.
#[derive(Drop)]
pub struct Events<'a, R: Rows, P: Lookup<Child = Pair>> {
    pub rows: &'a R,
    pub pairs: P,
    ghost of_events: { (R.table rows.now).kind ≡ table.SpanEvents },
    ghost weighed: { (pair : Pair) → P.weigh pair ≡ weight_of_pair pair },
}

impl<R: Rows, P: Lookup<Child = Pair>> RowReader for Events<'_, R, P> {
    type Item = Event;

    ghost cells = { λ s. map (drop 2) (R.table s.rows.now).rows };

    ghost item = { λ s id own. event_of own (P.finds s.pairs id) };

    ghost weigh = { weight_of_event };

    #[tactic(auto, unfolding(otap_cells::specs::Columns::span_events))]
    fn read(&self, alloc: Global, id: Option<u32>, row: usize) -> Result<Event, AllocError> {
        let at = row as u64;
        Ok(Event {
            time: bits_in(self.rows, event::TIME, at),
            name: text_in(alloc, self.rows, event::NAME, at)?,
            pairs: self.pairs.of(alloc, id)?,
            dropped: number_in(self.rows, event::DROPPED, at),
        })
    }

    #[tactic(auto, unfolding(otap_cells::specs::Columns::span_events))]
    fn weight(&self, id: Option<u32>, row: usize) -> u64 {
        let at = row as u64;
        sum_capped(&[
            bytes_in(self.rows, event::NAME, at).len() as u64,
            self.pairs.weight_of(id),
        ])
    }
}

/// The links of a table's rows.
#[derive(Drop)]
pub struct Links<'a, R: Rows, P: Lookup<Child = Pair>> {
    pub rows: &'a R,
    pub pairs: P,
    ghost of_links: { (R.table rows.now).kind ≡ table.SpanLinks },
    ghost weighed: { (pair : Pair) → P.weigh pair ≡ weight_of_pair pair },
}

impl<R: Rows, P: Lookup<Child = Pair>> RowReader for Links<'_, R, P> {
    type Item = Link;

    ghost cells = { λ s. map (drop 2) (R.table s.rows.now).rows };

    ghost item = { λ s id own. link_of own (P.finds s.pairs id) };

    ghost weigh = { weight_of_link };

    #[tactic(auto, unfolding(otap_cells::specs::Columns::span_links))]
    fn read(&self, alloc: Global, id: Option<u32>, row: usize) -> Result<Link, AllocError> {
        let at = row as u64;
        Ok(Link {
            trace_id: octets_in(alloc, self.rows, link::TRACE_ID, at)?,
            span_id: octets_in(alloc, self.rows, link::SPAN_ID, at)?,
            trace_state: text_in(alloc, self.rows, link::TRACE_STATE, at)?,
            flags: number_in(self.rows, link::FLAGS, at),
            pairs: self.pairs.of(alloc, id)?,
            dropped: number_in(self.rows, link::DROPPED, at),
        })
    }

    #[tactic(auto, unfolding(otap_cells::specs::Columns::span_links))]
    fn weight(&self, id: Option<u32>, row: usize) -> u64 {
        let at = row as u64;
        sum_capped(&[
            bytes_in(self.rows, link::TRACE_ID, at).len() as u64,
            bytes_in(self.rows, link::SPAN_ID, at).len() as u64,
            bytes_in(self.rows, link::TRACE_STATE, at).len() as u64,
            self.pairs.weight_of(id),
        ])
    }
}
