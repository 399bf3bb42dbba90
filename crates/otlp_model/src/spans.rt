ghost use Rattle.std.specs.Prelude.{◌≡◌};
ghost use Rattle.otlp_model.specs.Empty.{no_span};
ghost use Rattle.otlp_model.specs.Weight.{weight_of_event, weight_of_link, weight_of_span};
ghost use Rattle.otlp_model.specs.Real.{IsRealEvent, IsRealLink, IsRealSpan};
ghost use Rattle.otlp_model.specs.Profile.{IsProfileEvent, IsProfileLink, IsProfileSpan};
ghost use Rattle.otlp_model.specs.Same.{SameEvent, SameLink, SameSpan};

use crate::limits::sum_capped;
use crate::profile::{Profiled, all_profile, is_span_id, is_trace_id};
use crate::sameness::{Alike, each_same, same_pairs};
use crate::value::Pair;
use crate::weights::{HasWeight, PART_WEIGHT, pairs_weight, parts_weight};
use lists::{Items, Octets, Text};
use std::alloc::Global;

/// A span (OTLP `Span`). Times are nanoseconds since the Unix epoch.
#[derive(Debug, Drop)]
pub struct Span {
    pub trace_id: Octets,
    pub span_id: Octets,
    pub parent_span_id: Octets,
    pub trace_state: Text,
    pub name: Text,
    pub kind: i32,
    pub start: u64,
    pub end: u64,
    pub flags: u32,
    pub pairs: Items<Pair>,
    pub dropped_pairs: u32,
    pub events: Items<Event>,
    pub dropped_events: u32,
    pub links: Items<Link>,
    pub dropped_links: u32,
    pub status_code: i32,
    pub status_message: Text,
}

/// An event of a span (OTLP `Span.Event`).
#[derive(Debug, Drop)]
pub struct Event {
    pub time: u64,
    pub name: Text,
    pub pairs: Items<Pair>,
    pub dropped: u32,
}

/// A link from a span to another one (OTLP `Span.Link`).
#[derive(Debug, Drop)]
pub struct Link {
    pub trace_id: Octets,
    pub span_id: Octets,
    pub trace_state: Text,
    pub flags: u32,
    pub pairs: Items<Pair>,
    pub dropped: u32,
}

impl HasWeight for Event {
    ghost weight_of = { weight_of_event };

    ghost is_real = { IsRealEvent };

    fn weight(&self) -> u64 {
        let _time = self.time;
        let _dropped = self.dropped;
        sum_capped(&[self.name.weight(), pairs_weight(self.pairs.as_slice())])
    }
}

impl HasWeight for Link {
    ghost weight_of = { weight_of_link };

    ghost is_real = { IsRealLink };

    fn weight(&self) -> u64 {
        let _flags = self.flags;
        let _dropped = self.dropped;
        sum_capped(&[
            self.trace_id.weight(),
            self.span_id.weight(),
            self.trace_state.weight(),
            pairs_weight(self.pairs.as_slice()),
        ])
    }
}

impl Span {
    /// A span of which nothing is set: numbers are 0; texts, lists and ids are empty.
    pub fn empty(alloc: Global) -> Span
        ensures { result ≡ no_span }
    {
        Span {
            trace_id: Octets::new(alloc),
            span_id: Octets::new(alloc),
            parent_span_id: Octets::new(alloc),
            trace_state: Text::new(alloc),
            name: Text::new(alloc),
            kind: 0,
            start: 0,
            end: 0,
            flags: 0,
            pairs: Items::new(alloc),
            dropped_pairs: 0,
            events: Items::new(alloc),
            dropped_events: 0,
            links: Items::new(alloc),
            dropped_links: 0,
            status_code: 0,
            status_message: Text::new(alloc),
        }
    }
}

impl HasWeight for Span {
    ghost weight_of = { weight_of_span };

    ghost is_real = { IsRealSpan };

    fn weight(&self) -> u64 {
        let _kind = self.kind;
        let _start = self.start;
        let _end = self.end;
        let _flags = self.flags;
        let _dropped_pairs = self.dropped_pairs;
        let _dropped_events = self.dropped_events;
        let _dropped_links = self.dropped_links;
        let _status_code = self.status_code;
        sum_capped(&[
            self.trace_id.weight(),
            self.span_id.weight(),
            self.parent_span_id.weight(),
            self.trace_state.weight(),
            self.name.weight(),
            self.status_message.weight(),
            pairs_weight(self.pairs.as_slice()),
            parts_weight(PART_WEIGHT, self.events.as_slice()),
            parts_weight(PART_WEIGHT, self.links.as_slice()),
        ])
    }
}

impl Profiled for Event {
    ghost within = { IsProfileEvent };

    fn is_profile(&self) -> bool {
        all_profile(&self.pairs)
    }
}

impl Profiled for Link {
    ghost within = { IsProfileLink };

    fn is_profile(&self) -> bool {
        is_trace_id(&self.trace_id) && is_span_id(&self.span_id) && all_profile(&self.pairs)
    }
}

impl Profiled for Span {
    ghost within = { IsProfileSpan };

    fn is_profile(&self) -> bool {
        is_trace_id(&self.trace_id)
            && is_span_id(&self.span_id)
            && is_span_id(&self.parent_span_id)
            && all_profile(&self.pairs)
            && all_profile(&self.events)
            && all_profile(&self.links)
    }
}

impl Alike for Event {
    ghost alike = { SameEvent };

    fn is_same(&self, other: &Self) -> bool {
        self.time == other.time
            && self.name.as_slice() == other.name.as_slice()
            && same_pairs(self.pairs.as_slice(), other.pairs.as_slice())
            && self.dropped == other.dropped
    }
}

impl Alike for Link {
    ghost alike = { SameLink };

    fn is_same(&self, other: &Self) -> bool {
        self.trace_id.as_slice() == other.trace_id.as_slice()
            && self.span_id.as_slice() == other.span_id.as_slice()
            && self.trace_state.as_slice() == other.trace_state.as_slice()
            && self.flags == other.flags
            && same_pairs(self.pairs.as_slice(), other.pairs.as_slice())
            && self.dropped == other.dropped
    }
}

impl Alike for Span {
    ghost alike = { SameSpan };

    fn is_same(&self, other: &Self) -> bool {
        self.trace_id.as_slice() == other.trace_id.as_slice()
            && self.span_id.as_slice() == other.span_id.as_slice()
            && self.parent_span_id.as_slice() == other.parent_span_id.as_slice()
            && self.trace_state.as_slice() == other.trace_state.as_slice()
            && self.name.as_slice() == other.name.as_slice()
            && self.kind == other.kind
            && self.start == other.start
            && self.end == other.end
            && self.flags == other.flags
            && same_pairs(self.pairs.as_slice(), other.pairs.as_slice())
            && self.dropped_pairs == other.dropped_pairs
            && each_same(self.events.as_slice(), other.events.as_slice())
            && self.dropped_events == other.dropped_events
            && each_same(self.links.as_slice(), other.links.as_slice())
            && self.dropped_links == other.dropped_links
            && self.status_code == other.status_code
            && self.status_message.as_slice() == other.status_message.as_slice()
    }
}
