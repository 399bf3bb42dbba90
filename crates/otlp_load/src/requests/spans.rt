//! Spans.
ghost use Rattle.std.specs.Prelude.{◌≡◌, [], ◌∷◌, ◌++◌, IfOk, codes};
ghost use Rattle.otlp_load.specs.Items.{event_at, load_span};

use crate::items::{LoadItem, time};
use crate::pairs::{numbered, pairs};
use otlp_model::{Event, Items, Octets, Span, Text};
use std::alloc::{AllocError, Global};

impl LoadItem for Span {
    ghost item_of = { load_span };

    fn made(alloc: Global, request: u32, number: u32) -> Result<Span, AllocError> {
        let id = u64::from(number).to_be_bytes();
        let start = time(number);
        let mut span = Span::empty(alloc);
        span.trace_id = Octets::from_slice(alloc, &twice(id))?;
        span.span_id = Octets::from_slice(alloc, &id)?;
        span.name = numbered(alloc, "op-", number % 300)?;
        span.kind = (1 + number % 5) as i32;
        span.start = start;
        span.end = start + u64::from(number % 700);
        span.pairs = pairs(alloc, request, number)?;
        span.events = events(alloc, start)?;
        Ok(span)
    }
}

/// The bytes twice.
fn twice(part: [u8; 8]) -> [u8; 16]
    ensures { result ≡ part ++ part }
{
    let [a, b, c, d, e, f, g, h] = part;
    [a, b, c, d, e, f, g, h, a, b, c, d, e, f, g, h]
}

/// The two events of a span.
fn events(alloc: Global, time: u64) -> Result<Items<Event>, AllocError>
    ensures { IfOk result (λ events. events ≡ event_at (codes "e0") time ∷ event_at (codes "e1") time ∷ []) }
{
    let mut events = Items::new(alloc);
    events.reserve(2)?;
    events.push(event(alloc, "e0", time)?)?;
    events.push(event(alloc, "e1", time)?)?;
    Ok(events)
}

fn event(alloc: Global, name: &str, time: u64) -> Result<Event, AllocError>
    ensures { IfOk result (λ event. event ≡ event_at name.now time) }
{
    Ok(Event {
        time,
        name: Text::from_str(alloc, name)?,
        pairs: Items::new(alloc),
        dropped: 0,
    })
}
