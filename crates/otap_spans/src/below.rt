//! What is found below the rows of spans: events and links.
ghost use Rattle.std.specs.Prelude.{IfOk, All};
ghost use Rattle.otlp_model.specs.declared.request.Signal.TheVariants as signal;
ghost use Rattle.otap_groups.specs.Beside.{FindsIf};
ghost use Rattle.otap_checks.specs.Known.{IsWeighed, KnowsAll};
ghost use Rattle.otap_spans.specs.Requests.{span_events_in, span_links_in};

use crate::reading::{Events, Links};
use otap_cells::{Kind, Rows, TableSet};
use otap_checks::{KnownRows, PairRows, find_pairs, index_rows};
use otap_groups::Children;
use std::alloc::{AllocError, Global};

/// The events of spans, with their pairs; `None` without a table.
pub type EventRows<'a, R> = Option<Children<'a, Events<'a, R, PairRows<'a, R>>>>;

/// The links of spans, with their pairs; `None` without a table.
pub type LinkRows<'a, R> = Option<Children<'a, Links<'a, R, PairRows<'a, R>>>>;

/// Finds the events of spans by their parents. Takes n log n for n rows, and time in proportion to them where ids and parents
/// rise or count from 0.
pub(crate) fn find_events<'a, R: Rows>(
    alloc: Global,
    set: &'a TableSet<R>,
    known: &'a KnownRows,
) -> Result<EventRows<'a, R>, AllocError>
    requires known { KnowsAll signal.Traces set.now known.now.ids }
    requires weights { All (IsWeighed set.now) known.now.weights.items }
    ensures { IfOk result (FindsIf (span_events_in set.now)) }
{
    let kind = Kind::SpanEvents;
    let Some(rows) = set.get(kind) else {
        return Ok(None);
    };
    let pairs = find_pairs(alloc, set, Kind::EventAttrs, known)?;
    let made = index_rows(alloc, set, kind, &known.ids, Events { rows, pairs })?;
    Ok(Some(made))
}

/// Finds the links of spans by their parents, in the same way.
pub(crate) fn find_links<'a, R: Rows>(
    alloc: Global,
    set: &'a TableSet<R>,
    known: &'a KnownRows,
) -> Result<LinkRows<'a, R>, AllocError>
    requires known { KnowsAll signal.Traces set.now known.now.ids }
    requires weights { All (IsWeighed set.now) known.now.weights.items }
    ensures { IfOk result (FindsIf (span_links_in set.now)) }
{
    let kind = Kind::SpanLinks;
    let Some(rows) = set.get(kind) else {
        return Ok(None);
    };
    let pairs = find_pairs(alloc, set, Kind::LinkAttrs, known)?;
    let made = index_rows(alloc, set, kind, &known.ids, Links { rows, pairs })?;
    Ok(Some(made))
}
