//! The request of the tables of a batch.
ghost use Rattle.std.specs.Prelude.{◌≡◌, ◌≤◌, min, IfErr, IfOk, OnOk, All};
ghost use Rattle.otlp_model.specs.declared.request.Signal.TheVariants as signal;
ghost use Rattle.otlp_model.specs.Limits.{weight_limit, count_cap};
ghost use Rattle.otlp_model.specs.Weight.{weight_of, weight_of_event, weight_of_link};
ghost use Rattle.otlp_model.specs.declared.spans.Event.{Event};
ghost use Rattle.otlp_model.specs.declared.spans.Link.{Link};
ghost use Rattle.otlp_model.specs.declared.request.Request.TheVariants.{Traces};
ghost use Rattle.otap_cells.specs.declared.payload.Kind.TheVariants as table;
ghost use Rattle.otap_cells.specs.Named.{table_named};
ghost use Rattle.otap_groups.specs.Beside.{FindAlike};
ghost use Rattle.otap_groups.specs.Made.{groups_of};
ghost use Rattle.otap_checks.specs.Refusing.{Nothing, RefusesCheck};
ghost use Rattle.otap_checks.specs.Regrouping.{RefusesRegroup};
ghost use Rattle.otap_checks.specs.Known.{IsWeighed, KnowsAll};
ghost use Rattle.otap_spans.specs.Requests.{AreCleanSpans, WrongSpans, regrouped_spans, regrouped_weight, span_events_in, span_links_in};

use crate::below::{find_events, find_links};
use crate::reading::Spans;
use otap_attrs::CheckRefusal;
use otap_cells::{Kind, Rows, TableSet};
use otap_checks::{
    Grouped, KnownRows, PairRows, RegroupRefusal, checked_rows, find_pairs, front_of, groups_within,
};
use otap_groups::{Lookup, Main};
use otlp_model::{Event, Items, Link, ResourceGroup, Signal, Span};
use std::alloc::{AllocError, Global};

/// The main rows of spans, with their spans and all pairs, where events and links are found in given ways.
type SpanRows<'a, R, E, L> = Main<'a, R, Spans<'a, R, PairRows<'a, R>, E, L>, PairRows<'a, R>>;

/// Looks at the rows of a batch of spans, and returns what their request weighs, or `CAP` where it is more; or what is wrong with
/// them. It builds nothing. Takes n log n for n rows.
pub fn check_rows<R: Rows>(alloc: Global, set: &TableSet<R>) -> Result<u64, CheckRefusal>
    ensures clean { OnOk result (AreCleanSpans set.now) }
    ensures weight { IfOk result (λ weight. weight ≡ min (regrouped_weight set.now) count_cap) }
    ensures refused { IfErr result (RefusesCheck (WrongSpans set.now)) }
{
    let known = checked_rows(alloc, set, Signal::Traces)?;
    let Some(rows) = set.get(Kind::Spans) else {
        return Ok(0);
    };
    let events = find_events(alloc, set, &known)?;
    let links = find_links(alloc, set, &known)?;
    let weight = weight_with(alloc, set, rows, &known, events, links)?;
    Ok(weight)
}

/// The request of a batch of spans and what it weighs, where nothing is wrong with the rows and it weighs at most the limit;
/// what is wrong is named before the weight. It is built only then. Takes n log n for n rows, and time in proportion to them where
/// ids and parents rise or count from 0.
pub fn regroup<R: Rows>(alloc: Global, set: &TableSet<R>) -> Result<Grouped<Span>, RegroupRefusal>
    ensures clean { OnOk result (AreCleanSpans set.now) }
    ensures groups { IfOk result (λ made. made.groups ≡ regrouped_spans set.now) }
    ensures tree { IfOk result (λ made. made.tree ≡ weight_of (Traces made.groups)) }
    ensures light { IfOk result (λ made. made.tree ≤ weight_limit) }
    ensures refused { IfErr result (RefusesRegroup (WrongSpans set.now) (regrouped_weight set.now)) }
{
    let known = checked_rows(alloc, set, Signal::Traces)?;
    let Some(rows) = set.get(Kind::Spans) else {
        return Ok(Grouped {
            groups: Items::new(alloc),
            tree: 0,
        });
    };
    let events = find_events(alloc, set, &known)?;
    let links = find_links(alloc, set, &known)?;
    let made = groups_with(alloc, set, rows, &known, events, links)?;
    Ok(made)
}

/// The request of a batch of spans whose rows have nothing wrong, and which weighs at most the limit. Takes n log n for n rows.
pub fn request_of<R: Rows>(
    alloc: Global,
    set: &TableSet<R>,
) -> Result<Items<ResourceGroup<Span>>, AllocError>
    requires clean { AreCleanSpans set.now }
    requires light { regrouped_weight set.now ≤ weight_limit }
    ensures { IfOk result (λ groups. groups ≡ regrouped_spans set.now) }
{
    match regroup(alloc, set) {
        Ok(made) => Ok(made.groups),
        Err(RegroupRefusal::Rows(CheckRefusal::Memory(error))) => Err(error),
        Err(_) => unreachable!(),
    }
}

/// What the request of a batch whose rows have nothing wrong weighs, where events and links are found in given ways.
fn weight_with<'a, R: Rows, E: Lookup<Child = Event>, L: Lookup<Child = Link>>(
    alloc: Global,
    set: &'a TableSet<R>,
    rows: &'a R,
    known: &'a KnownRows,
    events: E,
    links: L,
) -> Result<u64, AllocError>
    requires clean { AreCleanSpans set.now }
    requires known { KnowsAll signal.Traces set.now known.now.ids }
    requires weights { All (IsWeighed set.now) known.now.weights.items }
    requires table { table_named table.Spans set.now ≡ R.table rows.now }
    requires kind { (R.table rows.now).kind ≡ table.Spans }
    requires events { FindAlike (E.finds events) (span_events_in set.now) }
    requires links { FindAlike (L.finds links) (span_links_in set.now) }
    requires events_weighed { (event : Event) → E.weigh event ≡ weight_of_event event }
    requires links_weighed { (link : Link) → L.weigh link ≡ weight_of_link link }
    ensures { IfOk result (λ weight. weight ≡ min (regrouped_weight set.now) count_cap) }
{
    let main = main_of(alloc, set, rows, known, events, links)?;
    Ok(main.weight())
}

/// The request of a batch whose rows have nothing wrong, where events and links are found in given ways.
fn groups_with<'a, R: Rows, E: Lookup<Child = Event>, L: Lookup<Child = Link>>(
    alloc: Global,
    set: &'a TableSet<R>,
    rows: &'a R,
    known: &'a KnownRows,
    events: E,
    links: L,
) -> Result<Grouped<Span>, RegroupRefusal>
    requires clean { AreCleanSpans set.now }
    requires known { KnowsAll signal.Traces set.now known.now.ids }
    requires weights { All (IsWeighed set.now) known.now.weights.items }
    requires table { table_named table.Spans set.now ≡ R.table rows.now }
    requires kind { (R.table rows.now).kind ≡ table.Spans }
    requires events { FindAlike (E.finds events) (span_events_in set.now) }
    requires links { FindAlike (L.finds links) (span_links_in set.now) }
    requires events_weighed { (event : Event) → E.weigh event ≡ weight_of_event event }
    requires links_weighed { (link : Link) → L.weigh link ≡ weight_of_link link }
    ensures groups { IfOk result (λ made. made.groups ≡ regrouped_spans set.now) }
    ensures tree { IfOk result (λ made. made.tree ≡ weight_of (Traces made.groups)) }
    ensures light { IfOk result (λ made. made.tree ≤ weight_limit) }
    ensures refused { IfErr result (RefusesRegroup Nothing (regrouped_weight set.now)) }
{
    let main = main_of(alloc, set, rows, known, events, links)?;
    let made = groups_within(alloc, &main)?;
    Ok(made)
}

/// The main rows of a batch whose rows have nothing wrong, with their spans and all pairs.
fn main_of<'a, R: Rows, E: Lookup<Child = Event>, L: Lookup<Child = Link>>(
    alloc: Global,
    set: &'a TableSet<R>,
    rows: &'a R,
    known: &'a KnownRows,
    events: E,
    links: L,
) -> Result<SpanRows<'a, R, E, L>, AllocError>
    requires clean { AreCleanSpans set.now }
    requires known { KnowsAll signal.Traces set.now known.now.ids }
    requires weights { All (IsWeighed set.now) known.now.weights.items }
    requires table { table_named table.Spans set.now ≡ R.table rows.now }
    requires kind { (R.table rows.now).kind ≡ table.Spans }
    requires events { FindAlike (E.finds events) (span_events_in set.now) }
    requires links { FindAlike (L.finds links) (span_links_in set.now) }
    requires events_weighed { (event : Event) → E.weigh event ≡ weight_of_event event }
    requires links_weighed { (link : Link) → L.weigh link ≡ weight_of_link link }
    ensures { IfOk result (λ main. groups_of main ≡ regrouped_spans set.now) }
{
    let front = front_of(rows, &known.ids);
    let resources = find_pairs(alloc, set, Kind::ResourceAttrs, known)?;
    let scopes = find_pairs(alloc, set, Kind::ScopeAttrs, known)?;
    let pairs = find_pairs(alloc, set, Kind::SpanAttrs, known)?;
    Ok(Main {
        front,
        items: Spans {
            rows,
            pairs,
            events,
            links,
        },
        resources,
        scopes,
    })
}
