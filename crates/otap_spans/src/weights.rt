//! What the tables of a request of spans weigh, without making them.
ghost use Rattle.std.specs.Prelude.{◌≡◌, ◌≤◌, ◌+◌, min};
ghost use Rattle.otlp_model.specs.Limits.{weight_limit, count_cap, part_weight};
ghost use Rattle.otlp_model.specs.Profile.{IsProfile};
ghost use Rattle.otlp_model.specs.Weight.{total, weight_of, weight_of_pair};
ghost use Rattle.otlp_model.specs.declared.request.Request.TheVariants.{Traces};
ghost use Rattle.otap_cells.specs.Weights.{weight_of_tables};
ghost use Rattle.otap_groups.specs.Weighing.{cells_weight, parts_weight};
ghost use Rattle.otap_attrs.specs.Values.{pair_cells};
ghost use Rattle.otap_spans.specs.Records.{span_cells};
ghost use Rattle.otap_spans.specs.Tables.{tables_of_spans};
ghost use Rattle.otap_spans.specs.Writable.{CanWriteEvent, CanWriteLink, CanWriteSpan};
ghost use Rattle.otap_spans.specs.Weighing.{below_weight, event_weight, link_weight};

use crate::writers::{event_weight, link_weight, span_weight};
use otap_attrs::attributes_weight;
use otap_cells::ROW_UNIT;
use otap_groups::{PartWeights, RowWeights, part_rows_weight, rows_weight};
use otlp_model::{
    Event, Items, Link, Resource, ResourceGroup, Scope, Span, add_capped, sum_capped,
};

/// Weighs the rows of spans and of what is below them.
#[derive(Clone, Copy, Debug)]
struct SpanWeights;

impl RowWeights for SpanWeights {
    type Item = Span;

    ghost of_resource = { λ resource. parts_weight pair_cells resource.pairs };

    ghost of_scope = { λ scope. parts_weight pair_cells scope.pairs };

    ghost of_item = { λ span. cells_weight (span_cells span) + below_weight span };

    ghost CanWriteResource = { λ resource. total part_weight weight_of_pair resource.pairs ≤ weight_limit };

    ghost CanWriteScope = { λ scope. total part_weight weight_of_pair scope.pairs ≤ weight_limit };

    ghost CanWriteItem = { CanWriteSpan };

    fn resource(&self, resource: &Resource) -> u64 {
        attributes_weight(&resource.pairs)
    }

    fn scope(&self, scope: &Scope) -> u64 {
        attributes_weight(&scope.pairs)
    }

    fn item(&self, span: &Span) -> u64 {
        add_capped(span_weight(span), below_weight(span))
    }
}

/// The row weight of the tables of a request of spans, or `CAP` where it is more. It makes no table.
pub fn table_weight(groups: &Items<ResourceGroup<Span>>) -> u64
    requires profile { IsProfile (Traces groups.now) }
    requires weight { weight_of (Traces groups.now) ≤ weight_limit }
    ensures { result ≡ min (weight_of_tables (tables_of_spans groups.now)) count_cap }
{
    rows_weight(&SpanWeights, groups.as_slice())
}

/// What the rows of a span's attributes, events and links weigh, or `CAP` where it is more.
fn below_weight(span: &Span) -> u64
    requires { CanWriteSpan span.now }
    ensures { result ≡ min (below_weight span.now) count_cap }
{
    sum_capped(&[
        attributes_weight(&span.pairs),
        part_rows_weight(&EventWeights, span.events.as_slice()),
        part_rows_weight(&LinkWeights, span.links.as_slice()),
    ])
}

/// Weighs the rows of events and of their attributes.
#[derive(Clone, Copy, Debug)]
struct EventWeights;

impl PartWeights for EventWeights {
    type Part = Event;

    ghost of_part = { event_weight };

    ghost CanWrite = { CanWriteEvent };

    fn part(&self, event: &Event) -> u64 {
        let own = event_weight(event);
        let pairs = attributes_weight(&event.pairs);
        sum_capped(&[ROW_UNIT, own, pairs])
    }
}

/// Weighs the rows of links and of their attributes.
#[derive(Clone, Copy, Debug)]
struct LinkWeights;

impl PartWeights for LinkWeights {
    type Part = Link;

    ghost of_part = { link_weight };

    ghost CanWrite = { CanWriteLink };

    fn part(&self, link: &Link) -> u64 {
        let own = link_weight(link);
        let pairs = attributes_weight(&link.pairs);
        sum_capped(&[ROW_UNIT, own, pairs])
    }
}
