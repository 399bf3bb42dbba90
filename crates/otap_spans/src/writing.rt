//! The tables of a request of spans.
ghost use Rattle.std.specs.Prelude.{◌≡◌, ◌≤◌, IfOk};
ghost use Rattle.otlp_model.specs.Limits.{weight_limit};
ghost use Rattle.otlp_model.specs.Profile.{IsProfile};
ghost use Rattle.otlp_model.specs.Weight.{weight_of};
ghost use Rattle.otlp_model.specs.declared.request.Request.TheVariants.{Traces};
ghost use Rattle.otap_spans.specs.Tables.{tables_of_spans};

use crate::writers::{EventWriter, LinkWriter, SpanWriter};
use otap_attrs::{add_attributes, add_parts, add_resources, add_scopes};
use otap_cells::{Kind, LogicalTable, TableSet};
use otap_groups::{flatten, items_of, parts_of, write_rows};
use otlp_model::{Items, ResourceGroup, Span};
use std::alloc::{AllocError, Global};

/// The tables of a request of spans: its spans, then the tables below them, where they have rows, by their payload types. Takes
/// n log n for n attributes.
pub fn tables_of(
    alloc: Global,
    groups: &Items<ResourceGroup<Span>>,
) -> Result<TableSet<LogicalTable>, AllocError>
    requires profile { IsProfile (Traces groups.now) }
    requires weight { weight_of (Traces groups.now) ≤ weight_limit }
    ensures { IfOk result (λ set. set ≡ tables_of_spans groups.now) }
{
    let groups = groups.as_slice();
    let rows = flatten(alloc, groups)?;
    let main = write_rows(alloc, &SpanWriter, &rows)?;
    let spans = items_of(alloc, &rows)?;
    let events = parts_of(alloc, &EventWriter, &spans)?;
    let links = parts_of(alloc, &LinkWriter, &spans)?;
    let mut tables = Vec::new(alloc);
    tables.push((Kind::Spans, main))?;
    add_resources(alloc, &mut tables, groups)?;
    add_scopes(alloc, &mut tables, groups)?;
    add_attributes(alloc, &mut tables, Kind::SpanAttrs, &spans)?;
    add_parts(alloc, &mut tables, &EventWriter, &events)?;
    add_parts(alloc, &mut tables, &LinkWriter, &links)?;
    add_attributes(alloc, &mut tables, Kind::EventAttrs, &events)?;
    add_attributes(alloc, &mut tables, Kind::LinkAttrs, &links)?;
    Ok(TableSet { tables })
}
