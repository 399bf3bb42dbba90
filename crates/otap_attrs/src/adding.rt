//! The tables below the main one, added one after the other: each where it has rows.
ghost use Rattle.std.specs.Prelude.{◌≡◌, ◌≤◌, ◌++◌, None, true, All, length, map, IfOk, OnErr, OnOk};
ghost use Rattle.otlp_model.specs.Limits.{weight_limit, part_weight};
ghost use Rattle.otlp_model.specs.Weight.{total, weight_of_pair};
ghost use Rattle.otap_cells.specs.Columns.{coding_at};
ghost use Rattle.otap_cells.specs.Continuing.{again_of, has_attributes};
ghost use Rattle.otap_cells.specs.Limits.{wide_ids};
ghost use Rattle.otap_cells.specs.Tables.{profile_table};
ghost use Rattle.otap_cells.specs.declared.payload.Kind.TheVariants as table;
ghost use Rattle.otap_groups.specs.Flat.{resources_of, scopes_of};
ghost use Rattle.otap_groups.specs.Stored.{RisingParts, stored_parts};
ghost use Rattle.otap_groups.specs.Views.{seen_placed};
ghost use Rattle.otap_attrs.specs.Tables.{attribute_table, beside_kind, where_rows};

use crate::written::{Attributed, push_filled, write_attributes};
use otap_cells::{Kind, LogicalTable};
use otap_groups::{PartWriter, Placed, resources_of, scopes_of, write_parts};
use otlp_model::ResourceGroup;
use std::alloc::{AllocError, Global};

/// Adds the attributes of a request's resources. Takes n log n for n attributes.
pub fn add_resources<I>(
    alloc: Global,
    tables: &mut Vec<(Kind, LogicalTable)>,
    groups: &[ResourceGroup<I>],
) -> Result<(), AllocError>
    requires few { length (resources_of groups.now) ≤ wide_ids }
    requires weight { All (λ resource. total part_weight weight_of_pair resource.pairs ≤ weight_limit) (resources_of groups.now) }
    ensures ok { OnOk result (tables.new.items
        ≡ tables.old.items ++ map beside_kind (where_rows (attribute_table table.ResourceAttrs (map (λ resource. resource.pairs) (resources_of groups.now))))) }
    ensures err { OnErr result (tables.new.items ≡ tables.old.items) }
{
    let resources = resources_of(alloc, groups)?;
    let attributes = write_attributes(alloc, Kind::ResourceAttrs, &resources)?;
    push_filled(tables, attributes)?;
    Ok(())
}

/// Adds the attributes of a request's scopes. Takes n log n for n attributes.
pub fn add_scopes<I>(
    alloc: Global,
    tables: &mut Vec<(Kind, LogicalTable)>,
    groups: &[ResourceGroup<I>],
) -> Result<(), AllocError>
    requires few { length (scopes_of groups.now) ≤ wide_ids }
    requires weight { All (λ scope. total part_weight weight_of_pair scope.pairs ≤ weight_limit) (scopes_of groups.now) }
    ensures ok { OnOk result (tables.new.items
        ≡ tables.old.items ++ map beside_kind (where_rows (attribute_table table.ScopeAttrs (map (λ scope. scope.pairs) (scopes_of groups.now))))) }
    ensures err { OnErr result (tables.new.items ≡ tables.old.items) }
{
    let scopes = scopes_of(alloc, groups)?;
    let attributes = write_attributes(alloc, Kind::ScopeAttrs, &scopes)?;
    push_filled(tables, attributes)?;
    Ok(())
}

/// Adds the attributes of parts, whose numbers are their places. Takes n log n for n attributes.
pub fn add_attributes<P: Attributed>(
    alloc: Global,
    tables: &mut Vec<(Kind, LogicalTable)>,
    kind: Kind,
    parts: &[Placed<'_, P>],
) -> Result<(), AllocError>
    requires kind { has_attributes kind ≡ true }
    requires few { length parts.now ≤ wide_ids }
    requires weight { All (λ placed. total part_weight weight_of_pair (P.pairs placed.part.now) ≤ weight_limit) parts.now }
    ensures ok { OnOk result (tables.new.items
        ≡ tables.old.items ++ map beside_kind (where_rows (attribute_table kind (map (λ placed. P.pairs placed.part.now) parts.now)))) }
    ensures err { OnErr result (tables.new.items ≡ tables.old.items) }
{
    let parents = parts_alone(alloc, parts)?;
    let attributes = write_attributes(alloc, kind, &parents)?;
    push_filled(tables, attributes)?;
    Ok(())
}

/// Parts without their places.
fn parts_alone<'a, C>(alloc: Global, parts: &[Placed<'a, C>]) -> Result<Vec<&'a C>, AllocError>
    ensures { IfOk result (λ found. map (λ part. part.now) found.items ≡ map (λ placed. placed.part.now) parts.now) }
{
    let mut found = Vec::with_capacity(alloc, parts.len())?;
    'parts: for placed in parts {
        found.push(placed.part)?;
    }
    Ok(found)
}

/// Adds parts.
pub fn add_parts<W: PartWriter>(
    alloc: Global,
    tables: &mut Vec<(Kind, LogicalTable)>,
    writer: &W,
    parts: &[Placed<'_, W::Part>],
) -> Result<(), AllocError>
    requires rising { RisingParts 0 (map seen_placed parts.now) }
    requires parts { All (λ placed. W.CanWrite placed.part.now) parts.now }
    ensures ok { OnOk result (tables.new.items ≡ tables.old.items
        ++ map beside_kind (where_rows (profile_table (W.kind writer.now) (stored_parts (coding_at (W.kind writer.now) 1) (again_of (W.kind writer.now)) W.cells_of 0 0 None (map seen_placed parts.now))))) }
    ensures err { OnErr result (tables.new.items ≡ tables.old.items) }
{
    let table = write_parts(alloc, writer, parts)?;
    push_filled(tables, table)?;
    Ok(())
}
