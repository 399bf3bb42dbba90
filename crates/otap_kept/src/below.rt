//! The tables below the main one, each after that of its parents.
ghost use Rattle.std.specs.Prelude.{◌≡◌, ◌++◌, ◌∷◌, All, map, IfOk, OnOk};
ghost use Rattle.std.specs.List.{flat_map};
ghost use Rattle.otap_cells.specs.Named.{table_named};
ghost use Rattle.otap_attrs.specs.Tables.{beside_kind, where_rows};
ghost use Rattle.otap_checks.specs.declared.signals.TableLink.{TableLink};
ghost use Rattle.otap_checks.specs.Known.{Knows};
ghost use Rattle.otap_kept.specs.Kept.{kept_below, known_after, parent_ids, table_below};
ghost use Rattle.otap_kept.specs.Writing.{IsBelow, seen_ids};

use crate::attributes::attributes_below;
use crate::parts::parts_below;
use otap_attrs::push_filled;
use otap_cells::{Kind, LogicalTable, Rows, TableSet, shared_columns};
use otap_checks::{ColumnIds, KnownIds, Parents, TableLink};
use std::alloc::{AllocError, Global};

/// Adds those of the tables below that have rows. `kept` has the former ids that are kept of the tables above. Takes n log n for n
/// rows.
pub(crate) fn add_below<R: Rows>(
    alloc: Global,
    tables: &mut Vec<(Kind, LogicalTable)>,
    set: &TableSet<R>,
    read: &KnownIds,
    kept: KnownIds,
    links: &[TableLink],
) -> Result<(), AllocError>
    requires below { All IsBelow links.now }
    requires known { All (λ (link : TableLink). Knows (table_named link.kind set.now) link.kind read.now) links.now }
    ensures { OnOk result (tables.new.items
        ≡ tables.old.items ++ map beside_kind (flat_map where_rows (kept_below set.now (map seen_ids kept) links.now))) }
{
    let mut kept = kept;
    'links: for place in 0..links.len() {
        let table = table_below(alloc, set, read, &mut kept, &links[place])?;
        push_filled(tables, table)?;
    }
    Ok(())
}

/// The table of a link. The ids of parts that are kept are known after it.
fn table_below<R: Rows>(
    alloc: Global,
    set: &TableSet<R>,
    read: &KnownIds,
    kept: &mut KnownIds,
    link: &TableLink,
) -> Result<LogicalTable, AllocError>
    requires below { IsBelow link.now }
    requires known { Knows (table_named link.now.kind set.now) link.now.kind read.now }
    ensures table { IfOk result (λ table. table
        ≡ table_below set.now (parent_ids link.now.parents (map seen_ids kept.old)) link.now.kind) }
    ensures known { OnOk result (map seen_ids kept.new
        ≡ known_after set.now (parent_ids link.now.parents (map seen_ids kept.old)) link.now.kind (map seen_ids kept.old)) }
{
    let kind = link.kind;
    let ids = parent_ids(kept, link.parents);
    if link.own.is_none() {
        let table = attributes_below(alloc, set, read, kind, ids)?;
        return Ok(table);
    }
    let made = parts_below(alloc, set, read, kind, ids)?;
    know(kept, kind, made.ids)?;
    Ok(made.table)
}

/// The ids of the parents that a table names.
fn parent_ids(kept: &KnownIds, parents: Option<Parents>) -> &[Option<u32>]
    ensures { result.now ≡ parent_ids parents (map seen_ids kept.now) }
{
    match parents {
        Some(parents) => kept.of(parents.of, parents.at),
        None => &[],
    }
}

/// Puts the ids of the parts of a kind before those that are known.
fn know(kept: &mut KnownIds, kind: Kind, ids: Vec<Option<u32>>) -> Result<(), AllocError>
    ensures { OnOk result (map seen_ids kept.new
        ≡ record { kind = kind; column = 0; ids = ids.items } ∷ map seen_ids kept.old) }
{
    let column = shared_columns::part::ID;
    kept.columns.insert(0, ColumnIds { kind, column, ids })?;
    Ok(())
}
