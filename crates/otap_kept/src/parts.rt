//! The tables of parts below parents that are kept.
ghost use Rattle.std.specs.Prelude.{◌≡◌, ◌<◌, ◌++◌, ◌∷◌, [], All, drop, length, map, option_map, IfOk, IfSome, OnOk};
ghost use Rattle.std.specs.List.{slice_index_or};
ghost use Rattle.otap_cells.specs.Continuing.{again_of, goes_on_after};
ghost use Rattle.otap_cells.specs.Ids.{base_of};
ghost use Rattle.otap_cells.specs.Named.{table_named};
ghost use Rattle.otap_groups.specs.declared.entry.ChildEntry.{ChildEntry};
ghost use Rattle.otap_groups.specs.Kinds.{IsPart};
ghost use Rattle.otap_groups.specs.Stored.{id_cell};
ghost use Rattle.otap_checks.specs.Known.{Knows};
ghost use Rattle.otap_checks.specs.Reading.{part_rows_in};
ghost use Rattle.otap_kept.specs.Rows.{former_ids, parts_under};
ghost use Rattle.otap_kept.specs.Tables.{kept_parts};
ghost use Rattle.otap_kept.specs.Writing.{part_at};

use crate::copying::{add_cells, id_cell};
use crate::numbering::{new_numbers, rows_by_number};
use crate::places::ids_of;
use otap_cells::{
    CellView, Coding, Kind, LogicalTable, Rows, TableSet, bytes_in, coding_of, shared_columns,
};
use otap_checks::KnownIds;
use otap_groups::ChildEntry;
use std::alloc::{AllocError, Global};

/// A table of parts that are kept, and their former ids.
#[derive(Debug, Drop)]
pub(crate) struct PartsKept {
    pub(crate) table: LogicalTable,
    pub(crate) ids: Vec<Option<u32>>,
}

/// The parts of parents that are kept, whose former ids are these. Takes n log n for n rows.
pub(crate) fn parts_below<R: Rows>(
    alloc: Global,
    set: &TableSet<R>,
    read: &KnownIds,
    kind: Kind,
    kept: &[Option<u32>],
) -> Result<PartsKept, AllocError>
    requires part { IsPart kind }
    requires known { Knows (table_named kind set.now) kind read.now }
    ensures table { IfOk result (λ made. made.table ≡ kept_parts kind (parts_under kept.now (part_rows_in (table_named kind set.now)))) }
    ensures ids { IfOk result (λ made. made.ids.items ≡ former_ids (parts_under kept.now (part_rows_in (table_named kind set.now)))) }
{
    let numbers = new_numbers(alloc, kept, read.of(kind, shared_columns::part::PARENT_ID))?;
    let entries = rows_by_number(alloc, &numbers)?;
    let ids = ids_of(alloc, read.of(kind, shared_columns::part::ID), &entries)?;
    let table = table_at(alloc, set, kind, &entries)?;
    Ok(PartsKept { table, ids })
}

/// The table of the parts at the places of entries, whose parents are those of the entries.
fn table_at<R: Rows>(
    alloc: Global,
    set: &TableSet<R>,
    kind: Kind,
    entries: &[ChildEntry],
) -> Result<LogicalTable, AllocError>
    requires part { IsPart kind }
    requires within { All (λ (e : ChildEntry). e.place < length (table_named kind set.now).rows) entries.now }
    ensures { IfOk result (λ table. table ≡ kept_parts kind (map (part_at (table_named kind set.now).rows) entries.now)) }
{
    let Some(rows) = set.get(kind) else {
        return Ok(LogicalTable::new(alloc, kind));
    };
    let table = write_parts(alloc, rows, entries)?;
    Ok(table)
}

fn write_parts<R: Rows>(
    alloc: Global,
    rows: &R,
    entries: &[ChildEntry],
) -> Result<LogicalTable, AllocError>
    requires part { IsPart (R.table rows.now).kind }
    requires within { All (λ (e : ChildEntry). e.place < length (R.table rows.now).rows) entries.now }
    ensures { IfOk result (λ table. table ≡ kept_parts (R.table rows.now).kind (map (part_at (R.table rows.now).rows) entries.now)) }
{
    let kind = rows.kind();
    let coding = coding_of(kind, shared_columns::part::PARENT_ID);
    let mut table = LogicalTable::for_rows(alloc, kind, entries.len());
    let mut cells = Vec::new(alloc);
    let mut step = 0;
    let mut parent = 0;
    let mut before = None;
    'entries: for entry in entries {
        let row = entry.place as u64;
        let base = base_of(coding, goes_on(rows, before, row), parent);
        let distance = entry.parent.saturating_sub(base);
        push_part(&mut table, &mut cells, rows, row, step, distance)?;
        step = 1;
        parent = entry.parent;
        before = Some(row);
    }
    Ok(table)
}

/// Whether a part's row continues the run of another one: an event of the same name, a link to the same trace.
#[tactic(auto, using(otap_cells::proofs::AttributeColumns::event_width, otap_cells::proofs::AttributeColumns::link_width, otap_cells::proofs::Flags::after_two))]
fn goes_on<R: Rows>(rows: &R, before: Option<u64>, row: u64) -> bool
    requires part { IsPart (R.table rows.now).kind }
    requires before { IfSome before (λ place. place < length (R.table rows.now).rows) }
    requires row { row < length (R.table rows.now).rows }
    ensures { result ≡ goes_on_after (again_of (R.table rows.now).kind)
        (option_map (λ place. drop 2 (slice_index_or (R.table rows.now).rows place [])) before)
        (drop 2 (slice_index_or (R.table rows.now).rows row [])) }
{
    let Some(before) = before else {
        return false;
    };
    match rows.kind() {
        Kind::SpanEvents => {
            bytes_in(rows, shared_columns::event::NAME, before)
                == bytes_in(rows, shared_columns::event::NAME, row)
        },
        Kind::SpanLinks => {
            bytes_in(rows, shared_columns::link::TRACE_ID, before)
                == bytes_in(rows, shared_columns::link::TRACE_ID, row)
        },
        _ => false,
    }
}

/// What a parent is stored as the distance from.
fn base_of(how: Coding, continues: bool, before: u32) -> u32
    ensures { result ≡ base_of how continues before }
{
    match how {
        Coding::Plain => 0,
        Coding::Delta => before,
        Coding::Run => { if continues { before } else { 0 } }
    }
}

/// Appends a row with these numbers in the place of its two ids. The list of cells is overwritten.
fn push_part<'a, R: Rows>(
    table: &mut LogicalTable,
    cells: &mut Vec<CellView<'a>>,
    rows: &'a R,
    row: u64,
    id: u32,
    parent: u32,
) -> Result<(), AllocError>
    requires part { IsPart (R.table rows.now).kind }
    requires kind { table.old.kind ≡ (R.table rows.now).kind }
    requires row { row < length (R.table rows.now).rows }
    ensures { OnOk result (table.new ≡ record table.old {
      rows = table.old.rows ++ (id_cell id ∷ id_cell parent ∷ drop 2 (slice_index_or (R.table rows.now).rows row [])) ∷ [];
    }) }
{
    let _count = rows.rows();
    cells.clear();
    cells.push(id_cell(id))?;
    cells.push(id_cell(parent))?;
    add_cells(cells, rows, shared_columns::part::OWN, row)?;
    table.push_cells(cells)?;
    Ok(())
}
