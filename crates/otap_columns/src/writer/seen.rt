//! What the writer keeps of a column of the tables that it wrote.

ghost use Rattle.std.specs.Prelude.{◌≡◌, ◌<◌, false, length, ◌&&◌, ◌||◌, [], List, fold, map, true, if◌then◌else◌, IfOk, OnOk};
ghost use Rattle.otap_cells.specs.Bases.{is_id};
ghost use Rattle.otap_cells.specs.Cells.{IsCellOf, seen};
ghost use Rattle.otap_cells.specs.Columns.{base_at, coding_at, is_id_at, width_of};
ghost use Rattle.otap_cells.specs.Tables.{Table, coding_in, column_in};
ghost use Rattle.otap_dicts.specs.declared.form.Form.TheVariants.{Plain};
ghost use Rattle.otap_dicts.specs.Ladders.{is_dictionary, is_plain};
ghost use Rattle.otap_columns.specs.declared.forms.ColumnForm.TheVariants as form;
ghost use Rattle.otap_columns.specs.Observed.{bytes_for, form_at, has_wide_id, is_own_id, is_wide, of_ladder};
ghost use Rattle.otap_columns.specs.Seen.{IsSeenAfter, may_widen};
ghost use Rattle.otap_columns.specs.SeenInside.{SeesTable, filled_up, form_kept, id_form_kept, is_absent, observed_if, places_of_cells};
ghost use Rattle.otap_columns.specs.WrittenCells.{place_among};
ghost use Rattle.otap_columns.specs.BuiltCells.{shown_bytes};

use crate::forms::ColumnForm;
use crate::writer::cells::{CellBytes, bytes_for, is_same, set_rows, unset_rows};
use crate::writer::ids::has_wide_id;
use otap_cells::{Base, CellView, Kind, LogicalTable, Rows, base_of, columns, is_main};
use otap_dicts::laws::{a_value_again_changes_nothing, places_stay};
use otap_dicts::{Form, Ladder};
use std::alloc::{AllocError, Global};
use std::marker::Model;

/// The values that a column had, and whether its ids became wide.
#[derive(Debug, Drop)]
pub(crate) struct SeenColumn {
    pub(crate) ladder: Ladder,
    pub(crate) wide: bool,
    /// Of each row of the last table, up to the last one in which the column was set, the index of its value in the dictionary. Left
    /// open where the column isn't one.
    pub(crate) places: Vec<Option<u32>>,
}

impl Model for SeenColumn {
    ghost use Rattle.otap_columns.specs.Seen.{SeenIn};

    ghost Value = { SeenIn };

    ghost view = { λ s. record { ladder = s.ladder; wide = s.wide; places = s.places.items } };
}

impl SeenColumn {
    /// A column that had no value.
    #[tactic(auto, unfolding(crate::specs::Observed::values_in_tables))]
    pub(crate) fn new(alloc: Global, kind: Kind, column: u32) -> SeenColumn
        requires { column < width_of kind }
        ensures { IsSeenAfter kind [] column result }
    {
        SeenColumn {
            ladder: Ladder::new(alloc, columns(kind)[column as usize].dictionary),
            wide: false,
            places: Vec::new(alloc),
        }
    }

    /// Observes a column of one more table. Where memory runs out, the state may be that of no list of tables.
    pub(crate) fn observe(
        &mut self,
        alloc: Global,
        table: &LogicalTable,
        column: u32,
    ) -> Result<(), AllocError>
        requires column { column < width_of table.now.kind }
        requires coded { is_id_at table.now.kind column ≡ true → coding_in table.now column ≡ coding_at table.now.kind column }
        ensures { OnOk result (SeesTable table.now.kind column table.now self.old self.new) }
    {
        self.step(alloc, table, column)
    }

    fn step(&mut self, alloc: Global, table: &LogicalTable, column: u32) -> Result<(), AllocError>
        requires column { column < width_of table.now.kind }
        requires coded { is_id_at table.now.kind column ≡ true → coding_in table.now column ≡ coding_at table.now.kind column }
        ensures ladder { OnOk result (self.new.ladder ≡ fold observed_if self.old.ladder (map (bytes_for (base_at table.now.kind column) form.Wide) (column_in table.now.rows column))) }
        ensures wide { OnOk result (self.new.wide ≡ (self.old.wide || (may_widen (base_at table.now.kind column) && has_wide_id table.now.kind column table.now))) }
        ensures placed { OnOk result (is_dictionary self.new.ladder.form ≡ true → filled_up (length table.now.rows) self.new.places ≡ places_of_cells (base_at table.now.kind column) form.Wide self.new.ladder.values (column_in table.now.rows column)) }
    {
        observe_values(&mut self.ladder, &mut self.places, table, column)?;
        if !self.wide {
            self.wide = needs_wide(alloc, table, column)?;
        }
        Ok(())
    }

    /// The form of the column after the tables in which it was observed.
    pub(crate) fn form(&self, kind: Kind, column: u32) -> ColumnForm
        requires { column < width_of kind }
        ensures { (tables : List Table) → IsSeenAfter kind tables column self.now → result ≡ form_at kind tables column }
    {
        self.form_now(kind, column)
    }

    pub(crate) fn form_now(&self, kind: Kind, column: u32) -> ColumnForm
        requires { column < width_of kind }
        ensures { result ≡ form_kept kind column self.now }
    {
        form_of(kind, column, self.ladder.form(), self.wide)
    }
}

/// The form that follows from that of the ladder, and from whether an id needs more than 16 bits.
fn form_of(kind: Kind, column: u32, ladder: Form, wide: bool) -> ColumnForm
    requires { column < width_of kind }
    ensures { result ≡ (if is_id_at kind column then id_form_kept (is_own_id kind column) (is_absent ladder) (is_wide (base_at kind column) || wide) else of_ladder ladder) }
{
    let base = base_of(kind, column);
    if base.is_id() {
        id_form(
            is_own_id(kind, column),
            ladder == Form::Absent,
            is_wide(base) || wide,
        )
    } else {
        of_ladder(ladder)
    }
}

fn id_form(own: bool, absent: bool, wide: bool) -> ColumnForm
    ensures { result ≡ id_form_kept own absent wide }
{
    if absent && !own {
        ColumnForm::Absent
    } else if wide {
        ColumnForm::Wide
    } else {
        ColumnForm::Plain
    }
}

fn of_ladder(ladder: Form) -> ColumnForm
    ensures { result ≡ of_ladder ladder }
{
    match ladder {
        Form::Absent => ColumnForm::Absent,
        Form::Dict8 => ColumnForm::Dict8,
        Form::Dict16 => ColumnForm::Dict16,
        Form::Plain => ColumnForm::Plain,
    }
}

fn is_wide(base: Base) -> bool
    ensures { result ≡ is_wide base }
{
    matches!(base, Base::Id { wide: true })
}

/// Whether ids are wide only from the first one on that needs more than 16 bits.
fn may_widen(base: Base) -> bool
    ensures is { result ≡ may_widen base }
    ensures id { result ≡ true → is_id base ≡ true }
{
    matches!(base, Base::Id { wide: false })
}

/// Whether a column holds the ids of the rows of a main table.
fn is_own_id(kind: Kind, column: u32) -> bool
    requires { column < width_of kind }
    ensures { result ≡ is_own_id kind column }
{
    is_main(kind) && columns(kind)[column as usize].name == "id"
}

/// Whether the ids of a column become wide: one of them needs more than 16 bits. Those that are always wide aren't looked at.
fn needs_wide(alloc: Global, table: &LogicalTable, column: u32) -> Result<bool, AllocError>
    requires column { column < width_of table.now.kind }
    requires coded { is_id_at table.now.kind column ≡ true → coding_in table.now column ≡ coding_at table.now.kind column }
    ensures { IfOk result (λ wide. wide ≡ (may_widen (base_at table.now.kind column) && has_wide_id table.now.kind column table.now)) }
{
    if !may_widen(base_of(table.kind(), column)) {
        return Ok(false);
    }
    has_wide_id(alloc, table, column)
}

/// Observes the cells of a column from the first one that was set to the last one, and notes their indexes. Once the column is
/// plain no cell is looked at, and a cell that is the same as the one before isn't looked up.
fn observe_values(
    ladder: &mut Ladder,
    places: &mut Vec<Option<u32>>,
    table: &LogicalTable,
    column: u32,
) -> Result<(), AllocError>
    requires { column < width_of table.now.kind }
    ensures ladder { OnOk result (ladder.new ≡ fold observed_if ladder.old (map (bytes_for (base_at table.now.kind column) form.Wide) (column_in table.now.rows column))) }
    ensures placed { OnOk result (is_dictionary ladder.new.form ≡ true → filled_up (length table.now.rows) places.new.items ≡ places_of_cells (base_at table.now.kind column) form.Wide ladder.new.values (column_in table.now.rows column)) }
{
    a_value_again_changes_nothing();
    places_stay();
    places.clear();
    if is_plain(ladder.form()) {
        return Ok(());
    }
    let base = base_of(table.kind(), column);
    let mut before = CellView::Null;
    let mut place = None;
    let count = set_rows(table, column);
    let first = unset_rows(table, column, count);
    places.resize(first as usize, None)?;
    'rows: for row in first..count {
        if row > first && table.is_again(column, row) {
            places.push(place)?;
            continue;
        }
        let cell = table.cell(column, row);
        place = observe_after(ladder, base, before, place, cell)?;
        if is_plain(ladder.form()) {
            return Ok(());
        }
        places.push(place)?;
        before = cell;
    }
    Ok(())
}

/// Observes a cell after another one, whose value has a known index.
fn observe_after(
    ladder: &mut Ladder,
    base: Base,
    before: CellView<'_>,
    place: Option<u32>,
    cell: CellView<'_>,
) -> Result<Option<u32>, AllocError>
    requires base { IsCellOf base (seen cell) }
    requires known { observed_if ladder.old (bytes_for base form.Wide (seen before)) ≡ ladder.old }
    requires placed { place ≡ place_among ladder.old.values (bytes_for base form.Wide (seen before)) }
    ensures ladder { OnOk result (ladder.new ≡ observed_if ladder.old (bytes_for base form.Wide (seen cell.entry))) }
    ensures place { IfOk result (λ place. place ≡ place_among ladder.new.values (bytes_for base form.Wide (seen cell.entry))) }
{
    if is_same(before, cell) {
        return Ok(place);
    }
    let bytes = bytes_for(base, ColumnForm::Wide, cell);
    observe_cell(ladder, &bytes)
}

fn is_plain(form: Form) -> bool
    ensures is { result ≡ is_plain form }
    ensures plain { result ≡ true → form ≡ Plain }
{
    matches!(form, Form::Plain)
}

fn observe_cell(ladder: &mut Ladder, cell: &CellBytes<'_>) -> Result<Option<u32>, AllocError>
    ensures ladder { OnOk result (ladder.new ≡ observed_if ladder.old (shown_bytes cell.now)) }
    ensures place { IfOk result (λ place. place ≡ place_among ladder.new.values (shown_bytes cell.now)) }
{
    match cell.as_slice() {
        None => Ok(None),
        Some(part) => ladder.observe(part),
    }
}
