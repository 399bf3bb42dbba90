//! The record batch of a table.

ghost use Rattle.std.specs.Prelude.{◌≡◌, ◌+◌, ◌<◌, ◌≤◌, [], ◌∷◌, All, length, map, OnOk, IfOk};
ghost use Rattle.std.specs.List.{flat_map, list_any, slice_index_or};
ghost use Rattle.arrow_buffers.specs.Limits.{max_rows};
ghost use Rattle.arrow_ipc.specs.Written.{most_of_batch};
ghost use Rattle.arrow_arrays.specs.Written.{struct_part};
ghost use Rattle.otap_cells.specs.Columns.{width_of};
ghost use Rattle.otap_columns.specs.BuiltCells.{GrowsBy, HasRoom, column_most, columns_most, group_most, group_parts, rows_most, with_part};
ghost use Rattle.otap_cells.specs.StaticGroups.{IsWithin, group_in, member_in};
ghost use Rattle.otap_columns.specs.FormsIn.{forms_in};
ghost use Rattle.otap_columns.specs.WrittenBatches.{WritesRows};
ghost use Rattle.otap_columns.specs.Schemas.{FormsFit, is_present, members_there, slots_in, slots_of_member, slots_under};
ghost use Rattle.otap_columns.specs.WrittenRows.{HasValues, unseen};
ghost use Rattle.otap_columns.specs.BuiltRows.{AddsSlots, CanWrite, columns_in};

use crate::forms::ColumnForm;
use crate::writer::columns::{add_column, column_for, width_for};
use crate::writer::schema::{form_of, is_present};
use crate::writer::seen::SeenColumn;
use arrow_ipc::BatchBuilder;
use otap_cells::{ColumnGroup, GroupMember, LogicalTable, Rows, base_of, column_groups};
use otap_dicts::Ladder;
use std::alloc::{AllocError, Global};

/// Adds a struct in which no row is null.
#[tactic(auto, using(crate::proofs::BatchGrown::struct_grows))]
fn add_struct(batch: &mut BatchBuilder, rows: u64) -> Result<(), AllocError>
    requires room { HasRoom batch.old 1 0 }
    requires rows { rows < max_rows }
    ensures ok { OnOk result (batch.new ≡ with_part batch.old (struct_part rows)) }
    ensures grows { OnOk result (GrowsBy 1 0 batch.old batch.new) }
{
    batch.add(rows, 0)?;
    batch.add_buffer(&[])?;
    Ok(())
}

/// Adds a column of a table, where it is there.
fn add_member(
    alloc: Global,
    batch: &mut BatchBuilder,
    table: &LogicalTable,
    forms: &[ColumnForm],
    columns: &[SeenColumn],
    member: &GroupMember,
) -> Result<(), AllocError>
    requires column { member.now.column < width_of table.now.kind }
    requires can { CanWrite (forms_in forms.now) columns.now table.now }
    requires room { HasRoom batch.old 1 (column_most table.now member.now.column) }
    ensures ok { OnOk result (AddsSlots (forms_in forms.now) (columns_in columns.now) table.now (flat_map (slots_of_member table.now.kind) (members_there (forms_in forms.now) (member_in member.now ∷ []))) batch.old batch.new) }
    ensures grows { OnOk result (GrowsBy 1 (column_most table.now member.now.column) batch.old batch.new) }
{
    let form = form_of(forms, member.column);
    if !is_present(form) {
        return Ok(());
    }
    let width = width_for(base_of(table.kind(), member.column), form);
    let seen = seen_at(columns, member.column);
    let built = column_for(alloc, table, member.column, form, seen)?;
    let buffers = built.finish()?;
    add_column(batch, width, &buffers)
}

/// What is kept of a column.
fn seen_at(columns: &[SeenColumn], column: u32) -> &SeenColumn
    requires { column < length columns.now }
    ensures { result.now ≡ slice_index_or columns.now column unseen }
{
    &columns[column as usize]
}

/// The ladder of a column.
pub(crate) fn ladder_at(columns: &[SeenColumn], column: u32) -> &Ladder
    requires { column < length columns.now }
    ensures { result.now ≡ (slice_index_or columns.now column unseen).ladder }
{
    let seen = &columns[column as usize];
    &seen.ladder
}

/// Adds the columns of a struct that are there.
fn add_members(
    alloc: Global,
    batch: &mut BatchBuilder,
    table: &LogicalTable,
    forms: &[ColumnForm],
    columns: &[SeenColumn],
    members: &[GroupMember],
) -> Result<(), AllocError>
    requires within { All (λ member. member.column < width_of table.now.kind) members.now }
    requires can { CanWrite (forms_in forms.now) columns.now table.now }
    requires room { HasRoom batch.old (length members.now) (columns_most table.now (map member_in members.now)) }
    ensures ok { OnOk result (AddsSlots (forms_in forms.now) (columns_in columns.now) table.now (flat_map (slots_of_member table.now.kind) (members_there (forms_in forms.now) (map member_in members.now))) batch.old batch.new) }
    ensures grows { OnOk result (GrowsBy (length members.now) (columns_most table.now (map member_in members.now)) batch.old batch.new) }
{
    'members: for member in members {
        add_member(alloc, batch, table, forms, columns, member)?;
    }
    Ok(())
}

/// Whether one of the columns is there.
fn any_there(forms: &[ColumnForm], members: &[GroupMember]) -> bool
    ensures { result ≡ list_any (λ member. is_present (forms_in forms.now member.column)) members.now }
{
    members
        .iter()
        .any(|member| is_present(form_of(forms, member.column)))
}

/// Adds a struct and its columns, where one is there.
fn add_under(
    alloc: Global,
    batch: &mut BatchBuilder,
    table: &LogicalTable,
    forms: &[ColumnForm],
    columns: &[SeenColumn],
    name: &str,
    members: &[GroupMember],
) -> Result<(), AllocError>
    requires within { All (λ member. member.column < width_of table.now.kind) members.now }
    requires can { CanWrite (forms_in forms.now) columns.now table.now }
    requires room { HasRoom batch.old (1 + length members.now) (columns_most table.now (map member_in members.now)) }
    ensures ok { OnOk result (AddsSlots (forms_in forms.now) (columns_in columns.now) table.now (slots_under table.now.kind name.now (members_there (forms_in forms.now) (map member_in members.now))) batch.old batch.new) }
    ensures grows { OnOk result (GrowsBy (1 + length members.now) (columns_most table.now (map member_in members.now)) batch.old batch.new) }
{
    if !any_there(forms, members) {
        return Ok(());
    }
    add_struct(batch, table.rows())?;
    add_members(alloc, batch, table, forms, columns, members)
}

fn add_group(
    alloc: Global,
    batch: &mut BatchBuilder,
    table: &LogicalTable,
    forms: &[ColumnForm],
    columns: &[SeenColumn],
    group: &ColumnGroup,
) -> Result<(), AllocError>
    requires within { IsWithin (width_of table.now.kind) group.now }
    requires can { CanWrite (forms_in forms.now) columns.now table.now }
    requires room { HasRoom batch.old (group_parts (group_in group.now)) (group_most table.now (group_in group.now)) }
    ensures ok { OnOk result (AddsSlots (forms_in forms.now) (columns_in columns.now) table.now (slots_in table.now.kind (forms_in forms.now) (group_in group.now)) batch.old batch.new) }
    ensures grows { OnOk result (GrowsBy (group_parts (group_in group.now)) (group_most table.now (group_in group.now)) batch.old batch.new) }
{
    match *group {
        ColumnGroup::Alone(member) => add_member(alloc, batch, table, forms, columns, &member),
        ColumnGroup::Under(name, members) => {
            add_under(alloc, batch, table, forms, columns, name, members)
        }
    }
}

/// The record batch of a table whose columns are written in these forms. That of a table within the row weight is far shorter
/// than a body may be.
pub(crate) fn rows_of(
    alloc: Global,
    table: &LogicalTable,
    forms: &[ColumnForm],
    columns: &[SeenColumn],
) -> Result<BatchBuilder, AllocError>
    requires can { CanWrite (forms_in forms.now) columns.now table.now }
    requires fit { FormsFit table.now.kind (forms_in forms.now) }
    requires values { HasValues table.now.kind (forms_in forms.now) (columns_in columns.now) table.now }
    ensures holds { IfOk result (WritesRows table.now.kind (forms_in forms.now) (columns_in columns.now) table.now) }
    ensures short { IfOk result (λ batch. most_of_batch batch ≤ rows_most table.now) }
{
    let groups = column_groups(table.kind());
    let mut batch = BatchBuilder::new(alloc, table.rows());
    'groups: for group in groups {
        add_group(alloc, &mut batch, table, forms, columns, group)?;
    }
    Ok(batch)
}
