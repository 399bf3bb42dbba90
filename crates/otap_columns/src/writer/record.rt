//! The record of a table.

ghost use Rattle.std.specs.Prelude.{◌≡◌, ◌<◌, ◌≤◌, ℕ, drop, length, not, true, IfOk, OnOk};
ghost use Rattle.otap_cells.specs.Columns.{base_at, width_of};
ghost use Rattle.otap_columns.specs.Limits.{record_limit};
ghost use Rattle.otap_columns.specs.WrittenPayloads.{schema_if};
ghost use Rattle.otap_columns.specs.Schemas.{FormsFit, is_dictionary, schema_for, arrow_type_in};
ghost use Rattle.otap_columns.specs.FormsIn.{forms_in};
ghost use Rattle.otap_columns.specs.WrittenRecords.{AddsAtMost, AddsHead, AddsHeads, AddsMessages, CanSendColumn, IsRecordBy, from_in, head_most, heads_most, is_sent};
ghost use Rattle.otap_columns.specs.Limits.{schema_most};
ghost use Rattle.otap_columns.specs.WrittenRows.{HasValues};
ghost use Rattle.otap_columns.specs.BuiltRows.{CanWrite, columns_in};

use crate::forms::ColumnForm;
use crate::writer::batches::add_dictionary;
use crate::writer::cells::is_dictionary;
use crate::writer::columns::plain_width;
use crate::writer::rows::{ladder_at, rows_of};
use crate::writer::schema::{form_of, schema_of, type_of};
use crate::writer::seen::SeenColumn;
use arrow_ipc::write_schema;
use arrow_schema::laws::added_is_read;
use otap_cells::{Kind, LogicalTable, Rows, base_of, columns};
use otap_dicts::Ladder;
use std::alloc::{AllocError, Global};

/// Appends the schema of a table whose columns have these forms, where the record opens a sub-stream.
fn add_opening(
    alloc: Global,
    to: &mut Vec<u8>,
    kind: Kind,
    opening: bool,
    forms: &[ColumnForm],
) -> Result<(), AllocError>
    requires fit { FormsFit kind (forms_in forms.now) }
    ensures adds { OnOk result (AddsMessages (schema_if opening (schema_for kind (forms_in forms.now))) to.old.items to.new.items) }
    ensures short { OnOk result (AddsAtMost schema_most to.old.items to.new.items) }
{
    if !opening {
        return Ok(());
    }
    let schema = schema_of(alloc, kind, forms)?;
    added_is_read();
    write_schema(to, &schema)
}

/// Whether the values of a column are written from an index on.
fn is_sent(opening: bool, form: ColumnForm, ladder: &Ladder, from: u32) -> bool
    ensures { result ≡ is_sent opening form (drop from ladder.now.values) }
{
    is_dictionary(form) && (opening || from < ladder.count())
}

/// Appends the values of a column from an index on, where it is a dictionary and has some.
fn add_head(
    alloc: Global,
    to: &mut Vec<u8>,
    kind: Kind,
    column: u32,
    opening: bool,
    form: ColumnForm,
    ladder: &Ladder,
    from: u32,
) -> Result<(), AllocError>
    requires column { column < width_of kind }
    requires can { is_dictionary form ≡ true → CanSendColumn (base_at kind column) form from ladder.now.values }
    ensures adds { OnOk result (AddsHead (arrow_type_in (base_at kind column) form) (is_sent opening form (drop from ladder.now.values)) (not opening) column (drop from ladder.now.values) to.old.items to.new.items) }
    ensures short { OnOk result (AddsAtMost (head_most form) to.old.items to.new.items) }
{
    if !is_sent(opening, form, ladder, from) {
        return Ok(());
    }
    let base = base_of(kind, column);
    add_dictionary(
        alloc,
        to,
        type_of(base, form),
        plain_width(base, form),
        ladder,
        from,
        i64::from(column),
        !opening,
    )
}

/// From which value on a column is written.
fn from_of(opening: bool, counts: &[u32], column: u32) -> u32
    ensures { result ≡ from_in opening counts.now column }
{
    if opening {
        return 0;
    }
    match counts.get(column as usize) {
        Some(count) => *count,
        None => 0,
    }
}

/// Appends the dictionaries of a table.
fn add_heads(
    alloc: Global,
    to: &mut Vec<u8>,
    kind: Kind,
    opening: bool,
    forms: &[ColumnForm],
    counts: &[u32],
    seen: &[SeenColumn],
) -> Result<(), AllocError>
    requires count { length seen.now ≡ width_of kind }
    requires can { (column : ℕ) → column < width_of kind → is_dictionary (forms_in forms.now column) ≡ true
        → CanSendColumn (base_at kind column) (forms_in forms.now column) (from_in opening counts.now column) (columns_in seen.now column) }
    ensures adds { OnOk result (AddsHeads kind opening (forms_in forms.now) (columns_in seen.now) counts.now (width_of kind) to.old.items to.new.items) }
    ensures short { OnOk result (AddsAtMost (heads_most (forms_in forms.now) (width_of kind)) to.old.items to.new.items) }
{
    let count = columns(kind).len() as u32;
    'columns: for column in 0..count {
        let form = form_of(forms, column);
        let ladder = ladder_at(seen, column);
        let from = from_of(opening, counts, column);
        add_head(alloc, to, kind, column, opening, form, ladder, from)?;
    }
    Ok(())
}

/// The record of a table whose columns are written in these forms. One that opens has the schema and whole dictionaries, any
/// other the values that are new since the counts.
pub(crate) fn record_of(
    alloc: Global,
    table: &LogicalTable,
    opening: bool,
    forms: &[ColumnForm],
    counts: &[u32],
    seen: &[SeenColumn],
) -> Result<Vec<u8>, AllocError>
    requires can { CanWrite (forms_in forms.now) seen.now table.now }
    requires fit { FormsFit table.now.kind (forms_in forms.now) }
    requires values { HasValues table.now.kind (forms_in forms.now) (columns_in seen.now) table.now }
    requires send { (column : ℕ) → column < width_of table.now.kind → is_dictionary (forms_in forms.now column) ≡ true
        → CanSendColumn (base_at table.now.kind column) (forms_in forms.now column) (from_in opening counts.now column) (columns_in seen.now column) }
    ensures record_is { IfOk result (λ bytes. IsRecordBy table.now.kind opening (forms_in forms.now) (columns_in seen.now) counts.now table.now bytes.items) }
    ensures short { IfOk result (λ bytes. length bytes.items ≤ record_limit table.now) }
{
    let mut bytes = Vec::new(alloc);
    add_opening(alloc, &mut bytes, table.kind(), opening, forms)?;
    add_heads(
        alloc,
        &mut bytes,
        table.kind(),
        opening,
        forms,
        counts,
        seen,
    )?;
    let rows = rows_of(alloc, table, forms, seen)?;
    rows.finish_rows(&mut bytes)?;
    Ok(bytes)
}
