//! The dictionary batches of a record.

ghost use Rattle.std.specs.Prelude.{◌≡◌, ◌<◌, ◌≤◌, ℕ, List, Some, drop, length, map, slice_get, IfOk, OnOk};
ghost use Rattle.arrow_buffers.specs.Columns.{HasWidth};
ghost use Rattle.arrow_buffers.specs.Limits.{max_values};
ghost use Rattle.otap_dicts.specs.Forms.{byte_count};
ghost use Rattle.otap_dicts.specs.Limits.{byte_limit, value_limit};
ghost use Rattle.otap_columns.specs.Limits.{head_limit};
ghost use Rattle.otap_columns.specs.WrittenBatches.{AddsDictionary, HoldsType, IsSingle};
ghost use Rattle.otap_columns.specs.WrittenRecords.{AddsAtMost};

use crate::writer::columns::add_column;
use arrow_buffers::{ColumnBuilder, Width};
use arrow_ipc::BatchBuilder;
use arrow_schema::ArrowType;
use otap_dicts::Ladder;
use std::alloc::{AllocError, Global};

/// Appends a dictionary batch of the values of a ladder from an index on.
pub(crate) fn add_dictionary(
    alloc: Global,
    to: &mut Vec<u8>,
    kind: ArrowType,
    width: Width,
    ladder: &Ladder,
    from: u32,
    id: i64,
    delta: bool,
) -> Result<(), AllocError>
    requires there { from ≤ length ladder.now.values }
    requires few { length ladder.now.values ≤ value_limit }
    requires room { byte_count ladder.now.values ≤ byte_limit }
    requires holds { HoldsType kind width ladder.now.values }
    ensures adds { OnOk result (AddsDictionary kind id delta (drop from ladder.now.values) to.old.items to.new.items) }
    ensures short { OnOk result (AddsAtMost head_limit to.old.items to.new.items) }
{
    let built = values_column(alloc, width, ladder, from)?;
    let buffers = built.finish()?;
    let mut batch = BatchBuilder::new(alloc, buffers.rows);
    add_column(&mut batch, width, &buffers)?;
    batch.finish_dictionary(to, id, delta)
}

/// The values of a ladder from an index on, as a column.
fn values_column(
    alloc: Global,
    width: Width,
    ladder: &Ladder,
    from: u32,
) -> Result<ColumnBuilder, AllocError>
    requires there { from ≤ length ladder.now.values }
    requires wide { (place : ℕ) (value : List ℕ) → slice_get ladder.now.values place ≡ Some value → HasWidth width value }
    requires elements { IsSingle width }
    requires room { byte_count ladder.now.values < max_values }
    ensures { IfOk result (λ column. column ≡ record { width = width; cells = map (λ value. Some value) (drop from ladder.now.values) }) }
{
    let count = ladder.count();
    let mut column = ColumnBuilder::for_rows(alloc, width, (count - from) as usize)?;
    'values: for place in from..count {
        column.push(ladder.value(place))?;
    }
    Ok(column)
}
