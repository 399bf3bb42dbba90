//! How much a batch has, weighs and holds as a whole.
ghost use Rattle.std.specs.Prelude.{◌≡◌, All, length, sum_by, min, nat_lt, IfErr, OnOk};
ghost use Rattle.otlp_model.specs.Limits.{count_cap};
ghost use Rattle.otap_cells.specs.Payload.{main_of};
ghost use Rattle.otap_cells.specs.Sets.{rows_named};
ghost use Rattle.otap_cells.specs.Tables.{IsTable};
ghost use Rattle.otap_cells.specs.Weights.{weight_of_tables};
ghost use Rattle.otap_consume.specs.Limits.{held_limit};
ghost use Rattle.otap_consume.specs.Sizes.{WithinLimits, PastLimit, count_of_rows};
ghost use Rattle.otap_consume.specs.StreamSteps.{held_of};

use crate::refusal::{Cause, MAX_HELD};
use crate::stream::Stream;
use otap_cells::{MAX_ROW_WEIGHT, ROW_UNIT, Rows, TableSet, is_light, main_of, row_weight};
use otlp_model::{MAX_ITEMS, Signal, add_capped};

/// Refuses a set of tables whose main rows are too many, or whose row weight is too great. No cell is visited where the number
/// of rows alone is too heavy, and in most sets none of a column with a dictionary, whose longest value bounds its cells.
pub(crate) fn check_sizes<R: Rows>(signal: Signal, set: &TableSet<R>) -> Result<(), Cause>
    ensures within { OnOk result (WithinLimits signal set.now (weight_of_tables set.now)) }
    ensures past { IfErr result (PastLimit signal set.now) }
{
    if main_rows(signal, set) > MAX_ITEMS {
        return Err(Cause::TooManyItems);
    }
    if count_rows(set) > MAX_ROW_WEIGHT / ROW_UNIT {
        return Err(Cause::RowsTooHeavy);
    }
    if is_light(set, MAX_ROW_WEIGHT) || row_weight(set) <= MAX_ROW_WEIGHT {
        return Ok(());
    }
    Err(Cause::RowsTooHeavy)
}

fn main_rows<R: Rows>(signal: Signal, set: &TableSet<R>) -> u64
    ensures { result ≡ length (rows_named (main_of signal) set.now) }
{
    match set.get(main_of(signal)) {
        Some(rows) => rows.rows(),
        None => 0,
    }
}

/// How many rows all tables have.
fn count_rows<R: Rows>(set: &TableSet<R>) -> u64
    ensures count { result ≡ min (count_of_rows set.now) count_cap }
    ensures sound { All IsTable set.now }
{
    let mut total = 0;
    'tables: for (_, rows) in &set.tables {
        total = add_capped(total, rows.rows());
    }
    total
}

/// Whether the dictionaries of the sub-streams that are open hold too much.
pub(crate) fn hold_too_much(streams: &[Stream]) -> bool
    ensures { result ≡ nat_lt held_limit (sum_by held_of streams.now) }
{
    let mut total = 0;
    'streams: for stream in streams {
        total = add_capped(total, stream.held());
    }
    total > MAX_HELD
}
