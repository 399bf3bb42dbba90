//! The request of the tables of a batch.
ghost use Rattle.std.specs.Prelude.{◌≡◌, ◌≤◌, min, IfErr, IfOk, OnOk, All};
ghost use Rattle.otlp_model.specs.declared.request.Signal.TheVariants as signal;
ghost use Rattle.otlp_model.specs.Weight.{weight_of};
ghost use Rattle.otlp_model.specs.declared.request.Request.TheVariants.{Logs};
ghost use Rattle.otap_cells.specs.declared.payload.Kind.TheVariants as table;
ghost use Rattle.otap_cells.specs.Named.{table_named};
ghost use Rattle.otap_checks.specs.Refusing.{RefusesCheck};
ghost use Rattle.otap_checks.specs.Regrouping.{RefusesRegroup};
ghost use Rattle.otap_groups.specs.Made.{groups_of};
ghost use Rattle.otlp_model.specs.Limits.{weight_limit, count_cap};
ghost use Rattle.otap_checks.specs.Known.{IsWeighed, KnowsAll};
ghost use Rattle.otap_logs.specs.Requests.{AreCleanLogs, WrongLogs, regrouped_logs, regrouped_weight};

use crate::reading::Records;
use otap_attrs::CheckRefusal;
use otap_cells::{Kind, Rows, TableSet};
use otap_checks::{
    Grouped, KnownRows, PairRows, RegroupRefusal, checked_rows, find_pairs, front_of, groups_within,
};
use otap_groups::Main;
use otlp_model::{Items, LogRecord, ResourceGroup, Signal};
use std::alloc::{AllocError, Global};

/// Reads records with their pairs.
type LogReader<'a, R> = Records<'a, R, PairRows<'a, R>>;

/// The main rows of logs, with their records and all pairs.
type LogRows<'a, R> = Main<'a, R, LogReader<'a, R>, PairRows<'a, R>>;

/// Looks at the rows of a batch of logs, and returns what their request weighs, or `CAP` where it is more; or what is wrong with
/// them. It builds nothing. Takes n log n for n rows.
pub fn check_rows<R: Rows>(alloc: Global, set: &TableSet<R>) -> Result<u64, CheckRefusal>
    ensures clean { OnOk result (AreCleanLogs set.now) }
    ensures weight { IfOk result (λ weight. weight ≡ min (regrouped_weight set.now) count_cap) }
    ensures refused { IfErr result (RefusesCheck (WrongLogs set.now)) }
{
    let known = checked_rows(alloc, set, Signal::Logs)?;
    let Some(rows) = set.get(Kind::Logs) else {
        return Ok(0);
    };
    let main = main_of(alloc, set, rows, &known)?;
    Ok(main.weight())
}

/// The request of a batch of logs and what it weighs, where nothing is wrong with the rows and it weighs at most the limit;
/// what is wrong is named before the weight. It is built only then. Takes n log n for n rows, and time in proportion to them where
/// ids and parents rise or count from 0.
pub fn regroup<R: Rows>(
    alloc: Global,
    set: &TableSet<R>,
) -> Result<Grouped<LogRecord>, RegroupRefusal>
    ensures clean { OnOk result (AreCleanLogs set.now) }
    ensures groups { IfOk result (λ made. made.groups ≡ regrouped_logs set.now) }
    ensures tree { IfOk result (λ made. made.tree ≡ weight_of (Logs made.groups)) }
    ensures light { IfOk result (λ made. made.tree ≤ weight_limit) }
    ensures refused { IfErr result (RefusesRegroup (WrongLogs set.now) (regrouped_weight set.now)) }
{
    let known = checked_rows(alloc, set, Signal::Logs)?;
    let Some(rows) = set.get(Kind::Logs) else {
        return Ok(Grouped {
            groups: Items::new(alloc),
            tree: 0,
        });
    };
    let main = main_of(alloc, set, rows, &known)?;
    let made = groups_within(alloc, &main)?;
    Ok(made)
}

/// The request of a batch of logs whose rows have nothing wrong, and which weighs at most the limit. Takes n log n for n rows.
pub fn request_of<R: Rows>(
    alloc: Global,
    set: &TableSet<R>,
) -> Result<Items<ResourceGroup<LogRecord>>, AllocError>
    requires clean { AreCleanLogs set.now }
    requires light { regrouped_weight set.now ≤ weight_limit }
    ensures { IfOk result (λ groups. groups ≡ regrouped_logs set.now) }
{
    match regroup(alloc, set) {
        Ok(made) => Ok(made.groups),
        Err(RegroupRefusal::Rows(CheckRefusal::Memory(error))) => Err(error),
        Err(_) => unreachable!(),
    }
}

/// The main rows of a batch whose rows have nothing wrong, with their records and all pairs.
fn main_of<'a, R: Rows>(
    alloc: Global,
    set: &'a TableSet<R>,
    rows: &'a R,
    known: &'a KnownRows,
) -> Result<LogRows<'a, R>, AllocError>
    requires clean { AreCleanLogs set.now }
    requires known { KnowsAll signal.Logs set.now known.now.ids }
    requires weights { All (IsWeighed set.now) known.now.weights.items }
    requires table { table_named table.Logs set.now ≡ R.table rows.now }
    requires kind { (R.table rows.now).kind ≡ table.Logs }
    ensures { IfOk result (λ main. groups_of main ≡ regrouped_logs set.now) }
{
    let front = front_of(rows, &known.ids);
    let resources = find_pairs(alloc, set, Kind::ResourceAttrs, known)?;
    let scopes = find_pairs(alloc, set, Kind::ScopeAttrs, known)?;
    let pairs = find_pairs(alloc, set, Kind::LogAttrs, known)?;
    Ok(Main {
        front,
        items: Records { rows, pairs },
        resources,
        scopes,
    })
}
