//! The calls of a signal that is a value.
ghost use Rattle.std.specs.Prelude.{◌≡◌, ◌≤◌, min, IfErr, IfOk, OnOk};
ghost use Rattle.otlp_model.specs.Limits.{weight_limit, count_cap};
ghost use Rattle.otlp_model.specs.Profile.{IsProfile};
ghost use Rattle.otlp_model.specs.Weight.{weight_of};
ghost use Rattle.otap_cells.specs.Weights.{weight_of_tables};
ghost use Rattle.otap_checks.specs.Refusing.{RefusesCheck};
ghost use Rattle.otap_checks.specs.RowDefects.{RowDefect};
ghost use Rattle.otap_signals.specs.BySignal.{meaning_by, request_in, tables_of_request};
ghost use Rattle.otap_signals.specs.Meanings.{AreClean};
ghost use Rattle.otap_signals.specs.Regroups.{IsLight, IsRegrouped, RefusesTables};

use crate::logs::LogSignal;
use crate::metrics::MetricSignal;
use crate::regrouped::Regrouped;
use crate::signal_tables::{SignalTables, regroup_request};
use crate::spans::SpanSignal;
use otap_attrs::CheckRefusal;
use otap_cells::{LogicalTable, Rows, TableSet};
use otap_checks::RegroupRefusal;
use otlp_model::{Request, Signal};
use std::alloc::{AllocError, Global};

/// Looks at the rows of the tables of a signal, and returns what their request weighs, or 2^63 where it is more. It builds
/// nothing.
pub fn check_set<R: Rows>(
    alloc: Global,
    signal: Signal,
    set: &TableSet<R>,
) -> Result<u64, CheckRefusal>
    ensures clean { OnOk result (AreClean (meaning_by signal) set.now) }
    ensures weight { IfOk result (λ weight. weight ≡ min (weight_of (request_in signal set.now)) count_cap) }
    ensures refused { IfErr result (RefusesCheck (RowDefect signal set.now)) }
{
    match signal {
        Signal::Traces => SpanSignal::check_rows(alloc, set),
        Signal::Logs => LogSignal::check_rows(alloc, set),
        Signal::Metrics => MetricSignal::check_rows(alloc, set),
    }
}

/// Looks at the rows of the tables of a signal, and then returns their request and its weight. The request is built only where
/// its weight is within the limit.
pub fn regroup<R: Rows>(
    alloc: Global,
    signal: Signal,
    set: &TableSet<R>,
) -> Result<Regrouped, RegroupRefusal>
    ensures regrouped { IfOk result (IsRegrouped (meaning_by signal) set.now) }
    ensures light { IfOk result IsLight }
    ensures refuses { IfErr result (RefusesTables (meaning_by signal) set.now) }
{
    match signal {
        Signal::Traces => regroup_request::<SpanSignal, R>(alloc, set),
        Signal::Logs => regroup_request::<LogSignal, R>(alloc, set),
        Signal::Metrics => regroup_request::<MetricSignal, R>(alloc, set),
    }
}

/// What the tables of a request weigh, or 2^63 where it is more. It makes no table.
pub fn row_weight(request: &Request) -> u64
    requires profile { IsProfile request.now }
    requires light { weight_of request.now ≤ weight_limit }
    ensures { result ≡ min (weight_of_tables (tables_of_request request.now)) count_cap }
{
    match request {
        Request::Traces(groups) => SpanSignal::table_weight(groups),
        Request::Logs(groups) => LogSignal::table_weight(groups),
        Request::Metrics(groups) => MetricSignal::table_weight(groups),
    }
}

/// The tables of a request.
pub fn tables_of(alloc: Global, request: &Request) -> Result<TableSet<LogicalTable>, AllocError>
    requires profile { IsProfile request.now }
    requires light { weight_of request.now ≤ weight_limit }
    ensures { IfOk result (λ set. set ≡ tables_of_request request.now) }
{
    match request {
        Request::Traces(groups) => SpanSignal::tables_of(alloc, groups),
        Request::Logs(groups) => LogSignal::tables_of(alloc, groups),
        Request::Metrics(groups) => MetricSignal::tables_of(alloc, groups),
    }
}
