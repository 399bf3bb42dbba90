//! What a signal is.
ghost use Rattle.std.specs.Prelude.{◌≡◌, ◌≤◌, All, List, min, IfErr, IfOk, OnOk};
ghost use Rattle.otlp_model.specs.Limits.{weight_limit, count_cap};
ghost use Rattle.otlp_model.specs.Profile.{IsProfile};
ghost use Rattle.otlp_model.specs.Weight.{weight_of};
ghost use Rattle.otlp_model.specs.declared.groups.ResourceGroup.{ResourceGroup};
ghost use Rattle.otap_cells.specs.GivenIds.{ReadAs};
ghost use Rattle.otap_cells.specs.Tables.{Table};
ghost use Rattle.otap_cells.specs.Weights.{weight_of_tables};
ghost use Rattle.otap_checks.specs.Reading.{HasAllIds};
ghost use Rattle.otap_checks.specs.Refusing.{IsClean, RefusesCheck};
ghost use Rattle.otap_checks.specs.Regrouping.{RefusesRegroup};
ghost use Rattle.otap_checks.specs.RowDefects.{RowDefect};
ghost use Rattle.otap_signals.specs.Regroups.{IsLight, IsRegrouped, RefusesTables};
ghost use Rattle.otap_signals.specs.Signals.{ComesBack, IsWritten, SignalIn, meaning_of};

use crate::regrouped::Regrouped;
use otap_attrs::CheckRefusal;
use otap_cells::{LogicalTable, Rows, TableSet};
use otap_checks::{Grouped, RegroupRefusal};
use otlp_model::{Items, Request, ResourceGroup};
use std::alloc::{AllocError, Global};

/// A signal: its items, its requests, and their tables.
pub trait SignalTables {
    /// A span, a log record or a metric.
    type Item;

    /// Its requests, the tables that they are written as, and the requests that tables make.
    ghost rows: { SignalIn Self.Item };

    /// The request of groups.
    fn request(groups: Items<ResourceGroup<Self::Item>>) -> Request
        ensures { result ≡ rows.request groups };

    /// What the tables of a request weigh, or 2^63 where it is more. It makes no table.
    fn table_weight(groups: &Items<ResourceGroup<Self::Item>>) -> u64
        requires profile { IsProfile (rows.request groups.now) }
        requires light { weight_of (rows.request groups.now) ≤ weight_limit }
        ensures { result ≡ min (weight_of_tables (rows.tables groups.now)) count_cap };

    /// The tables of a request.
    fn tables_of(
        alloc: Global,
        groups: &Items<ResourceGroup<Self::Item>>,
    ) -> Result<TableSet<LogicalTable>, AllocError>
        requires profile { IsProfile (rows.request groups.now) }
        requires light { weight_of (rows.request groups.now) ≤ weight_limit }
        ensures { IfOk result (λ set. set ≡ rows.tables groups.now) };

    /// Looks at the rows of tables, and returns what their request weighs, or 2^63 where it is more. It builds nothing.
    fn check_rows<R: Rows>(alloc: Global, set: &TableSet<R>) -> Result<u64, CheckRefusal>
        ensures clean { OnOk result (IsClean (RowDefect rows.signal set.now)) }
        ensures weight { IfOk result (λ weight. weight ≡ min (weight_of (rows.request (rows.regrouped set.now))) count_cap) }
        ensures refused { IfErr result (RefusesCheck (RowDefect rows.signal set.now)) };

    /// Looks at the rows of tables, and then returns the groups of their request and its weight. These are built only where the
    /// weight is within the limit.
    fn regroup<R: Rows>(
        alloc: Global,
        set: &TableSet<R>,
    ) -> Result<Grouped<Self::Item>, RegroupRefusal>
        ensures clean { OnOk result (IsClean (RowDefect rows.signal set.now)) }
        ensures groups { IfOk result (λ made. made.groups ≡ rows.regrouped set.now) }
        ensures tree { IfOk result (λ made. made.tree ≡ weight_of (rows.request made.groups)) }
        ensures light { IfOk result (λ made. made.tree ≤ weight_limit) }
        ensures refused { IfErr result (RefusesRegroup (RowDefect rows.signal set.now) (weight_of (rows.request (rows.regrouped set.now)))) };

    /// Law: what is written comes back.
    fn tables_come_back()
        ensures { (groups : List (ResourceGroup Self.Item)) → IsWritten (rows.request groups)
            → ComesBack rows.signal (rows.request groups) (rows.tables groups) (rows.request (rows.regrouped (rows.tables groups))) };

    /// Law: tables that read as others, whose ids are given, make their request.
    fn requests_read_alike()
        ensures { (tables others : List Table) → ReadAs tables others → All HasAllIds others → rows.regrouped tables ≡ rows.regrouped others };
}

/// Looks at the rows of the tables of a signal, and then returns their request and its weight. The request is built only where
/// its weight is within the limit.
pub fn regroup_request<T: SignalTables, R: Rows>(
    alloc: Global,
    set: &TableSet<R>,
) -> Result<Regrouped, RegroupRefusal>
    ensures regrouped { IfOk result (IsRegrouped (meaning_of T.rows) set.now) }
    ensures light { IfOk result IsLight }
    ensures refuses { IfErr result (RefusesTables (meaning_of T.rows) set.now) }
{
    let made = T::regroup(alloc, set)?;
    Ok(Regrouped {
        request: T::request(made.groups),
        tree: made.tree,
    })
}
