//! The request of the tables of a batch.
ghost use Rattle.std.specs.Prelude.{◌≡◌, ◌≤◌, min, IfErr, IfOk, OnOk, All};
ghost use Rattle.otlp_model.specs.Limits.{weight_limit, count_cap};
ghost use Rattle.otlp_model.specs.Weight.{weight_of, weight_of_exemplar, weight_of_hist_point, weight_of_point, weight_of_sum_point};
ghost use Rattle.otlp_model.specs.declared.histograms.HistPoint.{HistPoint};
ghost use Rattle.otlp_model.specs.declared.histograms.SumPoint.{SumPoint};
ghost use Rattle.otlp_model.specs.declared.metrics.Exemplar.{Exemplar};
ghost use Rattle.otlp_model.specs.declared.metrics.Point.{Point};
ghost use Rattle.otlp_model.specs.declared.request.Request.TheVariants.{Metrics};
ghost use Rattle.otlp_model.specs.declared.request.Signal.TheVariants as signal;
ghost use Rattle.otap_cells.specs.declared.payload.Kind.TheVariants as table;
ghost use Rattle.otap_cells.specs.Named.{table_named};
ghost use Rattle.otap_groups.specs.Beside.{FindAlike};
ghost use Rattle.otap_groups.specs.Made.{groups_of};
ghost use Rattle.otap_checks.specs.Known.{IsWeighed, KnowsAll};
ghost use Rattle.otap_checks.specs.Refusing.{Nothing, RefusesCheck};
ghost use Rattle.otap_checks.specs.Regrouping.{RefusesRegroup};
ghost use Rattle.otap_points.specs.Found.{hist_exemplars_in, hist_points_in, point_exemplars_in, points_in, summary_points_in};
ghost use Rattle.otap_metrics.specs.Requests.{AreCleanMetrics, WrongMetrics, regrouped_metrics, regrouped_weight};

use crate::reading;
use otap_attrs::CheckRefusal;
use otap_cells::{Kind, Rows, TableSet};
use otap_checks::{
    Grouped, KnownRows, PairRows, RegroupRefusal, checked_rows, find_pairs, front_of, groups_within,
};
use otap_groups::{Lookup, Main};
use otap_points::{
    find_hist_exemplars, find_hist_points, find_point_exemplars, find_points, find_summary_points,
};
use otlp_model::{Exemplar, HistPoint, Items, Metric, Point, ResourceGroup, Signal, SumPoint};
use std::alloc::{AllocError, Global};

/// The main rows of metrics, with their metrics and all pairs, where their points are found in given ways.
type MetricRows<'a, R, N, H, S> = Main<'a, R, reading::Metrics<'a, R, N, H, S>, PairRows<'a, R>>;

/// Looks at the rows of a batch of metrics, and returns what their request weighs, or `CAP` where it is more; or what is wrong
/// with them. It builds nothing. Takes n log n for n rows.
pub fn check_rows<R: Rows>(alloc: Global, set: &TableSet<R>) -> Result<u64, CheckRefusal>
    ensures clean { OnOk result (AreCleanMetrics set.now) }
    ensures weight { IfOk result (λ weight. weight ≡ min (regrouped_weight set.now) count_cap) }
    ensures refused { IfErr result (RefusesCheck (WrongMetrics set.now)) }
{
    let known = checked_rows(alloc, set, Signal::Metrics)?;
    let Some(rows) = set.get(Kind::Metrics) else {
        return Ok(0);
    };
    let of_points = find_point_exemplars(alloc, set, &known)?;
    let of_hists = find_hist_exemplars(alloc, set, &known)?;
    let weight = weight_by_exemplars(alloc, set, rows, &known, of_points, of_hists)?;
    Ok(weight)
}

/// The request of a batch of metrics and what it weighs, where nothing is wrong with the rows and it weighs at most the limit;
/// what is wrong is named before the weight. It is built only then. Takes n log n for n rows, and time in proportion to them where
/// ids and parents rise or count from 0.
pub fn regroup<R: Rows>(alloc: Global, set: &TableSet<R>) -> Result<Grouped<Metric>, RegroupRefusal>
    ensures clean { OnOk result (AreCleanMetrics set.now) }
    ensures groups { IfOk result (λ made. made.groups ≡ regrouped_metrics set.now) }
    ensures tree { IfOk result (λ made. made.tree ≡ weight_of (Metrics made.groups)) }
    ensures light { IfOk result (λ made. made.tree ≤ weight_limit) }
    ensures refused { IfErr result (RefusesRegroup (WrongMetrics set.now) (regrouped_weight set.now)) }
{
    let known = checked_rows(alloc, set, Signal::Metrics)?;
    let Some(rows) = set.get(Kind::Metrics) else {
        return Ok(Grouped {
            groups: Items::new(alloc),
            tree: 0,
        });
    };
    let of_points = find_point_exemplars(alloc, set, &known)?;
    let of_hists = find_hist_exemplars(alloc, set, &known)?;
    let made = groups_by_exemplars(alloc, set, rows, &known, of_points, of_hists)?;
    Ok(made)
}

/// The request of a batch of metrics whose rows have nothing wrong, and which weighs at most the limit. Takes n log n for n rows.
pub fn request_of<R: Rows>(
    alloc: Global,
    set: &TableSet<R>,
) -> Result<Items<ResourceGroup<Metric>>, AllocError>
    requires clean { AreCleanMetrics set.now }
    requires light { regrouped_weight set.now ≤ weight_limit }
    ensures { IfOk result (λ groups. groups ≡ regrouped_metrics set.now) }
{
    match regroup(alloc, set) {
        Ok(made) => Ok(made.groups),
        Err(RegroupRefusal::Rows(CheckRefusal::Memory(error))) => Err(error),
        Err(_) => unreachable!(),
    }
}

/// What the request of a batch whose rows have nothing wrong weighs, where exemplars are found in given ways.
fn weight_by_exemplars<'a, R: Rows, X: Lookup<Child = Exemplar>, Y: Lookup<Child = Exemplar>>(
    alloc: Global,
    set: &'a TableSet<R>,
    rows: &'a R,
    known: &'a KnownRows,
    of_points: X,
    of_hists: Y,
) -> Result<u64, AllocError>
    requires clean { AreCleanMetrics set.now }
    requires known { KnowsAll signal.Metrics set.now known.now.ids }
    requires weights { All (IsWeighed set.now) known.now.weights.items }
    requires table { table_named table.Metrics set.now ≡ R.table rows.now }
    requires kind { (R.table rows.now).kind ≡ table.Metrics }
    requires of_points { FindAlike (X.finds of_points) (point_exemplars_in set.now) }
    requires of_hists { FindAlike (Y.finds of_hists) (hist_exemplars_in set.now) }
    requires point_exemplars_weighed { (exemplar : Exemplar) → X.weigh exemplar ≡ weight_of_exemplar exemplar }
    requires hist_exemplars_weighed { (exemplar : Exemplar) → Y.weigh exemplar ≡ weight_of_exemplar exemplar }
    ensures { IfOk result (λ weight. weight ≡ min (regrouped_weight set.now) count_cap) }
{
    let points = find_points(alloc, set, known, of_points)?;
    let weight = weight_by_points(alloc, set, rows, known, points, of_hists)?;
    Ok(weight)
}

/// The same, where number points are found in a given way too.
fn weight_by_points<'a, R: Rows, N: Lookup<Child = Point>, Y: Lookup<Child = Exemplar>>(
    alloc: Global,
    set: &'a TableSet<R>,
    rows: &'a R,
    known: &'a KnownRows,
    points: N,
    of_hists: Y,
) -> Result<u64, AllocError>
    requires clean { AreCleanMetrics set.now }
    requires known { KnowsAll signal.Metrics set.now known.now.ids }
    requires weights { All (IsWeighed set.now) known.now.weights.items }
    requires table { table_named table.Metrics set.now ≡ R.table rows.now }
    requires kind { (R.table rows.now).kind ≡ table.Metrics }
    requires points { FindAlike (N.finds points) (points_in set.now) }
    requires of_hists { FindAlike (Y.finds of_hists) (hist_exemplars_in set.now) }
    requires points_weighed { (point : Point) → N.weigh point ≡ weight_of_point point }
    requires hist_exemplars_weighed { (exemplar : Exemplar) → Y.weigh exemplar ≡ weight_of_exemplar exemplar }
    ensures { IfOk result (λ weight. weight ≡ min (regrouped_weight set.now) count_cap) }
{
    let hist_points = find_hist_points(alloc, set, known, of_hists)?;
    let weight = weight_by_hist_points(alloc, set, rows, known, points, hist_points)?;
    Ok(weight)
}

/// The same, where points of histograms are found in a given way too.
fn weight_by_hist_points<'a, R: Rows, N: Lookup<Child = Point>, H: Lookup<Child = HistPoint>>(
    alloc: Global,
    set: &'a TableSet<R>,
    rows: &'a R,
    known: &'a KnownRows,
    points: N,
    hist_points: H,
) -> Result<u64, AllocError>
    requires clean { AreCleanMetrics set.now }
    requires known { KnowsAll signal.Metrics set.now known.now.ids }
    requires weights { All (IsWeighed set.now) known.now.weights.items }
    requires table { table_named table.Metrics set.now ≡ R.table rows.now }
    requires kind { (R.table rows.now).kind ≡ table.Metrics }
    requires points { FindAlike (N.finds points) (points_in set.now) }
    requires hist_points { FindAlike (H.finds hist_points) (hist_points_in set.now) }
    requires points_weighed { (point : Point) → N.weigh point ≡ weight_of_point point }
    requires hist_points_weighed { (point : HistPoint) → H.weigh point ≡ weight_of_hist_point point }
    ensures { IfOk result (λ weight. weight ≡ min (regrouped_weight set.now) count_cap) }
{
    let summary_points = find_summary_points(alloc, set, known)?;
    let weight = weight_with(alloc, set, rows, known, points, hist_points, summary_points)?;
    Ok(weight)
}

/// The request of a batch whose rows have nothing wrong, where exemplars are found in given ways.
fn groups_by_exemplars<'a, R: Rows, X: Lookup<Child = Exemplar>, Y: Lookup<Child = Exemplar>>(
    alloc: Global,
    set: &'a TableSet<R>,
    rows: &'a R,
    known: &'a KnownRows,
    of_points: X,
    of_hists: Y,
) -> Result<Grouped<Metric>, RegroupRefusal>
    requires clean { AreCleanMetrics set.now }
    requires known { KnowsAll signal.Metrics set.now known.now.ids }
    requires weights { All (IsWeighed set.now) known.now.weights.items }
    requires table { table_named table.Metrics set.now ≡ R.table rows.now }
    requires kind { (R.table rows.now).kind ≡ table.Metrics }
    requires of_points { FindAlike (X.finds of_points) (point_exemplars_in set.now) }
    requires of_hists { FindAlike (Y.finds of_hists) (hist_exemplars_in set.now) }
    requires point_exemplars_weighed { (exemplar : Exemplar) → X.weigh exemplar ≡ weight_of_exemplar exemplar }
    requires hist_exemplars_weighed { (exemplar : Exemplar) → Y.weigh exemplar ≡ weight_of_exemplar exemplar }
    ensures groups { IfOk result (λ made. made.groups ≡ regrouped_metrics set.now) }
    ensures tree { IfOk result (λ made. made.tree ≡ weight_of (Metrics made.groups)) }
    ensures light { IfOk result (λ made. made.tree ≤ weight_limit) }
    ensures refused { IfErr result (RefusesRegroup Nothing (regrouped_weight set.now)) }
{
    let points = find_points(alloc, set, known, of_points)?;
    let made = groups_by_points(alloc, set, rows, known, points, of_hists)?;
    Ok(made)
}

/// The same, where number points are found in a given way too.
fn groups_by_points<'a, R: Rows, N: Lookup<Child = Point>, Y: Lookup<Child = Exemplar>>(
    alloc: Global,
    set: &'a TableSet<R>,
    rows: &'a R,
    known: &'a KnownRows,
    points: N,
    of_hists: Y,
) -> Result<Grouped<Metric>, RegroupRefusal>
    requires clean { AreCleanMetrics set.now }
    requires known { KnowsAll signal.Metrics set.now known.now.ids }
    requires weights { All (IsWeighed set.now) known.now.weights.items }
    requires table { table_named table.Metrics set.now ≡ R.table rows.now }
    requires kind { (R.table rows.now).kind ≡ table.Metrics }
    requires points { FindAlike (N.finds points) (points_in set.now) }
    requires of_hists { FindAlike (Y.finds of_hists) (hist_exemplars_in set.now) }
    requires points_weighed { (point : Point) → N.weigh point ≡ weight_of_point point }
    requires hist_exemplars_weighed { (exemplar : Exemplar) → Y.weigh exemplar ≡ weight_of_exemplar exemplar }
    ensures groups { IfOk result (λ made. made.groups ≡ regrouped_metrics set.now) }
    ensures tree { IfOk result (λ made. made.tree ≡ weight_of (Metrics made.groups)) }
    ensures light { IfOk result (λ made. made.tree ≤ weight_limit) }
    ensures refused { IfErr result (RefusesRegroup Nothing (regrouped_weight set.now)) }
{
    let hist_points = find_hist_points(alloc, set, known, of_hists)?;
    let made = groups_by_hist_points(alloc, set, rows, known, points, hist_points)?;
    Ok(made)
}

/// The same, where points of histograms are found in a given way too.
fn groups_by_hist_points<'a, R: Rows, N: Lookup<Child = Point>, H: Lookup<Child = HistPoint>>(
    alloc: Global,
    set: &'a TableSet<R>,
    rows: &'a R,
    known: &'a KnownRows,
    points: N,
    hist_points: H,
) -> Result<Grouped<Metric>, RegroupRefusal>
    requires clean { AreCleanMetrics set.now }
    requires known { KnowsAll signal.Metrics set.now known.now.ids }
    requires weights { All (IsWeighed set.now) known.now.weights.items }
    requires table { table_named table.Metrics set.now ≡ R.table rows.now }
    requires kind { (R.table rows.now).kind ≡ table.Metrics }
    requires points { FindAlike (N.finds points) (points_in set.now) }
    requires hist_points { FindAlike (H.finds hist_points) (hist_points_in set.now) }
    requires points_weighed { (point : Point) → N.weigh point ≡ weight_of_point point }
    requires hist_points_weighed { (point : HistPoint) → H.weigh point ≡ weight_of_hist_point point }
    ensures groups { IfOk result (λ made. made.groups ≡ regrouped_metrics set.now) }
    ensures tree { IfOk result (λ made. made.tree ≡ weight_of (Metrics made.groups)) }
    ensures light { IfOk result (λ made. made.tree ≤ weight_limit) }
    ensures refused { IfErr result (RefusesRegroup Nothing (regrouped_weight set.now)) }
{
    let summary_points = find_summary_points(alloc, set, known)?;
    let made = groups_with(alloc, set, rows, known, points, hist_points, summary_points)?;
    Ok(made)
}

/// What the request of a batch whose rows have nothing wrong weighs, where the points are found in given ways.
fn weight_with<
    'a,
    R: Rows,
    N: Lookup<Child = Point>,
    H: Lookup<Child = HistPoint>,
    S: Lookup<Child = SumPoint>,
>(
    alloc: Global,
    set: &'a TableSet<R>,
    rows: &'a R,
    known: &'a KnownRows,
    points: N,
    hist_points: H,
    summary_points: S,
) -> Result<u64, AllocError>
    requires clean { AreCleanMetrics set.now }
    requires known { KnowsAll signal.Metrics set.now known.now.ids }
    requires weights { All (IsWeighed set.now) known.now.weights.items }
    requires table { table_named table.Metrics set.now ≡ R.table rows.now }
    requires kind { (R.table rows.now).kind ≡ table.Metrics }
    requires points { FindAlike (N.finds points) (points_in set.now) }
    requires hist_points { FindAlike (H.finds hist_points) (hist_points_in set.now) }
    requires summary_points { FindAlike (S.finds summary_points) (summary_points_in set.now) }
    requires points_weighed { (point : Point) → N.weigh point ≡ weight_of_point point }
    requires hist_points_weighed { (point : HistPoint) → H.weigh point ≡ weight_of_hist_point point }
    requires summary_points_weighed { (point : SumPoint) → S.weigh point ≡ weight_of_sum_point point }
    ensures { IfOk result (λ weight. weight ≡ min (regrouped_weight set.now) count_cap) }
{
    let main = main_of(alloc, set, rows, known, points, hist_points, summary_points)?;
    Ok(main.weight())
}

/// The request of a batch whose rows have nothing wrong, where the points are found in given ways.
fn groups_with<
    'a,
    R: Rows,
    N: Lookup<Child = Point>,
    H: Lookup<Child = HistPoint>,
    S: Lookup<Child = SumPoint>,
>(
    alloc: Global,
    set: &'a TableSet<R>,
    rows: &'a R,
    known: &'a KnownRows,
    points: N,
    hist_points: H,
    summary_points: S,
) -> Result<Grouped<Metric>, RegroupRefusal>
    requires clean { AreCleanMetrics set.now }
    requires known { KnowsAll signal.Metrics set.now known.now.ids }
    requires weights { All (IsWeighed set.now) known.now.weights.items }
    requires table { table_named table.Metrics set.now ≡ R.table rows.now }
    requires kind { (R.table rows.now).kind ≡ table.Metrics }
    requires points { FindAlike (N.finds points) (points_in set.now) }
    requires hist_points { FindAlike (H.finds hist_points) (hist_points_in set.now) }
    requires summary_points { FindAlike (S.finds summary_points) (summary_points_in set.now) }
    requires points_weighed { (point : Point) → N.weigh point ≡ weight_of_point point }
    requires hist_points_weighed { (point : HistPoint) → H.weigh point ≡ weight_of_hist_point point }
    requires summary_points_weighed { (point : SumPoint) → S.weigh point ≡ weight_of_sum_point point }
    ensures groups { IfOk result (λ made. made.groups ≡ regrouped_metrics set.now) }
    ensures tree { IfOk result (λ made. made.tree ≡ weight_of (Metrics made.groups)) }
    ensures light { IfOk result (λ made. made.tree ≤ weight_limit) }
    ensures refused { IfErr result (RefusesRegroup Nothing (regrouped_weight set.now)) }
{
    let main = main_of(alloc, set, rows, known, points, hist_points, summary_points)?;
    let made = groups_within(alloc, &main)?;
    Ok(made)
}

/// The main rows of a batch whose rows have nothing wrong, with their metrics and all pairs.
fn main_of<
    'a,
    R: Rows,
    N: Lookup<Child = Point>,
    H: Lookup<Child = HistPoint>,
    S: Lookup<Child = SumPoint>,
>(
    alloc: Global,
    set: &'a TableSet<R>,
    rows: &'a R,
    known: &'a KnownRows,
    points: N,
    hist_points: H,
    summary_points: S,
) -> Result<MetricRows<'a, R, N, H, S>, AllocError>
    requires clean { AreCleanMetrics set.now }
    requires known { KnowsAll signal.Metrics set.now known.now.ids }
    requires weights { All (IsWeighed set.now) known.now.weights.items }
    requires table { table_named table.Metrics set.now ≡ R.table rows.now }
    requires kind { (R.table rows.now).kind ≡ table.Metrics }
    requires points { FindAlike (N.finds points) (points_in set.now) }
    requires hist_points { FindAlike (H.finds hist_points) (hist_points_in set.now) }
    requires summary_points { FindAlike (S.finds summary_points) (summary_points_in set.now) }
    requires points_weighed { (point : Point) → N.weigh point ≡ weight_of_point point }
    requires hist_points_weighed { (point : HistPoint) → H.weigh point ≡ weight_of_hist_point point }
    requires summary_points_weighed { (point : SumPoint) → S.weigh point ≡ weight_of_sum_point point }
    ensures { IfOk result (λ main. groups_of main ≡ regrouped_metrics set.now) }
{
    let front = front_of(rows, &known.ids);
    let resources = find_pairs(alloc, set, Kind::ResourceAttrs, known)?;
    let scopes = find_pairs(alloc, set, Kind::ScopeAttrs, known)?;
    Ok(Main {
        front,
        items: reading::Metrics {
            rows,
            points,
            hist_points,
            summary_points,
        },
        resources,
        scopes,
    })
}
