//! Points and exemplars, found by what they are below.
ghost use Rattle.std.specs.Prelude.{◌≡◌, true, IfOk, All};
ghost use Rattle.otlp_model.specs.Weight.{weight_of_exemplar};
ghost use Rattle.otlp_model.specs.declared.metrics.Exemplar.{Exemplar};
ghost use Rattle.otlp_model.specs.declared.request.Signal.TheVariants as signal;
ghost use Rattle.otap_cells.specs.Columns.{columns_of, exemplars};
ghost use Rattle.otap_cells.specs.Continuing.{has_attributes};
ghost use Rattle.otap_cells.specs.Named.{table_named};
ghost use Rattle.otap_groups.specs.Beside.{FindAlike, FindsIf};
ghost use Rattle.otap_groups.specs.Kinds.{IsPart};
ghost use Rattle.otap_checks.specs.Known.{IsWeighed, Knows, KnowsAll};
ghost use Rattle.otap_points.specs.Found.{exemplars_in, hist_exemplars_in, hist_points_in, point_exemplars_in, points_in, summary_points_in};

use crate::exemplars::Exemplars;
use crate::hist_points::HistPoints;
use crate::number_points::Points;
use crate::summary_points::SumPoints;
use otap_cells::{Kind, Rows, TableSet};
use otap_checks::{KnownRows, PairRows, find_pairs, index_rows};
use otap_groups::{Children, Lookup};
use otlp_model::Exemplar;
use std::alloc::{AllocError, Global};

/// The exemplars of points, with their pairs; `None` without a table.
pub type ExemplarRows<'a, R> = Option<Children<'a, Exemplars<'a, R, PairRows<'a, R>>>>;

/// The points of gauges and sums, with their pairs, and with exemplars that are found in a given way; `None` without a table.
pub type PointRows<'a, R, X> = Option<Children<'a, Points<'a, R, PairRows<'a, R>, X>>>;

/// The points of histograms, in the same way.
pub type HistPointRows<'a, R, X> = Option<Children<'a, HistPoints<'a, R, PairRows<'a, R>, X>>>;

/// The points of summaries, with their pairs; `None` without a table.
pub type SumPointRows<'a, R> = Option<Children<'a, SumPoints<'a, R, PairRows<'a, R>>>>;

/// Finds the exemplars of the points of gauges and sums by their parents. Takes n log n for n rows, and time in proportion to them
/// where ids and parents rise or count from 0.
pub fn find_point_exemplars<'a, R: Rows>(
    alloc: Global,
    set: &'a TableSet<R>,
    known: &'a KnownRows,
) -> Result<ExemplarRows<'a, R>, AllocError>
    requires known { KnowsAll signal.Metrics set.now known.now.ids }
    requires weights { All (IsWeighed set.now) known.now.weights.items }
    ensures { IfOk result (FindsIf (point_exemplars_in set.now)) }
{
    let kind = Kind::NumberExemplars;
    let made = find_exemplars(alloc, set, kind, Kind::NumberExemplarAttrs, known)?;
    Ok(made)
}

/// Finds the exemplars of the points of histograms, in the same way.
pub fn find_hist_exemplars<'a, R: Rows>(
    alloc: Global,
    set: &'a TableSet<R>,
    known: &'a KnownRows,
) -> Result<ExemplarRows<'a, R>, AllocError>
    requires known { KnowsAll signal.Metrics set.now known.now.ids }
    requires weights { All (IsWeighed set.now) known.now.weights.items }
    ensures { IfOk result (FindsIf (hist_exemplars_in set.now)) }
{
    let kind = Kind::HistExemplars;
    let made = find_exemplars(alloc, set, kind, Kind::HistExemplarAttrs, known)?;
    Ok(made)
}

/// Finds the points of gauges and sums by their parents, in the same way. Their exemplars are found by what is given, which must
/// find what the tables have.
pub fn find_points<'a, R: Rows, X: Lookup<Child = Exemplar>>(
    alloc: Global,
    set: &'a TableSet<R>,
    known: &'a KnownRows,
    exemplars: X,
) -> Result<PointRows<'a, R, X>, AllocError>
    requires known { KnowsAll signal.Metrics set.now known.now.ids }
    requires weights { All (IsWeighed set.now) known.now.weights.items }
    requires exemplars { FindAlike (X.finds exemplars) (point_exemplars_in set.now) }
    requires weighed { (exemplar : Exemplar) → X.weigh exemplar ≡ weight_of_exemplar exemplar }
    ensures { IfOk result (FindsIf (points_in set.now)) }
{
    let kind = Kind::NumberPoints;
    let Some(rows) = set.get(kind) else {
        return Ok(None);
    };
    let pairs = find_pairs(alloc, set, Kind::NumberPointAttrs, known)?;
    let points = Points {
        rows,
        pairs,
        exemplars,
    };
    let made = index_rows(alloc, set, kind, &known.ids, points)?;
    Ok(Some(made))
}

/// Finds the points of histograms, in the same way as those of gauges and sums.
pub fn find_hist_points<'a, R: Rows, X: Lookup<Child = Exemplar>>(
    alloc: Global,
    set: &'a TableSet<R>,
    known: &'a KnownRows,
    exemplars: X,
) -> Result<HistPointRows<'a, R, X>, AllocError>
    requires known { KnowsAll signal.Metrics set.now known.now.ids }
    requires weights { All (IsWeighed set.now) known.now.weights.items }
    requires exemplars { FindAlike (X.finds exemplars) (hist_exemplars_in set.now) }
    requires weighed { (exemplar : Exemplar) → X.weigh exemplar ≡ weight_of_exemplar exemplar }
    ensures { IfOk result (FindsIf (hist_points_in set.now)) }
{
    let kind = Kind::HistPoints;
    let Some(rows) = set.get(kind) else {
        return Ok(None);
    };
    let pairs = find_pairs(alloc, set, Kind::HistPointAttrs, known)?;
    let points = HistPoints {
        rows,
        pairs,
        exemplars,
    };
    let made = index_rows(alloc, set, kind, &known.ids, points)?;
    Ok(Some(made))
}

/// Finds the points of summaries by their parents, in the same way.
pub fn find_summary_points<'a, R: Rows>(
    alloc: Global,
    set: &'a TableSet<R>,
    known: &'a KnownRows,
) -> Result<SumPointRows<'a, R>, AllocError>
    requires known { KnowsAll signal.Metrics set.now known.now.ids }
    requires weights { All (IsWeighed set.now) known.now.weights.items }
    ensures { IfOk result (FindsIf (summary_points_in set.now)) }
{
    let kind = Kind::SummaryPoints;
    let Some(rows) = set.get(kind) else {
        return Ok(None);
    };
    let pairs = find_pairs(alloc, set, Kind::SummaryPointAttrs, known)?;
    let made = index_rows(alloc, set, kind, &known.ids, SumPoints { rows, pairs })?;
    Ok(Some(made))
}

/// Finds the exemplars of points by their parents, in a table of exemplars, with the attributes in another.
fn find_exemplars<'a, R: Rows>(
    alloc: Global,
    set: &'a TableSet<R>,
    kind: Kind,
    attributes: Kind,
    known: &'a KnownRows,
) -> Result<ExemplarRows<'a, R>, AllocError>
    requires part { IsPart kind }
    requires columns { columns_of kind ≡ exemplars }
    requires known { Knows (table_named kind set.now) kind known.now.ids }
    requires attributes { has_attributes attributes ≡ true }
    requires pairs { Knows (table_named attributes set.now) attributes known.now.ids }
    requires weights { All (IsWeighed set.now) known.now.weights.items }
    ensures { IfOk result (FindsIf (exemplars_in (table_named kind set.now) (table_named attributes set.now))) }
{
    let Some(rows) = set.get(kind) else {
        return Ok(None);
    };
    let pairs = find_pairs(alloc, set, attributes, known)?;
    let made = index_rows(alloc, set, kind, &known.ids, Exemplars { rows, pairs })?;
    Ok(Some(made))
}
