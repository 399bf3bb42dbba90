//! What holds of the tables of each signal: how they hang together, and what their cells must satisfy.
ghost use Rattle.std.specs.Prelude.{◌≡◌};
ghost use Rattle.otap_checks.specs.Links.{item_attributes, links_of};
ghost use Rattle.otap_checks.specs.Rules.{rules_of};

use crate::shapes::PointSort;
use otap_cells::Kind;
use otap_cells::shared_columns::{
    attribute, exemplar, log, main, number_point, part, summary_point,
};
use otlp_model::Signal;

/// Where the parents of a table's rows are found.
#[derive(Clone, Copy, Debug)]
pub struct Parents {
    /// The column of the table that names the parents by their ids.
    pub column: u32,
    /// The table whose rows are the parents.
    pub of: Kind,
    /// The column of that table that has the ids.
    pub at: u32,
}

/// A table, and what its ids have to do with those of another.
#[derive(Clone, Copy, Debug)]
pub struct TableLink {
    /// The payload type of the table.
    pub kind: Kind,
    /// The column of its rows' own ids, no two of which may be equal.
    pub own: Option<u32>,
    /// The parents of its rows.
    pub parents: Option<Parents>,
}

/// Items have ids.
macro_rules! items {
    ($kind:ident) => {
        TableLink {
            kind: Kind::$kind,
            own: Some(main::ID),
            parents: None,
        }
    };
}

/// Parts have ids and parents.
macro_rules! parts {
    ($kind:ident of $of:ident $at:expr) => {
        TableLink {
            kind: Kind::$kind,
            own: Some(part::ID),
            parents: Some(Parents {
                column: part::PARENT_ID,
                of: Kind::$of,
                at: $at,
            }),
        }
    };
}

/// Attributes have parents.
macro_rules! attributes {
    ($kind:ident of $of:ident $at:expr) => {
        TableLink {
            kind: Kind::$kind,
            own: None,
            parents: Some(Parents {
                column: attribute::PARENT_ID,
                of: Kind::$of,
                at: $at,
            }),
        }
    };
}

static LOG_LINKS: &[TableLink] = &[
    items!(Logs),
    attributes!(ResourceAttrs of Logs main::RESOURCE_ID),
    attributes!(ScopeAttrs of Logs main::SCOPE_ID),
    attributes!(LogAttrs of Logs main::ID),
];

static SPAN_LINKS: &[TableLink] = &[
    items!(Spans),
    attributes!(ResourceAttrs of Spans main::RESOURCE_ID),
    attributes!(ScopeAttrs of Spans main::SCOPE_ID),
    attributes!(SpanAttrs of Spans main::ID),
    parts!(SpanEvents of Spans main::ID),
    parts!(SpanLinks of Spans main::ID),
    attributes!(EventAttrs of SpanEvents part::ID),
    attributes!(LinkAttrs of SpanLinks part::ID),
];

static METRIC_LINKS: &[TableLink] = &[
    items!(Metrics),
    attributes!(ResourceAttrs of Metrics main::RESOURCE_ID),
    attributes!(ScopeAttrs of Metrics main::SCOPE_ID),
    parts!(NumberPoints of Metrics main::ID),
    parts!(SummaryPoints of Metrics main::ID),
    parts!(HistPoints of Metrics main::ID),
    attributes!(NumberPointAttrs of NumberPoints part::ID),
    attributes!(SummaryPointAttrs of SummaryPoints part::ID),
    attributes!(HistPointAttrs of HistPoints part::ID),
    parts!(NumberExemplars of NumberPoints part::ID),
    parts!(HistExemplars of HistPoints part::ID),
    attributes!(NumberExemplarAttrs of NumberExemplars part::ID),
    attributes!(HistExemplarAttrs of HistExemplars part::ID),
];

/// The tables of a signal, its main table first.
#[tactic(auto, unfolding(crate::specs::Links::links_of))]
pub fn links_of(signal: Signal) -> &'static [TableLink]
    ensures { result.now ≡ links_of signal }
{
    match signal {
        Signal::Logs => LOG_LINKS,
        Signal::Traces => SPAN_LINKS,
        Signal::Metrics => METRIC_LINKS,
    }
}

/// The table of the attributes that the items of a signal have. Metrics have none of their own.
pub fn item_attributes(signal: Signal) -> Option<Kind>
    ensures { result ≡ item_attributes signal }
{
    match signal {
        Signal::Logs => Some(Kind::LogAttrs),
        Signal::Traces => Some(Kind::SpanAttrs),
        Signal::Metrics => None,
    }
}

/// What the rows of a table must satisfy, beside their ids.
#[derive(Clone, Copy, Debug)]
pub enum Asks {
    /// Rows of one resource id or scope id agree in the other cells of the resource or scope.
    Agree,
    /// The seven columns from this one on hold values.
    Values(u32),
    /// No row has a number in both this column and the next.
    OneNumber(u32),
    /// The lists of these two columns have as many elements.
    EvenLists(u32, u32),
    /// Metrics have the number of a shape.
    KnownShape,
    /// Points belong to metrics of a shape that has such points.
    OfShape(PointSort),
}

/// A rule for the table of a kind.
#[derive(Clone, Copy, Debug)]
pub struct CellRule {
    pub kind: Kind,
    pub asks: Asks,
}

macro_rules! rule {
    ($kind:ident $asks:expr) => {
        CellRule {
            kind: Kind::$kind,
            asks: $asks,
        }
    };
}

/// Attributes have values.
macro_rules! pairs {
    ($kind:ident) => {
        CellRule {
            kind: Kind::$kind,
            asks: Asks::Values(attribute::TYPE),
        }
    };
}

static LOG_RULES: &[CellRule] = &[
    rule!(Logs Asks::Values(log::BODY_TYPE)),
    pairs!(ResourceAttrs),
    pairs!(ScopeAttrs),
    pairs!(LogAttrs),
    rule!(Logs Asks::Agree),
];

static SPAN_RULES: &[CellRule] = &[
    pairs!(ResourceAttrs),
    pairs!(ScopeAttrs),
    pairs!(SpanAttrs),
    pairs!(EventAttrs),
    pairs!(LinkAttrs),
    rule!(Spans Asks::Agree),
];

static METRIC_RULES: &[CellRule] = &[
    rule!(Metrics Asks::KnownShape),
    rule!(NumberPoints Asks::OfShape(PointSort::Numbers)),
    rule!(NumberPoints Asks::OneNumber(number_point::INT)),
    rule!(NumberExemplars Asks::OneNumber(exemplar::INT)),
    pairs!(ResourceAttrs),
    pairs!(ScopeAttrs),
    pairs!(NumberPointAttrs),
    pairs!(NumberExemplarAttrs),
    rule!(SummaryPoints Asks::OfShape(PointSort::Summaries)),
    rule!(SummaryPoints Asks::EvenLists(summary_point::QUANTILES, summary_point::VALUES)),
    rule!(HistPoints Asks::OfShape(PointSort::Histograms)),
    rule!(HistExemplars Asks::OneNumber(exemplar::INT)),
    pairs!(SummaryPointAttrs),
    pairs!(HistPointAttrs),
    pairs!(HistExemplarAttrs),
    rule!(Metrics Asks::Agree),
];

/// The rules for the tables of a signal, in the order in which they are checked.
#[tactic(auto, unfolding(crate::specs::Rules::rules_of))]
pub fn rules_of(signal: Signal) -> &'static [CellRule]
    ensures { result.now ≡ rules_of signal }
{
    match signal {
        Signal::Logs => LOG_RULES,
        Signal::Traces => SPAN_RULES,
        Signal::Metrics => METRIC_RULES,
    }
}
