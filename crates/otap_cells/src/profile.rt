ghost use Rattle.std.specs.Prelude.{◌≡◌, ◌<◌, ◌^◌, map, length, All};
ghost use Rattle.otap_cells.specs.Columns.{allows, base_at, coding_at, columns_of, described, width_of};
ghost use Rattle.otap_cells.specs.Groups.{grouped};
ghost use Rattle.otap_cells.specs.StaticGroups.{IsWithin, group_in};
ghost use Rattle.otap_cells.specs.Bases.{holds_bytes, is_id};

use crate::grouping::{ColumnGroup, GroupMember};
use crate::payload::Kind;

/// What the cells of a column hold, and the Arrow type that stores them.
#[derive(Clone, Copy, Debug, PartialEq, Eq)]
pub enum Base {
    /// An unsigned number of 8 bits.
    U8,
    /// An unsigned number of 16 bits.
    U16,
    /// An unsigned number of 32 bits.
    U32,
    /// An unsigned number of 64 bits.
    U64,
    /// A signed number of 32 bits.
    I32,
    /// A signed number of 64 bits.
    I64,
    /// A double, as its 64 bits.
    Double,
    /// A truth value.
    Bool,
    /// A text.
    Utf8,
    /// A byte string of any length.
    Binary,
    /// A trace id: 16 bytes.
    Fixed16,
    /// A span id: 8 bytes.
    Fixed8,
    /// A time in nanoseconds since the epoch, as 64 bits.
    Timestamp,
    /// A span of time in nanoseconds, as 64 bits.
    Duration,
    /// A list of unsigned numbers of 64 bits, 8 bytes each.
    ListU64,
    /// A list of doubles, 8 bytes each.
    ListF64,
    /// The number of a row, or of the row that a row belongs to: 32 bits, read from numbers of 16 or 32 bits. A wide one is
    /// always written with 32.
    Id { wide: bool },
}

impl Base {
    /// Whether its cells hold bytes: texts, binaries, trace and span ids, and lists.
    pub fn has_bytes(self) -> bool
        ensures { result ≡ holds_bytes self }
    {
        matches!(
            self,
            Base::Utf8 | Base::Binary | Base::Fixed16 | Base::Fixed8 | Base::ListU64 | Base::ListF64
        )
    }

    /// Whether its cells are the numbers of rows.
    pub fn is_id(self) -> bool
        ensures { result ≡ is_id self }
    {
        matches!(self, Base::Id { .. })
    }
}

/// How the numbers of a column of ids are stored.
#[derive(Clone, Copy, Debug, PartialEq, Eq)]
pub enum Coding {
    /// As they are.
    Plain,
    /// Each after the first as its distance from the one before.
    Delta,
    /// As by `Delta` inside a run of equal rows; the first of a run as it is.
    Run,
}

/// A column of a table.
#[derive(Clone, Copy, Debug)]
pub struct Column {
    /// Its path of names, joined by dots.
    pub name: &'static str,
    pub base: Base,
    /// Whether the exporter writes it as a dictionary.
    pub dictionary: bool,
    /// How its numbers are stored where a schema names no other way. `Plain` for a column that has no ids.
    pub coding: Coding,
}

impl Column {
    /// Whether its ids may be stored in this way: plainly and by distances everywhere, in runs only where the profile itself
    /// stores them in runs, at the parents of attributes, events and links.
    pub fn allows(&self, coding: Coding) -> bool
        ensures { result ≡ allows (described self.now) coding }
    {
        match coding {
            Coding::Plain | Coding::Delta => self.base.is_id(),
            Coding::Run => matches!(self.coding, Coding::Run),
        }
    }
}

/// What the cells hold, by the word of a line.
macro_rules! base {
    (u8) => {
        Base::U8
    };
    (u32) => {
        Base::U32
    };
    (u64) => {
        Base::U64
    };
    (i32) => {
        Base::I32
    };
    (i64) => {
        Base::I64
    };
    (f64) => {
        Base::Double
    };
    (bool) => {
        Base::Bool
    };
    (utf8) => {
        Base::Utf8
    };
    (binary) => {
        Base::Binary
    };
    (trace_id) => {
        Base::Fixed16
    };
    (span_id) => {
        Base::Fixed8
    };
    (timestamp) => {
        Base::Timestamp
    };
    (duration) => {
        Base::Duration
    };
    (list_u64) => {
        Base::ListU64
    };
    (list_f64) => {
        Base::ListF64
    };
    (id) => {
        Base::Id { wide: false }
    };
    (wide_id) => {
        Base::Id { wide: true }
    };
}

/// The name of a column, by its path: alone, or below a struct.
macro_rules! name {
    ($name:literal) => {
        $name
    };
    ($struct:literal $name:literal) => {
        concat!($struct, ".", $name)
    };
}

/// Whether a column is written as a dictionary, by the mark of its line.
macro_rules! is_dictionary {
    () => {
        false
    };
    (d) => {
        true
    };
    ($coding:ident) => {
        false
    };
}

/// How the ids of a column are stored, by the mark of its line.
macro_rules! coding {
    () => {
        Coding::Plain
    };
    (d) => {
        Coding::Plain
    };
    (delta) => {
        Coding::Delta
    };
    (run) => {
        Coding::Run
    };
}

// The lines of a table are written `[field: how] { index ["struct"] "name" base [d | delta | run]; .. }`: a column's index, the path of
// its name, what its cells hold, and `d` where it is written as a dictionary, or the coding of its ids. Braces hold one column, or
// those of one struct. Before them may stand the field that the columns are of, and how it is written.

/// The columns of a table, by its lines. That they are at the indexes of their lines is a clause of `columns`.
macro_rules! column_list {
    ($($($field:ident: $how:ident)? { $($place:literal $($part:literal)+ $base:ident $($mark:ident)?);+ })*) => {
        &[$($(Column {
            name: name!($($part)+),
            base: base!($base),
            dictionary: is_dictionary!($($mark)?),
            coding: coding!($($mark)?),
        }),+),*]
    };
}

macro_rules! member {
    ($place:literal $name:literal) => {
        GroupMember {
            column: $place,
            name: $name,
        }
    };
}

/// The group of the lines in one pair of braces. That they name one struct is a clause of `column_groups`.
macro_rules! group {
    ($place:literal $name:literal) => {
        ColumnGroup::Alone(member!($place $name))
    };
    ($first:literal $struct:literal $name:literal $(; $place:literal $again:literal $member:literal)*) => {
        ColumnGroup::Under($struct, &[member!($first $name) $(, member!($place $member))*])
    };
}

/// The groups of a table's columns, by the same lines.
macro_rules! group_list {
    ($($($field:ident: $how:ident)? { $($place:literal $($part:literal)+ $base:ident $($mark:ident)?);+ })*) => {
        &[$(group!($($place $($part)+);+)),*]
    };
}

/// The lines of a main table: those of the row's own id, its resource and its scope, and then those of the signal.
macro_rules! main_table {
    ($callback:ident $($own:tt)*) => {
        $callback! {
            { 0 "id" id delta }
            {
                1 "resource" "id" id delta;
                2 "resource" "schema_url" utf8 d;
                3 "resource" "dropped_attributes_count" u32
            }
            {
                4 "scope" "id" id delta;
                5 "scope" "name" utf8 d;
                6 "scope" "version" utf8 d;
                7 "scope" "dropped_attributes_count" u32
            }
            { 8 "schema_url" utf8 d }
            $($own)*
        }
    };
}

/// Calls the macro that is named first, with what follows its name and then the lines of the columns that log records have of their
/// own. `time: bits { 9 .. }` says that the field `time` is written by `bits_cell` to column 9; the words for how are bits, number,
/// int, text, octets and value.
#[macro_export]
macro_rules! log_columns {
    ($callback:ident $($args:tt)*) => {
        $callback! {
            $($args)*
            time: bits { 9 "time_unix_nano" timestamp }
            observed: bits { 10 "observed_time_unix_nano" timestamp }
            trace_id: octets { 11 "trace_id" trace_id }
            span_id: octets { 12 "span_id" span_id }
            severity: int { 13 "severity_number" i32 d }
            severity_text: text { 14 "severity_text" utf8 d }
            body: value {
                15 "body" "type" u8;
                16 "body" "str" utf8;
                17 "body" "int" i64;
                18 "body" "double" f64;
                19 "body" "bool" bool;
                20 "body" "bytes" binary;
                21 "body" "ser" binary
            }
            dropped: number { 22 "dropped_attributes_count" u32 }
            flags: number { 23 "flags" u32 }
            event_name: text { 24 "event_name" utf8 d }
        }
    };
}

// otap_logs reads these lines too, so those in front are put before them here.
static LOGS: &[Column] = log_columns!(main_table column_list);

static LOG_GROUPS: &[ColumnGroup] = log_columns!(main_table group_list);

/// The lines of spans.
macro_rules! span_columns {
    ($callback:ident) => {
        main_table! {
            $callback
            { 9 "start_time_unix_nano" timestamp }
            { 10 "duration_time_unix_nano" duration d }
            { 11 "trace_id" trace_id }
            { 12 "span_id" span_id }
            { 13 "trace_state" utf8 d }
            { 14 "parent_span_id" span_id }
            { 15 "name" utf8 d }
            { 16 "kind" i32 d }
            { 17 "dropped_attributes_count" u32 }
            { 18 "dropped_events_count" u32 }
            { 19 "dropped_links_count" u32 }
            {
                20 "status" "code" i32 d;
                21 "status" "status_message" utf8 d
            }
            { 22 "flags" u32 }
        }
    };
}

static SPANS: &[Column] = span_columns!(column_list);

static SPAN_GROUPS: &[ColumnGroup] = span_columns!(group_list);

/// The lines of metrics.
macro_rules! metric_columns {
    ($callback:ident) => {
        main_table! {
            $callback
            { 9 "metric_type" u8 }
            { 10 "name" utf8 d }
            { 11 "description" utf8 d }
            { 12 "unit" utf8 d }
            { 13 "aggregation_temporality" i32 d }
            { 14 "is_monotonic" bool }
        }
    };
}

static METRICS: &[Column] = metric_columns!(column_list);

static METRIC_GROUPS: &[ColumnGroup] = metric_columns!(group_list);

/// The lines of attributes of any parent, by what the parent's ids are.
macro_rules! attribute_columns {
    ($callback:ident $id:ident) => {
        $callback! {
            { 0 "parent_id" $id run }
            { 1 "key" utf8 d }
            { 2 "type" u8 }
            { 3 "str" utf8 d }
            { 4 "int" i64 d }
            { 5 "double" f64 }
            { 6 "bool" bool }
            { 7 "bytes" binary d }
            { 8 "ser" binary d }
        }
    };
}

/// The attributes of resources, scopes, log records and spans.
static ATTRS: &[Column] = attribute_columns!(column_list id);

/// The attributes of points, exemplars, events and links.
static DEEP_ATTRS: &[Column] = attribute_columns!(column_list wide_id);

static ATTR_GROUPS: &[ColumnGroup] = attribute_columns!(group_list id);

/// The lines of events of spans.
macro_rules! event_columns {
    ($callback:ident) => {
        $callback! {
            { 0 "id" wide_id delta }
            { 1 "parent_id" id run }
            { 2 "time_unix_nano" timestamp }
            { 3 "name" utf8 d }
            { 4 "dropped_attributes_count" u32 }
        }
    };
}

static SPAN_EVENTS: &[Column] = event_columns!(column_list);

static EVENT_GROUPS: &[ColumnGroup] = event_columns!(group_list);

/// The lines of links of spans.
macro_rules! link_columns {
    ($callback:ident) => {
        $callback! {
            { 0 "id" wide_id delta }
            { 1 "parent_id" id run }
            { 2 "trace_id" trace_id }
            { 3 "span_id" span_id }
            { 4 "trace_state" utf8 d }
            { 5 "dropped_attributes_count" u32 }
            { 6 "flags" u32 }
        }
    };
}

static SPAN_LINKS: &[Column] = link_columns!(column_list);

static LINK_GROUPS: &[ColumnGroup] = link_columns!(group_list);

/// The lines of points of gauges and sums.
macro_rules! number_point_columns {
    ($callback:ident) => {
        $callback! {
            { 0 "id" wide_id delta }
            { 1 "parent_id" id delta }
            { 2 "start_time_unix_nano" timestamp }
            { 3 "time_unix_nano" timestamp }
            { 4 "int_value" i64 }
            { 5 "double_value" f64 }
            { 6 "flags" u32 }
        }
    };
}

static NUMBER_POINTS: &[Column] = number_point_columns!(column_list);

static NUMBER_POINT_GROUPS: &[ColumnGroup] = number_point_columns!(group_list);

/// The lines of points of summaries.
macro_rules! summary_point_columns {
    ($callback:ident) => {
        $callback! {
            { 0 "id" wide_id delta }
            { 1 "parent_id" id delta }
            { 2 "start_time_unix_nano" timestamp }
            { 3 "time_unix_nano" timestamp }
            { 4 "count" u64 }
            { 5 "sum" f64 }
            { 6 "quantiles" list_f64 }
            { 7 "quantile_values" list_f64 }
            { 8 "flags" u32 }
        }
    };
}

static SUMMARY_POINTS: &[Column] = summary_point_columns!(column_list);

static SUMMARY_POINT_GROUPS: &[ColumnGroup] = summary_point_columns!(group_list);

/// The lines of points of histograms.
macro_rules! hist_point_columns {
    ($callback:ident) => {
        $callback! {
            { 0 "id" wide_id delta }
            { 1 "parent_id" id delta }
            { 2 "start_time_unix_nano" timestamp }
            { 3 "time_unix_nano" timestamp }
            { 4 "count" u64 }
            { 5 "bucket_counts" list_u64 }
            { 6 "explicit_bounds" list_f64 }
            { 7 "sum" f64 }
            { 8 "flags" u32 }
            { 9 "min" f64 }
            { 10 "max" f64 }
        }
    };
}

static HIST_POINTS: &[Column] = hist_point_columns!(column_list);

static HIST_POINT_GROUPS: &[ColumnGroup] = hist_point_columns!(group_list);

/// The lines of exemplars.
macro_rules! exemplar_columns {
    ($callback:ident) => {
        $callback! {
            { 0 "id" wide_id delta }
            { 1 "parent_id" wide_id delta }
            { 2 "time_unix_nano" timestamp }
            { 3 "int_value" i64 }
            { 4 "double_value" f64 }
            { 5 "span_id" span_id }
            { 6 "trace_id" trace_id }
        }
    };
}

static EXEMPLARS: &[Column] = exemplar_columns!(column_list);

static EXEMPLAR_GROUPS: &[ColumnGroup] = exemplar_columns!(group_list);

/// The columns of the tables of a kind, in their order; a column is named by its index here.
#[tactic(auto, unfolding(crate::specs::Columns::logs, crate::specs::Columns::spans, crate::specs::Columns::metrics, crate::specs::Columns::attrs, crate::specs::Columns::deep_attrs, crate::specs::Columns::span_events, crate::specs::Columns::span_links, crate::specs::Columns::number_points, crate::specs::Columns::summary_points, crate::specs::Columns::hist_points, crate::specs::Columns::exemplars))]
pub fn columns(kind: Kind) -> &'static [Column]
    ensures table { map described result.now ≡ columns_of kind }
    ensures width { length result.now ≡ width_of kind }
    ensures few { width_of kind < 2 ^ 32 }
{
    match kind {
        Kind::ResourceAttrs | Kind::ScopeAttrs | Kind::LogAttrs | Kind::SpanAttrs => ATTRS,
        Kind::NumberPointAttrs
        | Kind::SummaryPointAttrs
        | Kind::HistPointAttrs
        | Kind::NumberExemplarAttrs
        | Kind::HistExemplarAttrs
        | Kind::EventAttrs
        | Kind::LinkAttrs => DEEP_ATTRS,
        Kind::Metrics => METRICS,
        Kind::NumberPoints => NUMBER_POINTS,
        Kind::SummaryPoints => SUMMARY_POINTS,
        Kind::HistPoints => HIST_POINTS,
        Kind::NumberExemplars | Kind::HistExemplars => EXEMPLARS,
        Kind::Logs => LOGS,
        Kind::Spans => SPANS,
        Kind::SpanEvents => SPAN_EVENTS,
        Kind::SpanLinks => SPAN_LINKS,
    }
}

/// The groups of the columns of a kind, in their order.
#[tactic(auto, unfolding(crate::specs::Groups::grouped, crate::specs::Columns::logs, crate::specs::Columns::spans, crate::specs::Columns::metrics, crate::specs::Columns::attrs, crate::specs::Columns::deep_attrs, crate::specs::Columns::span_events, crate::specs::Columns::span_links, crate::specs::Columns::number_points, crate::specs::Columns::summary_points, crate::specs::Columns::hist_points, crate::specs::Columns::exemplars))]
pub fn column_groups(kind: Kind) -> &'static [ColumnGroup]
    ensures are { map group_in result.now ≡ grouped (columns_of kind) }
    ensures within { All (IsWithin (width_of kind)) result.now }
{
    match kind {
        Kind::ResourceAttrs
        | Kind::ScopeAttrs
        | Kind::LogAttrs
        | Kind::SpanAttrs
        | Kind::NumberPointAttrs
        | Kind::SummaryPointAttrs
        | Kind::HistPointAttrs
        | Kind::NumberExemplarAttrs
        | Kind::HistExemplarAttrs
        | Kind::EventAttrs
        | Kind::LinkAttrs => ATTR_GROUPS,
        Kind::Metrics => METRIC_GROUPS,
        Kind::NumberPoints => NUMBER_POINT_GROUPS,
        Kind::SummaryPoints => SUMMARY_POINT_GROUPS,
        Kind::HistPoints => HIST_POINT_GROUPS,
        Kind::NumberExemplars | Kind::HistExemplars => EXEMPLAR_GROUPS,
        Kind::Logs => LOG_GROUPS,
        Kind::Spans => SPAN_GROUPS,
        Kind::SpanEvents => EVENT_GROUPS,
        Kind::SpanLinks => LINK_GROUPS,
    }
}

/// What the cells of a column hold.
pub fn base_of(kind: Kind, column: u32) -> Base
    requires { column < width_of kind }
    ensures { result ≡ base_at kind column }
{
    columns(kind)[column as usize].base
}

/// How the ids of a column are stored where a schema names no other way.
pub fn coding_of(kind: Kind, column: u32) -> Coding
    requires { column < width_of kind }
    ensures { result ≡ coding_at kind column }
{
    columns(kind)[column as usize].coding
}
