//! What the far end reads of what is written. The functions do nothing: their contracts are the laws.

ghost use Rattle.std.specs.Prelude.{◌≡◌, ◌≤◌, ℕ, List, [], length, sum_by};
ghost use Rattle.lists.specs.EachAfter.{EachAfter};
ghost use Rattle.lists.specs.Payloads.{PayloadIn};
ghost use Rattle.otap_cells.specs.declared.payload.Kind.{Kind};
ghost use Rattle.otlp_model.specs.declared.request.Signal.{Signal};
ghost use Rattle.otap_cells.specs.Payload.{kinds_of};
ghost use Rattle.otap_cells.specs.Tables.{Table};
ghost use Rattle.otap_cells.specs.Weights.{row_weight_limit, weight_of_tables};
ghost use Rattle.arrow_arrays.specs.Written.{PartIn, batch_of_parts};
ghost use Rattle.otap_columns.specs.Limits.{dictionary_columns, record_limit, tables_limit, columns_limit, records_limit};
ghost use Rattle.otap_columns.specs.WrittenPayloads.{HoldsRows, IsReadAs, AreWrittenAs};
ghost use Rattle.otap_columns.specs.Schemas.{Forms, FormsFit, slots_for};
ghost use Rattle.otap_columns.specs.WrittenRows.{AreSlotParts, HasValues};

/// For every list of tables, the payloads that the policy gives them are read as just these tables: no record has a defect,
/// and the table of a payload has the cells, the codings and the ids of the one that was written. Its sub-stream
/// has the schema of the columns' forms.
pub fn far_end_reads()
    ensures { (kind : Kind) (tables : List Table) (payloads : List PayloadIn) → AreWrittenAs kind tables payloads → EachAfter (IsReadAs kind) [] [] tables payloads }
{}

/// A record batch that has a part for each slot of its schema holds the rows of the table: a struct without nulls, a column as
/// its form has it written, the elements of lists.
pub fn rows_are_held()
    ensures { (kind : Kind) (forms : Forms) (values : ℕ → List (List ℕ)) (t : Table) (parts : List PartIn) → FormsFit kind forms → t.kind ≡ kind → HasValues kind forms values t
        → AreSlotParts kind forms values t (slots_for kind forms) parts → HoldsRows kind forms values t (batch_of_parts (length t.rows) parts) }
{}

/// The records of tables that are within the row weight together have at most 418,525,472 bytes, where there are at most 13
/// tables, and at most 43 of their columns may be dictionaries. No signal has more.
pub fn records_fit_a_message()
    ensures bound { (tables : List Table) → weight_of_tables tables ≤ row_weight_limit → sum_by (λ t. dictionary_columns t.kind) tables ≤ columns_limit → length tables ≤ tables_limit
        → sum_by record_limit tables ≤ records_limit }
    ensures columns { (signal : Signal) → sum_by dictionary_columns (kinds_of signal) ≤ columns_limit }
    ensures tables { (signal : Signal) → length (kinds_of signal) ≤ tables_limit }
{}
