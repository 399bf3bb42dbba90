//! What the definitions say of one another. The functions do nothing: their contracts are the laws.

ghost use Rattle.std.specs.Prelude.{◌≡◌, ◌+◌, ◌<◌, ◌≤◌, ◌++◌, ◌∷◌, [], true, false, if◌then◌else◌, ℕ, ℤ, List, length, slice_get, None, Some};
ghost use Rattle.arrow_ipc.specs.declared.messages.IpcMessage.{IpcMessage};
ghost use Rattle.arrow_ipc.specs.Fronts.{front_of};
ghost use Rattle.otap_cells.specs.declared.payload.Kind.{Kind};
ghost use Rattle.otap_columns.specs.declared.refusal.ColumnRefusal.{ColumnRefusal};
ghost use Rattle.otap_columns.specs.declared.reader.dictionary.TheConstants.{HELD_UNIT, MAX_VALUES};
ghost use Rattle.otap_columns.specs.declared.reader.ends.TheConstants.{MAX_KEPT};
ghost use Rattle.otap_columns.specs.declared.reader.view.TheConstants.{COLUMN_ROOM};
ghost use Rattle.otap_cells.specs.Limits.{column_limit};
ghost use Rattle.otap_columns.specs.Limits.{dictionary_limit, held_unit, kept_limit};
ghost use Rattle.otap_columns.specs.Records.{IsRead, Stands, CanGoOn, IsJudged};
ghost use Rattle.otap_columns.specs.Schemas.{Forms, is_present, FormsFit, item_in, schema_for, slots_for, IsArraySlot, IsFound};
ghost use Rattle.otap_columns.specs.Schemas.{Column, Items};
ghost use Rattle.otap_cells.specs.Groups.{Member};
ghost use Rattle.otap_columns.specs.Known.{known_column, place_at, columns_fit};
ghost use Rattle.otap_cells.specs.Columns.{column_at, has_dot, is_id_at, name_at, width_of};
ghost use Rattle.otap_cells.specs.Tables.{Table, coding_in};
ghost use Rattle.arrow_arrays.specs.Arrays.{arrays_of, path_of};
ghost use Rattle.std.specs.List.{join_with_byte, list_any};
ghost use Rattle.lists.specs.Payloads.{PayloadIn};
ghost use Rattle.arrow_arrays.specs.declared.spec.ArraySpec.{ArraySpec};
ghost use Rattle.arrow_schema.specs.declared.spec.ArrowType.{ArrowType};
ghost use Rattle.arrow_schema.specs.Readable.{IsReadable};
ghost use Rattle.otap_columns.specs.Streams.{is_of, opens, stream_of};
ghost use Rattle.arrow_schema.specs.declared.spec.FieldSpec.{FieldSpec};
ghost use Rattle.otap_columns.specs.Plain.{plain_schema};
ghost use Rattle.otap_columns.specs.PlainPayloads.{HoldsTable, IsReadAgain};
ghost use Rattle.otap_columns.specs.Substreams.{logical, schema_in};

/// A record that is read has no defect, and one that isn't has one, after nothing and after messages that have a schema.
pub fn read_or_refused()
    ensures one { (kind : Kind) (past : List IpcMessage) (bytes : List ℕ) → CanGoOn past → IsJudged kind past bytes }
    ensures never_both { (kind : Kind) (past : List IpcMessage) (bytes : List ℕ) (refusal : ColumnRefusal) → IsRead kind past bytes → Stands kind past bytes refusal → ⊥ }
{}

/// The constants are the limits: how many values a dictionary that is read has at most, how many bytes these have together, what is
/// held of a value beside its bytes. A view has room for as many columns as a table may have.
pub fn values_are_limited()
    ensures count { MAX_VALUES ≡ dictionary_limit }
    ensures bytes { MAX_KEPT ≡ kept_limit }
    ensures unit { HELD_UNIT ≡ held_unit }
    ensures columns { column_limit ≤ COLUMN_ROOM }
{}

/// A payload changes only the sub-stream of its own type: it opens another one, or its messages come after the open one's.
pub fn streams_grow_by_payloads()
    ensures other { (kind : ℤ) (before : List PayloadIn) (p : PayloadIn) → is_of kind p ≡ false → stream_of kind (before ++ p ∷ []) ≡ stream_of kind before }
    ensures own { (before : List PayloadIn) (p : PayloadIn) → stream_of p.kind (before ++ p ∷ []) ≡ (if opens before p then front_of p.bytes else stream_of p.kind before ++ front_of p.bytes) }
{}

/// An array is the column that its path names: the names of the path, joined by dots, are the column's own name. A path with a
/// name that holds a dot leads to no column.
pub fn paths_are_names()
    ensures named { (kind : Kind) (arrays : List ArraySpec) (place column : ℕ) → known_column kind arrays place ≡ Some column
        → (column < width_of kind) × (join_with_byte 46 (path_of arrays place) ≡ name_at kind column) }
    ensures known { (kind : Kind) (arrays : List ArraySpec) (place column : ℕ) → column < width_of kind → list_any has_dot (path_of arrays place) ≡ false
        → join_with_byte 46 (path_of arrays place) ≡ name_at kind column → known_column kind arrays place ≡ Some column }
    ensures dotted { (kind : Kind) (arrays : List ArraySpec) (place : ℕ) → list_any has_dot (path_of arrays place) ≡ true → known_column kind arrays place ≡ None }
{}

/// The columns of a table, each in a form that fits it, make a schema that can be read and whose columns fit the table. Each
/// array of the schema is a struct, a column or the elements of a column's lists, in this order; a column that is there is
/// found at its path, in its type and form, and no other is found.
pub fn columns_make_a_schema()
    ensures readable { (kind : Kind) (forms : Forms) → FormsFit kind forms → IsReadable (schema_for kind forms) }
    ensures fits { (kind : Kind) (forms : Forms) → FormsFit kind forms → columns_fit kind (arrays_of (schema_for kind forms)) ≡ true }
    ensures count { (kind : Kind) (forms : Forms) → FormsFit kind forms → length (arrays_of (schema_for kind forms)) ≡ length (slots_for kind forms) }
    ensures arrays { (kind : Kind) (forms : Forms) → FormsFit kind forms → (place : ℕ) (a : ArraySpec) → slice_get (arrays_of (schema_for kind forms)) place ≡ Some a → IsArraySlot kind forms place a }
    ensures items { (kind : Kind) (forms : Forms) → FormsFit kind forms → (place : ℕ) (m : Member) (item : ArrowType) → slice_get (slots_for kind forms) place ≡ Some (Column m)
        → item_in (column_at kind m.column).base ≡ Some item → slice_get (slots_for kind forms) (place + 1) ≡ Some (Items m.column) }
    ensures found { (kind : Kind) (forms : Forms) → FormsFit kind forms → (column : ℕ) → column < width_of kind → is_present (forms column) ≡ true → IsFound kind forms column }
    ensures absent { (kind : Kind) (forms : Forms) → FormsFit kind forms → (column : ℕ) → is_present (forms column) ≡ false → place_at kind (arrays_of (schema_for kind forms)) column ≡ None }
{}

/// Two schemas of the columns of a table are equal exactly where the columns have the same forms.
pub fn schemas_tell_forms()
    ensures told { (kind : Kind) (f g : Forms) → FormsFit kind f → FormsFit kind g → schema_for kind f ≡ schema_for kind g → (column : ℕ) → column < width_of kind → f column ≡ g column }
    ensures same { (kind : Kind) (f g : Forms) → FormsFit kind f → ((column : ℕ) → column < width_of kind → f column ≡ g column) → schema_for kind f ≡ schema_for kind g }
{}

/// A payload that holds a table plain is read again as that table, cell by cell, after whatever came before it; the ids of tables
/// that are read in one sub-stream are stored alike, so these tables have one plain schema.
pub fn plain_payloads_are_read()
    ensures again { (past : List PayloadIn) (t : Table) (p : PayloadIn) → HoldsTable past t p → IsReadAgain past t p }
    ensures one { (t u : Table) → t.kind ≡ u.kind → ((column : ℕ) → is_id_at t.kind column ≡ true → coding_in t column ≡ coding_in u column) → plain_schema t ≡ plain_schema u }
    ensures stream { (kind : Kind) (fields : List FieldSpec) (before after : List IpcMessage) (t u : Table) → schema_in before ≡ Some fields → schema_in after ≡ Some fields
        → logical kind before ≡ Some t → logical kind after ≡ Some u → plain_schema t ≡ plain_schema u }
{}
