//! What the definitions mean, as functions that do nothing: each ensures a law for all tables.
ghost use Rattle.std.specs.Prelude.{◌≡◌, ℕ, ◌⊎◌, true, All, List, Option};
ghost use Rattle.otlp_model.specs.declared.request.Signal.{Signal};
ghost use Rattle.otap_attrs.specs.declared.refusal.RowRefusal.{RowRefusal};
ghost use Rattle.otap_cells.specs.Columns.{is_id_at};
ghost use Rattle.otap_cells.specs.GivenIds.{ReadsAs, ReadAs};
ghost use Rattle.otap_cells.specs.Named.{table_named};
ghost use Rattle.otap_cells.specs.Tables.{Table};
ghost use Rattle.otap_cells.specs.declared.payload.Kind.{Kind};
ghost use Rattle.otap_checks.specs.Deciding.{CleanOrWrong, HasByteCells, HaveByteCells};
ghost use Rattle.otap_checks.specs.IdDefects.{IdDefect};
ghost use Rattle.otap_attrs.specs.Index.{pairs_in};
ghost use Rattle.otap_checks.specs.Reading.{Disagrees, HasAllIds, main_rows_in};
ghost use Rattle.otap_attrs.specs.Defects.{WrongValue};
ghost use Rattle.otap_checks.specs.RowDefects.{RowDefect};

/// Law: nothing is wrong with the rows of tables, or something is: with their ids, their values, and rows of one id.
pub fn clean_or_wrong()
    ensures ids { (of : Signal) (tables : List Table) → CleanOrWrong (IdDefect of tables) }
    ensures values { (t : Table) (column : ℕ) → HasByteCells t → ((why : RowRefusal) → WrongValue t column why → ⊥) ⊎ ((why : RowRefusal) × WrongValue t column why) }
    ensures alike { (t : Table) → Disagrees t ⊎ (Disagrees t → ⊥) }
{}

/// Law: tables that read as others, whose ids are given, have nothing wrong with their ids that isn't wrong with the others'.
pub fn ids_read_alike()
    ensures { (of : Signal) (tables others : List Table) → ReadAs tables others → All HasAllIds others
        → (kind : Kind) (why : RowRefusal) → IdDefect of tables kind why → IdDefect of others kind why }
{}

/// Law: a table that reads as another one, whose ids are given, has the same rows and pairs, and nothing wrong with its
/// values, or between its rows of one id, that isn't wrong with the other.
pub fn rows_read_alike()
    ensures rows { (a b : Table) → ReadsAs a b → HasAllIds b → is_id_at b.kind 0 ≡ true → is_id_at b.kind 1 ≡ true → is_id_at b.kind 4 ≡ true
        → main_rows_in a ≡ main_rows_in b }
    ensures pairs { (a b : Table) → ReadsAs a b → HasAllIds b → is_id_at b.kind 0 ≡ true → (parent : Option ℕ) → pairs_in a parent ≡ pairs_in b parent }
    ensures alike { (a b : Table) → ReadsAs a b → HasAllIds b → is_id_at b.kind 1 ≡ true → is_id_at b.kind 4 ≡ true → Disagrees a → Disagrees b }
    ensures values { (a b : Table) → ReadsAs a b → (column : ℕ) (why : RowRefusal) → WrongValue a column why → WrongValue b column why }
    ensures named { (tables others : List Table) (kind : Kind) → ReadAs tables others → ReadsAs (table_named kind tables) (table_named kind others) }
{}

/// Law: nothing is wrong with the rows of a signal's tables, or something is. What is wrong with tables that read as others, whose
/// ids are given, is wrong with the others.
pub fn row_defects_are_decided()
    ensures decided { (of : Signal) (tables : List Table) → HaveByteCells tables → CleanOrWrong (RowDefect of tables) }
    ensures alike { (of : Signal) (tables others : List Table) → ReadAs tables others → All HasAllIds others
        → (kind : Kind) (why : RowRefusal) → RowDefect of tables kind why → RowDefect of others kind why }
{}
