//! Laws of the definitions that the contracts cite.

ghost use Rattle.std.specs.Prelude.{◌≡◌, ◌≤◌, ◌-◌, ◌⊎◌, ℕ, ℤ, true, List, length, map, Ok, IsTrue};
ghost use Rattle.flat_tables.specs.Tables.{TableIn, table_at};
ghost use Rattle.flat_tables.specs.Building.{Grows, StaysAt};
ghost use Rattle.arrow_schema.specs.declared.spec.FieldSpec.{FieldSpec};
ghost use Rattle.arrow_schema.specs.declared.refusal.SchemaRefusal.{SchemaRefusal};
ghost use Rattle.arrow_schema.specs.Limits.{max_depth, max_fields, max_fixed, max_size_before, max_written_fields, max_written_names};
ghost use Rattle.arrow_schema.specs.Trees.{count_of};
ghost use Rattle.arrow_schema.specs.Says.{SaysSchema};
ghost use Rattle.arrow_schema.specs.Readable.{IsReadable};
ghost use Rattle.arrow_schema.specs.Defects.{HasDefect};
ghost use Rattle.arrow_schema.specs.Reading.{schema_of};
ghost use Rattle.arrow_schema.specs.Writing.{names_of, widths_fit, encodings_named, IsSchemaTable, WritesSchema};
ghost use Rattle.arrow_schema.specs.Plain.{IsPlainSchema};
ghost use Rattle.arrow_schema.specs.Branches.{Branch, AreBranches, branch_fields, branch_size, branch_names, is_branch_named};
ghost use Rattle.arrow_schema.specs.Trees.{sum_of};
ghost use Rattle.arrow_schema.specs.declared.spec.ArrowType.{ArrowType};
ghost use Rattle.std.specs.List.{list_all};

use crate::spec::{MAX_DEPTH, MAX_FIELDS, MAX_FIXED};
use crate::writing::{MAX_SIZE_BEFORE, MAX_WRITTEN_FIELDS, MAX_WRITTEN_NAMES};

/// The limits have their values.
pub fn limits_hold()
    ensures fields { MAX_FIELDS ≡ max_fields }
    ensures depth { MAX_DEPTH ≡ max_depth }
    ensures fixed { MAX_FIXED ≡ max_fixed }
    ensures written_fields { MAX_WRITTEN_FIELDS ≡ max_written_fields }
    ensures written_names { MAX_WRITTEN_NAMES ≡ max_written_names }
    ensures size_before { MAX_SIZE_BEFORE ≡ max_size_before }
{}

/// A table says one schema within the limits and has no defect, or it has at least one defect and
/// says no such schema.
pub fn schema_or_defect()
    ensures one { (t : TableIn) (a b : List FieldSpec) → SaysSchema t a → IsReadable a → SaysSchema t b → IsReadable b → a ≡ b }
    ensures never_both { (t : TableIn) (schema : List FieldSpec) (defect : SchemaRefusal) → SaysSchema t schema → IsReadable schema → HasDefect t defect → ⊥ }
    ensures some { (t : TableIn) → ((schema : List FieldSpec) × SaysSchema t schema × IsReadable schema) ⊎ ((defect : SchemaRefusal) × HasDefect t defect) }
{}

/// Each schema that can be read can be added, where its names are short enough and its encodings
/// are named. What was added is read as that schema in the finished bytes, at its distance from
/// their end.
pub fn added_is_read()
    ensures few { (schema : List FieldSpec) → IsReadable schema → count_of schema ≤ max_written_fields }
    ensures widths { (schema : List FieldSpec) → IsReadable schema → IsTrue (widths_fit schema) }
    ensures again { (schema : List FieldSpec) (built bytes : List ℕ) (place : ℕ) → IsReadable schema
        → Grows built bytes → StaysAt (IsSchemaTable schema) built place
        → (t : TableIn) × (table_at bytes (length bytes - place) ≡ Ok t) × (schema_of t ≡ Ok schema) }
{}

/// The tables of a schema that is written read as plain: each field is nullable, no timestamp has a timezone, and there is no
/// custom metadata but the one pair that names an encoding.
pub fn written_schemas_are_plain()
    ensures { (fields : List FieldSpec) (bytes : List ℕ) (place : ℕ) (schema : TableIn) → WritesSchema fields bytes place
        → table_at bytes place ≡ Ok schema → IsPlainSchema schema }
{}

/// Any columns, and structs of columns, with names that differ, supported types and one type for
/// each dictionary id, make a schema that can be read: at most 128 fields, whatever is left out.
pub fn columns_are_readable()
    ensures readable { (types : ℤ → ArrowType) (branches : List Branch) → AreBranches types branches → IsReadable (branch_fields branches) }
    ensures count { (branches : List Branch) → count_of (branch_fields branches) ≡ sum_of (map branch_size branches) }
    ensures names { (branches : List Branch) → names_of (branch_fields branches) ≡ sum_of (map branch_names branches) }
    ensures encodings { (branches : List Branch) → list_all is_branch_named branches ≡ true → IsTrue (encodings_named (branch_fields branches)) }
{}
