//! What is kept, in terms of telemetry and of weights. The functions do nothing: their contracts are the laws.
ghost use Rattle.std.specs.Prelude.{◌≡◌, ◌≤◌, ◌^◌, ◌||◌, ℕ, true, false, All, IsPermutation, List, Option, filter, length, map, nat_lt};
ghost use Rattle.otlp_model.specs.declared.request.Signal.{Signal};
ghost use Rattle.otlp_model.specs.declared.value.Pair.{Pair};
ghost use Rattle.otap_attrs.specs.declared.refusal.RowRefusal.{RowRefusal};
ghost use Rattle.otap_attrs.specs.Index.{attribute_rows_in};
ghost use Rattle.otap_cells.specs.declared.payload.Kind.{Kind};
ghost use Rattle.otap_cells.specs.Continuing.{has_attributes};
ghost use Rattle.otap_cells.specs.Named.{table_named};
ghost use Rattle.otap_cells.specs.Payload.{is_kind, kinds_of, main_of};
ghost use Rattle.otap_cells.specs.Tables.{IsTable, Table};
ghost use Rattle.otap_cells.specs.Weights.{weight_of_tables};
ghost use Rattle.otap_checks.specs.Reading.{main_rows_in, part_rows_in};
ghost use Rattle.otap_checks.specs.RowDefects.{RowDefect};
ghost use Rattle.otap_groups.specs.Children.{numbered, unnumbered};
ghost use Rattle.otap_groups.specs.Flat.{part_rows};
ghost use Rattle.otap_groups.specs.Kinds.{IsPart};
ghost use Rattle.otap_groups.specs.ProfileTables.{IsProfileTable};
ghost use Rattle.otap_groups.specs.Rows.{ChildRow};
ghost use Rattle.otap_kept.specs.declared.whose.Whose.{Whose};
ghost use Rattle.otap_kept.specs.Clean.{AreCleanAndLight};
ghost use Rattle.otap_kept.specs.Falling.{HasPlainIds, SomeIdComesBack};
ghost use Rattle.otap_kept.specs.Filtered.{IsNoHeavier, MeansFilter};
ghost use Rattle.otap_kept.specs.Kept.{is_ordered, kept, kept_rows};
ghost use Rattle.otap_kept.specs.Rows.{own_cells, parts_under, renewed, under};
ghost use Rattle.otap_kept.specs.Tables.{kept_attributes, kept_parts};

/// Law: where its new numbers don't fall, the telemetry of what is kept of a batch is the filter of the batch's telemetry.
pub fn what_is_kept_tells_the_filter()
    ensures { (of : Signal) (by : Whose) (pair : Pair) (tables : List Table) → AreCleanAndLight of tables → is_ordered of by pair tables ≡ true
        → MeansFilter of by pair tables }
{}

/// Law: the request of what is kept weighs no more than that of the tables.
pub fn what_is_kept_is_no_heavier()
    ensures { (of : Signal) (by : Whose) (pair : Pair) (tables : List Table) → AreCleanAndLight of tables → is_ordered of by pair tables ≡ true
        → IsNoHeavier of by pair tables }
{}

/// Law: the rows that are kept weigh no more than those of the tables.
pub fn rows_are_no_heavier()
    ensures { (of : Signal) (by : Whose) (pair : Pair) (tables : List Table) → weight_of_tables (kept of by pair tables) ≤ weight_of_tables tables }
{}

/// Law: nothing is wrong with the rows of what is kept.
pub fn what_is_kept_has_no_defect()
    ensures { (of : Signal) (by : Whose) (pair : Pair) (tables : List Table) → AreCleanAndLight of tables → is_ordered of by pair tables ≡ true
        → (kind : Kind) (wrong : RowRefusal) → RowDefect of (kept of by pair tables) kind wrong → ⊥ }
{}

/// Law: what is kept of tables are tables of the profile, the main one first, then by ascending type those that have rows. The
/// main one has no more rows than that of the batch.
pub fn what_is_kept_can_be_written()
    ensures profile { (of : Signal) (by : Whose) (pair : Pair) (tables : List Table) → AreCleanAndLight of tables → All IsTable tables
        → is_ordered of by pair tables ≡ true → All IsProfileTable (kept of by pair tables) }
    ensures order { (of : Signal) (by : Whose) (pair : Pair) (tables : List Table) → map (λ t. t.kind) (kept of by pair tables)
        ≡ filter (λ kind. is_kind kind (main_of of) || nat_lt 0 (length (table_named kind (kept of by pair tables)).rows)) (kinds_of of) }
    ensures items { (of : Signal) (by : Whose) (pair : Pair) (tables : List Table)
        → length (table_named (main_of of) (kept of by pair tables)).rows ≤ length (table_named (main_of of) tables).rows }
{}

/// Law: what is kept isn't ordered exactly where, among the main rows that are kept, the id of a resource or of a scope comes back
/// after another one.
pub fn numbers_fall_where_an_id_comes_back()
    ensures falls { (of : Signal) (by : Whose) (pair : Pair) (tables : List Table) → is_ordered of by pair tables ≡ false
        → SomeIdComesBack (kept_rows of by pair tables) }
    ensures comes_back { (of : Signal) (by : Whose) (pair : Pair) (tables : List Table) → SomeIdComesBack (kept_rows of by pair tables)
        → is_ordered of by pair tables ≡ false }
{}

/// Law: what is kept is ordered where the main table stores neither the ids of resources nor those of scopes as they are.
pub fn only_plain_ids_fall()
    ensures { (of : Signal) (by : Whose) (pair : Pair) (tables : List Table) → AreCleanAndLight of tables → All IsTable tables
        → (HasPlainIds (table_named (main_of of) tables) → ⊥) → is_ordered of by pair tables ≡ true }
{}

/// Law: read by the definitions by which any table is read, the tables that are kept have the rows that are kept, with their new
/// numbers: main rows and parts in their order, and attributes in some order.
pub fn what_is_kept_reads_as_renewed()
    ensures main { (of : Signal) (by : Whose) (pair : Pair) (tables : List Table) → AreCleanAndLight of tables → is_ordered of by pair tables ≡ true
        → main_rows_in (table_named (main_of of) (kept of by pair tables)) ≡ renewed (kept_rows of by pair tables) }
    ensures parts { (kind : Kind) (ids : List (Option ℕ)) (rows : List ChildRow) → IsPart kind → length ids ≤ 2 ^ 32 → length rows ≤ 2 ^ 32
        → part_rows_in (kept_parts kind (parts_under ids rows)) ≡ part_rows numbered own_cells 0 (parts_under ids rows) }
    ensures attributes { (kind : Kind) (ids : List (Option ℕ)) (rows : List ChildRow) → has_attributes kind ≡ true → length ids ≤ 2 ^ 32
        → IsPermutation (part_rows unnumbered own_cells 0 (under ids rows)) (attribute_rows_in (kept_attributes kind (under ids rows))) }
{}
