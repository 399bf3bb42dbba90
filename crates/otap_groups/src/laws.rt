//! What the definitions mean, as functions that do nothing: each ensures a law for all rows.
ghost use Rattle.std.specs.Prelude.{◌≡◌, ◌+◌, ◌≤◌, ℕ, true, List, Option, length, map, sum_by, IsPermutation};
ghost use Rattle.std.specs.List.{flat_map};
ghost use Rattle.otlp_model.specs.Same.{SameItem, SameOften, SameTelemetry};
ghost use Rattle.otlp_model.specs.Telemetry.{Item, item_entries, groups_with_items, told_as};
ghost use Rattle.otlp_model.specs.declared.value.Pair.{Pair};
ghost use Rattle.otlp_model.specs.declared.groups.Resource.{Resource};
ghost use Rattle.otlp_model.specs.declared.groups.Scope.{Scope};
ghost use Rattle.otlp_model.specs.declared.groups.ResourceGroup.{ResourceGroup};
ghost use Rattle.otap_cells.specs.declared.payload.Kind.{Kind};
ghost use Rattle.otap_cells.specs.Cells.{Cell};
ghost use Rattle.otap_cells.specs.Columns.{is_id_at};
ghost use Rattle.otap_cells.specs.Limits.{wide_ids};
ghost use Rattle.otap_cells.specs.Tables.{Table, SameTable};
ghost use Rattle.otap_cells.specs.Weights.{weight_of_table};
ghost use Rattle.otap_groups.specs.Weighing.{cells_weight, parts_weight, rows_of_groups};
ghost use Rattle.otap_groups.specs.Rows.{ChildRow, MainRow};
ghost use Rattle.otap_groups.specs.Children.{Agree, ReadsEach, children, numbered};
ghost use Rattle.otap_groups.specs.Groups.{regrouped};
ghost use Rattle.otap_groups.specs.Flat.{flat_items, items_of, numbered_rows, part_rows, placed, resources_of, scopes_of};
ghost use Rattle.otap_groups.specs.Kinds.{IsMain, IsPart};
ghost use Rattle.otap_groups.specs.Stored.{IsMainRows, IsPairRows, IsPartRows, main_table, part_table};

/// Law: the rows that are written for a request make its groups that have items, where the items are read from their cells, and
/// the pairs of its resources and scopes are found by their numbers.
pub fn groups_come_back<I>()
    ensures { (cells_of : I → List Cell) (resources scopes : Option ℕ → List Pair) (item : Option ℕ → List Cell → I) (groups : List (ResourceGroup I))
        → ReadsEach numbered cells_of item 0 (items_of groups)
        → Agree resources 0 (map (λ (resource : Resource). resource.pairs) (resources_of groups))
        → Agree scopes 0 (map (λ (scope : Scope). scope.pairs) (scopes_of groups))
        → regrouped resources scopes item (numbered_rows cells_of 0 (flat_items groups)) ≡ groups_with_items groups }
{}

/// Law: the groups of these rows say the same as the groups that have items, where the items that are read say the same, and the
/// pairs are found in whatever order: `resources`, `scopes` and `item` find them in the order in which they were written.
pub fn groups_tell_the_same<I>()
    ensures { (kind : I → Item) (cells_of : I → List Cell) (resources found_resources scopes found_scopes : Option ℕ → List Pair)
        (item found_item : Option ℕ → List Cell → I) (groups : List (ResourceGroup I))
        → ReadsEach numbered cells_of item 0 (items_of groups)
        → Agree resources 0 (map (λ (resource : Resource). resource.pairs) (resources_of groups))
        → Agree scopes 0 (map (λ (scope : Scope). scope.pairs) (scopes_of groups))
        → ((id : Option ℕ) → SameOften (resources id) (found_resources id)) → ((id : Option ℕ) → SameOften (scopes id) (found_scopes id))
        → ((id : Option ℕ) (cells : List Cell) → SameItem (kind (item id cells)) (kind (found_item id cells)))
        → SameTelemetry (map (told_as kind) (item_entries (groups_with_items groups)))
        (map (told_as kind) (item_entries (regrouped found_resources found_scopes found_item (numbered_rows cells_of 0 (flat_items groups))))) }
{}

/// Law: the parts of each parent are found in the rows that are written for them.
pub fn parts_come_back<C>()
    ensures { (own : ℕ → Option ℕ) (cells_of : C → List Cell) (item : Option ℕ → List Cell → C) (lists : List (List C))
        → ReadsEach own cells_of item 0 (flat_map (λ parts. parts) lists) → Agree (children item (part_rows own cells_of 0 (placed lists))) 0 lists }
{}

/// Law: the order of rows doesn't count for how often a pair is found.
pub fn the_order_of_rows_does_not_count()
    ensures { (item : Option ℕ → List Cell → Pair) (xs ys : List ChildRow) → IsPermutation xs ys → (parent : Option ℕ)
        → SameOften (children item xs parent) (children item ys parent) }
{}

/// Law: tables with the same cells, stored alike, have the same rows.
pub fn rows_follow_from_cells()
    ensures main { (t u : Table) (xs ys : List MainRow) → SameTable t u → IsMain t.kind → IsMainRows t xs → IsMainRows u ys → xs ≡ ys }
    ensures parts { (t u : Table) (xs ys : List ChildRow) → SameTable t u → IsPart t.kind → IsPartRows t xs → IsPartRows u ys → xs ≡ ys }
    ensures pairs { (t u : Table) (xs ys : List ChildRow) → SameTable t u → is_id_at t.kind 0 ≡ true → IsPairRows t xs → IsPairRows u ys → xs ≡ ys }
{}

/// Law: the main table of a request has the rows that are written for it.
pub fn main_tables_have_their_rows<I>()
    ensures { (kind : Kind) (cells_of : I → List Cell) (groups : List (ResourceGroup I)) → IsMain kind → length (items_of groups) ≤ wide_ids
        → IsMainRows (main_table kind cells_of groups) (numbered_rows cells_of 0 (flat_items groups)) }
{}

/// Law: a table of parts has the rows that are written for them.
pub fn part_tables_have_their_rows<C>()
    ensures { (kind : Kind) (cells_of : C → List Cell) (lists : List (List C)) → IsPart kind
        → length lists ≤ wide_ids → length (flat_map (λ parts. parts) lists) ≤ wide_ids
        → IsPartRows (part_table kind cells_of lists) (part_rows numbered cells_of 0 (placed lists)) }
{}

/// Law: what written tables weigh, beside the weights that `rows_weight` returns without making them.
pub fn tables_weigh_their_rows<A>()
    ensures main { (kind : Kind) (cells_of : A → List Cell) (groups : List (ResourceGroup A))
        → weight_of_table (main_table kind cells_of groups) ≡ rows_of_groups (λ resource. 0) (λ scope. 0) (λ item. cells_weight (cells_of item)) groups }
    ensures parts { (kind : Kind) (cells_of : A → List Cell) (lists : List (List A))
        → weight_of_table (part_table kind cells_of lists) ≡ sum_by (parts_weight cells_of) lists }
    ensures apart { (of_resource : Resource → ℕ) (of_scope : Scope → ℕ) (own more : A → ℕ) (groups : List (ResourceGroup A))
        → rows_of_groups of_resource of_scope (λ item. own item + more item) groups
        ≡ sum_by of_resource (resources_of groups) + sum_by of_scope (scopes_of groups) + rows_of_groups (λ resource. 0) (λ scope. 0) own groups + sum_by more (items_of groups) }
{}
