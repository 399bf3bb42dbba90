//! What the definitions mean, as functions that do nothing: each ensures a law for all rows.
ghost use Rattle.std.specs.Prelude.{◌≡◌, ◌≤◌, List, true, length, sum_by, IsPermutation, IsTrue};
ghost use Rattle.otlp_model.specs.Depth.{depth_of};
ghost use Rattle.otlp_model.specs.Limits.{depth_limit};
ghost use Rattle.otlp_model.specs.Real.{is_real_value};
ghost use Rattle.otlp_model.specs.declared.value.Pair.{Pair};
ghost use Rattle.otlp_model.specs.declared.value.Value.{Value};
ghost use Rattle.otap_cells.specs.declared.payload.Kind.{Kind};
ghost use Rattle.otap_cells.specs.Continuing.{has_attributes};
ghost use Rattle.otap_cells.specs.Limits.{wide_ids};
ghost use Rattle.otap_cells.specs.Weights.{weight_of_table};
ghost use Rattle.otap_groups.specs.Children.{unnumbered};
ghost use Rattle.otap_groups.specs.Flat.{part_rows, placed};
ghost use Rattle.otap_groups.specs.Rows.{ChildRow};
ghost use Rattle.otap_groups.specs.Stored.{IsPairRows};
ghost use Rattle.otap_groups.specs.Weighing.{parts_weight};
ghost use Rattle.otap_attrs.specs.declared.refusal.RowRefusal.{RowRefusal};
ghost use Rattle.otap_attrs.specs.Tables.{attribute_table};
ghost use Rattle.otap_attrs.specs.Values.{BadValue, pair_cells, value_cells, value_in};

/// Law: a value comes back from the cells that are written for it, with which nothing is wrong.
pub fn written_values_come_back()
    ensures again { (value : Value) → IsTrue (is_real_value value) → depth_of value ≤ depth_limit → value_in (value_cells value) ≡ value }
    ensures fine { (value : Value) → IsTrue (is_real_value value) → depth_of value ≤ depth_limit → (why : RowRefusal) → BadValue (value_cells value) why → ⊥ }
{}

/// Law: the table that is written for the pairs of parents has a row for each pair, though in another order, and its parents
/// are theirs.
pub fn attribute_tables_have_their_rows()
    ensures { (kind : Kind) (lists : List (List Pair)) → has_attributes kind ≡ true → length lists ≤ wide_ids
        → (rows : List ChildRow) × IsPairRows (attribute_table kind lists) rows × IsPermutation (part_rows unnumbered pair_cells 0 (placed lists)) rows }
{}

/// Law: what the table that is written for the pairs of parents weighs.
pub fn attribute_tables_weigh_their_rows()
    ensures { (kind : Kind) (lists : List (List Pair)) → weight_of_table (attribute_table kind lists) ≡ sum_by (parts_weight pair_cells) lists }
{}
