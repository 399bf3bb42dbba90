//! What holds of the tables that a signal writes, as functions that do nothing: each ensures a law for all items.
ghost use Rattle.std.specs.Prelude.{◌≡◌, ◌≤◌, ◌+◌, ◌∷◌, All, Contains, List, filter, length, map, nat_lt, sum_by};
ghost use Rattle.otlp_model.specs.declared.groups.ResourceGroup.{ResourceGroup};
ghost use Rattle.otlp_model.specs.declared.request.Signal.{Signal};
ghost use Rattle.otap_cells.specs.Cells.{Cell};
ghost use Rattle.otap_cells.specs.Limits.{wide_ids};
ghost use Rattle.otap_cells.specs.Named.{table_named};
ghost use Rattle.otap_cells.specs.Payload.{kinds_of};
ghost use Rattle.otap_cells.specs.Weights.{weight_of_table, weight_of_tables};
ghost use Rattle.otap_cells.specs.declared.payload.Kind.{Kind};
ghost use Rattle.otap_groups.specs.Flat.{items_of};
ghost use Rattle.otap_groups.specs.ProfileTables.{IsProfileTable};
ghost use Rattle.otap_groups.specs.Stored.{main_table};
ghost use Rattle.otap_attrs.specs.declared.refusal.RowRefusal.{RowRefusal};
ghost use Rattle.otap_checks.specs.IdDefects.{IdDefect};
ghost use Rattle.otap_checks.specs.Links.{items, links_of};
ghost use Rattle.otap_checks.specs.Written.{AreApart, AreSound, HaveParentsIn, IsMainKind, Written, link_of, table_of, tables_written};

/// Law: each table that is written is the one of its kind, though it may be missing where it has no rows.
pub fn written_tables_are_named<I>()
    ensures main { (main : Kind) (cells_of : I → List Cell) (ws : List Written) (groups : List (ResourceGroup I)) → AreApart main ws
        → table_named main (tables_written main cells_of ws groups) ≡ main_table main cells_of groups }
    ensures below { (main : Kind) (cells_of : I → List Cell) (ws : List Written) (groups : List (ResourceGroup I)) → AreApart main ws
        → (w : Written) → Contains ws w → table_named w.kind (tables_written main cells_of ws groups) ≡ table_of w }
{}

/// Law: the kinds of the tables that are written, their weight, and that they are the profile's, by those of each.
pub fn written_tables_add_up<I>()
    ensures listed { (of : Signal) → kinds_of of ≡ map (λ link. link.kind) (links_of of) }
    ensures kinds { (main : Kind) (cells_of : I → List Cell) (ws : List Written) (groups : List (ResourceGroup I)) → AreApart main ws
        → map (λ t. t.kind) (tables_written main cells_of ws groups)
        ≡ main ∷ filter (λ kind. nat_lt 0 (length (table_named kind (tables_written main cells_of ws groups)).rows)) (map (λ w. w.kind) ws) }
    ensures weight { (main : Kind) (cells_of : I → List Cell) (ws : List Written) (groups : List (ResourceGroup I))
        → weight_of_tables (tables_written main cells_of ws groups)
        ≡ weight_of_table (main_table main cells_of groups) + sum_by (λ w. weight_of_table (table_of w)) ws }
    ensures profile { (main : Kind) (cells_of : I → List Cell) (ws : List Written) (groups : List (ResourceGroup I))
        → IsProfileTable (main_table main cells_of groups) → All (λ w. IsProfileTable (table_of w)) ws
        → All IsProfileTable (tables_written main cells_of ws groups) }
{}

/// Law: nothing is wrong with the ids of the tables that are written, where they hang together as a signal's do.
pub fn written_ids_are_fine<I>()
    ensures { (main : Kind) (cells_of : I → List Cell) (ws : List Written) (groups : List (ResourceGroup I)) → AreApart main ws
        → IsMainKind main → length (items_of groups) ≤ wide_ids → AreSound ws → HaveParentsIn main groups ws ws
        → (of : Signal) → links_of of ≡ items main ∷ map link_of ws
        → (kind : Kind) (wrong : RowRefusal) → IdDefect of (tables_written main cells_of ws groups) kind wrong → ⊥ }
{}
