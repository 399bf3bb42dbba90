//! What tables of metrics mean, by their cells and ids, as functions that do nothing: each ensures a law of tables.
ghost use Rattle.std.specs.Prelude.{◌≡◌, List};
ghost use Rattle.otap_cells.specs.Tables.{Table};
ghost use Rattle.otap_checks.specs.Deciding.{CleanOrWrong, HaveByteCells};
ghost use Rattle.otap_metrics.specs.ReadingLaws.{ForTablesReadAs, IsWrongOnlyAs};
ghost use Rattle.otap_metrics.specs.Requests.{WrongMetrics, regrouped_metrics};

/// Law: whether something is wrong with the rows of tables can be decided, where each cell of bytes holds bytes.
pub fn clean_or_wrong()
    ensures { (tables : List Table) → HaveByteCells tables → CleanOrWrong (WrongMetrics tables) }
{}

/// Law: tables that have the cells and codings of others, where all ids of the others are given, make the same request, and what is
/// wrong with them is wrong with the others too. Their columns of ids may have other types.
pub fn cells_and_ids_decide()
    ensures wrong { ForTablesReadAs (λ tables others. IsWrongOnlyAs tables others) }
    ensures request { ForTablesReadAs (λ tables others. regrouped_metrics tables ≡ regrouped_metrics others) }
{}
