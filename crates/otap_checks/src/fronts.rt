//! The rows of a main table, with their ids.
ghost use Rattle.std.specs.Prelude.{◌≡◌, drop, map};
ghost use Rattle.otap_groups.specs.Kinds.{IsMain};
ghost use Rattle.otap_checks.specs.Known.{Knows};
ghost use Rattle.otap_checks.specs.Reading.{main_rows_in};

use crate::known::KnownIds;
use otap_cells::{Rows, shared_columns};
use otap_groups::FrontColumns;

/// The rows of a main table, with their ids.
pub fn front_of<'a, R: Rows>(rows: &'a R, known: &'a KnownIds) -> FrontColumns<'a, R>
    requires main { IsMain (R.table rows.now).kind }
    requires known { Knows (R.table rows.now) (R.table rows.now).kind known.now }
    ensures rows { result ≡ main_rows_in (R.table rows.now) }
    ensures own { map (drop 9) (R.table rows.now).rows ≡ map (λ row. row.own) result }
{
    let kind = rows.kind();
    FrontColumns::new(
        rows,
        known.of(kind, shared_columns::main::ID),
        known.of(kind, shared_columns::main::RESOURCE_ID),
        known.of(kind, shared_columns::main::SCOPE_ID),
    )
}
