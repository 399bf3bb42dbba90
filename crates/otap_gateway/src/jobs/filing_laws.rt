//! Laws of `file` and `unfile`: each is the contract of a function that does nothing.
ghost use Rattle.std.specs.Prelude.{◌≡◌, ◌<◌, ◌∷◌, ℕ, List, All};
ghost use Rattle.otap_cells.specs.declared.payload.Kind.{Kind};
ghost use Rattle.otap_cells.specs.Tables.{Table};
ghost use Rattle.otap_consume.specs.Outcomes.{Outcome};
ghost use Rattle.otap_gateway.specs.FilesBack.{ComesBack};
ghost use Rattle.otap_gateway.specs.Filing.{IsFileOf, chosen};
ghost use Rattle.otap_gateway.specs.Reply.{ReplyText};
ghost use Rattle.otap_gateway.specs.Unfiling.{Unfiles};

use arrow_file::laws::{file_or_defect, one_file};
use otap_columns::laws::plain_payloads_are_read;

/// The file of a sub-stream comes back by `unfile` as the tables of its payloads, cell by cell.
pub fn files_come_back()
    ensures { (kind : Kind) (number : ℕ) (outcomes : List Outcome) (t : Table) (tables : List Table) (bytes : List ℕ)
        → chosen kind number outcomes ≡ t ∷ tables → IsFileOf t tables bytes → ComesBack t tables bytes }
{
    plain_payloads_are_read();
}

/// For all bytes there is just one reply of `unfile`.
pub fn one_unfiling()
    ensures one { (kind : Kind) (bytes : List ℕ) (reply other : ReplyText) → Unfiles kind bytes reply → Unfiles kind bytes other → reply ≡ other }
    ensures some { (kind : Kind) (bytes : List ℕ) → All (λ byte. byte < 256) bytes → (reply : ReplyText) × Unfiles kind bytes reply }
{
    one_file();
    file_or_defect();
}
