//! What is wrong with the values of a table's rows.
ghost use Rattle.std.specs.Prelude.{All, IfErr, OnOk};
ghost use Rattle.otap_cells.specs.Named.{table_named};
ghost use Rattle.otap_attrs.specs.declared.refusal.RowRefusal.{RowRefusal};
ghost use Rattle.otap_attrs.specs.Values.{HasValueAt};
ghost use Rattle.otap_attrs.specs.Defects.{WrongValue};
ghost use Rattle.otap_checks.specs.Known.{IsWeighed};
ghost use Rattle.otap_checks.specs.Refusing.{RefusesCheck};
ghost use Rattle.otap_checks.specs.ValueDefects.{WrongValueOf};

use crate::checking::refused;
use crate::known::KnownRows;
use otap_attrs::{CheckRefusal, RowRefusal, check_value};
use otap_cells::{Kind, Rows, TableSet, shared_columns};

/// Returns what is wrong with the values of the table of a kind, whose columns begin at this one. It builds nothing.
pub fn check_values<R: Rows>(set: &TableSet<R>, kind: Kind, column: u32) -> Result<(), CheckRefusal>
    requires { HasValueAt kind column }
    ensures ok { OnOk result ((why : RowRefusal) → WrongValue (table_named kind set.now) column why → ⊥) }
    ensures err { IfErr result (RefusesCheck (WrongValueOf set.now kind column)) }
{
    let Some(rows) = set.get(kind) else {
        return Ok(());
    };
    match check_rows(rows, column) {
        Ok(()) => Ok(()),
        Err(why) => Err(refused(kind, why)),
    }
}

/// The same, but a table of attributes that was weighed isn't looked at again: nothing is wrong with its values.
pub(crate) fn check_unweighed_values<R: Rows>(
    set: &TableSet<R>,
    known: &KnownRows,
    kind: Kind,
    column: u32,
) -> Result<(), CheckRefusal>
    requires value { HasValueAt kind column }
    requires weights { All (IsWeighed set.now) known.now.weights.items }
    ensures ok { OnOk result ((why : RowRefusal) → WrongValue (table_named kind set.now) column why → ⊥) }
    ensures err { IfErr result (RefusesCheck (WrongValueOf set.now kind column)) }
{
    if let Some(_weights) = known.weights_of(kind) {
        if column == shared_columns::attribute::TYPE {
            return Ok(());
        }
    }
    check_values(set, kind, column)
}

fn check_rows<R: Rows>(rows: &R, column: u32) -> Result<(), RowRefusal>
    requires { HasValueAt (R.table rows.now).kind column }
    ensures ok { OnOk result ((why : RowRefusal) → WrongValue (R.table rows.now) column why → ⊥) }
    ensures err { IfErr result (WrongValue (R.table rows.now) column) }
{
    'rows: for row in 0..rows.rows() {
        check_value(rows, column, row)?;
    }
    Ok(())
}
