//! What a filter keeps of a batch.
ghost use Rattle.std.specs.Prelude.{◌≡◌, true, false, IfNone, IfOk, IfSome};
ghost use Rattle.otap_checks.specs.Known.{KnowsAll};
ghost use Rattle.otap_checks.specs.Links.{links_of};
ghost use Rattle.otap_kept.specs.Clean.{AreCleanAndLight};
ghost use Rattle.otap_kept.specs.Kept.{is_ordered, kept, links_below};
ghost use Rattle.otap_kept.specs.Texts.{text_pair};

use crate::below::add_below;
use crate::main_ids::{main_ids, main_table};
use crate::main_rows::kept_rows;
use crate::text_pair::TextPair;
use crate::whose::Whose;
use otap_attrs::CheckRefusal;
use otap_cells::{LogicalTable, Rows, TableSet, main_of};
use otap_checks::{KnownIds, TableLink, known_ids, links_of};
use otlp_model::Signal;
use std::alloc::{AllocError, Global};

/// The tables that are kept of a batch; `None` where they aren't ordered. Takes n log n for n rows.
pub fn kept<R: Rows>(
    alloc: Global,
    signal: Signal,
    whose: Whose,
    pair: &TextPair<'_>,
    set: &TableSet<R>,
) -> Result<Option<TableSet<LogicalTable>>, AllocError>
    requires { AreCleanAndLight signal set.now }
    ensures kept { IfOk result (λ found. IfSome found (λ made. made ≡ kept signal whose (text_pair pair.now) set.now)) }
    ensures ordered { IfOk result (λ found. IfSome found (λ made. is_ordered signal whose (text_pair pair.now) set.now ≡ true)) }
    ensures unordered { IfOk result (λ found. IfNone found (is_ordered signal whose (text_pair pair.now) set.now ≡ false)) }
{
    let main = main_of(signal);
    let read = read_ids(alloc, signal, set)?;
    let places = kept_rows(alloc, signal, whose, pair, set, &read)?;
    let Some(ids) = main_ids(alloc, main, &read, &places)? else {
        return Ok(None);
    };
    let first = main_table(alloc, set, main, &read, &places, &ids)?;
    let mut tables = Vec::new(alloc);
    tables.push((main, first))?;
    add_below(alloc, &mut tables, set, &read, ids, below(signal))?;
    Ok(Some(TableSet { tables }))
}

/// The ids of the tables of a batch that is accepted.
fn read_ids<R: Rows>(
    alloc: Global,
    signal: Signal,
    set: &TableSet<R>,
) -> Result<KnownIds, AllocError>
    requires { AreCleanAndLight signal set.now }
    ensures { IfOk result (λ known. KnowsAll signal set.now known) }
{
    match known_ids(alloc, set, signal) {
        Ok(known) => Ok(known),
        Err(CheckRefusal::Memory(error)) => Err(error),
        Err(CheckRefusal::Defect { .. }) => unreachable!(),
    }
}

/// The links of a signal below that of its main table.
fn below(signal: Signal) -> &'static [TableLink]
    ensures { result.now ≡ links_below (links_of signal) }
{
    &links_of(signal)[1..]
}
