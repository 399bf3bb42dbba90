//! What is wrong with the ids of a batch.
ghost use Rattle.std.specs.Prelude.{◌≡◌, true, false, All, IfErr, IfOk, OnOk};
ghost use Rattle.otap_attrs.specs.declared.refusal.RowRefusal.{RowRefusal};
ghost use Rattle.otap_checks.specs.declared.signals.TableLink.{TableLink};
ghost use Rattle.otap_checks.specs.IdDefects.{IdDefect};
ghost use Rattle.otap_checks.specs.Inside.{IsLost, KnownFault, KnownFaults, KnownWrong, OwnTwice};
ghost use Rattle.otap_checks.specs.Refusing.{IsClean, refused_as, RefusesCheck};
ghost use Rattle.otap_checks.specs.Known.{IsWeighed, KnowsAll};

use crate::known::{KnownIds, KnownRows, read_tables};
use crate::signals::{TableLink, links_of};
use otap_attrs::{CheckRefusal, RowRefusal, has_orphan};
use otap_cells::{IdFault, Kind, Rows, TableSet, has_twice};
use otlp_model::Signal;
use std::alloc::{AllocError, Global};

/// The ids of the tables of a batch, where nothing is wrong with them. Each column is read once. Takes n log n for n rows, and
/// time in proportion to them where ids and parents rise or count from 0.
pub fn known_ids<R: Rows>(
    alloc: Global,
    set: &TableSet<R>,
    signal: Signal,
) -> Result<KnownIds, CheckRefusal>
    ensures clean { OnOk result (IsClean (IdDefect signal set.now)) }
    ensures known { IfOk result (λ known. KnowsAll signal set.now known) }
    ensures err { IfErr result (RefusesCheck (IdDefect signal set.now)) }
{
    let known = known_rows(alloc, set, signal)?;
    Ok(known.ids)
}

/// The same ids, and what pairs weigh, of the tables of attributes for which it was found. Takes what `known_ids` takes, and time in
/// proportion to the bytes of keys, texts and nested values.
#[tactic(auto, using(crate::proofs::KnownTables::columns_refused))]
pub fn known_rows<R: Rows>(
    alloc: Global,
    set: &TableSet<R>,
    signal: Signal,
) -> Result<KnownRows, CheckRefusal>
    ensures clean { OnOk result (IsClean (IdDefect signal set.now)) }
    ensures known { IfOk result (λ known. KnowsAll signal set.now known.ids) }
    ensures weights { IfOk result (λ known. All (IsWeighed set.now) known.weights.items) }
    ensures err { IfErr result (RefusesCheck (IdDefect signal set.now)) }
{
    let links = links_of(signal);
    let known = read_tables(alloc, set, links)?;
    match check_links(alloc, &known.ids, links) {
        Ok(()) => Ok(known),
        Err(refusal) => Err(refusal),
    }
}

fn check_links(alloc: Global, known: &KnownIds, links: &[TableLink]) -> Result<(), CheckRefusal>
    ensures ok { OnOk result (All (λ (link : TableLink). (why : RowRefusal) → KnownFault known.now link why → ⊥) links.now) }
    ensures err { IfErr result (RefusesCheck (KnownFaults known.now links.now)) }
{
    'links: for place in 0..links.len() {
        check_link(alloc, known, &links[place])?;
    }
    Ok(())
}

fn check_link(alloc: Global, known: &KnownIds, link: &TableLink) -> Result<(), CheckRefusal>
    ensures ok { OnOk result ((why : RowRefusal) → KnownFault known.now link.now why → ⊥) }
    ensures err { IfErr result (RefusesCheck (KnownWrong known.now link.now)) }
{
    if has_id_twice(alloc, known, link)? {
        return Err(CheckRefusal::Defect {
            kind: link.kind,
            why: RowRefusal::Ids(IdFault::Duplicate),
        });
    }
    if has_lost_row(alloc, known, link)? {
        return Err(CheckRefusal::Defect {
            kind: link.kind,
            why: RowRefusal::Orphan,
        });
    }
    Ok(())
}

/// Whether two rows have one id.
fn has_id_twice(alloc: Global, known: &KnownIds, link: &TableLink) -> Result<bool, AllocError>
    ensures yes { IfOk result (λ found. found ≡ true → OwnTwice known.now link.now link.now.own) }
    ensures no { IfOk result (λ found. found ≡ false → OwnTwice known.now link.now link.now.own → ⊥) }
{
    let Some(column) = link.own else {
        return Ok(false);
    };
    let found = has_twice(alloc, known.of(link.kind, column))?;
    Ok(found)
}

/// Whether a row has a parent that isn't there.
fn has_lost_row(alloc: Global, known: &KnownIds, link: &TableLink) -> Result<bool, AllocError>
    ensures yes { IfOk result (λ found. found ≡ true → IsLost known.now link.now link.now.parents) }
    ensures no { IfOk result (λ found. found ≡ false → IsLost known.now link.now link.now.parents → ⊥) }
{
    let Some(above) = link.parents else {
        return Ok(false);
    };
    let parents = known.of(link.kind, above.column);
    let found = has_orphan(alloc, parents, known.of(above.of, above.at))?;
    Ok(found)
}

/// The refusal of a batch, where the rows of the table of a kind are refused.
pub fn refused(kind: Kind, why: RowRefusal) -> CheckRefusal
    ensures { result ≡ refused_as kind why }
{
    match why {
        RowRefusal::Memory(error) => CheckRefusal::Memory(error),
        why => CheckRefusal::Defect { kind, why },
    }
}
