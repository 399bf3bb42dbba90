//! The request of main rows, which is built only where it isn't too heavy.
ghost use Rattle.std.specs.Prelude.{◌≡◌, ◌≤◌, IfErr, IfOk};
ghost use Rattle.otlp_model.specs.Limits.{weight_limit};
ghost use Rattle.otap_attrs.specs.declared.refusal.CheckRefusal.TheVariants as check;
ghost use Rattle.otap_groups.specs.Made.{groups_of, groups_weight};
ghost use Rattle.otap_groups.specs.Weighing.{weigh_groups};
ghost use Rattle.otap_checks.specs.Refusing.{Nothing};
ghost use Rattle.otap_checks.specs.Regrouping.{RefusesRegroup};
ghost use Rattle.otap_checks.specs.declared.regrouping.RegroupRefusal.TheVariants as regroup;

use otap_attrs::CheckRefusal;
use otap_cells::Rows;
use otap_groups::{Lookup, Main, RowReader};
use otlp_model::{Items, MAX_TREE_WEIGHT, Pair, ResourceGroup};
use std::alloc::{AllocError, Global};
use thiserror::Error;

/// Why the tables of a batch make no request.
#[derive(Debug, Drop, Error)]
pub enum RegroupRefusal {
    /// Something is wrong with their rows, or memory ran out.
    #[error("{0}")]
    Rows(CheckRefusal),
    /// Nothing is wrong with their rows, and their request weighs more than the limit.
    #[error("a request that weighs too much")]
    TooHeavy,
}

impl From<CheckRefusal> for RegroupRefusal {
    ghost from_gives = { λ refusal why. why ≡ regroup.Rows refusal };

    fn from(refusal: CheckRefusal) -> RegroupRefusal {
        RegroupRefusal::Rows(refusal)
    }
}

impl From<AllocError> for RegroupRefusal {
    ghost from_gives = { λ error why. why ≡ regroup.Rows (check.Memory error) };

    fn from(error: AllocError) -> RegroupRefusal {
        RegroupRefusal::Rows(CheckRefusal::Memory(error))
    }
}

/// The groups of a request, and what they weigh.
#[derive(Debug, Drop)]
pub struct Grouped<I> {
    pub groups: Items<ResourceGroup<I>>,
    /// What the request weighs.
    pub tree: u64,
}

/// The groups of main rows, and what they weigh, with 32 for each group. They are weighed first, and built only where they weigh
/// at most the limit.
pub fn groups_within<R: Rows, S: RowReader, P: Lookup<Child = Pair>>(
    alloc: Global,
    main: &Main<'_, R, S, P>,
) -> Result<Grouped<S::Item>, RegroupRefusal>
    ensures groups { IfOk result (λ made. made.groups ≡ groups_of main.now) }
    ensures tree { IfOk result (λ made. made.tree ≡ weigh_groups P.weigh S.weigh made.groups) }
    ensures light { IfOk result (λ made. made.tree ≤ weight_limit) }
    ensures refused { IfErr result (RefusesRegroup Nothing (groups_weight main.now)) }
{
    let tree = main.weight();
    if tree > MAX_TREE_WEIGHT {
        return Err(RegroupRefusal::TooHeavy);
    }
    let groups = main.groups(alloc)?;
    Ok(Grouped { groups, tree })
}
