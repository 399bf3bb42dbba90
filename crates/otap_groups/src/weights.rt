//! What the groups of main rows weigh, without building anything.
ghost use Rattle.std.specs.Prelude.{◌≡◌, ◌<◌, ◌≤◌, length, min};
ghost use Rattle.otlp_model.specs.Limits.{count_cap, part_weight};
ghost use Rattle.otlp_model.specs.Weight.{total};
ghost use Rattle.otap_groups.specs.Made.{group_of, groups_weight, items_between, resource_of_row, scope_group_of, scope_groups_of, scope_of_row};
ghost use Rattle.otap_groups.specs.Weighing.{weigh_group, weigh_resource, weigh_scope, weigh_scope_group};

use crate::front::id_at;
use crate::groups::Main;
use crate::level::Level;
use crate::reading::{Lookup, RowReader};
use otap_cells::{Rows, bytes_in};
use otlp_model::{PART_WEIGHT, Pair, add_capped, sum_capped};

impl<R: Rows, S: RowReader, P: Lookup<Child = Pair>> Main<'_, R, S, P> {
    /// What the groups of the request weigh, with 32 for each, or `CAP` where it is more. It builds nothing.
    #[tactic(auto, using(crate::proofs::FrontRows::whole), unfolding(crate::specs::Runs::runs, crate::specs::Groups::regrouped))]
    pub fn weight(&self) -> u64
        ensures { result ≡ min (groups_weight self.now) count_cap }
    {
        let mut weight = 0;
        let mut at = 0;
        let to = self.front.len();
        'groups: while at < to {
            let end = self.front.run(Level::Resource, at, to);
            weight = add_capped(weight, add_capped(PART_WEIGHT, self.group_weight(at, end)));
            at = end;
        }
        weight
    }

    #[tactic(auto, using(crate::proofs::PartSteps::part_next), unfolding(crate::specs::Groups::resource_group))]
    fn group_weight(&self, from: usize, to: usize) -> u64
        requires some { from < to }
        requires within { to ≤ length self.now.front }
        ensures { result ≡ min (weigh_group P.weigh S.weigh (group_of self.now from to)) count_cap }
    {
        add_capped(
            self.resource_weight(from),
            self.scope_groups_weight(from, to),
        )
    }

    #[tactic(auto, unfolding(crate::specs::Runs::runs))]
    fn scope_groups_weight(&self, from: usize, to: usize) -> u64
        requires some { from < to }
        requires within { to ≤ length self.now.front }
        ensures { result ≡ min (total part_weight (weigh_scope_group P.weigh S.weigh) (scope_groups_of self.now from to)) count_cap }
    {
        let mut weight = 0;
        let mut at = from;
        'groups: while at < to {
            let end = self.front.run(Level::Scope, at, to);
            weight = add_capped(
                weight,
                add_capped(PART_WEIGHT, self.scope_group_weight(at, end)),
            );
            at = end;
        }
        weight
    }

    #[tactic(auto, using(crate::proofs::PartSteps::part_next))]
    fn scope_group_weight(&self, from: usize, to: usize) -> u64
        requires some { from < to }
        requires within { to ≤ length self.now.front }
        ensures { result ≡ min (weigh_scope_group P.weigh S.weigh (scope_group_of self.now from to)) count_cap }
    {
        add_capped(self.scope_weight(from), self.items_weight(from, to))
    }

    #[tactic(auto, using(crate::proofs::PartSteps::part_next, crate::proofs::PartSteps::part_over, crate::proofs::FrontRows::own_of))]
    fn items_weight(&self, from: usize, to: usize) -> u64
        requires { to ≤ length self.now.front }
        ensures { result ≡ min (total part_weight S.weigh (items_between self.now from to)) count_cap }
    {
        let mut weight = 0;
        'items: for place in from..to {
            let own = self.items.weight(self.front.id(place), place);
            weight = add_capped(weight, add_capped(PART_WEIGHT, own));
        }
        weight
    }

    fn resource_weight(&self, place: usize) -> u64
        requires { place < length self.now.front }
        ensures { result ≡ min (weigh_resource P.weigh (resource_of_row self.now place)) count_cap }
    {
        let front = &self.front;
        let id = id_at(front.resource_ids, place);
        sum_capped(&[
            bytes_in(front.rows, 2, place as u64).len() as u64,
            self.resources.weight_of(id),
        ])
    }

    fn scope_weight(&self, place: usize) -> u64
        requires { place < length self.now.front }
        ensures { result ≡ min (weigh_scope P.weigh (scope_of_row self.now place)) count_cap }
    {
        let front = &self.front;
        let id = id_at(front.scope_ids, place);
        let row = place as u64;
        sum_capped(&[
            bytes_in(front.rows, 8, row).len() as u64,
            bytes_in(front.rows, 5, row).len() as u64,
            bytes_in(front.rows, 6, row).len() as u64,
            self.scopes.weight_of(id),
        ])
    }
}
