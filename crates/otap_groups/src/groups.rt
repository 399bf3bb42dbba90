//! The groups of main rows.
ghost use Rattle.std.specs.Prelude.{◌≡◌, ◌<◌, ◌≤◌, length, map, IfOk};
ghost use Rattle.otap_groups.specs.Disagree.{Disagree};
ghost use Rattle.otlp_model.specs.Limits.{weight_limit};

use crate::front::{FrontColumns, id_at};
use crate::level::Level;
use crate::reading::{Lookup, RowReader};
use otap_cells::{Rows, number_in, text_in};
use otlp_model::{Items, Pair, Resource, ResourceGroup, Scope, ScopeGroup};
use std::alloc::{AllocError, Global};

/// The main rows of a batch, where those of one id agree, the reader of their items, and where the pairs of resources and of scopes are found.
#[derive(Drop)]
pub struct Main<'a, R: Rows, S: RowReader, P: Lookup<Child = Pair>> {
    pub front: FrontColumns<'a, R>,
    pub items: S,
    pub resources: P,
    pub scopes: P,
    ghost same_rows: { S.cells items ≡ map (λ row. row.own) front },
    /// Rows of one id agree.
    ghost agree: { Disagree front → ⊥ },
}

impl<R: Rows, S: RowReader, P: Lookup<Child = Pair>> Main<'_, R, S, P> {
    ghost use Rattle.otap_groups.specs.Made.{group_of, groups_of, groups_weight, items_between, resource_of_row, scope_group_of, scope_groups_of, scope_of_row};

    /// The groups of the request, which weigh at most the limit. It goes over the rows once.
    #[tactic(auto, using(crate::proofs::FrontRows::whole), unfolding(crate::specs::Runs::runs, crate::specs::Groups::regrouped))]
    pub fn groups(&self, alloc: Global) -> Result<Items<ResourceGroup<S::Item>>, AllocError>
        requires light { groups_weight self.now ≤ weight_limit }
        ensures { IfOk result (λ groups. groups ≡ groups_of self.now) }
    {
        let mut groups = Items::new(alloc);
        let mut at = 0;
        let to = self.front.len();
        'groups: while at < to {
            let end = self.front.run(Level::Resource, at, to);
            groups.push(self.resource_group(alloc, at, end)?)?;
            at = end;
        }
        Ok(groups)
    }

    #[tactic(auto, using(crate::proofs::PartSteps::part_next), unfolding(crate::specs::Groups::resource_group))]
    fn resource_group(
        &self,
        alloc: Global,
        from: usize,
        to: usize,
    ) -> Result<ResourceGroup<S::Item>, AllocError>
        requires some { from < to }
        requires within { to ≤ length self.now.front }
        ensures { IfOk result (λ group. group ≡ group_of self.now from to) }
    {
        let resource = self.resource(alloc, from)?;
        let scopes = self.scope_groups(alloc, from, to)?;
        Ok(ResourceGroup { resource, scopes })
    }

    #[tactic(auto, unfolding(crate::specs::Runs::runs))]
    fn scope_groups(
        &self,
        alloc: Global,
        from: usize,
        to: usize,
    ) -> Result<Items<ScopeGroup<S::Item>>, AllocError>
        requires some { from < to }
        requires within { to ≤ length self.now.front }
        ensures { IfOk result (λ groups. groups ≡ scope_groups_of self.now from to) }
    {
        let mut groups = Items::new(alloc);
        let mut at = from;
        'groups: while at < to {
            let end = self.front.run(Level::Scope, at, to);
            groups.push(self.scope_group(alloc, at, end)?)?;
            at = end;
        }
        Ok(groups)
    }

    #[tactic(auto, using(crate::proofs::PartSteps::part_next))]
    fn scope_group(
        &self,
        alloc: Global,
        from: usize,
        to: usize,
    ) -> Result<ScopeGroup<S::Item>, AllocError>
        requires some { from < to }
        requires within { to ≤ length self.now.front }
        ensures { IfOk result (λ group. group ≡ scope_group_of self.now from to) }
    {
        let scope = self.scope(alloc, from)?;
        let items = self.items(alloc, from, to)?;
        Ok(ScopeGroup { scope, items })
    }

    #[tactic(auto, using(crate::proofs::PartSteps::part_next, crate::proofs::PartSteps::part_over, crate::proofs::FrontRows::own_of))]
    fn items(&self, alloc: Global, from: usize, to: usize) -> Result<Items<S::Item>, AllocError>
        requires { to ≤ length self.now.front }
        ensures { IfOk result (λ items. items ≡ items_between self.now from to) }
    {
        let mut items = Items::new(alloc);
        items.reserve(to.saturating_sub(from))?;
        'items: for place in from..to {
            let id = self.front.id(place);
            self.items.add(alloc, id, place, &mut items)?;
        }
        Ok(items)
    }

    fn resource(&self, alloc: Global, place: usize) -> Result<Resource, AllocError>
        requires { place < length self.now.front }
        ensures { IfOk result (λ resource. resource ≡ resource_of_row self.now place) }
    {
        let row = place as u64;
        let front = &self.front;
        let schema_url = text_in(alloc, front.rows, 2, row)?;
        let dropped = number_in(front.rows, 3, row);
        let pairs = self.resources.of(alloc, id_at(front.resource_ids, place))?;
        Ok(Resource {
            schema_url,
            dropped,
            pairs,
        })
    }

    fn scope(&self, alloc: Global, place: usize) -> Result<Scope, AllocError>
        requires { place < length self.now.front }
        ensures { IfOk result (λ scope. scope ≡ scope_of_row self.now place) }
    {
        let row = place as u64;
        let front = &self.front;
        let schema_url = text_in(alloc, front.rows, 8, row)?;
        let name = text_in(alloc, front.rows, 5, row)?;
        let version = text_in(alloc, front.rows, 6, row)?;
        let dropped = number_in(front.rows, 7, row);
        let pairs = self.scopes.of(alloc, id_at(front.scope_ids, place))?;
        Ok(Scope {
            schema_url,
            name,
            version,
            dropped,
            pairs,
        })
    }
}
