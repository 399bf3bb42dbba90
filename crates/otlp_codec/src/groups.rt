//! Resources, scopes, and the groups that hold them.

ghost use Rattle.std.specs.Prelude.{◌≡◌, OnOk, IfOk, IfErr};
ghost use Rattle.otlp_wire.specs.Wire.{value_of};
ghost use Rattle.otlp_messages.specs.declared.messages.FieldKind.TheVariants as kinds;
ghost use Rattle.otlp_messages.specs.declared.messages.Message.TheVariants as messages;
ghost use Rattle.otlp_codec.specs.Limits.{level_limit};
ghost use Rattle.otlp_messages.specs.Fine.{FineValue};
ghost use Rattle.otlp_codec.specs.PartRefusals.{RefusesValue};
ghost use Rattle.otlp_codec.specs.Groups.{resource_in, scope_in, scope_group_in, resource_group_in, groups_in};
ghost use Rattle.otlp_codec.specs.Steps.{no_resource, resource_step, resource_part_in, no_scope, scope_step, scope_part_in, no_scope_group, scope_group_step, no_resource_group, resource_group_step, request_step};
ghost use Rattle.otlp_codec.specs.lemmas.Passed.{resource_passes, scope_passes, scope_group_passes, resource_group_passes, request_passes};
ghost use Rattle.std.specs.Prelude.{[], ◌<◌, ◌^◌, IsTrue};
ghost use Rattle.lists.specs.Bytes.{is_real_text};
ghost use Rattle.otlp_model.specs.Real.{are_real_pairs, IsRealScopeGroup, IsRealResourceGroup};
ghost use Rattle.otlp_messages.specs.Canon.{canon};
ghost use Rattle.otlp_codec.specs.Canonical.{resource_rows, scope_rows, canon_scope_group, canon_resource_group};

use crate::cells::{take_text, take_uint32};
use crate::lengths::{len_bytes_row, len_more, len_one, len_pairs, len_varint_row};
use crate::part::{ItemMessage, Submessage, read_part, take_items, take_more, take_pairs};
use crate::pool::{Pool, Repeated};
use crate::refusal::ReadRefusal;
use crate::writing::{Spelled, write_more, write_one, write_pairs, write_text};
use otlp_messages::{Backward, Message};
use otlp_model::{Items, Resource, ResourceGroup, Scope, ScopeGroup, Text, add_capped, sum_capped};
use otlp_wire::{Field, Wire};
use std::alloc::{AllocError, Global};

impl Submessage for Resource {
    ghost named = { messages.Resource };

    ghost none = { no_resource };

    ghost step = { resource_step };

    ghost reads = { resource_in [] };

    ghost passes = { resource_passes };

    fn message() -> Message {
        Message::Resource
    }

    fn empty(alloc: Global) -> Self {
        Resource {
            schema_url: Text::new(alloc),
            dropped: 0,
            pairs: Items::new(alloc),
        }
    }

    fn take(&mut self, pool: &mut Pool, field: &Field<'_>) -> Result<(), ReadRefusal> {
        let value = &field.value;
        match field.number {
            1 => take_pairs(pool, &mut self.pairs, value),
            2 => take_uint32(&mut self.dropped, value),
            _ => Ok(()),
        }
    }
}

impl Submessage for Scope {
    ghost named = { messages.InstrumentationScope };

    ghost none = { no_scope };

    ghost step = { scope_step };

    ghost reads = { scope_in [] };

    ghost passes = { scope_passes };

    fn message() -> Message {
        Message::InstrumentationScope
    }

    fn empty(alloc: Global) -> Self {
        Scope {
            schema_url: Text::new(alloc),
            name: Text::new(alloc),
            version: Text::new(alloc),
            dropped: 0,
            pairs: Items::new(alloc),
        }
    }

    fn take(&mut self, pool: &mut Pool, field: &Field<'_>) -> Result<(), ReadRefusal> {
        let value = &field.value;
        match field.number {
            1 => take_text(pool.alloc(), &mut self.name, value),
            2 => take_text(pool.alloc(), &mut self.version, value),
            3 => take_pairs(pool, &mut self.pairs, value),
            4 => take_uint32(&mut self.dropped, value),
            _ => Ok(()),
        }
    }
}

impl<I: ItemMessage + Repeated> Submessage for ScopeGroup<I> {
    ghost named = { messages.ScopeGroup I.of };

    ghost none = { no_scope_group };

    ghost step = { scope_group_step I.reads };

    ghost reads = { scope_group_in I.reads };

    ghost passes = { scope_group_passes I.reads };

    fn message() -> Message {
        Message::ScopeGroup(I::of())
    }

    fn empty(alloc: Global) -> Self {
        ScopeGroup {
            scope: Scope::empty(alloc),
            items: Items::new(alloc),
        }
    }

    fn take(&mut self, pool: &mut Pool, field: &Field<'_>) -> Result<(), ReadRefusal> {
        let value = &field.value;
        match field.number {
            1 => take_scope(pool, &mut self.scope, value),
            2 => take_items(pool, &mut self.items, value),
            3 => take_text(pool.alloc(), &mut self.scope.schema_url, value),
            _ => Ok(()),
        }
    }
}

impl<I: ItemMessage + Repeated> Submessage for ResourceGroup<I> {
    ghost named = { messages.ResourceGroup I.of };

    ghost none = { no_resource_group };

    ghost step = { resource_group_step I.reads };

    ghost reads = { resource_group_in I.reads };

    ghost passes = { resource_group_passes I.reads };

    fn message() -> Message {
        Message::ResourceGroup(I::of())
    }

    fn empty(alloc: Global) -> Self {
        ResourceGroup {
            resource: Resource::empty(alloc),
            scopes: Items::new(alloc),
        }
    }

    fn take(&mut self, pool: &mut Pool, field: &Field<'_>) -> Result<(), ReadRefusal> {
        let value = &field.value;
        match field.number {
            1 => take_resource(pool, &mut self.resource, value),
            2 => take_more(pool, &mut self.scopes, value),
            3 => take_text(pool.alloc(), &mut self.resource.schema_url, value),
            _ => Ok(()),
        }
    }
}

impl<I: ItemMessage + Repeated> Submessage for Items<ResourceGroup<I>> {
    ghost named = { messages.Request I.of };

    ghost none = { [] };

    ghost step = { request_step I.reads };

    ghost reads = { groups_in I.reads };

    ghost passes = { request_passes I.reads };

    fn message() -> Message {
        Message::Request(I::of())
    }

    fn empty(alloc: Global) -> Self {
        Items::new(alloc)
    }

    fn take(&mut self, pool: &mut Pool, field: &Field<'_>) -> Result<(), ReadRefusal> {
        match field.number {
            1 => take_more(pool, self, &field.value),
            _ => Ok(()),
        }
    }
}

/// Reads the resource of a group, all but its schema url.
#[inline]
pub(crate) fn take_resource(
    pool: &mut Pool,
    to: &mut Resource,
    value: &Wire<'_>,
) -> Result<(), ReadRefusal>
    ensures ok { OnOk result (to.new ≡ resource_part_in to.old (value_of value.now)) }
    ensures fine { IfOk result (λ _. FineValue (kinds.Embedded messages.Resource) level_limit (value_of value.now)) }
    ensures fault { IfErr result (RefusesValue (kinds.Embedded messages.Resource) level_limit (value_of value.now)) }
{
    let Wire::Bytes(bytes) = value else {
        return Err(ReadRefusal::BadMessage);
    };
    let Resource {
        schema_url: _,
        dropped,
        pairs,
    } = read_part(pool, bytes)?;
    to.dropped = dropped;
    to.pairs = pairs;
    Ok(())
}

/// Reads the scope of a group, all but its schema url.
#[inline]
pub(crate) fn take_scope(
    pool: &mut Pool,
    to: &mut Scope,
    value: &Wire<'_>,
) -> Result<(), ReadRefusal>
    ensures ok { OnOk result (to.new ≡ scope_part_in to.old (value_of value.now)) }
    ensures fine { IfOk result (λ _. FineValue (kinds.Embedded messages.InstrumentationScope) level_limit (value_of value.now)) }
    ensures fault { IfErr result (RefusesValue (kinds.Embedded messages.InstrumentationScope) level_limit (value_of value.now)) }
{
    let Wire::Bytes(bytes) = value else {
        return Err(ReadRefusal::BadMessage);
    };
    let Scope {
        schema_url: _,
        name,
        version,
        dropped,
        pairs,
    } = read_part(pool, bytes)?;
    to.name = name;
    to.version = version;
    to.dropped = dropped;
    to.pairs = pairs;
    Ok(())
}

impl Spelled for Resource {
    ghost spelled = { λ resource. canon (resource_rows resource) };

    ghost is_real = { λ resource. (resource.dropped < 2 ^ 32) × IsTrue (are_real_pairs resource.pairs) };

    #[tactic(auto, using(otlp_messages::proofs::Keeping::keeps_more, otlp_messages::proofs::Keeping::keeps_four))]
    fn write(&self, to: &mut Backward) -> Result<(), AllocError> {
        to.put_varint_row(2, u64::from(self.dropped))?;
        write_pairs(to, 1, self.pairs.as_slice())?;
        Ok(())
    }

    fn len(&self) -> u64 {
        add_capped(
            len_pairs(1, self.pairs.as_slice()),
            len_varint_row(2, u64::from(self.dropped)),
        )
    }
}

impl Spelled for Scope {
    ghost spelled = { λ scope. canon (scope_rows scope) };

    ghost is_real = { λ scope. IsTrue (is_real_text scope.name) × IsTrue (is_real_text scope.version) × (scope.dropped < 2 ^ 32) × IsTrue (are_real_pairs scope.pairs) };

    #[tactic(auto, using(otlp_messages::proofs::Keeping::keeps_more, otlp_messages::proofs::Keeping::keeps_four))]
    fn write(&self, to: &mut Backward) -> Result<(), AllocError> {
        to.put_varint_row(4, u64::from(self.dropped))?;
        write_pairs(to, 3, self.pairs.as_slice())?;
        write_text(to, 2, &self.version)?;
        write_text(to, 1, &self.name)?;
        Ok(())
    }

    fn len(&self) -> u64 {
        sum_capped(&[
            len_bytes_row(1, self.name.as_slice()),
            len_bytes_row(2, self.version.as_slice()),
            len_pairs(3, self.pairs.as_slice()),
            len_varint_row(4, u64::from(self.dropped)),
        ])
    }
}

impl<I: Spelled> Spelled for ScopeGroup<I> {
    ghost spelled = { canon_scope_group I.spelled };

    ghost is_real = { IsRealScopeGroup I.is_real };

    #[tactic(auto, using(otlp_messages::proofs::Keeping::keeps_more, otlp_messages::proofs::Keeping::keeps_four))]
    fn write(&self, to: &mut Backward) -> Result<(), AllocError> {
        write_text(to, 3, &self.scope.schema_url)?;
        write_more(to, 2, self.items.as_slice())?;
        write_one(to, 1, &self.scope)?;
        Ok(())
    }

    fn len(&self) -> u64 {
        sum_capped(&[
            len_one(1, &self.scope),
            len_more(2, self.items.as_slice()),
            len_bytes_row(3, self.scope.schema_url.as_slice()),
        ])
    }
}

impl<I: Spelled> Spelled for ResourceGroup<I> {
    ghost spelled = { canon_resource_group I.spelled };

    ghost is_real = { IsRealResourceGroup I.is_real };

    #[tactic(auto, using(otlp_messages::proofs::Keeping::keeps_more, otlp_messages::proofs::Keeping::keeps_four))]
    fn write(&self, to: &mut Backward) -> Result<(), AllocError> {
        write_text(to, 3, &self.resource.schema_url)?;
        write_more(to, 2, self.scopes.as_slice())?;
        write_one(to, 1, &self.resource)?;
        Ok(())
    }

    fn len(&self) -> u64 {
        sum_capped(&[
            len_one(1, &self.resource),
            len_more(2, self.scopes.as_slice()),
            len_bytes_row(3, self.resource.schema_url.as_slice()),
        ])
    }
}
