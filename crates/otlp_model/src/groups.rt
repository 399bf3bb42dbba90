ghost use Rattle.otlp_model.specs.Weight.{weight_of_resource, weight_of_scope, weight_of_scope_group, weight_of_resource_group};
ghost use Rattle.otlp_model.specs.Real.{IsRealResource, IsRealScope, IsRealScopeGroup, IsRealResourceGroup};
ghost use Rattle.otlp_model.specs.Profile.{IsProfileResource, IsProfileScope, IsProfileScopeGroup, IsProfileResourceGroup};
ghost use Rattle.otlp_model.specs.Same.{SameResource, SameScope};

use crate::limits::sum_capped;
use crate::profile::{Profiled, all_profile};
use crate::sameness::{Alike, same_pairs};
use crate::value::Pair;
use crate::weights::{HasWeight, PART_WEIGHT, pairs_weight, parts_weight};
use lists::{Items, Text};

/// What telemetry comes from (OTLP `Resource`, with the schema url of its `ResourceSpans`, `ResourceLogs` or
/// `ResourceMetrics`).
#[derive(Debug, Drop)]
pub struct Resource {
    pub schema_url: Text,
    pub dropped: u32,
    pub pairs: Items<Pair>,
}

/// The instrumentation that recorded it (OTLP `InstrumentationScope`, with the schema url of its `ScopeSpans`,
/// `ScopeLogs` or `ScopeMetrics`).
#[derive(Debug, Drop)]
pub struct Scope {
    pub schema_url: Text,
    pub name: Text,
    pub version: Text,
    pub dropped: u32,
    pub pairs: Items<Pair>,
}

/// The items of one scope: spans, log records or metrics.
#[derive(Debug, Drop)]
pub struct ScopeGroup<I> {
    pub scope: Scope,
    pub items: Items<I>,
}

/// The scope groups of one resource.
#[derive(Debug, Drop)]
pub struct ResourceGroup<I> {
    pub resource: Resource,
    pub scopes: Items<ScopeGroup<I>>,
}

impl HasWeight for Resource {
    ghost weight_of = { weight_of_resource };

    ghost is_real = { IsRealResource };

    fn weight(&self) -> u64 {
        let _dropped = self.dropped;
        sum_capped(&[
            self.schema_url.weight(),
            pairs_weight(self.pairs.as_slice()),
        ])
    }
}

impl HasWeight for Scope {
    ghost weight_of = { weight_of_scope };

    ghost is_real = { IsRealScope };

    fn weight(&self) -> u64 {
        let _dropped = self.dropped;
        sum_capped(&[
            self.schema_url.weight(),
            self.name.weight(),
            self.version.weight(),
            pairs_weight(self.pairs.as_slice()),
        ])
    }
}

impl<I: HasWeight> HasWeight for ScopeGroup<I> {
    ghost weight_of = { weight_of_scope_group I.weight_of };

    ghost is_real = { IsRealScopeGroup I.is_real };

    fn weight(&self) -> u64 {
        sum_capped(&[
            self.scope.weight(),
            parts_weight(PART_WEIGHT, self.items.as_slice()),
        ])
    }
}

impl<I: HasWeight> HasWeight for ResourceGroup<I> {
    ghost weight_of = { weight_of_resource_group I.weight_of };

    ghost is_real = { IsRealResourceGroup I.is_real };

    fn weight(&self) -> u64 {
        sum_capped(&[
            self.resource.weight(),
            parts_weight(PART_WEIGHT, self.scopes.as_slice()),
        ])
    }
}

impl Profiled for Resource {
    ghost within = { IsProfileResource };

    fn is_profile(&self) -> bool {
        all_profile(&self.pairs)
    }
}

impl Profiled for Scope {
    ghost within = { IsProfileScope };

    fn is_profile(&self) -> bool {
        all_profile(&self.pairs)
    }
}

impl<I: Profiled> Profiled for ScopeGroup<I> {
    ghost within = { IsProfileScopeGroup I.within };

    fn is_profile(&self) -> bool {
        self.scope.is_profile() && all_profile(&self.items)
    }
}

impl<I: Profiled> Profiled for ResourceGroup<I> {
    ghost within = { IsProfileResourceGroup I.within };

    fn is_profile(&self) -> bool {
        self.resource.is_profile() && all_profile(&self.scopes)
    }
}

impl Alike for Resource {
    ghost alike = { SameResource };

    fn is_same(&self, other: &Self) -> bool {
        self.dropped == other.dropped
            && self.schema_url.as_slice() == other.schema_url.as_slice()
            && same_pairs(self.pairs.as_slice(), other.pairs.as_slice())
    }
}

impl Alike for Scope {
    ghost alike = { SameScope };

    fn is_same(&self, other: &Self) -> bool {
        self.schema_url.as_slice() == other.schema_url.as_slice()
            && self.name.as_slice() == other.name.as_slice()
            && self.version.as_slice() == other.version.as_slice()
            && self.dropped == other.dropped
            && same_pairs(self.pairs.as_slice(), other.pairs.as_slice())
    }
}
