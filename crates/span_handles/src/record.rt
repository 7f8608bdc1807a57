//! What is recorded on the span of a handle.
ghost use Rattle.std.specs.Prelude.{◌≡◌, ◌⊎◌, Some, None, IfOk, IsOk, IfSome, OnOk, OnErr};
ghost use Rattle.span_handles.specs.Handles.{IsKnown, HasOn, IsSite, AreOfOne, ReplacedOn, RecordsOn, RecordsField, FollowsOn, field_in};
ghost use Rattle.span_handles.specs.Knowing.{KeepsHandles};

use crate::calls;
use crate::span::Span;
use otel_base::list::Items;
use otel_base::memory::Memory;
use trace_base::callsite::SiteId;
use trace_base::dispatcher::Dispatch;
use trace_base::field::{AsField, Value, ValueSet};
use trace_base::span::Id;
use trace_base::subscriber::Subscriber;
use trace_base::world::World;

impl Span {
    /// Records the value of a field, and changes nothing where the callsite declares no such field; `Span::record`. There,
    /// and on a disabled handle, it takes no memory.
    pub fn record<S: Subscriber, Q: AsField>(
        &self,
        world: &mut World<S>,
        at: u64,
        field: &Q,
        value: Value,
    ) -> Result<&Self, Memory>
        requires known { IsKnown S.spans world.old self.now.held }
        requires site { IsSite world.old self.now.site }
        requires whole { HasOn (λ s id. S.is_whole s) world.old self.now.held }

        ensures value { IfOk result (λ handle. handle.now ≡ self.now) }
        // Memory is wanted only where something is recorded.
        ensures disabled { self.now.held ≡ None → IsOk result }
        ensures undeclared { field_in (Q.field_of field.now) world.old self.now.site ≡ None → IsOk result }
        ensures did { OnOk result
            (RecordsField S.does world.old world.new at
            (field_in (Q.field_of field.now) world.old self.now.site) value self.now) }
        ensures known { IsKnown S.spans world.new self.now.held }
        ensures keeps { KeepsHandles S.spans world.old world.new }
        ensures memory_leaves { OnErr result
            (ReplacedOn (λ id s t. S.same_but_room s t) world.old world.new self.now.held) }
    {
        let Some(found) = self.field(world, field) else {
            return Ok(self);
        };
        match &self.held {
            None => Ok(self),
            Some(_) => {
                let mut pairs = Items::new(world.allocator());
                pairs.push((found.place, value))?;
                self.record_all(world, at, &ValueSet { pairs })
            }
        }
    }

    /// Records the values of some fields; `Span::record_all`.
    pub fn record_all<S: Subscriber>(
        &self,
        world: &mut World<S>,
        at: u64,
        values: &ValueSet,
    ) -> Result<&Self, Memory>
        requires known { IsKnown S.spans world.old self.now.held }
        requires site { IsSite world.old self.now.site }
        requires whole { HasOn (λ s id. S.is_whole s) world.old self.now.held }

        ensures value { IfOk result (λ handle. handle.now ≡ self.now) }
        // Memory is wanted only where something is recorded.
        ensures disabled { self.now.held ≡ None → IsOk result }
        ensures no_callsite { self.now.site ≡ None → IsOk result }
        ensures did { OnOk result (RecordsOn S.does world.old world.new at values.now self.now) }
        ensures known { IsKnown S.spans world.new self.now.held }
        ensures keeps { KeepsHandles S.spans world.old world.new }
        ensures memory_leaves { OnErr result
            (ReplacedOn (λ id s t. S.same_but_room s t) world.old world.new self.now.held) }
    {
        if let Some((dispatch, id, site)) = self.held_and_site() {
            let (subscriber, callsite) = world.subscriber_and_site(dispatch, site);
            subscriber.record(id, at, callsite, values)?;
        }
        Ok(self)
    }

    /// What an enabled handle with a callsite records on: its subscriber, its span's id and its callsite, for who makes the
    /// values by the callsite that is looked up there.
    pub fn held_and_site(&self) -> Option<(Dispatch, Id, SiteId)>
        ensures some { IfSome result (λ found.
            (self.now.held ≡ Some (found.0, found.1)) × (self.now.site ≡ Some found.2)) }
        ensures none { result ≡ None → (self.now.held ≡ None) ⊎ (self.now.site ≡ None) }
    {
        match (&self.held, &self.site) {
            (Some((dispatch, id)), Some(site)) => Some((*dispatch, *id, *site)),
            _ => None,
        }
    }

    /// Records that the span follows from another, where both handles are enabled; `Span::follows_from`.
    pub fn follows_from<S: Subscriber>(
        &self,
        world: &mut World<S>,
        at: u64,
        from: &Span,
    ) -> Result<&Self, Memory>
        requires known { IsKnown S.spans world.old self.now.held }
        requires from_known { IsKnown S.spans world.old from.now.held }
        requires of_one { AreOfOne self.now.held from.now.held }
        requires whole { HasOn (λ s id. S.is_whole s) world.old self.now.held }

        ensures value { IfOk result (λ handle. handle.now ≡ self.now) }
        // Memory is wanted only where both handles are enabled.
        ensures disabled { self.now.held ≡ None → IsOk result }
        ensures from_disabled { from.now.held ≡ None → IsOk result }
        ensures did { OnOk result (FollowsOn S.does world.old world.new at self.now.held from.now.held) }
        ensures known { IsKnown S.spans world.new self.now.held }
        ensures keeps { KeepsHandles S.spans world.old world.new }
        ensures memory_leaves { OnErr result
            (ReplacedOn (λ id s t. S.same_but_room s t) world.old world.new self.now.held) }
    {
        if let Some((dispatch, id)) = &self.held {
            if let Some((_, from)) = &from.held {
                calls::follow(world, *dispatch, *id, *from, at)?;
            }
        }
        Ok(self)
    }
}
