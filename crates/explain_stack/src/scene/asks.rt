//! What handles in a scene ask of the OpenTelemetry layer, and events.
ghost use Rattle.std.specs.Prelude.{◌≡◌, ◌<◌, length, OnOk, OnErr};
ghost use Rattle.trace_base.specs.Calls.{Event};
ghost use Rattle.trace_base.specs.Conditions.{IsLiveParent};
ghost use Rattle.span_handles.specs.Worlds.{Has, Replaced};
ghost use Rattle.span_handles.specs.Handles.{IsKnown};
ghost use Rattle.explain_stack.specs.Order.{SceneInOrder, KeepsScene};

use crate::scene::Scene;
use crate::stack::Stack;
use otel_base::context::{Context, SpanContext};
use otel_base::memory::Memory;
use otel_base::status::Status;
use otel_layer::span_ext::OpenTelemetrySpanExt;
use otel_state::op::SetParentError;
use span_handles::span::Span;
use trace_base::callsite::SiteId;
use trace_base::dispatcher::Dispatch;
use trace_base::field::ValueSet;
use trace_base::lane::Lane;
use trace_base::span::Parent;
use trace_base::subscriber::Subscriber;
use trace_base::world::World;

impl<S: Stack> Scene<S> {
    /// Sets the parent of a span.
    pub fn set_parent(
        &mut self,
        at: u64,
        span: &Span,
        context: Context,
    ) -> Result<(), SetParentError>
        requires order { SceneInOrder S.spans S.kept S.is_whole self.old }
        requires known { IsKnown S.spans self.old.world span.now.held }
        ensures keeps { KeepsScene S.spans S.kept S.is_whole self.old self.new }
    {
        span.set_parent(&mut self.world, at, context)
    }

    /// Links a span to another.
    pub fn link(&mut self, at: u64, span: &Span, context: SpanContext) -> Result<(), Memory>
        requires order { SceneInOrder S.spans S.kept S.is_whole self.old }
        requires known { IsKnown S.spans self.old.world span.now.held }
        ensures keeps { KeepsScene S.spans S.kept S.is_whole self.old self.new }
    {
        span.add_link(&mut self.world, at, context)
    }

    /// Starts a span, and answers its own context.
    pub fn context(&mut self, at: u64, span: &Span) -> Context
        requires order { SceneInOrder S.spans S.kept S.is_whole self.old }
        requires known { IsKnown S.spans self.old.world span.now.held }
        ensures keeps { KeepsScene S.spans S.kept S.is_whole self.old self.new }
    {
        span.context(&mut self.world, at)
    }

    /// Writes a status on a span.
    pub fn set_status(&mut self, at: u64, span: &Span, status: Status)
        requires order { SceneInOrder S.spans S.kept S.is_whole self.old }
        requires known { IsKnown S.spans self.old.world span.now.held }
        ensures keeps { KeepsScene S.spans S.kept S.is_whole self.old self.new }
    {
        span.set_status(&mut self.world, at, status);
    }

    /// Tells an event on the span of a handle, where it is of the scene's stack; on the current one under a disabled handle.
    pub fn event(
        &mut self,
        at: u64,
        span: &Span,
        site: SiteId,
        values: &ValueSet,
    ) -> Result<(), Memory>
        requires order { SceneInOrder S.spans S.kept S.is_whole self.old }
        requires known { IsKnown S.spans self.old.world span.now.held }
        requires site { site < self.old.site_count }
        ensures keeps { KeepsScene S.spans S.kept S.is_whole self.old self.new }
    {
        if !self.can_hold(span) {
            return Ok(());
        }
        let parent = match span.id() {
            Some(id) => Parent::Of(id),
            None => Parent::Current,
        };
        tell_event(
            &mut self.world,
            self.dispatch,
            &self.lane,
            at,
            parent,
            site,
            values,
        )
    }
}

// Tells an event under a parent.
fn tell_event<S: Subscriber>(
    world: &mut World<S>,
    dispatch: Dispatch,
    lane: &Lane,
    at: u64,
    parent: Parent,
    site: SiteId,
    values: &ValueSet,
) -> Result<(), Memory>
    requires there { dispatch < length world.old.subscribers }
    requires site { site < length world.old.sites }
    requires whole { Has S.is_whole world.old dispatch }
    requires live { Has (λ s. IsLiveParent (S.spans s).made parent) world.old dispatch }
    ensures did { OnOk result ((callsite : _)
        × Replaced (λ s t. S.does s (Event lane.now at parent site callsite values.now) t) world.old world.new
        dispatch) }
    ensures memory_leaves { OnErr result (Replaced S.same_but_room world.old world.new dispatch) }
{
    let (subscriber, callsite) = world.subscriber_and_site(dispatch, site);
    let current = subscriber.current_id(lane.id);
    subscriber.event(lane, at, parent, current, site, callsite, values)
}
