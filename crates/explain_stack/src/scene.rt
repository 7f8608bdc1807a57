//! A world with one stack, and the two lanes on which calls are made in it.
ghost use Rattle.std.specs.Prelude.{◌≡◌, ◌<◌, ◌≤◌, ℕ, true, length, Some, None, IfOk, IfSome, IsTrue};
ghost use Rattle.trace_base.specs.Conditions.{HasFewHolds, ParentHasFewHolds};
ghost use Rattle.trace_base.specs.declared.span.Parent.TheVariants as parent;
ghost use Rattle.trace_base.specs.Spans.{entries_on, is_in};
ghost use Rattle.span_registry.specs.Registering.{no_spans};
ghost use Rattle.span_handles.specs.Handles.{IsKnown, HasOn, IsOf};
ghost use Rattle.span_handles.specs.Worlds.{Has};
ghost use Rattle.span_handles.specs.Knowing.{KeepsKnown, KeepsOthers};
ghost use Rattle.explain_stack.specs.Order.{SceneInOrder, IsKnownWithSite};

mod asks;
mod calls;
pub mod polls;

use crate::stack::Stack;
use otel_base::memory::Memory;
use otel_base::stack::ContextStack;
use span_handles::span::Span;
use span_registry::registry::Registry;
use std::alloc::Global;
use std::mem;
use trace_base::callsite::SiteId;
use trace_base::discard::Discard;
use trace_base::dispatcher::Dispatch;
use trace_base::lane::Lane;
use trace_base::span::Id;
use trace_base::subscriber::Subscriber;
use trace_base::world::World;

/// A world with one stack, the lane on which calls are made, and another lane.
pub struct Scene<S> {
    pub(crate) world: World<S>,
    pub(crate) lane: Lane,
    pub(crate) other: Lane,
    pub(crate) dispatch: Dispatch,
    // At least as many spans as were made.
    pub(crate) span_count: u64,
    pub(crate) site_count: u64,
}

impl<S: Stack> Scene<S> {
    /// The stack, which knows no span, in a world that has as many callsites and nothing else.
    pub fn new(
        alloc: Global,
        mut world: World<S>,
        site_count: u64,
        stack: S,
    ) -> Result<Scene<S>, Memory>
        requires whole { S.is_whole stack }
        requires spans { S.spans stack ≡ no_spans }
        requires kept { (lane number : ℕ) → S.kept stack lane number ≡ 0 }
        requires empty { length world.subscribers ≡ 0 }
        ensures { IfOk result (λ scene. SceneInOrder S.spans S.kept S.is_whole scene) }
    {
        let site_count = known_site_count(&world, site_count);
        match world.add(stack) {
            Ok(dispatch) => Ok(Scene {
                world,
                lane: bare_lane(alloc, 1, Some(dispatch)),
                other: bare_lane(alloc, 2, None),
                dispatch,
                span_count: 0,
                site_count,
            }),
            Err((stack, memory)) => {
                stack.discard();
                world.discard();
                Err(memory)
            }
        }
    }

    /// The callsite of a number, if there is one.
    pub fn site_at(&self, place: u64) -> Option<SiteId>
        ensures { IfSome result (λ site. site < self.now.site_count) }
    {
        if place < self.site_count {
            self.world.site_at(place)
        } else {
            None
        }
    }

    /// Whether the stack takes what a callsite makes on the lane of an id.
    pub fn admits(&self, alloc: Global, lane: u64, site: SiteId) -> bool
        requires order { SceneInOrder S.spans S.kept S.is_whole self.now }
        requires site { site < self.now.site_count }
    {
        let lane = bare_lane(alloc, lane, Some(self.dispatch));
        self.world.admits(&lane, site)
    }

    /// The ids of the lane on which calls are made, and of the other one.
    pub fn lane_ids(&self) -> (u64, u64)
        ensures { result ≡ (self.now.lane.id, self.now.other.id) }
    {
        (self.lane.id, self.other.id)
    }

    /// Calls are made on the other lane from here on.
    pub fn swap_lanes(&mut self)
        requires order { SceneInOrder S.spans S.kept S.is_whole self.old }
        ensures order { SceneInOrder S.spans S.kept S.is_whole self.new }
        ensures lanes { self.new ≡ record self.old { lane = self.old.other; other = self.old.lane } }
    {
        mem::swap(&mut self.lane, &mut self.other);
    }

    /// Tells the records that the stack still has; the rest of the scene is given up.
    pub fn end(self, alloc: Global, told: &mut String) -> Result<(), Memory>
        requires order { SceneInOrder S.spans S.kept S.is_whole self }
    {
        let Scene {
            mut world,
            lane: _,
            other: _,
            dispatch,
            span_count: _,
            site_count: _,
        } = self;
        let done = world.subscriber_mut(dispatch).tell(alloc, told);
        world.discard();
        done
    }

    /// Whether a span may be held once more.
    pub(crate) fn can_hold(&self, span: &Span) -> bool
        requires order { SceneInOrder S.spans S.kept S.is_whole self.now }
        ensures own { IsTrue result → IsOf span.now.held self.now.dispatch }
        ensures few { IsTrue result
            → HasOn (λ s id. HasFewHolds (S.spans s).made id) self.now.world span.now.held }
    {
        match span.with_subscriber(|held| held) {
            None => true,
            Some((id, dispatch)) => {
                let registry = self.world.subscriber(self.dispatch).registry();
                dispatch == self.dispatch && registry.holds(id) < 1000
            }
        }
    }

    /// Whether the lane's current span, if it has one, may be held once more.
    pub(crate) fn can_hold_current(&self) -> bool
        requires order { SceneInOrder S.spans S.kept S.is_whole self.now }
        ensures few { IsTrue result
            → Has (λ s. ParentHasFewHolds (S.spans s) self.now.lane.id parent.Current) self.now.world
            self.now.dispatch }
    {
        let stack = self.world.subscriber(self.dispatch);
        match stack.current_span(self.lane.id) {
            None => true,
            Some((id, _)) => stack.registry().holds(id) < 1000,
        }
    }

    /// Whether an entry of a span is open on the lane.
    pub(crate) fn has_open_entry(&self, span: &Span) -> bool
        requires order { SceneInOrder S.spans S.kept S.is_whole self.now }
        ensures { IsTrue result
            → HasOn (λ s id. is_in id (entries_on self.now.lane.id (S.spans s).lanes) ≡ true) self.now.world
            span.now.held }
    {
        match span.with_subscriber(|held| held) {
            None => true,
            Some((id, dispatch)) => {
                let registry = self.world.subscriber(self.dispatch).registry();
                dispatch == self.dispatch && has_entry(registry, self.lane.id, id)
            }
        }
    }
}

// A lane of an id that nothing is attached to.
fn bare_lane(alloc: Global, id: u64, default: Option<Dispatch>) -> Lane
    ensures id { result.id ≡ id }
    ensures default { result.default ≡ default }
{
    Lane {
        id,
        name: None,
        default,
        contexts: ContextStack::new(alloc),
    }
}

// So many callsites, if the world has them.
fn known_site_count<S: Subscriber>(world: &World<S>, site_count: u64) -> u64
    ensures { result ≤ length world.now.sites }
{
    if site_count > 0 && world.site_at(site_count - 1).is_some() {
        site_count
    } else {
        0
    }
}

// Whether an entry of a span is open on a lane.
fn has_entry(registry: &Registry, lane: u64, id: Id) -> bool
    ensures { result ≡ is_in id (entries_on lane registry.now.spans.lanes) }
{
    registry.entries(lane).iter().any(|open| *open == id)
}
