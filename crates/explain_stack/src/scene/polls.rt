//! Futures that are polled under the spans of handles, and full lanes.
ghost use Rattle.std.specs.Prelude.{◌≡◌, ◌≤◌, ℕ, true, false, Some, IfSome};
ghost use Rattle.trace_base.specs.declared.span.Parent.TheVariants as parent;
ghost use Rattle.trace_base.specs.Conditions.{HasFewHolds, ParentHasFewHolds};
ghost use Rattle.trace_base.specs.lanes.Contexts.{attached_count};
ghost use Rattle.trace_base.specs.Gate.{dispatch_on};
ghost use Rattle.span_handles.specs.Handles.{IsKnown, HasOn, CopiesCurrent};
ghost use Rattle.span_handles.specs.Knowing.{KeepsHandles, KeepsOthers, GainsOne, LosesOne};
ghost use Rattle.span_handles.specs.Worlds.{Has};
ghost use Rattle.explain_stack.specs.Looking.{probe_answer};
ghost use Rattle.explain_stack.specs.Order.{SceneInOrder, KeepsScene};
ghost use Rattle.explain_stack.specs.Puts.{ClosesHeld, PollsUnder, PutsAround};

use crate::scene::Scene;
use crate::stack::Stack;
use futures::task::{Context, Poll};
use otel_base::context::Context as OtelContext;
use otel_base::enter_error::EnterError;
use otel_base::memory::Memory;
use span_futures::instrument::{Instrument, Instrumented};
use span_futures::traced_future::TracedFuture;
use span_futures::with_dispatch::{WithDispatch, WithSubscriber};
use span_handles::span::Span;
use std::alloc::Global;
use std::mem;
use trace_base::dispatcher::get_default;
use trace_base::lane::Lane;
use trace_base::subscriber::Subscriber;
use trace_base::world::World;

/// A future that is pending until it is told to be ready, and then answers whether a subscriber serves the lane.
#[derive(Drop)]
pub struct SubscriberProbe {
    pub(crate) is_ready: bool,
}

impl<S: Subscriber> TracedFuture<S> for SubscriberProbe {
    type Output = bool;

    ghost can_poll = { λ f. Unit {0} };

    ghost needs = { λ f source. ⊥ };

    ghost gives = { λ f x. Unit {0} };

    ghost knows = { λ f world. Unit {0} };

    ghost has_room = { λ f world lane at. Unit {0} };

    ghost polls = { λ f world lane at r g new later.
        (new ≡ world) × (later ≡ lane) × (g ≡ f)
        × (r ≡ probe_answer f.is_ready (dispatch_on lane.default world.global)) };

    ghost besides = { λ at s t. ⊥ };

    ghost carries = { λ f old new known parts was. tt };

    fn poll_in(
        &mut self,
        world: &mut World<S>,
        lane: &mut Lane,
        _at: u64,
        cx: &mut Context<'_>,
    ) -> Result<Poll<bool>, EnterError> {
        if self.is_ready {
            Ok(Poll::Ready(get_default(world, lane).is_some()))
        } else {
            Ok(cx.yield_now())
        }
    }
}

impl<S: Stack> Scene<S> {
    /// Polls a future under a span, as it is or under the scene's stack; none where the span has too many holds.
    pub fn poll(
        &mut self,
        at: u64,
        span: Span,
        future: SubscriberProbe,
        is_served: bool,
        cx: &mut Context<'_>,
    ) -> (Span, Option<Result<Poll<bool>, EnterError>>)
        requires order { SceneInOrder S.spans S.kept S.is_whole self.old }
        requires known { IsKnown S.spans self.old.world span.held }
        ensures keeps { KeepsScene S.spans S.kept S.is_whole self.old self.new }
        ensures back { result.0 ≡ span }
        ensures polls { is_served ≡ false → IfSome result.1
            (λ polled. PollsUnder S.same_but_room S.does S.activates ⟦<SubscriberProbe as TracedFuture<S>>⟧.polls
            (record { inner = future; span = span }) self.old.world self.old.lane at polled self.new.world
            self.new.lane) }
        ensures polls_served { is_served ≡ true → IfSome result.1
            (λ polled. PollsUnder S.same_but_room S.does S.activates ⟦<WithDispatch<SubscriberProbe> as TracedFuture<S>>⟧.polls
            (record { inner = record { inner = future; dispatch = Some self.old.dispatch }; span = span })
            self.old.world self.old.lane at polled self.new.world self.new.lane) }
    {
        if !self.can_hold(&span) {
            return (span, None);
        }
        let (span, polled) = if is_served {
            self.poll_under(at, span, future.with_subscriber(self.dispatch), cx)
        } else {
            self.poll_under(at, span, future, cx)
        };
        (span, Some(polled))
    }

    // Polls a future, which leaves the world and the lane as they are, under a span.
    fn poll_under<T: TracedFuture<S, Output = bool> + Drop>(
        &mut self,
        at: u64,
        span: Span,
        future: T,
        cx: &mut Context<'_>,
    ) -> (Span, Result<Poll<bool>, EnterError>)
        requires order { SceneInOrder S.spans S.kept S.is_whole self.old }
        requires known { IsKnown S.spans self.old.world span.held }
        requires few { HasOn (λ s id. HasFewHolds (S.spans s).made id) self.old.world span.held }
        requires can_poll { T.can_poll future }
        requires knows { T.knows future self.old.world }
        requires room { (world : _) (lane : _) → T.has_room future world lane at }
        requires leaves { (f : T) (world : _) (lane : _) (moment : ℕ) (r : _) (g : T) (new : _) (later : _)
            → T.polls f world lane moment r g new later → (new ≡ world) × (later ≡ lane) }

        ensures keeps { KeepsScene S.spans S.kept S.is_whole self.old self.new }
        ensures back { result.0 ≡ span }
        ensures polls { PollsUnder S.same_but_room S.does S.activates T.polls (record { inner = future; span = span })
            self.old.world self.old.lane at result.1 self.new.world self.new.lane }
    {
        let mut future = future.instrument(span);
        let polled = future.poll_in(&mut self.world, &mut self.lane, at, cx);
        let span = mem::replace(future.span_mut(), Span::none());
        future.into_inner(&mut self.world, at);
        (span, polled)
    }

    /// Puts a future under the lane's current span, and answers whether that is the span of a handle; none where the stack
    /// doesn't serve the lane, or that span has too many holds.
    #[tactic(auto, using(crate::proofs::Around::known_again))]
    pub fn is_around(&mut self, at: u64, span: &Span) -> Option<bool>
        requires order { SceneInOrder S.spans S.kept S.is_whole self.old }
        ensures keeps { KeepsScene S.spans S.kept S.is_whole self.old self.new }
        ensures around { IfSome result
            (PutsAround S.spans S.does self.old.world self.new.world self.old.lane.id self.old.dispatch at
            span.now.held) }
    {
        if get_default(&self.world, &self.lane) != Some(self.dispatch) || !self.can_hold_current() {
            return None;
        }
        let future = self.put_around();
        let is_around = future.span().same_span(span);
        self.close_future(at, future);
        Some(is_around)
    }

    // A future under the lane's current span.
    fn put_around(&mut self) -> Instrumented<SubscriberProbe>
        requires order { SceneInOrder S.spans S.kept S.is_whole self.old }
        requires served { dispatch_on self.old.lane.default self.old.world.global ≡ Some self.old.dispatch }
        requires few { Has (λ s. ParentHasFewHolds (S.spans s) self.old.lane.id parent.Current) self.old.world
            self.old.dispatch }

        ensures order { SceneInOrder S.spans S.kept S.is_whole self.new }
        ensures current { CopiesCurrent S.spans S.does self.old.world self.new.world self.old.lane.id
            (Some self.old.dispatch) result.span }
        ensures held { IsKnown S.spans self.new.world result.span.held }
        ensures keeps { KeepsHandles S.spans self.old.world self.new.world }
        ensures more { GainsOne S.spans self.old.world self.new.world result.span.held }
        ensures sites { self.new.site_count ≡ self.old.site_count }
    {
        SubscriberProbe { is_ready: false }.in_current_span(&mut self.world, &self.lane)
    }

    // Closes the handle of a future.
    fn close_future(&mut self, at: u64, future: Instrumented<SubscriberProbe>)
        requires order { SceneInOrder S.spans S.kept S.is_whole self.old }
        requires known { IsKnown S.spans self.old.world future.span.held }
        ensures order { SceneInOrder S.spans S.kept S.is_whole self.new }
        ensures closes { ClosesHeld S.spans S.does at self.old.world self.new.world future.span.held }
        ensures others { KeepsOthers S.spans self.old.world self.new.world future.span.held }
        ensures fewer { LosesOne S.spans self.old.world self.new.world future.span.held }
        ensures sites { self.new.site_count ≡ self.old.site_count }
    {
        future.into_inner(&mut self.world, at);
    }

    /// Attaches empty contexts to the lane until it is full.
    pub fn fill(&mut self) -> Result<(), Memory>
        requires order { SceneInOrder S.spans S.kept S.is_whole self.old }
        ensures order { SceneInOrder S.spans S.kept S.is_whole self.new }
        ensures world { self.new.world ≡ self.old.world }
        ensures sites { self.new.site_count ≡ self.old.site_count }
    {
        fill(&mut self.lane)
    }
}

// Attaches empty contexts to a lane until it is full; they stay for good.
fn fill(lane: &mut Lane) -> Result<(), Memory>
    ensures id { lane.new.id ≡ lane.old.id }
    ensures default { lane.new.default ≡ lane.old.default }
    ensures more { (number : ℕ) → attached_count number lane.old ≤ attached_count number lane.new }
{
    for _ in 0..100_000 {
        match attach_empty(lane) {
            Ok(()) => {}
            Err(EnterError::Full) => return Ok(()),
            Err(EnterError::Memory) => return Err(Memory),
        }
    }
    Ok(())
}

// Attaches an empty context to a lane for good.
#[tactic(auto, using(crate::proofs::PollsLemmas::attached_more, crate::proofs::PollsLemmas::attached_same))]
fn attach_empty(lane: &mut Lane) -> Result<(), EnterError>
    ensures id { lane.new.id ≡ lane.old.id }
    ensures default { lane.new.default ≡ lane.old.default }
    ensures more { (number : ℕ) → attached_count number lane.old ≤ attached_count number lane.new }
{
    lane.contexts.attach(OtelContext::empty())?.discard();
    Ok(())
}
