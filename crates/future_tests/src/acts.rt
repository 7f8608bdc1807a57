//! Futures that look around, make a span, or leave an entry open.
ghost use Rattle.std.specs.Prelude.{◌≡◌, ◌<◌, length, IfOk, IsTrue};
ghost use Rattle.trace_base.specs.declared.span.Parent.TheVariants as parent;
ghost use Rattle.trace_base.specs.Conditions.{HasFewHolds};
ghost use Rattle.trace_base.specs.Gate.{IsInWorld, dispatch_on};
ghost use Rattle.span_handles.specs.Handles.{IsKnown, HasOn, MayMakeIf};
ghost use Rattle.span_futures.specs.Calling.{ChangesUpTo};
ghost use Rattle.span_futures.specs.Lent.{HasAll, KeepsLent, keeps_subscriber};
ghost use Rattle.span_futures.specs.Polls.{IfEnded};
ghost use Rattle.future_tests.specs.Carrying.{site_stays};

use crate::stack::{Stack, context_span_number, current_span_number};
use futures::Future;
use futures::task::{Context, Poll};
use otel_base::enter_error::EnterError;
use otel_base::memory::Memory;
use span_futures::traced_future::TracedFuture;
use span_handles::span::Span;
use trace_base::callsite::SiteId;
use trace_base::dispatcher::{Dispatch, get_default};
use trace_base::field::ValueSet;
use trace_base::lane::Lane;
use trace_base::world::World;

/// Pending once, and then 7.
#[derive(Drop)]
pub struct PendingOnce {
    pub(crate) polled: bool,
}

impl Future for PendingOnce {
    type Output = u64;

    fn poll(&mut self, cx: &mut Context<'_>) -> Poll<u64> {
        if self.polled {
            return Poll::Ready(7);
        }
        self.polled = true;
        cx.yield_now()
    }
}

/// Answers the last digits of the numbers of the lane's subscriber, of its current span in a stack, and of the span of its
/// current context; or `Full`.
#[derive(Drop)]
pub struct LaneProbe {
    pub(crate) stack: Dispatch,
    pub(crate) refuses: bool,
}

impl<S: Stack> TracedFuture<S> for LaneProbe {
    type Output = u64;

    ghost can_poll = { λ f. Unit {0} };

    ghost needs = { λ f source. ⊥ };

    ghost gives = { λ f x. Unit {0} };

    ghost knows = { λ f world. f.stack < length world.subscribers };

    ghost has_room = { λ f world lane at. Unit {0} };

    ghost polls = { λ f world lane at r g new later. (new ≡ world) × (later ≡ lane) × (g ≡ f) };

    ghost besides = { λ at s t. ⊥ };

    ghost carries = { λ f old new known parts was. keeps_subscriber old new f.stack parts was };

    fn poll_in(
        &mut self,
        world: &mut World<S>,
        lane: &mut Lane,
        _at: u64,
        _cx: &mut Context<'_>,
    ) -> Result<Poll<u64>, EnterError> {
        if self.refuses {
            return Err(EnterError::Full);
        }
        let on = number(get_default(world, lane)) % 10;
        let inside = current_span_number(world, self.stack, lane) % 10;
        Ok(Poll::Ready(100 * on + 10 * inside + context_span_number(lane) % 10))
    }
}

/// The number of a subscriber, 9 for none.
pub fn number(dispatch: Option<Dispatch>) -> u64 {
    match dispatch {
        Some(dispatch) => dispatch.number(),
        None => 9,
    }
}

/// The subscriber of a handle.
pub fn subscriber_of(span: &Span) -> Option<Dispatch> {
    span.with_subscriber(|(_, dispatch)| dispatch)
}

/// Makes a span under the lane's current one, and answers its handle.
#[derive(Drop)]
pub struct SpanMaker {
    pub(crate) site: SiteId,
    pub(crate) values: ValueSet,
}

impl<S: Stack> TracedFuture<S> for SpanMaker {
    type Output = Span;

    ghost can_poll = { λ f. Unit {0} };

    ghost needs = { λ f source. ⊥ };

    ghost gives = { λ f x. Unit {0} };

    ghost knows = { λ f world. f.site < length world.sites };

    ghost has_room = { λ f world lane at.
        MayMakeIf S.spans S.is_whole world lane.id parent.Current (dispatch_on lane.default world.global) };

    ghost polls = { λ f world lane at r g new later. IfEnded r (λ handle. IsKnown S.spans new handle.held) };

    ghost besides = { λ at s t. ⊥ };

    ghost carries = { λ f old new known parts was. site_stays old new f.site parts was };

    fn poll_in(
        &mut self,
        world: &mut World<S>,
        lane: &mut Lane,
        at: u64,
        _cx: &mut Context<'_>,
    ) -> Result<Poll<Span>, EnterError> {
        match make_here(world, lane, at, self.site, &self.values) {
            Ok(span) => Ok(Poll::Ready(span)),
            Err(Memory) => Err(EnterError::Memory),
        }
    }
}

// Makes a span under a lane's current one by the subscriber that serves the lane.
fn make_here<S: Stack>(
    world: &mut World<S>,
    lane: &Lane,
    at: u64,
    site: SiteId,
    values: &ValueSet,
) -> Result<Span, Memory>
    requires own { IsInWorld world.old lane.now.default }
    requires site { site < length world.old.sites }
    requires may { MayMakeIf S.spans S.is_whole world.old lane.now.id parent.Current
        (dispatch_on lane.now.default world.old.global) }
    ensures known { IfOk result (λ handle. IsKnown S.spans world.new handle.held) }
    ensures keeps { KeepsLent S.spans S.kept S.is_whole world.old world.new lane.now lane.now }
    ensures moments { ChangesUpTo S.does (λ at s t. ⊥) S.same_but_room at world.old world.new }
{
    let span = Span::new(world, lane, at, site, values)?;
    Ok(span)
}

/// Enters a span for good, and answers 7.
pub struct EntryLeaver {
    pub(crate) span: Span,
}

impl<S: Stack> TracedFuture<S> for EntryLeaver {
    type Output = u64;

    ghost can_poll = { λ f. Unit {0} };

    ghost needs = { λ f source. ⊥ };

    ghost gives = { λ f x. Unit {0} };

    ghost knows = { λ f world. IsKnown S.spans world f.span.held };

    ghost has_room = { λ f world lane at. Unit {0} };

    ghost polls = { λ f world lane at r g new later. g ≡ f };

    ghost besides = { λ at s t. ⊥ };

    ghost carries = { λ f old new known parts was. known f.span.held was };

    fn poll_in(
        &mut self,
        world: &mut World<S>,
        lane: &mut Lane,
        at: u64,
        _cx: &mut Context<'_>,
    ) -> Result<Poll<u64>, EnterError> {
        if !can_hold(world, &self.span) {
            return Err(EnterError::Full);
        }
        enter_for_good(world, lane, &self.span, at)?;
        Ok(Poll::Ready(7))
    }
}

/// Whether a span may be held once more; none gets a thousand holds here.
pub fn can_hold<S: Stack>(world: &World<S>, span: &Span) -> bool
    requires { IsKnown S.spans world.now span.now.held }
    ensures { IsTrue result
        → HasOn (λ s id. HasFewHolds (S.spans s).made id) world.now span.now.held }
{
    match span.with_subscriber(|held| held) {
        None => true,
        Some((id, dispatch)) => world.subscriber(dispatch).registry().holds(id) < 1000,
    }
}

// Enters a span, and leaves the entry open.
fn enter_for_good<S: Stack>(
    world: &mut World<S>,
    lane: &mut Lane,
    span: &Span,
    at: u64,
) -> Result<(), EnterError>
    requires known { IsKnown S.spans world.old span.now.held }
    requires whole { HasAll S.is_whole world.old }
    requires few_holds { HasOn (λ s id. HasFewHolds (S.spans s).made id) world.old span.now.held }
    ensures keeps { KeepsLent S.spans S.kept S.is_whole world.old world.new lane.old lane.new }
    ensures moments { ChangesUpTo S.does (λ at s t. ⊥) S.same_but_room at world.old world.new }
    ensures known { IsKnown S.spans world.new span.now.held }
{
    match span.open_entry(world, lane, at) {
        Ok(entry) => {
            entry.discard();
            Ok(())
        }
        Err(error) => Err(error),
    }
}
