//! Polls of futures under spans.
ghost use Rattle.std.specs.Prelude.{◌≡◌, ◌<◌, ◌≤◌, ℕ, [], length, None};
ghost use Rattle.span_handles.specs.Handles.{IsKnown};
ghost use Rattle.future_tests.specs.Ready.{IsReadyForCalls};

use crate::acts::{LaneProbe, PendingOnce, can_hold};
use crate::plays::{Play, play_in_new_world};
use crate::records::take_record_texts;
use crate::stack::{Stack, add_first_span, context_span_number, current_span_number};
use futures::task::{Context, Poll};
use otel_base::enter_error::EnterError;
use otel_base::memory::Memory;
use span_futures::instrument::{Instrument, Instrumented};
use span_futures::plain::Plain;
use span_futures::traced_future::TracedFuture;
use std::alloc::Global;
use std::test::Fail;
use trace_base::lane::Lane;
use trace_base::world::World;

/// What a poll answers: 1000 where it is pending, 1001 where it is refused as by a full lane.
pub fn poll_number(polled: Result<Poll<u64>, EnterError>) -> u64 {
    match polled {
        Ok(Poll::Pending) => 1000,
        Ok(Poll::Ready(answer)) => answer,
        Err(EnterError::Full) => 1001,
        Err(EnterError::Memory) => 1002,
    }
}

/// What a poll of a future under a span answers, where the span has few holds.
pub fn poll<S: Stack, T: TracedFuture<S, Output = u64>>(
    world: &mut World<S>,
    lane: &mut Lane,
    at: u64,
    future: &mut Instrumented<T>,
    cx: &mut Context<'_>,
) -> u64
    requires can_poll { T.can_poll future.old.inner }
    requires known { IsKnown S.spans world.old future.old.span.held }
    requires inner { T.knows future.old.inner world.old }
    requires room { (f : T) (w : _) (l : _) (m : ℕ) → T.has_room f w l m }
    requires ready { IsReadyForCalls S.kept S.is_whole world.old lane.old }

    ensures known { IsKnown S.spans world.new future.new.span.held }
    ensures inner { T.knows future.new.inner world.new }
    ensures ready { IsReadyForCalls S.kept S.is_whole world.new lane.new }
    ensures more { length world.old.subscribers ≤ length world.new.subscribers }
{
    if !can_hold(world, future.span()) {
        return 1003;
    }
    poll_number(future.poll_in(world, lane, at, cx))
}

/// Two polls of a future that is pending once, the current span afterwards, and the record of its span after its end at 30.
pub fn poll_twice<S: Stack>(
    alloc: Global,
    world: &mut World<S>,
    lane: &mut Lane,
    cx: &mut Context<'_>,
) -> Result<String, Memory>
    requires empty { world.old ≡ record { sites = []; subscribers = []; cached = []; global = None } }
    requires own { lane.old.default ≡ None }
{
    let (stack, span) = add_first_span(alloc, world, lane)?;
    let future = Plain {
        future: PendingOnce { polled: false },
    };
    let mut future = future.instrument(span);
    let one = poll(world, lane, 10, &mut future, cx);
    let two = poll(world, lane, 20, &mut future, cx);
    let after = current_span_number(world, stack, lane);
    future.into_inner(world, 30);
    let told = take_record_texts(alloc, world, stack)?;
    Ok(format!(in alloc; "{one} {two} {after}: {told}")?)
}

/// A poll that looks around, or is refused inside the span, the current span and the current context afterwards, and the
/// record of its span after its end at 20.
pub fn look_around<S: Stack>(
    alloc: Global,
    world: &mut World<S>,
    lane: &mut Lane,
    refuses: bool,
    cx: &mut Context<'_>,
) -> Result<String, Memory>
    requires empty { world.old ≡ record { sites = []; subscribers = []; cached = []; global = None } }
    requires own { lane.old.default ≡ None }
{
    let (stack, span) = add_first_span(alloc, world, lane)?;
    let mut future = LaneProbe { stack, refuses }.instrument(span);
    let seen = poll(world, lane, 10, &mut future, cx);
    let (after, left) = (
        current_span_number(world, stack, lane),
        context_span_number(lane),
    );
    future.into_inner(world, 20);
    let told = take_record_texts(alloc, world, stack)?;
    Ok(format!(in alloc; "{seen} {after} {left}: {told}")?)
}

/// The current context after the end of a future in its span at 10, and the record of that span.
pub fn end_in_span<S: Stack>(
    alloc: Global,
    world: &mut World<S>,
    lane: &mut Lane,
) -> Result<String, Memory>
    requires empty { world.old ≡ record { sites = []; subscribers = []; cached = []; global = None } }
    requires own { lane.old.default ≡ None }
{
    let (stack, span) = add_first_span(alloc, world, lane)?;
    let looks = LaneProbe {
        stack,
        refuses: false,
    };
    end(world, lane, looks.instrument(span))?;
    let left = context_span_number(lane);
    let told = take_record_texts(alloc, world, stack)?;
    Ok(format!(in alloc; "{left}: {told}")?)
}

// Ends a future in its span at 10.
fn end<S: Stack>(
    world: &mut World<S>,
    lane: &mut Lane,
    future: Instrumented<LaneProbe>,
) -> Result<(), Memory>
    requires known { IsKnown S.spans world.old future.span.held }
    requires ready { IsReadyForCalls S.kept S.is_whole world.old lane.old }
    ensures { length world.new.subscribers ≡ length world.old.subscribers }
{
    if can_hold(world, future.span()) {
        match future.end(world, lane, 10, |_| {}) {
            Ok(()) => return Ok(()),
            Err((future, _)) => future.into_inner(world, 20),
        };
    } else {
        future.into_inner(world, 20);
    }
    Err(Memory)
}

#[test]
fn instrumented_poll(rt: HostRuntime) -> Result<(), Fail> {
    let told = play_in_new_world(&rt, Play::PolledTwice)?;
    let wanted =
        "1000 7 0: work 1 under 0, 0 to 20, thread.id 1, target tests, busy_ns 0, idle_ns 20";
    assert_eq!(rt; told.as_str(), wanted);
    Ok(())
}

#[test]
fn polls_inside_its_span(rt: HostRuntime) -> Result<(), Fail> {
    let told = play_in_new_world(&rt, Play::Looked)?;
    let wanted =
        "911 0 0: work 1 under 0, 0 to 10, thread.id 1, target tests, busy_ns 0, idle_ns 10";
    assert_eq!(rt; told.as_str(), wanted);
    Ok(())
}

#[test]
fn exits_after_a_refusal(rt: HostRuntime) -> Result<(), Fail> {
    let told = play_in_new_world(&rt, Play::Refused)?;
    let wanted =
        "1001 0 0: work 1 under 0, 0 to 10, thread.id 1, target tests, busy_ns 0, idle_ns 10";
    assert_eq!(rt; told.as_str(), wanted);
    Ok(())
}

#[test]
fn ends_inside_its_span(rt: HostRuntime) -> Result<(), Fail> {
    let told = play_in_new_world(&rt, Play::Ended)?;
    let wanted = "0: work 1 under 0, 0 to 10, thread.id 1, target tests, busy_ns 0, idle_ns 10";
    assert_eq!(rt; told.as_str(), wanted);
    Ok(())
}
