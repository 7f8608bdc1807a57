//! Polls of futures under subscribers of their own.
ghost use Rattle.std.specs.Prelude.{◌≡◌, ◌<◌, ◌≤◌, [], length, None, Some, IfOk, OnOk};
ghost use Rattle.span_handles.specs.Handles.{IsKnown};
ghost use Rattle.span_futures.specs.Lent.{HasAll};
ghost use Rattle.future_tests.specs.Ready.{IsUnused};

use crate::acts::{LaneProbe, SpanMaker, number, subscriber_of};
use crate::plays::{Play, play_in_new_world};
use crate::polls::poll_number;
use crate::records::take_record_texts;
use crate::stack::{Stack, add_stack, add_work_site, no_values};
use futures::task::{Context, Poll};
use otel_base::memory::Memory;
use span_futures::traced_future::TracedFuture;
use span_futures::with_dispatch::{WithDispatch, WithSubscriber};
use span_handles::span::Span;
use std::alloc::Global;
use std::test::Fail;
use trace_base::callsite::SiteId;
use trace_base::dispatcher::{Dispatch, get_default};
use trace_base::lane::Lane;
use trace_base::world::World;

// A callsite and two stacks, of which the first is the lane's default.
fn add_two_stacks<S: Stack>(
    alloc: Global,
    world: &mut World<S>,
    lane: &mut Lane,
) -> Result<(SiteId, Dispatch), Memory>
    requires { world.old ≡ record { sites = []; subscribers = []; cached = []; global = None } }
    ensures site { IfOk result (λ it. it.0 < length world.new.sites) }
    ensures second { IfOk result (λ it. it.1 ≡ 1) }
    ensures count { OnOk result (length world.new.subscribers ≡ 2) }
    ensures unused { OnOk result (HasAll (IsUnused S.spans S.kept S.is_whole) world.new) }
    ensures default { OnOk result (lane.new.default ≡ Some 0) }
{
    let site = add_work_site(alloc, world)?;
    let first = add_stack(alloc, world)?;
    let second = add_stack(alloc, world)?;
    lane.default = Some(first);
    Ok((site, second))
}

/// What is made at 10 in a poll under the second of two subscribers, on a lane that has the first: the number of the
/// span's subscriber, the lane's afterwards, and the records of the second after the close of the span at 30.
pub fn make_under_second<S: Stack>(
    alloc: Global,
    world: &mut World<S>,
    lane: &mut Lane,
    cx: &mut Context<'_>,
) -> Result<String, Memory>
    requires empty { world.old ≡ record { sites = []; subscribers = []; cached = []; global = None } }
{
    let (site, second) = add_two_stacks(alloc, world, lane)?;
    let makes = SpanMaker {
        site,
        values: no_values(alloc),
    };
    let span = make_span(world, lane, makes.with_subscriber(second), cx)?;
    let of = number(subscriber_of(&span));
    let after = number(get_default(world, lane));
    span.close(world, 30);
    let told = take_record_texts(alloc, world, second)?;
    Ok(format!(in alloc; "{of} {after}: {told}")?)
}

// The span that a future makes.
fn make_span<S: Stack>(
    world: &mut World<S>,
    lane: &mut Lane,
    future: WithDispatch<SpanMaker>,
    cx: &mut Context<'_>,
) -> Result<Span, Memory>
    requires served { future.dispatch ≡ Some 1 }
    requires site { future.inner.site < length world.old.sites }
    requires count { length world.old.subscribers ≡ 2 }
    requires unused { HasAll (IsUnused S.spans S.kept S.is_whole) world.old }
    requires own { lane.old.default ≡ Some 0 }

    ensures count { 2 ≤ length world.new.subscribers }
    ensures whole { HasAll S.is_whole world.new }
    ensures known { IfOk result (λ span. IsKnown S.spans world.new span.held) }
{
    let mut future = future;
    match future.poll_in(world, lane, 10, cx) {
        Ok(Poll::Ready(span)) => Ok(span),
        _ => Err(Memory),
    }
}

/// A poll at 10 under the lane's subscriber as it was taken, on a lane that has another one since: what the future sees,
/// the lane's subscriber afterwards, and that of the future.
pub fn poll_under_taken_default<S: Stack>(
    alloc: Global,
    world: &mut World<S>,
    lane: &mut Lane,
    cx: &mut Context<'_>,
) -> Result<String, Memory>
    requires empty { world.old ≡ record { sites = []; subscribers = []; cached = []; global = None } }
{
    let (_, second) = add_two_stacks(alloc, world, lane)?;
    let looks = LaneProbe {
        stack: second,
        refuses: false,
    };
    let first = lane.default.replace(second);
    let mut future = looks.with_current_subscriber(world, lane);
    lane.default = first;
    let seen = poll_number(future.poll_in(world, lane, 10, cx));
    let after = number(get_default(world, lane));
    let of = number(future.dispatcher());
    Ok(format!(in alloc; "{seen} {after} {of}")?)
}

#[test]
fn with_dispatch_poll(rt: HostRuntime) -> Result<(), Fail> {
    let told = play_in_new_world(&rt, Play::MadeUnder)?;
    let wanted = "1 0: work 1 under 0, 10 to 30, thread.id 1, target tests, busy_ns 0, idle_ns 0";
    assert_eq!(rt; told.as_str(), wanted);
    Ok(())
}

#[test]
fn polls_under_the_default_that_was_taken(rt: HostRuntime) -> Result<(), Fail> {
    let told = play_in_new_world(&rt, Play::TakenDefault)?;
    assert_eq!(rt; told.as_str(), "100 0 1");
    Ok(())
}
