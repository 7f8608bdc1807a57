//! One poll of a task.
ghost use Rattle.std.specs.Prelude.{◌≡◌, ◌<◌, ◌+◌, IfOk, IfErr, IfSome, IsNone, Some};
ghost use Rattle.futures.specs.Task.{Keeps};
ghost use Rattle.span_handles.specs.Handles.{IsKnown};
ghost use Rattle.span_handles.specs.Worlds.{spans_in};
ghost use Rattle.span_futures.specs.Lent.{HasAll};
ghost use Rattle.trace_tasks.specs.Stops.{TurnStops};
ghost use Rattle.trace_tasks.specs.Turning.{ReadyToPoll, IsAlone, PollsTask, dispatch_serving};
ghost use Rattle.trace_tasks.specs.Waiting.{KeepsKnownBut};

use crate::running::TaskFuture;
use futures::task::{Context, Poll};
use otel_base::enter_error::EnterError;
use otel_layer::part::OtelSubscriber;
use span_futures::instrument::Instrumented;
use span_futures::traced_future::TracedFuture;
use trace_base::lane::Lane;
use trace_base::world::World;

/// Polls a task once, and ends it if it is finished or refused.
pub(crate) fn poll_task<S: OtelSubscriber>(
    task: Instrumented<TaskFuture>,
    world: &mut World<S>,
    lane: &mut Lane,
    at: u64,
    cx: &mut Context<'_>,
) -> Result<Option<Instrumented<TaskFuture>>, EnterError>
    requires ready { ReadyToPoll S.Subscriber.spans S.Subscriber.kept S.Subscriber.is_whole world.old lane.old }
    requires known { IsKnown S.Subscriber.spans world.old task.span.held }
    requires lone { (site : _) × IsAlone (spans_in S.Subscriber.spans world.old (dispatch_serving lane.old)).made (dispatch_serving lane.old) site task.span }

    ensures ok { IfOk result (λ left.
        PollsTask S.Subscriber.spans S.Subscriber.hint S.Subscriber.enables S.Subscriber.kept S.Subscriber.is_whole
        S.Subscriber.does S.OtelPart.touches at task world.old lane.old left world.new lane.new) }
    ensures stops { IfErr result (λ e.
        TurnStops S.Subscriber.spans S.Subscriber.hint S.Subscriber.enables S.Subscriber.activates S.Subscriber.does
        S.OtelPart.touches S.Subscriber.same_but_room at task world.old lane.old e world.new lane.new) }
    ensures keeps { KeepsKnownBut S.Subscriber.spans world.old world.new task.span.held }
    ensures known { IfOk result (λ left. IfSome left (λ g. IsKnown S.Subscriber.spans world.new g.span.held)) }
    ensures whole { HasAll S.Subscriber.is_whole world.new }
    ensures context { Keeps cx.old cx.new }
{
    let mut task = task;
    match task.poll_in(world, lane, at, cx) {
        Ok(Poll::Pending) => Ok(Some(task)),
        Ok(Poll::Ready(())) => {
            let ended = task.into_inner(world, at);
            drop(ended);
            Ok(None)
        }
        Err(error) => {
            let ended = task.into_inner(world, at);
            drop(ended);
            Err(error)
        }
    }
}
