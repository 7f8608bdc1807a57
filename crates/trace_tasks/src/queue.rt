//! Tasks that take turns.
ghost use Rattle.std.specs.Prelude.{◌≡◌, ◌<◌, ◌^◌, [], IfOk, IfErr};
ghost use Rattle.std.specs.VecDeque.{deque_len, deque_capacity};
ghost use Rattle.futures.specs.Task.{Keeps};
ghost use Rattle.span_futures.specs.Lent.{HasAll};
ghost use Rattle.trace_tasks.specs.Stops.{StopsTurns, StopsInTurn, DropsAll};
ghost use Rattle.trace_tasks.specs.Turning.{ReadyToPoll, dispatch_serving};
ghost use Rattle.trace_tasks.specs.Waiting.{AllWait, AllKnownAndApart, AllStand, TakesTurnIf, TakesTurns, polls_in, queue_with};

use crate::running::TaskFuture;
use crate::turn::poll_task;
use futures::task::Context;
use otel_base::enter_error::EnterError;
use otel_layer::part::OtelSubscriber;
use span_futures::instrument::Instrumented;
use std::collections::VecDeque;
use trace_base::lane::Lane;
use trace_base::world::World;

/// Polls the first task of a queue, which goes to the end if it isn't finished; false if there is none. A poll that is
/// refused closes the handles of all tasks, at its moment.
pub(crate) fn take_turn<S: OtelSubscriber>(
    queue: &mut VecDeque<Instrumented<TaskFuture>>,
    world: &mut World<S>,
    lane: &mut Lane,
    at: u64,
    cx: &mut Context<'_>,
) -> Result<bool, EnterError>
    requires ready { ReadyToPoll S.Subscriber.spans S.Subscriber.kept S.Subscriber.is_whole world.old lane.old }
    requires wait { AllWait S.Subscriber.spans world.old (dispatch_serving lane.old) queue.old.items }

    ensures ok { IfOk result (λ taken. TakesTurnIf S.Subscriber.spans S.Subscriber.hint S.Subscriber.enables
        S.Subscriber.kept S.Subscriber.is_whole S.Subscriber.does S.OtelPart.touches
        at taken queue.old.items world.old lane.old queue.new.items world.new lane.new) }
    ensures stops { IfErr result (λ e. StopsInTurn S.Subscriber.spans S.Subscriber.hint S.Subscriber.enables
        S.Subscriber.activates S.Subscriber.does S.OtelPart.touches S.Subscriber.same_but_room
        at queue.old.items world.old lane.old e world.new lane.new) }
    ensures empty { IfErr result (λ e. queue.new.items ≡ []) }
    ensures whole { HasAll S.Subscriber.is_whole world.new }
    ensures context { Keeps cx.old cx.new }
{
    let Some(task) = queue.pop_front() else {
        return Ok(false);
    };
    match poll_task(task, world, lane, at, cx) {
        Ok(left) => {
            put_back(queue, left);
            Ok(true)
        }
        Err(error) => {
            close_all(queue, world, at);
            Err(error)
        }
    }
}

/// Polls the tasks of a queue in turn until none is left; answers the number of polls. The k-th poll is at the moment 10 k.
pub(crate) fn poll_all<S: OtelSubscriber>(
    queue: &mut VecDeque<Instrumented<TaskFuture>>,
    world: &mut World<S>,
    lane: &mut Lane,
    cx: &mut Context<'_>,
) -> Result<u64, EnterError>
    requires ready { ReadyToPoll S.Subscriber.spans S.Subscriber.kept S.Subscriber.is_whole world.old lane.old }
    requires wait { AllWait S.Subscriber.spans world.old (dispatch_serving lane.old) queue.old.items }
    requires few { polls_in queue.old.items < 2 ^ 60 }

    ensures ok { IfOk result (λ polls. (handles : _) (ts : _) → AllStand handles ts queue.old.items
        → TakesTurns S.Subscriber.spans S.Subscriber.hint S.Subscriber.enables S.Subscriber.does S.OtelPart.touches
        handles ts world.old world.new lane.old lane.new polls) }
    ensures stops { IfErr result (λ e. (handles : _) (ts : _) → AllStand handles ts queue.old.items
        → StopsTurns S.Subscriber.spans S.Subscriber.hint S.Subscriber.enables S.Subscriber.activates S.Subscriber.does
        S.OtelPart.touches S.Subscriber.same_but_room (dispatch_serving lane.old) world.old.sites ts e
        (record { world = world.old; lane = lane.old; handles = handles; guards = [] }) world.new lane.new) }
    ensures empty { queue.new.items ≡ [] }
    ensures context { Keeps cx.old cx.new }
{
    let mut polls = 0;
    while take_turn(queue, world, lane, 10 * (polls + 1), cx)? {
        polls += 1;
    }
    Ok(polls)
}

// A task goes to the end of the queue, if it isn't finished.
fn put_back(queue: &mut VecDeque<Instrumented<TaskFuture>>, left: Option<Instrumented<TaskFuture>>)
    requires { deque_len queue.old < deque_capacity queue.old }
    ensures { queue.new.items ≡ queue_with queue.old.items left }
{
    match left {
        Some(task) => queue.push_back_reserved(task),
        None => {}
    }
}

/// Closes the handles of all tasks that are left.
pub(crate) fn close_all<S: OtelSubscriber>(
    queue: &mut VecDeque<Instrumented<TaskFuture>>,
    world: &mut World<S>,
    at: u64,
)
    requires known { AllKnownAndApart S.Subscriber.spans world.old queue.old.items }
    requires whole { HasAll S.Subscriber.is_whole world.old }
    ensures dropped { DropsAll S.Subscriber.spans S.Subscriber.hint S.Subscriber.enables S.Subscriber.does
        S.OtelPart.touches at queue.old.items world.old world.new }
    ensures empty { queue.new.items ≡ [] }
    ensures whole { HasAll S.Subscriber.is_whole world.new }
{
    while let Some(task) = queue.pop_front() {
        let ended = task.into_inner(world, at);
        drop(ended);
    }
}
