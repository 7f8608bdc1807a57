//! Running tasks.
ghost use Rattle.std.specs.Prelude.{◌≡◌, ◌<◌, ◌^◌, ◌+◌, [], length, sum_by, IfOk, IfErr};
ghost use Rattle.futures.specs.Task.{Keeps};
ghost use Rattle.span_handles.specs.Worlds.{spans_in};
ghost use Rattle.trace_tasks.specs.Begun.{AllHaveCallsites, RunsTasks};
ghost use Rattle.trace_tasks.specs.Flat.{poll_count, tasks_at_first, yield_count};
ghost use Rattle.trace_tasks.specs.Stops.{GaveUp};
ghost use Rattle.trace_tasks.specs.Turning.{ReadyToPoll, dispatch_serving};

use crate::begin::begin_all;
use crate::copies::copied_tasks;
use crate::queue::{close_all, poll_all};
use crate::running::TaskFuture;
use crate::script::{Task, TaskScript};
use futures::task::Context;
use otel_base::enter_error::EnterError;
use otel_base::list::Items;
use otel_base::memory::Memory;
use otel_layer::part::OtelSubscriber;
use span_futures::instrument::Instrumented;
use std::alloc::Global;
use std::collections::VecDeque;
use trace_base::lane::Lane;
use trace_base::world::World;

/// Puts each task of a script under a span of its own, and polls them in turn until all are finished; answers
/// how many polls there were. `Full` only where the lane had as many contexts as may be at the call, `Memory` freely: what was
/// done before a refusal stays, and the handles that are left are closed.
pub fn run_tasks<S: OtelSubscriber>(
    alloc: Global,
    script: &TaskScript,
    world: &mut World<S>,
    lane: &mut Lane,
    cx: &mut Context<'_>,
) -> Result<u64, EnterError>
    requires ready { ReadyToPoll S.Subscriber.spans S.Subscriber.kept S.Subscriber.is_whole world.old lane.old }
    requires sites { world.old.sites ≡ script.now.settings.callsites }
    requires sited { AllHaveCallsites (length script.now.settings.callsites) script.now.tasks }
    requires few { length (spans_in S.Subscriber.spans world.old (dispatch_serving lane.old)).made + length script.now.tasks < 2 ^ 63 }
    requires few_polls { poll_count (tasks_at_first 0 script.now.tasks) < 2 ^ 60 }

    ensures ok { IfOk result (RunsTasks S.Subscriber.spans S.Subscriber.hint S.Subscriber.enables S.Subscriber.does
        S.OtelPart.touches script.now.settings.callsites script.now.tasks world.old world.new lane.old lane.new) }
    ensures answer { IfOk result (λ polls. polls ≡ sum_by (λ t. yield_count t.steps) script.now.tasks + length script.now.tasks) }
    ensures gives_up { IfErr result (λ e.
        GaveUp S.Subscriber.spans S.Subscriber.hint S.Subscriber.enables S.Subscriber.activates S.Subscriber.does
        S.OtelPart.touches S.Subscriber.same_but_room (dispatch_serving lane.old) script.now.settings.callsites script.now.tasks e
        (record { world = world.old; lane = lane.old; handles = []; guards = [] }) world.new lane.new) }
    ensures context { Keeps cx.old cx.new }
{
    let tasks = match copied_tasks(alloc, script.tasks.as_slice()) {
        Ok(tasks) => tasks,
        Err(Memory) => return Err(EnterError::Memory),
    };
    let mut queue = VecDeque::new(alloc);
    let answer = begin_and_poll(alloc, tasks, &mut queue, world, lane, cx);
    queue.destroy_empty();
    answer
}

// Begins tasks, and polls them until none is left.
fn begin_and_poll<S: OtelSubscriber>(
    alloc: Global,
    tasks: Items<Task>,
    queue: &mut VecDeque<Instrumented<TaskFuture>>,
    world: &mut World<S>,
    lane: &mut Lane,
    cx: &mut Context<'_>,
) -> Result<u64, EnterError>
    requires none { queue.old.items ≡ [] }
    requires ready { ReadyToPoll S.Subscriber.spans S.Subscriber.kept S.Subscriber.is_whole world.old lane.old }
    requires sited { AllHaveCallsites (length world.old.sites) tasks }
    requires few { length (spans_in S.Subscriber.spans world.old (dispatch_serving lane.old)).made + length tasks < 2 ^ 63 }
    requires few_polls { poll_count (tasks_at_first 0 tasks) < 2 ^ 60 }

    ensures ok { IfOk result (RunsTasks S.Subscriber.spans S.Subscriber.hint S.Subscriber.enables S.Subscriber.does
        S.OtelPart.touches world.old.sites tasks world.old world.new lane.old lane.new) }
    ensures answer { IfOk result (λ polls. polls ≡ sum_by (λ t. yield_count t.steps) tasks + length tasks) }
    ensures gives_up { IfErr result (λ e.
        GaveUp S.Subscriber.spans S.Subscriber.hint S.Subscriber.enables S.Subscriber.activates S.Subscriber.does
        S.OtelPart.touches S.Subscriber.same_but_room (dispatch_serving lane.old) world.old.sites tasks e
        (record { world = world.old; lane = lane.old; handles = []; guards = [] }) world.new lane.new) }
    ensures empty { queue.new.items ≡ [] }
    ensures context { Keeps cx.old cx.new }
{
    match begin_all(alloc, tasks, queue, world, lane) {
        Ok(()) => poll_all(queue, world, lane, cx),
        Err(Memory) => {
            close_all(queue, world, 0);
            Err(EnterError::Memory)
        }
    }
}
