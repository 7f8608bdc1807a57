//! Tasks that are begun.
ghost use Rattle.std.specs.Prelude.{◌≡◌, ◌<◌, ◌^◌, ◌+◌, [], length, IfOk, OnOk, OnErr};
ghost use Rattle.span_handles.specs.Worlds.{spans_in};
ghost use Rattle.span_handles.specs.Handles.{IsKnown};
ghost use Rattle.span_handles.specs.Knowing.{KeepsHandles};
ghost use Rattle.span_futures.specs.Lent.{HasAll};
ghost use Rattle.trace_tasks.specs.Acts.{WantsMemory};
ghost use Rattle.trace_tasks.specs.Begun.{MakesTaskSpan, Begins, AllHaveCallsites, AreBegun};
ghost use Rattle.trace_tasks.specs.Stops.{StopsBeginning};
ghost use Rattle.trace_tasks.specs.Turning.{ReadyToPoll, dispatch_serving};
ghost use Rattle.trace_tasks.specs.Waiting.{AllKnownAndApart};

use crate::fields::values_of;
use crate::running::TaskFuture;
use crate::script::Task;
use otel_base::list::Items;
use otel_base::memory::Memory;
use otel_base::text::Text;
use otel_layer::part::OtelSubscriber;
use span_futures::instrument::{Instrument, Instrumented};
use span_handles::span::Span;
use std::alloc::Global;
use std::collections::VecDeque;
use trace_base::callsite::SiteId;
use trace_base::field::Value;
use trace_base::lane::Lane;
use trace_base::world::World;

// Makes the span of a task at 0, a disabled one if it isn't let through.
fn make<S: OtelSubscriber>(
    alloc: Global,
    world: &mut World<S>,
    lane: &Lane,
    site: SiteId,
    fields: Items<(Text, Value)>,
) -> Result<Span, Memory>
    requires ready { ReadyToPoll S.Subscriber.spans S.Subscriber.kept S.Subscriber.is_whole world.old lane.now }
    requires site { site < length world.old.sites }
    requires few { length (spans_in S.Subscriber.spans world.old (dispatch_serving lane.now)).made < 2 ^ 63 }

    ensures ok { IfOk result (MakesTaskSpan S.Subscriber.spans S.Subscriber.hint S.Subscriber.enables
        S.Subscriber.does S.OtelPart.touches site fields lane.now world.old world.new) }
    ensures wants { OnErr result (WantsMemory S.Subscriber.spans S.Subscriber.hint S.Subscriber.enables S.Subscriber.does
        S.OtelPart.touches S.Subscriber.same_but_room 0 world.old world.new) }
    ensures known { IfOk result (λ span. IsKnown S.Subscriber.spans world.new span.held) }
    ensures keeps { KeepsHandles S.Subscriber.spans world.old world.new }
    ensures whole { HasAll S.Subscriber.is_whole world.new }
{
    if !world.admits(lane, site) {
        drop(fields);
        return Ok(Span::new_disabled(site));
    }
    let values = values_of(alloc, world.site(site), fields)?;
    Span::new(world, lane, 0, site, &values)
}

// Begins a task.
fn begin<S: OtelSubscriber>(
    alloc: Global,
    task: Task,
    world: &mut World<S>,
    lane: &Lane,
) -> Result<Instrumented<TaskFuture>, Memory>
    requires ready { ReadyToPoll S.Subscriber.spans S.Subscriber.kept S.Subscriber.is_whole world.old lane.now }
    requires site { task.site < length world.old.sites }
    requires few { length (spans_in S.Subscriber.spans world.old (dispatch_serving lane.now)).made < 2 ^ 63 }
    ensures ok { IfOk result (Begins S.Subscriber.spans S.Subscriber.hint S.Subscriber.enables S.Subscriber.kept
        S.Subscriber.is_whole S.Subscriber.does S.OtelPart.touches task lane.now world.old world.new) }
    ensures wants { OnErr result (WantsMemory S.Subscriber.spans S.Subscriber.hint S.Subscriber.enables S.Subscriber.does
        S.OtelPart.touches S.Subscriber.same_but_room 0 world.old world.new) }
    ensures keeps { KeepsHandles S.Subscriber.spans world.old world.new }
    ensures whole { HasAll S.Subscriber.is_whole world.new }
{
    let Task {
        site,
        fields,
        steps,
    } = task;
    let Some(found) = world.site_at(site) else {
        unreachable!()
    };
    match make(alloc, world, lane, found, fields) {
        Ok(span) => {
            let steps = VecDeque::from(steps.into_vec());
            Ok(TaskFuture { alloc, steps }.instrument(span))
        }
        Err(memory) => {
            drop(steps);
            Err(memory)
        }
    }
}

/// Begins tasks in order, and puts them into a queue.
pub(crate) fn begin_all<S: OtelSubscriber>(
    alloc: Global,
    tasks: Items<Task>,
    queue: &mut VecDeque<Instrumented<TaskFuture>>,
    world: &mut World<S>,
    lane: &Lane,
) -> Result<(), Memory>
    requires none { queue.old.items ≡ [] }
    requires ready { ReadyToPoll S.Subscriber.spans S.Subscriber.kept S.Subscriber.is_whole world.old lane.now }
    requires sites { AllHaveCallsites (length world.old.sites) tasks }
    requires few { length (spans_in S.Subscriber.spans world.old (dispatch_serving lane.now)).made + length tasks < 2 ^ 63 }

    ensures ok { OnOk result (AreBegun S.Subscriber.spans S.Subscriber.hint S.Subscriber.enables S.Subscriber.kept
        S.Subscriber.is_whole S.Subscriber.does S.OtelPart.touches tasks lane.now world.old world.new queue.new.items) }
    ensures stops { OnErr result (StopsBeginning S.Subscriber.spans S.Subscriber.hint S.Subscriber.enables
        S.Subscriber.kept S.Subscriber.is_whole S.Subscriber.does S.OtelPart.touches S.Subscriber.same_but_room tasks lane.now
        world.old world.new queue.new.items) }
    ensures known { AllKnownAndApart S.Subscriber.spans world.new queue.new.items }
    ensures whole { HasAll S.Subscriber.is_whole world.new }
{
    for task in tasks.into_vec() {
        queue.reserve(1)?;
        let begun = begin(alloc, task, world, lane)?;
        queue.push_back_reserved(begun);
    }
    Ok(())
}
