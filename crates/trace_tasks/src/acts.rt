//! What a step of a task does.
ghost use Rattle.std.specs.Prelude.{◌≡◌, ◌<◌, length, Some, OnOk, OnErr};
ghost use Rattle.trace_base.specs.Gate.{IsInWorld, dispatch_on};
ghost use Rattle.span_futures.specs.Lent.{HasAll};
ghost use Rattle.trace_tasks.specs.declared.script.Step.TheVariants as steps;
ghost use Rattle.trace_tasks.specs.Acts.{StepOn, Changes, WantsMemory};

use crate::fields::values_of;
use crate::script::Step;
use otel_base::list::Items;
use otel_base::memory::Memory;
use otel_base::text::Text;
use otel_base::value::{KeyValue, OtelValue};
use otel_layer::part::OtelSubscriber;
use otel_state::op::Op;
use std::alloc::Global;
use trace_base::dispatcher::{Dispatch, get_default};
use trace_base::field::Value;
use trace_base::lane::Lane;
use trace_base::span::Parent;
use trace_base::world::World;

// Does a step by the subscriber that serves the lane.
pub(crate) fn do_step<S: OtelSubscriber>(
    alloc: Global,
    world: &mut World<S>,
    lane: &Lane,
    at: u64,
    step: Step,
) -> Result<(), Memory>
    requires in_world { IsInWorld world.old lane.now.default }
    requires whole { HasAll S.Subscriber.is_whole world.old }
    ensures ok { OnOk result (StepOn S.Subscriber.spans S.Subscriber.hint S.Subscriber.enables S.Subscriber.does
        S.OtelPart.touches lane.now at step world.old world.new) }
    ensures changes { Changes S.Subscriber.spans S.Subscriber.hint S.Subscriber.enables S.Subscriber.does
        S.OtelPart.touches S.Subscriber.same_but_room at world.old world.new }
    ensures wants { OnErr result (WantsMemory S.Subscriber.spans S.Subscriber.hint S.Subscriber.enables S.Subscriber.does
        S.OtelPart.touches S.Subscriber.same_but_room at world.old world.new) }
{
    let Some(dispatch) = get_default(world, lane) else {
        drop(step);
        return Ok(());
    };
    match step {
        Step::Event { site, fields } => tell_event(alloc, world, lane, dispatch, at, site, fields),
        Step::Record { fields } => record(alloc, world, lane, dispatch, at, fields),
        Step::SetAttribute { key, value } => set_attribute(world, lane, dispatch, at, key, value),
        Step::Yield => Ok(()),
    }
}

// Tells an event, if it is let through.
fn tell_event<S: OtelSubscriber>(
    alloc: Global,
    world: &mut World<S>,
    lane: &Lane,
    dispatch: Dispatch,
    at: u64,
    site: u64,
    fields: Items<(Text, Value)>,
) -> Result<(), Memory>
    requires in_world { IsInWorld world.old lane.now.default }
    requires serves { dispatch_on lane.now.default world.old.global ≡ Some dispatch }
    requires there { dispatch < length world.old.subscribers }
    requires whole { HasAll S.Subscriber.is_whole world.old }
    ensures ok { OnOk result (StepOn S.Subscriber.spans S.Subscriber.hint S.Subscriber.enables S.Subscriber.does
        S.OtelPart.touches lane.now at (steps.Event site fields) world.old world.new) }
    ensures changes { Changes S.Subscriber.spans S.Subscriber.hint S.Subscriber.enables S.Subscriber.does
        S.OtelPart.touches S.Subscriber.same_but_room at world.old world.new }
    ensures wants { OnErr result (WantsMemory S.Subscriber.spans S.Subscriber.hint S.Subscriber.enables S.Subscriber.does
        S.OtelPart.touches S.Subscriber.same_but_room at world.old world.new) }
{
    let Some(found) = world.site_at(site) else {
        drop(fields);
        return Ok(());
    };
    if !world.admits(lane, found) {
        drop(fields);
        return Ok(());
    }
    let values = values_of(alloc, world.site(found), fields)?;
    let (subscriber, callsite) = world.subscriber_and_site(dispatch, found);
    let current = subscriber.current_id(lane.id);
    subscriber.event(lane, at, Parent::Current, current, found, callsite, &values)
}

// Records on the current span, if there is one.
fn record<S: OtelSubscriber>(
    alloc: Global,
    world: &mut World<S>,
    lane: &Lane,
    dispatch: Dispatch,
    at: u64,
    fields: Items<(Text, Value)>,
) -> Result<(), Memory>
    requires serves { dispatch_on lane.now.default world.old.global ≡ Some dispatch }
    requires there { dispatch < length world.old.subscribers }
    requires whole { HasAll S.Subscriber.is_whole world.old }
    ensures ok { OnOk result (StepOn S.Subscriber.spans S.Subscriber.hint S.Subscriber.enables S.Subscriber.does
        S.OtelPart.touches lane.now at (steps.Record fields) world.old world.new) }
    ensures changes { Changes S.Subscriber.spans S.Subscriber.hint S.Subscriber.enables S.Subscriber.does
        S.OtelPart.touches S.Subscriber.same_but_room at world.old world.new }
    ensures wants { OnErr result (WantsMemory S.Subscriber.spans S.Subscriber.hint S.Subscriber.enables S.Subscriber.does
        S.OtelPart.touches S.Subscriber.same_but_room at world.old world.new) }
{
    let Some((id, site)) = world.subscriber(dispatch).current_span(lane.id) else {
        drop(fields);
        return Ok(());
    };
    let Some(found) = world.site_at(site.number()) else {
        drop(fields);
        return Ok(());
    };
    let values = values_of(alloc, world.site(found), fields)?;
    let (subscriber, callsite) = world.subscriber_and_site(dispatch, found);
    subscriber.record(id, at, callsite, &values)
}

// Sets an attribute on the current span, if there is one.
fn set_attribute<S: OtelSubscriber>(
    world: &mut World<S>,
    lane: &Lane,
    dispatch: Dispatch,
    at: u64,
    key: Text,
    value: OtelValue,
) -> Result<(), Memory>
    requires serves { dispatch_on lane.now.default world.old.global ≡ Some dispatch }
    requires there { dispatch < length world.old.subscribers }
    requires whole { HasAll S.Subscriber.is_whole world.old }
    ensures ok { OnOk result (StepOn S.Subscriber.spans S.Subscriber.hint S.Subscriber.enables S.Subscriber.does
        S.OtelPart.touches lane.now at (steps.SetAttribute key value) world.old world.new) }
    ensures changes { Changes S.Subscriber.spans S.Subscriber.hint S.Subscriber.enables S.Subscriber.does
        S.OtelPart.touches S.Subscriber.same_but_room at world.old world.new }
    ensures wants { OnErr result (WantsMemory S.Subscriber.spans S.Subscriber.hint S.Subscriber.enables S.Subscriber.does
        S.OtelPart.touches S.Subscriber.same_but_room at world.old world.new) }
{
    let pair = KeyValue { key, value };
    let Some((id, _)) = world.subscriber(dispatch).current_span(lane.id) else {
        drop(pair);
        return Ok(());
    };
    match world
        .subscriber_mut(dispatch)
        .otel_apply(id, at, Op::SetAttribute { pair })
    {
        Some(Err(memory)) => Err(memory),
        _ => Ok(()),
    }
}
