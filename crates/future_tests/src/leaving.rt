//! A future that leaves an entry open.
ghost use Rattle.std.specs.Prelude.{◌≡◌, [], None};

use crate::acts::{EntryLeaver, can_hold};
use crate::plays::{Play, play_in_new_world};
use crate::polls::poll;
use crate::records::take_record_texts;
use crate::stack::{Stack, add_first_span, context_span_number, current_span_number};
use futures::task::Context;
use otel_base::memory::Memory;
use span_futures::instrument::Instrument;
use std::alloc::Global;
use std::test::Fail;
use trace_base::lane::Lane;
use trace_base::span::Id;
use trace_base::world::World;

/// A poll that leaves an entry of its span open: its answer, the current span and the current context afterwards, how many
/// contexts are live, how many holds the span has after the end of the future, and the records.
pub fn leave_open<S: Stack>(
    alloc: Global,
    world: &mut World<S>,
    lane: &mut Lane,
    cx: &mut Context<'_>,
) -> Result<String, Memory>
    requires empty { world.old ≡ record { sites = []; subscribers = []; cached = []; global = None } }
    requires own { lane.old.default ≡ None }
{
    let (stack, span) = add_first_span(alloc, world, lane)?;
    if !can_hold(world, &span) {
        span.discard();
        return Err(Memory);
    }
    let copy = span.clone_handle(world);
    let mut future = EntryLeaver { span: copy }.instrument(span);
    let answer = poll(world, lane, 10, &mut future, cx);
    let (after, around) = (
        current_span_number(world, stack, lane),
        context_span_number(lane),
    );
    let EntryLeaver { span } = future.into_inner(world, 20);
    span.discard();
    let live = lane.contexts.live();
    let holds = world.subscriber(stack).registry().holds(Id::at(0));
    let told = take_record_texts(alloc, world, stack)?;
    Ok(format!(in alloc; "{answer} {after} {around} {live} {holds}: {told}")?)
}

#[test]
fn leaves_an_entry_open(rt: HostRuntime) -> Result<(), Fail> {
    let told = play_in_new_world(&rt, Play::LeftOpen)?;
    assert_eq!(rt; told.as_str(), "7 1 1 1 2: ");
    Ok(())
}
