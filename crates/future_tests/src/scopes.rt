//! Calls inside the scope of a span.
ghost use Rattle.std.specs.Prelude.{◌≡◌, ◌<◌, [], length, None};
ghost use Rattle.span_handles.specs.Handles.{IsKnown};
ghost use Rattle.span_futures.specs.Lent.{HasAll};
ghost use Rattle.future_tests.specs.Ready.{IsReadyForCalls};

use crate::acts::can_hold;
use crate::plays::{Play, play_in_new_world};
use crate::records::take_record_texts;
use crate::stack::{Stack, add_first_span, context_span_number, current_span_number};
use otel_base::enter_error::EnterError;
use otel_base::memory::Memory;
use span_handles::span::Span;
use std::alloc::Global;
use std::test::Fail;
use trace_base::dispatcher::Dispatch;
use trace_base::lane::Lane;
use trace_base::world::World;

// What a closure answers inside a span at 10: 7, the current span and the current context.
fn inside<S: Stack>(
    world: &mut World<S>,
    lane: &mut Lane,
    stack: Dispatch,
    span: &Span,
) -> Result<(u64, u64, u64), EnterError>
    requires there { stack < length world.old.subscribers }
    requires known { IsKnown S.spans world.old span.now.held }
    requires ready { IsReadyForCalls S.kept S.is_whole world.old lane.old }
    ensures there { length world.new.subscribers ≡ length world.old.subscribers }
    ensures known { IsKnown S.spans world.new span.now.held }
    ensures whole { HasAll S.is_whole world.new }
{
    if !can_hold(world, span) {
        return Err(EnterError::Full);
    }
    span.in_scope(
        world,
        lane,
        10,
        |world: &mut World<S>, lane: &mut Lane| -> (u64, u64, u64)
            requires there { stack < length world.old.subscribers }
            requires whole { HasAll S.is_whole world.old }
            ensures world { world.new ≡ world.old }
            ensures lane { lane.new ≡ lane.old }
        {
            (
                7,
                current_span_number(world, stack, lane),
                context_span_number(lane),
            )
        },
    )
}

/// What the closure answers, the current span and the current context afterwards, and the record of the span, which is closed
/// at 30.
pub fn run_in_scope<S: Stack>(
    alloc: Global,
    world: &mut World<S>,
    lane: &mut Lane,
) -> Result<String, Memory>
    requires empty { world.old ≡ record { sites = []; subscribers = []; cached = []; global = None } }
    requires own { lane.old.default ≡ None }
{
    let (stack, span) = add_first_span(alloc, world, lane)?;
    let (seven, inside, around) = match inside(world, lane, stack, &span) {
        Ok(answer) => answer,
        Err(_) => (0, 0, 0),
    };
    let (after, left) = (
        current_span_number(world, stack, lane),
        context_span_number(lane),
    );
    let closed = span.close(world, 30);
    let told = take_record_texts(alloc, world, stack)?;
    Ok(format!(in alloc; "{seven} {inside} {around} {after} {left} {closed}: {told}")?)
}

#[test]
fn in_scope_call(rt: HostRuntime) -> Result<(), Fail> {
    let told = play_in_new_world(&rt, Play::Scoped)?;
    let wanted =
        "7 1 1 0 0 true: work 1 under 0, 0 to 10, thread.id 1, target tests, busy_ns 0, idle_ns 10";
    assert_eq!(rt; told.as_str(), wanted);
    Ok(())
}
