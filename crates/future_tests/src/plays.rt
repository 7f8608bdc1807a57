//! What the tests play, each in a world of its own.
ghost use Rattle.std.specs.Prelude.{◌≡◌, [], None};

use crate::leaving::leave_open;
use crate::polls::{end_in_span, look_around, poll_twice};
use crate::scopes::run_in_scope;
use crate::served::{make_under_second, poll_under_taken_default};
use crate::stack::lane;
use futures::task::Context;
use futures::test::MockTask;
use otel_base::memory::Memory;
use otel_layer::recording::PlainRecordedStack;
use std::alloc::{AllocGlobal, Global};
use std::random::RandomSource;
use std::test::Fail;
use trace_base::discard::Discard;
use trace_base::lane::Lane;
use trace_base::world::World;

/// What is played.
#[derive(Clone, Copy)]
pub enum Play {
    Scoped,
    PolledTwice,
    Looked,
    Refused,
    Ended,
    LeftOpen,
    MadeUnder,
    TakenDefault,
}

/// Plays it in a new world on a new lane, and answers what is told of it.
pub fn play_in_new_world<R: RandomSource + AllocGlobal>(
    rt: &R,
    play: Play,
) -> Result<String, Fail> {
    let task = MockTask::new(rt)?;
    let alloc = rt.alloc();
    let told = task.enter(|cx| {
        let mut world = World::new(alloc);
        let mut lane = lane(alloc);
        let told = play_text(alloc, &mut world, &mut lane, play, cx);
        world.discard();
        told
    });
    Ok(told?)
}

fn play_text(
    alloc: Global,
    world: &mut World<PlainRecordedStack>,
    lane: &mut Lane,
    play: Play,
    cx: &mut Context<'_>,
) -> Result<String, Memory>
    requires empty { world.old ≡ record { sites = []; subscribers = []; cached = []; global = None } }
    requires own { lane.old.default ≡ None }
{
    match play {
        Play::Scoped => run_in_scope(alloc, world, lane),
        Play::PolledTwice => poll_twice(alloc, world, lane, cx),
        Play::Looked => look_around(alloc, world, lane, false, cx),
        Play::Refused => look_around(alloc, world, lane, true, cx),
        Play::Ended => end_in_span(alloc, world, lane),
        Play::LeftOpen => leave_open(alloc, world, lane, cx),
        Play::MadeUnder => make_under_second(alloc, world, lane, cx),
        Play::TakenDefault => poll_under_taken_default(alloc, world, lane, cx),
    }
}
