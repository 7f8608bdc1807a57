//! The gate of a world over a layer that answers what it is told to.
ghost use Rattle.std.specs.Prelude.{◌≡◌, ◌<◌, ◌≤◌, [], length, IfOk, None};

use crate::worlds::asked::NotingLayer;
use crate::worlds::callsites::bare;
use crate::worlds::lanes::lane;
use otel_base::memory::Memory;
use span_registry::layered::Layered;
use span_registry::registry::Registry;
use std::alloc::Global;
use trace_base::discard::Discard;
use trace_base::dispatcher::Dispatch;
use trace_base::lane::Lane;
use trace_base::level::{Level, LevelFilter};
use trace_base::subscriber::Interest;
use trace_base::world::World;

// The registry with such a layer over it, added to a world.
fn add(
    alloc: Global,
    world: &mut World<Layered<NotingLayer, Registry>>,
    layer: NotingLayer,
) -> Result<Dispatch, Memory>
    ensures there { IfOk result (λ dispatch. dispatch < length world.new.subscribers) }
    ensures more { length world.old.subscribers ≤ length world.new.subscribers }
    ensures sites { world.new.sites ≡ world.old.sites }
{
    match world.add(Registry::new(alloc).with(layer)) {
        Ok(dispatch) => Ok(dispatch),
        Err((stack, memory)) => {
            stack.discard();
            Err(memory)
        }
    }
}

// What a layer answers: an interest, what it enables, and a hint.
type Answers = (Interest, bool, Option<LevelFilter>);

// A layer that answers so.
fn asked_layer((interest, enables, hint): Answers) -> NotingLayer {
    NotingLayer {
        interest,
        enables,
        hint,
        notes: None,
    }
}

// What the gate answers for a callsite of level INFO.
fn gate(
    alloc: Global,
    world: &mut World<Layered<NotingLayer, Registry>>,
    answers: Answers,
) -> Result<bool, Memory> {
    let site = world.add_site(bare(alloc))?;
    let dispatch = add(alloc, world, asked_layer(answers))?;
    let mut lane = lane(alloc);
    lane.default = Some(dispatch);
    Ok(world.admits(&lane, site))
}

fn passes_gate(alloc: Global, answers: Answers) -> Result<bool, Memory> {
    let mut world = World::new(alloc);
    let answer = gate(alloc, &mut world, answers);
    world.discard();
    answer
}

#[test]
fn admits_by_interest_hint_and_answer(rt: HostRuntime) {
    for (answers, wanted) in [
        ((Interest::Never, true, None), false),
        ((Interest::Sometimes, true, None), true),
        ((Interest::Sometimes, false, None), false),
        ((Interest::Sometimes, true, Some(LevelFilter::WARN)), false),
        ((Interest::Sometimes, true, Some(LevelFilter::INFO)), true),
        ((Interest::Always, false, None), true),
        ((Interest::Always, false, Some(LevelFilter::WARN)), false),
        ((Interest::Always, false, Some(LevelFilter::DEBUG)), true),
    ] {
        assert_eq!(rt; passes_gate(rt.alloc(), answers), Ok(wanted));
    }
}

// The gate's answers without a subscriber, with one, after its interest changed, and after a rebuild; and whether the
// place of the callsite names it, and it and the subscriber are read back.
fn answers_around_rebuild(
    alloc: Global,
    world: &mut World<Layered<NotingLayer, Registry>>,
    lane: &mut Lane,
) -> Result<[bool; 7], Memory>
    requires sites { world.old.sites ≡ [] }
    requires no_default { lane.old.default ≡ None }
{
    let site = world.add_site(bare(alloc))?;
    let named = world.site_at(0) == Some(site) && world.site_at(1) == None;
    let found = world.site(site).level == Level::INFO;
    let none = world.admits(lane, site);
    let dispatch = add(alloc, world, asked_layer((Interest::Always, true, None)))?;
    lane.default = Some(dispatch);
    let fresh = world.admits(lane, site);
    world.subscriber_mut(dispatch).layer_mut().interest = Interest::Never;
    let stale = world.admits(lane, site);
    let answers = world.subscriber(dispatch).layer().interest == Interest::Never;
    world.rebuild_interest()?;
    let rebuilt = world.admits(lane, site);
    Ok([none, fresh, stale, rebuilt, named, found, answers])
}

#[test]
fn caches_interests_until_they_are_rebuilt(rt: HostRuntime) {
    let mut world = World::new(rt.alloc());
    let told = answers_around_rebuild(rt.alloc(), &mut world, &mut lane(rt.alloc()));
    world.discard();
    assert_eq!(rt; told, Ok([false, true, true, false, true, true, true]));
}
