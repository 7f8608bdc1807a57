//! The sites and subscribers of a world, what names a field at a site, and the defaults of lanes.
ghost use Rattle.std.specs.Prelude.{◌<◌, ◌≤◌, length, IfOk};

pub mod asked;
pub mod callsites;
mod gates;
pub mod lanes;
mod texts;

use crate::worlds::callsites::{bare, callsite};
use crate::worlds::lanes::lane;
use otel_base::memory::Memory;
use span_registry::registry::Registry;
use std::alloc::Global;
use trace_base::callsite::{Callsite, SiteId};
use trace_base::discard::Discard;
use trace_base::dispatcher::{
    Dispatch, TryInitError, get_default, set_default, set_global_default, try_init, with_default,
};
use trace_base::field::{AsField, Field};
use trace_base::filter::Filter;
use trace_base::lane::Lane;
use trace_base::level::LevelFilter;
use trace_base::no_subscriber::NoSubscriber;
use trace_base::subscriber::Interest;
use trace_base::world::World;

// The place of what anything that names a field names.
fn place_of<Q: AsField>(field: &Q, site: SiteId, callsite: &Callsite) -> Option<usize> {
    field.as_field(site, callsite).map(|field| field.place)
}

// What a name, and fields of this site and of another, name at a site of two fields.
fn named_places(alloc: Global, world: &mut World<Registry>) -> Result<[Option<usize>; 5], Memory> {
    let declared = callsite(alloc, &["a", "f"])?;
    let site = world.add_site(declared.clone()?)?;
    let other = world.add_site(callsite(alloc, &["a", "f"])?)?;
    Ok([
        place_of(&"f", site, &declared),
        place_of(&"g", site, &declared),
        place_of(&Field { site, place: 1 }, site, &declared),
        place_of(&Field { site, place: 2 }, site, &declared),
        place_of(&Field { site, place: 1 }, other, &declared),
    ])
}

#[test]
fn names_fields_at_their_own_callsite(rt: HostRuntime) {
    let mut world = World::new(rt.alloc());
    let told = named_places(rt.alloc(), &mut world);
    world.discard();
    assert_eq!(rt; told, Ok([Some(1), None, Some(1), None, None]));
}

// Adds a registry.
fn add(alloc: Global, world: &mut World<Registry>) -> Result<Dispatch, Memory>
    ensures there { IfOk result (λ dispatch. dispatch < length world.new.subscribers) }
    ensures more { length world.old.subscribers ≤ length world.new.subscribers }
{
    match world.add(Registry::new(alloc)) {
        Ok(dispatch) => Ok(dispatch),
        Err((registry, memory)) => {
            registry.discard();
            Err(memory)
        }
    }
}

// A default, another one inside it, and a third while a closure runs; the numbers of what serves the lane then.
fn nested_defaults(alloc: Global, world: &mut World<Registry>) -> Result<[Option<u64>; 5], Memory> {
    let first = add(alloc, world)?;
    let second = add(alloc, world)?;
    let third = add(alloc, world)?;
    let mut lane = lane(alloc);
    let outer = set_default(&mut lane, first);
    let inner = set_default(&mut lane, second);
    let before = default_number(&lane);
    let inside = with_default(&mut lane, third, |lane: &mut Lane| default_number(lane));
    let behind = default_number(&lane);
    inner.end(&mut lane);
    let after = default_number(&lane);
    outer.end(&mut lane);
    Ok([before, inside, behind, after, default_number(&lane)])
}

fn default_number(lane: &Lane) -> Option<u64> {
    lane.default.map(|dispatch| dispatch.number())
}

#[test]
fn puts_defaults_back_in_order(rt: HostRuntime) {
    let mut world = World::new(rt.alloc());
    let told = nested_defaults(rt.alloc(), &mut world);
    world.discard();
    assert_eq!(rt; told, Ok([Some(1), Some(2), Some(1), Some(0), None]));
}

// Whether nothing serves a lane before a global subscriber is set, the first that is set then does, a second is refused, and
// the lane's own one goes before it.
fn global_default_answers(
    world: &mut World<Registry>,
    lane: &mut Lane,
    first: Dispatch,
    second: Dispatch,
) -> [bool; 5]
    requires first { first < length world.old.subscribers }
    requires second { second < length world.old.subscribers }
{
    let before = get_default(world, lane) == None;
    let set = try_init(world, first) == Ok(());
    let refused = set_global_default(world, second) == Err(TryInitError::AlreadySet);
    let after = get_default(world, lane) == Some(first);
    lane.default = Some(second);
    let own = get_default(world, lane) == Some(second);
    [before, set, refused, after, own]
}

// The same in a world with two registries.
fn in_two_registries(alloc: Global, world: &mut World<Registry>) -> Result<[bool; 5], Memory> {
    let first = add(alloc, world)?;
    let second = add(alloc, world)?;
    Ok(global_default_answers(world, &mut lane(alloc), first, second))
}

#[test]
fn sets_the_global_default_once(rt: HostRuntime) {
    let mut world = World::new(rt.alloc());
    let told = in_two_registries(rt.alloc(), &mut world);
    world.discard();
    assert_eq!(rt; told, Ok([true; 5]));
}

// What a subscriber that admits nothing answers.
fn no_subscriber_answers(alloc: Global) -> (Interest, bool, Option<LevelFilter>) {
    let callsite = bare(alloc);
    let nothing = NoSubscriber {};
    (
        nothing.callsite_enabled(&callsite),
        nothing.enabled(1, &callsite),
        nothing.max_level_hint(),
    )
}

#[test]
fn admits_nothing_without_a_subscriber(rt: HostRuntime) {
    let told = no_subscriber_answers(rt.alloc());
    assert!(rt; told == (Interest::Never, false, Some(LevelFilter::OFF)));
}
