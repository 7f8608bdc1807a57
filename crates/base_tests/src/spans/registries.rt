//! Spans of a registry: their holds, slots, entries and closes.
ghost use Rattle.std.specs.Prelude.{◌≡◌, ◌∷◌, [], length, IfOk, OnOk, Some, None};
ghost use Rattle.trace_base.specs.Spans.{entries_on, parent_on};
ghost use Rattle.trace_base.specs.Calls.{with_new_span, with_span_entry};
ghost use Rattle.trace_base.specs.Conditions.{AreFew, HasFewHolds, ParentHasFewHolds, IsLive, IsLiveParent};
ghost use Rattle.span_registry.specs.Registering.{no_spans};

use crate::worlds::callsites::bare;
use crate::worlds::lanes::lane;
use otel_base::list::Items;
use otel_base::memory::Memory;
use span_registry::registry::Registry;
use std::alloc::Global;
use trace_base::callsite::{Callsite, SiteId};
use trace_base::discard::Discard;
use trace_base::field::ValueSet;
use trace_base::lane::Lane;
use trace_base::span::{Id, Parent};
use trace_base::subscriber::Subscriber;
use trace_base::world::World;

/// What a span is made of.
#[derive(Drop)]
pub struct NewSpanArguments {
    /// The lane.
    pub lane: Lane,
    /// The callsite's number.
    pub site: SiteId,
    /// The callsite.
    pub callsite: Callsite,
    /// No values.
    pub values: ValueSet,
}

/// What a span without a name or values is made of.
pub fn bare_arguments(
    alloc: Global,
    sites: &mut World<Registry>,
) -> Result<NewSpanArguments, Memory>
    ensures { IfOk result (λ making. making.lane.id ≡ 1) }
{
    let site = sites.add_site(bare(alloc))?;
    Ok(NewSpanArguments {
        lane: lane(alloc),
        site,
        callsite: bare(alloc),
        values: ValueSet {
            pairs: Items::new(alloc),
        },
    })
}

// A span at a place on the lane.
fn make(registry: &mut Registry, making: &NewSpanArguments, parent: Parent) -> Result<Id, Memory>
    requires live { IsLiveParent registry.old.spans.made parent }
    requires few { AreFew registry.old.spans }
    requires few_holds { ParentHasFewHolds registry.old.spans making.now.lane.id parent }
    ensures id { IfOk result (λ id. id ≡ length registry.old.spans.made) }
    ensures spans { OnOk result
        (registry.new.spans ≡ with_new_span registry.old.spans
        (parent_on (entries_on making.now.lane.id registry.old.spans.lanes) parent) making.now.site) }
{
    let current = registry.current_id(making.lane.id);
    registry.new_span(
        &making.lane,
        0,
        parent,
        current,
        making.site,
        &making.callsite,
        &making.values,
    )
}

// Three spans, each under the one before.
fn three(registry: &mut Registry, making: &NewSpanArguments) -> Result<[Id; 3], Memory>
    requires { registry.old ≡ record { spans = no_spans; slots = 0 } }
    ensures ids { IfOk result (λ ids. ids ≡ 0 ∷ 1 ∷ 2 ∷ []) }
    ensures spans { OnOk result
        (registry.new.spans ≡ record {
          made = record { holds = 2; parent = None; site = making.now.site } ∷ record
              { holds = 2; parent = Some 0; site = making.now.site } ∷ record
              { holds = 1; parent = Some 1; site = making.now.site } ∷ [];
          lanes = [];
        }) }
{
    let top = make(registry, making, Parent::Current)?;
    let middle = make(registry, making, Parent::Of(top))?;
    let last = make(registry, making, Parent::Of(middle))?;
    Ok([top, middle, last])
}

// The handles of three spans closed, those of the parents first, and a span made after that: the holds of the topmost
// once its handle is closed, how many closed with the last handle, in which order, the new number and the slots.
fn chain_numbers(registry: &mut Registry, making: &NewSpanArguments) -> Result<[u64; 6], Memory>
    requires { registry.old ≡ record { spans = no_spans; slots = 0 } }
{
    let ids = three(registry, making)?;
    registry.try_close(ids[0], 1);
    let left = registry.holds(ids[0]);
    registry.try_close(ids[1], 2);
    let third = registry.next_closed(ids[2]);
    let second = match third {
        Some(id) => registry.next_closed(id),
        None => None,
    };
    let first = match second {
        Some(id) => registry.next_closed(id),
        None => None,
    };
    Ok([
        left,
        number(third),
        number(second),
        number(first),
        registry.holds(ids[0]),
        registry.slots(),
    ])
}

fn number(id: Option<Id>) -> u64 {
    match id {
        Some(id) => id.into_u64(),
        None => 0,
    }
}

// Three roots made, two of them closed, and one made again: its number and the slots.
fn after_reuse(registry: &mut Registry, making: &NewSpanArguments) -> Result<[u64; 2], Memory>
    requires { registry.old ≡ record { spans = no_spans; slots = 0 } }
{
    let first = make(registry, making, Parent::Root)?;
    let second = make(registry, making, Parent::Root)?;
    make(registry, making, Parent::Root)?;
    registry.try_close(first, 1);
    registry.try_close(second, 2);
    let last = make(registry, making, Parent::Root)?;
    Ok([last.into_u64(), registry.slots()])
}

// A thousand spans, each made and closed: the slots.
#[tactic(auto, using(span_registry::proofs::Sound::made_own, span_registry::proofs::Sound::made_count))]
fn slots_after_thousand(registry: &mut Registry, making: &NewSpanArguments) -> Result<u64, Memory>
    requires { registry.old ≡ record { spans = no_spans; slots = 0 } }
{
    for at in 0..1000u64 {
        registry.sound();
        let id = make(registry, making, Parent::Root)?;
        registry.try_close(id, at);
    }
    Ok(registry.slots())
}

fn enter(registry: &mut Registry, id: Id, lane: &mut Lane) -> Result<(), Memory>
    requires live { IsLive registry.old.spans.made id }
    requires few_holds { HasFewHolds registry.old.spans.made id }
    ensures lane { lane.new ≡ lane.old }
    ensures spans { OnOk result (registry.new.spans ≡ with_span_entry registry.old.spans id lane.old.id) }
{
    match registry.enter(id, lane, 1) {
        Ok(()) => Ok(()),
        Err(_) => Err(Memory),
    }
}

// The holds of a span that is entered twice, after one exit, and after both.
fn entry_holds(registry: &mut Registry, making: &mut NewSpanArguments) -> Result<[u64; 3], Memory>
    requires initial { registry.old ≡ record { spans = no_spans; slots = 0 } }
    requires lane { making.old.lane.id ≡ 1 }
{
    let id = make(registry, making, Parent::Root)?;
    enter(registry, id, &mut making.lane)?;
    enter(registry, id, &mut making.lane)?;
    let held = registry.holds(id);
    registry.exit(id, &mut making.lane, 4);
    let left = registry.holds(id);
    registry.exit(id, &mut making.lane, 5);
    Ok([held, left, registry.holds(id)])
}

// What both come to, each in a registry of its own.
fn chain_and_entry_holds(
    alloc: Global,
    sites: &mut World<Registry>,
) -> Result<(Result<[u64; 6], Memory>, Result<[u64; 3], Memory>), Memory> {
    let mut making = bare_arguments(alloc, sites)?;
    let chained = chain_numbers(&mut Registry::new(alloc), &making);
    Ok((chained, entry_holds(&mut Registry::new(alloc), &mut making)))
}

#[test]
fn holds_by_children_and_first_entries(rt: HostRuntime) {
    let mut sites = World::new(rt.alloc());
    let told = chain_and_entry_holds(rt.alloc(), &mut sites);
    sites.discard();
    let wanted = (Ok([1, 2, 1, 0, 0, 3]), Ok([2, 2, 1]));
    assert_eq!(rt; told, Ok(wanted));
}

// How slots are used again, among few spans and many.
fn slots_after_reuse(
    alloc: Global,
    sites: &mut World<Registry>,
) -> Result<(Result<[u64; 2], Memory>, Result<u64, Memory>), Memory> {
    let making = bare_arguments(alloc, sites)?;
    let reused = after_reuse(&mut Registry::new(alloc), &making);
    Ok((
        reused,
        slots_after_thousand(&mut Registry::new(alloc), &making),
    ))
}

#[test]
fn uses_slots_again(rt: HostRuntime) {
    let mut sites = World::new(rt.alloc());
    let told = slots_after_reuse(rt.alloc(), &mut sites);
    sites.discard();
    assert_eq!(rt; told, Ok((Ok([4, 3]), Ok(1))));
}
