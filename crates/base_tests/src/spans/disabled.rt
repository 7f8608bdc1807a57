//! Calls on disabled handles, and handles made where no subscriber serves the lane.
ghost use Rattle.std.specs.Prelude.{◌≡◌, ◌<◌, length, [], None};
ghost use Rattle.span_handles.specs.Handles.{no_handle};

use crate::worlds::callsites::bare;
use crate::worlds::lanes::lane;
use otel_base::enter_error::EnterError;
use otel_base::list::Items;
use otel_base::memory::Memory;
use span_handles::span::Span;
use span_registry::registry::Registry;
use std::alloc::Global;
use trace_base::callsite::SiteId;
use trace_base::discard::Discard;
use trace_base::field::{Value, ValueSet};
use trace_base::lane::Lane;
use trace_base::span::Id;
use trace_base::world::World;

// Whether a span and a root are handles that are none, where no subscriber serves the lane.
fn makes_none(
    world: &mut World<Registry>,
    lane: &Lane,
    site: SiteId,
    values: &ValueSet,
) -> Result<bool, Memory>
    requires default { lane.now.default ≡ None }
    requires global { world.old.global ≡ None }
    requires site { site < length world.old.sites }
    ensures { world.new ≡ world.old }
{
    let contextual = is_none(Span::new(world, lane, 0, site, values)?);
    let root = is_none(Span::new_root(world, lane, 0, site, values)?);
    Ok(contextual && root)
}

// Whether the current span is a handle that is none there, also in place of a disabled one.
fn current_is_none(world: &mut World<Registry>, lane: &Lane, site: SiteId) -> bool
    requires default { lane.now.default ≡ None }
    requires global { world.old.global ≡ None }
{
    let current = is_none(Span::current(world, lane));
    let instead = is_none(Span::new_disabled(site).or_current(world, lane));
    current && instead
}

// Whether a child of a handle that is none is one.
fn child_is_none(
    world: &mut World<Registry>,
    lane: &Lane,
    site: SiteId,
    values: &ValueSet,
) -> Result<bool, Memory>
    requires default { lane.now.default ≡ None }
    requires global { world.old.global ≡ None }
    requires site { site < length world.old.sites }
    ensures { world.new ≡ world.old }
{
    let parent = Span::none();
    let child = Span::child_of(&parent, world, lane, 0, site, values);
    parent.discard();
    Ok(is_none(child?))
}

fn is_none(span: Span) -> bool {
    let none = span.is_none();
    span.discard();
    none
}

// What a disabled handle answers of itself.
fn handle_answers(world: &World<Registry>, site: SiteId) -> [bool; 9]
    requires { site < length world.now.sites }
{
    let span = Span::new_disabled(site);
    let answers = [
        span.id().is_none(),
        Option::<Id>::from(&span).is_none(),
        span.is_disabled(),
        !span.is_none(),
        !span.same_span(&span),
        span.with_subscriber(|_| 1u64).is_none(),
        span.metadata(world).is_some(),
        span.field(world, &"a").is_none(),
        !span.has_field(world, &"a"),
    ];
    span.discard();
    answers
}

// Records on a disabled handle, and on a copy of it.
fn record_on_both(
    world: &mut World<Registry>,
    span: &Span,
    copy: &Span,
    values: &ValueSet,
) -> Result<(), Memory>
    requires span { span.now ≡ no_handle }
    requires copy { copy.now.held ≡ None }
{
    span.record(world, 1, &"a", Value::U64(1))?
        .record_all(world, 2, values)?
        .follows_from(world, 3, copy)?;
    Ok(())
}

// Whether records are taken, and a copy closes nothing.
fn closes_nothing(world: &mut World<Registry>, values: &ValueSet) -> bool {
    let span = Span::none();
    let copy = span.clone_handle(world);
    let told = record_on_both(world, &span, &copy, values);
    let closes = copy.close(world, 4);
    span.discard();
    told == Ok(()) && !closes
}

// Entries of a disabled handle: the lane of the guards, what a closure answers, and that the owning guard gives its
// handle back.
fn entry_answers(
    world: &mut World<Registry>,
    lane: &mut Lane,
    site: SiteId,
) -> Result<[u64; 4], EnterError> {
    let span = Span::new_disabled(site);
    let borrowed = match span.enter(world, lane, 1) {
        Ok(guard) => {
            let on = guard.lane();
            guard.exit(world, lane, 2);
            on
        }
        Err(_) => 0,
    };
    if let Ok(entry) = span.open_entry(world, lane, 3) {
        span.close_entry(entry, world, lane, 4);
    }
    let answer = match span.in_scope(world, lane, 10, |_, _| 7u64) {
        Ok(answer) => answer,
        Err(_) => 0,
    };
    match span.entered(world, lane, 11) {
        Ok(guard) => {
            let on = guard.lane();
            let inside = guard.id().is_none() && guard.span().is_disabled();
            let inside = inside && Option::<Id>::from(&guard).is_none();
            let back = guard.exit(world, lane, 12);
            let same = inside && !back.is_none();
            back.discard();
            Ok([borrowed, answer, on, same as u64])
        }
        Err((span, error)) => {
            span.discard();
            Err(error)
        }
    }
}

// All that is asked of them, in a world without subscribers.
fn call_answers(alloc: Global, world: &mut World<Registry>, lane: &Lane, site: SiteId) -> [bool; 5]
    requires default { lane.now.default ≡ None }
    requires global { world.old.global ≡ None }
    requires site { site < length world.old.sites }
{
    let values = ValueSet {
        pairs: Items::new(alloc),
    };
    let told = handle_answers(world, site) == [true; 9];
    let made = makes_none(world, lane, site, &values) == Ok(true);
    let child = child_is_none(world, lane, site, &values) == Ok(true);
    let currents = current_is_none(world, lane, site);
    [told, made, child, currents, closes_nothing(world, &values)]
}

// The same, and their entries.
fn call_and_entry_answers(
    alloc: Global,
    world: &mut World<Registry>,
) -> Result<([bool; 5], Result<[u64; 4], EnterError>), Memory>
    requires { world.old ≡ record { sites = []; subscribers = []; cached = []; global = None } }
{
    let site = world.add_site(bare(alloc))?;
    let mut lane = lane(alloc);
    let told = call_answers(alloc, world, &lane, site);
    Ok((told, entry_answers(world, &mut lane, site)))
}

#[test]
fn calls_nothing_on_disabled_handles(rt: HostRuntime) {
    let mut world = World::new(rt.alloc());
    let told = call_and_entry_answers(rt.alloc(), &mut world);
    world.discard();
    assert_eq!(rt; told, Ok(([true; 5], Ok([1, 7, 1, 1]))));
}
