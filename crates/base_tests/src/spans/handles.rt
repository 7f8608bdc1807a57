//! What an enabled handle tells of its span, over a registry that serves all lanes. What handles make, enter and close is shown by
//! stored runs and by the tests of futures.
ghost use Rattle.std.specs.Prelude.{◌≡◌, ◌<◌, length, [], IfOk, OnOk, None};
ghost use Rattle.trace_base.specs.declared.span.Parent.TheVariants as parent;
ghost use Rattle.span_registry.specs.Registering.{no_spans};
ghost use Rattle.span_handles.specs.Handles.{handle_of};
ghost use Rattle.base_tests.specs.Single.{HasFirstSpan, IsSingle, ChangesSpansTo, MayMakeSpan, spans_with_new, spans_of};

use crate::worlds::callsites::callsite;
use crate::worlds::lanes::lane;
use otel_base::list::Items;
use otel_base::memory::Memory;
use span_handles::span::Span;
use span_registry::registry::Registry;
use std::alloc::Global;
use trace_base::callsite::SiteId;
use trace_base::discard::Discard;
use trace_base::dispatcher::{Dispatch, try_init};
use trace_base::field::{Field, Value, ValueSet};
use trace_base::lane::Lane;
use trace_base::span::Id;
use trace_base::world::World;

// What spans are made of.
#[derive(Drop)]
struct SpanSource {
    site: SiteId,
    values: ValueSet,
    registry: Dispatch,
}

// A registry as the world's global subscriber, and a callsite with a field.
fn prepare(alloc: Global, world: &mut World<Registry>) -> Result<SpanSource, Memory>
    requires { world.old ≡ record { sites = []; subscribers = []; cached = []; global = None } }
    ensures made { IfOk result (λ making. (making.site ≡ 0) × (making.registry ≡ 0)) }
    ensures sites { OnOk result (length world.new.sites ≡ 1) }
    ensures single { OnOk result (IsSingle world.new) }
    ensures spans { OnOk result (spans_of world.new ≡ no_spans) }
{
    let site = world.add_site(callsite(alloc, &["a"])?)?;
    match world.add(Registry::new(alloc)) {
        Ok(registry) => {
            if try_init(world, registry).is_err() {
                return Err(Memory);
            }
            Ok(SpanSource {
                site,
                values: ValueSet {
                    pairs: Items::new(alloc),
                },
                registry,
            })
        }
        Err((registry, memory)) => {
            registry.discard();
            Err(memory)
        }
    }
}

fn number(id: Option<Id>) -> u64 {
    match id {
        Some(id) => id.into_u64(),
        None => 0,
    }
}

// What a handle tells of itself, and that its records are taken.
fn first_handle_answers(
    world: &mut World<Registry>,
    lane: &Lane,
    making: &SpanSource,
    first: &Span,
) -> Result<[bool; 9], Memory>
    requires { HasFirstSpan world.old lane.now making.now.site making.now.registry first.now }
{
    let field = Field {
        site: making.site,
        place: 0,
    };
    let own = first.with_subscriber(|(id, dispatch)| id.into_u64() == 1 && dispatch.number() == 0);
    first
        .record(world, 1, &"a", Value::U64(1))?
        .record(world, 2, &"b", Value::U64(1))?
        .record_all(world, 3, &making.values)?
        .follows_from(world, 4, first)?;
    Ok([
        number(first.id()) == 1,
        number(Option::<Id>::from(first)) == 1,
        !first.is_disabled(),
        !first.is_none(),
        first.same_span(first),
        own == Some(true),
        first.metadata(world).is_some(),
        first.field(world, &"a") == Some(field),
        first.has_field(world, &field) && !first.has_field(world, &"b"),
    ])
}

// A root.
fn root(world: &mut World<Registry>, lane: &Lane, making: &SpanSource) -> Result<Span, Memory>
    requires single { IsSingle world.old }
    requires site { making.now.site < length world.old.sites }
    requires may { MayMakeSpan world.old lane.now parent.Root }
    ensures made { OnOk result
        (ChangesSpansTo world.old world.new (spans_with_new world.old lane.now.id parent.Root making.now.site)) }
    ensures is { IfOk result (λ span. span ≡ handle_of 0 (length (spans_of world.old).made) making.now.site) }
{
    Span::new_root(world, lane, 0, making.site, &making.values)
}

// A first span, a root.
fn first(
    alloc: Global,
    world: &mut World<Registry>,
    lane: &Lane,
) -> Result<(SpanSource, Span), Memory>
    requires world { world.old ≡ record { sites = []; subscribers = []; cached = []; global = None } }
    requires lane { lane.now.id ≡ 1 }
    requires no_default { lane.now.default ≡ None }
    ensures { IfOk result (λ it. HasFirstSpan world.new lane.now it.0.site it.0.registry it.1) }
{
    let making = prepare(alloc, world)?;
    let span = root(world, lane, &making)?;
    Ok((making, span))
}

// What the handle of a first span tells, in a world of its own; the span's hold is kept.
fn first_span_answers(alloc: Global) -> Result<Result<[bool; 9], Memory>, Memory> {
    let mut world = World::new(alloc);
    let lane = lane(alloc);
    let told = match first(alloc, &mut world, &lane) {
        Ok((making, first)) => {
            let told = first_handle_answers(&mut world, &lane, &making, &first);
            first.discard();
            Ok(told)
        }
        Err(memory) => Err(memory),
    };
    world.discard();
    told
}

#[test]
fn tells_of_a_span_by_its_handle(rt: HostRuntime) {
    assert_eq!(rt; first_span_answers(rt.alloc()), Ok(Ok([true; 9])));
}
