//! Each call over two layers and a registry: which hooks it tells, and in which order.
ghost use Rattle.std.specs.Prelude.{◌≡◌, OnOk};
ghost use Rattle.trace_base.specs.Calls.{with_span_entry};
ghost use Rattle.trace_base.specs.Conditions.{HasFewHolds, IsLive};
ghost use Rattle.span_registry.specs.Registering.{no_spans};

use crate::spans::registries::{NewSpanArguments, bare_arguments};
use crate::worlds::asked::{Notes, NotingLayer};
use otel_base::memory::Memory;
use span_registry::layer::registry;
use span_registry::layered::Layered;
use span_registry::registry::Registry;
use std::alloc::Global;
use std::cell::Cell;
use std::rc::Rc;
use trace_base::discard::Discard;
use trace_base::lane::Lane;
use trace_base::span::{Id, Parent};
use trace_base::subscriber::{Interest, Subscriber};
use trace_base::world::World;

// Such layers know no span, so they are in step with any registry.
fn whole(stack: &Layered<NotingLayer, Layered<NotingLayer, Registry>>)
    ensures { ⟦<Layered<NotingLayer, Layered<NotingLayer, Registry>> as Subscriber>⟧.is_whole stack.now }
{
    stack.inner().inner().sound();
}

fn enter(
    stack: &mut Layered<NotingLayer, Layered<NotingLayer, Registry>>,
    id: Id,
    lane: &mut Lane,
) -> Result<(), Memory>
    requires live { IsLive stack.old.inner.inner.spans.made id }
    requires few_holds { HasFewHolds stack.old.inner.inner.spans.made id }
    ensures lane { OnOk result (lane.new.id ≡ lane.old.id) }
    ensures spans { OnOk result
        (stack.new.inner.inner.spans ≡ with_span_entry stack.old.inner.inner.spans id lane.old.id) }
{
    whole(stack);
    match stack.enter(id, lane, 5) {
        Ok(()) => Ok(()),
        Err(_) => Err(Memory),
    }
}

// What each call notes, and whether the last one closed the span.
fn call_notes(
    stack: &mut Layered<NotingLayer, Layered<NotingLayer, Registry>>,
    making: &mut NewSpanArguments,
    log: &Cell<u64>,
) -> Result<[u64; 10], Memory>
    requires { stack.old.inner.inner.spans ≡ no_spans }
{
    whole(stack);
    let current = stack.current_id(making.lane.id);
    let id = stack.new_span(
        &making.lane,
        1,
        Parent::Root,
        current,
        making.site,
        &making.callsite,
        &making.values,
    )?;
    let made = log.replace(0);
    whole(stack);
    stack.record(id, 2, &making.callsite, &making.values)?;
    let recorded = log.replace(0);
    whole(stack);
    stack.record_follows_from(id, id, 3)?;
    let followed = log.replace(0);
    whole(stack);
    let current = stack.current_id(making.lane.id);
    stack.event(
        &making.lane,
        4,
        Parent::Of(id),
        current,
        making.site,
        &making.callsite,
        &making.values,
    )?;
    let told = log.replace(0);
    enter(stack, id, &mut making.lane)?;
    let entered = log.replace(0);
    whole(stack);
    stack.exit(id, &mut making.lane, 6);
    let exited = log.replace(0);
    whole(stack);
    stack.clone_span(id);
    let cloned = log.replace(0);
    whole(stack);
    stack.try_close(id, 7);
    let released = log.replace(0);
    whole(stack);
    let closing = stack.try_close(id, 8);
    Ok([
        made,
        recorded,
        followed,
        told,
        entered,
        exited,
        cloned,
        released,
        log.get(),
        u64::from(closing.closed),
    ])
}

fn layer(number: u64, log: Rc<Cell<u64>>) -> NotingLayer {
    NotingLayer {
        interest: Interest::Always,
        enables: true,
        hint: None,
        notes: Some(Notes {
            layer_number: number,
            log,
        }),
    }
}

fn two_layer_notes(alloc: Global, making: &mut NewSpanArguments) -> Result<[u64; 10], Memory> {
    let log = Rc::new(alloc, Cell::new(0u64))?;
    let inner = layer(1, log.clone()?);
    let outer = layer(2, log.clone()?);
    let mut stack = registry(alloc).with(inner).with(outer);
    let told = call_notes(&mut stack, making, &log);
    stack.discard();
    told
}

// The same by a callsite of a world.
fn notes_by_site(alloc: Global, sites: &mut World<Registry>) -> Result<[u64; 10], Memory> {
    two_layer_notes(alloc, &mut bare_arguments(alloc, sites)?)
}

// A layer takes its memory before what it lies over does, and its hook comes after.
#[test]
fn tells_layers_in_the_order_in_which_they_were_put_on(rt: HostRuntime) {
    let mut sites = World::new(rt.alloc());
    let told = notes_by_site(rt.alloc(), &mut sites);
    sites.discard();
    let wanted = [
        20101121, 20101222, 20101323, 20101424, 20101525, 1626, 0, 0, 1727, 1,
    ];
    assert_eq!(rt; told, Ok(wanted));
}
