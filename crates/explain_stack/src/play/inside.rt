//! What lies inside a future under a span, a future under a subscriber, and a layer that counts.
use crate::scene::polls::SubscriberProbe;
use crate::stack::tally::Tally;
use env_directives::targets::Targets;
use otel_base::memory::Memory;
use otel_base::recorder::Recorder;
use otel_base::stack::ContextStack;
use otel_layer::layer::OpenTelemetryLayer;
use span_futures::instrument::Instrument;
use span_futures::with_dispatch::WithSubscriber;
use span_handles::span::Span;
use span_registry::registry::Registry;
use std::alloc::Global;
use std::mem;
use trace_base::discard::Discard;
use trace_base::dispatcher::Dispatch;
use trace_base::lane::Lane;
use trace_base::world::World;

/// Whether a future is ready that lies under the current span of a lane without one, before and after it is changed there,
/// and whether it lies under none; the same of one under a subscriber, once it is taken out; and what a tracer was asked for
/// that was put inside a layer that counts.
pub fn line(alloc: Global, dispatch: Dispatch) -> Result<String, Memory> {
    let (before, after, is_none) = under_no_span(alloc);
    let (first, next, out) = under_subscriber(dispatch);
    let (reserved, finished) = under_counting(alloc);
    Ok(format!(in alloc;
        "  span {before} {after}, none {is_none}; subscriber {first} {next} {out}; tracer {reserved} {finished}\n"
    )?)
}

fn under_no_span(alloc: Global) -> (bool, bool, bool) {
    let mut world: World<Registry> = World::new(alloc);
    let lane = Lane {
        id: 1,
        name: None,
        default: None,
        contexts: ContextStack::new(alloc),
    };
    let mut future = SubscriberProbe { is_ready: false }.in_current_span(&mut world, &lane);
    let before = future.inner().is_ready;
    future.inner_mut().is_ready = true;
    let after = future.inner().is_ready;
    let span = mem::replace(future.span_mut(), Span::none());
    let is_none = span.is_none();
    span.discard();
    future.into_inner(&mut world, 0);
    world.discard();
    (before, after, is_none)
}

fn under_subscriber(dispatch: Dispatch) -> (bool, bool, bool) {
    let mut future = SubscriberProbe { is_ready: false }.with_subscriber(dispatch);
    let before = future.inner().is_ready;
    future.inner_mut().is_ready = true;
    let after = future.inner().is_ready;
    (before, after, future.into_inner().is_ready)
}

fn under_counting(alloc: Global) -> (u64, u64) {
    let layer = OpenTelemetryLayer::new(alloc, Recorder::new(alloc));
    let layer = layer.with_counting_event_filter(Targets::new(alloc));
    let mut layer = layer.map_inner(|inner| inner.with_tracer(Tally::new(alloc, false)));
    let counts = layer.tracer_mut().counts();
    layer.discard();
    counts
}
