//! Recorders give ids by number and records in order, and a tracer that keeps nothing gives the parent's ids.
ghost use Rattle.std.specs.Prelude.{◌≡◌, OnOk};

use crate::records::contexts::context_with;
use otel_base::context::{Context, SpanContext};
use otel_base::list::Items;
use otel_base::memory::Memory;
use otel_base::noop::NoopTracer;
use otel_base::record::{Record, SpanKind};
use otel_base::recorder::Recorder;
use otel_base::status::Status;
use otel_base::text::Text;
use otel_base::tracer::Tracer;
use std::alloc::Global;

fn ids(trace: u128, span: u64) -> SpanContext {
    SpanContext { trace, span }
}

#[test]
fn gives_ids_by_number(rt: HostRuntime) {
    let mut recorder = Recorder::new(rt.alloc());
    let told = [
        recorder.start(&context_with(0, 0)),
        recorder.start(&context_with(9, 7)),
        recorder.start(&context_with(9, 0)),
        recorder.start(&context_with(0, 7)),
        recorder.start(&context_with(u128::MAX, u64::MAX)),
    ];
    let wanted = [
        ids(1, 1),
        ids(9, 2),
        ids(3, 3),
        ids(4, 4),
        ids(u128::MAX, 5),
    ];
    assert!(rt; told == wanted);
    assert_eq!(rt; recorder.spans_started(), 5);
}

// A finished span that began at this moment.
fn record(alloc: Global, start: u64) -> Record {
    Record {
        name: Text::from(String::new(alloc)),
        kind: SpanKind::Internal,
        context: ids(1, 1),
        parent: 0,
        start,
        end: start,
        attributes: Items::new(alloc),
        events: Items::new(alloc),
        links: Items::new(alloc),
        status: Status::Unset,
    }
}

// What any tracer promises: two rooms are enough for two finishes, of spans that began at 5 and at 3.
fn finish_both<T: Tracer>(alloc: Global, tracer: &mut T) -> Result<(), Memory>
    ensures { OnOk result (T.spare tracer.new ≡ T.spare tracer.old) }
{
    tracer.reserve()?;
    tracer.reserve()?;
    tracer.finish(record(alloc, 5));
    tracer.finish(record(alloc, 3));
    Ok(())
}

// When the span of the oldest record began.
fn take_start(recorder: &mut Recorder) -> Option<u64>
    ensures { recorder.new.spare ≡ recorder.old.spare }
{
    recorder.take().map(|record| record.start)
}

// What is taken before two records, then one of these, and after another one the rest.
fn starts_taken(alloc: Global, recorder: &mut Recorder) -> Result<[Option<u64>; 5], Memory> {
    let none = take_start(recorder);
    finish_both(alloc, recorder)?;
    recorder.reserve()?;
    let first = take_start(recorder);
    recorder.finish(record(alloc, 8));
    Ok([
        none,
        first,
        take_start(recorder),
        take_start(recorder),
        take_start(recorder),
    ])
}

#[test]
fn gives_the_oldest_first(rt: HostRuntime) {
    let mut recorder = Recorder::new(rt.alloc());
    let told = starts_taken(rt.alloc(), &mut recorder);
    assert_eq!(rt; told, Ok([None, Some(5), Some(3), Some(8), None]));
    assert_eq!(rt; recorder.spans_started(), 0);
}

#[test]
fn keeps_nothing(rt: HostRuntime) {
    let mut tracer = NoopTracer::new();
    let before = [
        tracer.start(&Context::empty()),
        tracer.start(&context_with(9, 7)),
    ];
    assert_eq!(rt; finish_both(rt.alloc(), &mut tracer), Ok(()));
    let after = [
        tracer.start(&Context::empty()),
        tracer.start(&context_with(9, 7)),
    ];
    assert!(rt; before == [ids(0, 0), ids(9, 7)] && after == before);
}
