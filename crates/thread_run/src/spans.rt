//! The shared spans of a script, before any worker.
ghost use Rattle.std.specs.Prelude.{◌≡◌, ◌<◌, ◌≤◌, [], length, IfOk, OnOk, vec_capacity};
ghost use Rattle.thread_lines.specs.Runnable.{IsRunnable};
ghost use Rattle.thread_run.specs.Spans.{IsMadeFor, AreMadeFor, IsFirstLane};

use otel_base::context::{Context, SpanContext};
use otel_base::list::Items;
use otel_base::memory::Memory;
use otel_base::stack::ContextStack;
use otel_base::text::Text;
use std::alloc::Global;
use std::sync::Wait;
use thread_script::ThreadScript;
use thread_work::end_handles;
use trace_base::field::ValueSet;
use trace_base::lane::Lane;
use trace_threads::handle::Handle;

// The lane on which the spans are made, which is the first.
fn first_lane(alloc: Global, lanes: &[(u64, Option<Text>)]) -> Result<Lane, Memory>
    requires { 0 < length lanes.now }
    ensures { IfOk result (IsFirstLane lanes.now) }
{
    let (id, name) = &lanes[0];
    Ok(Lane {
        id: *id,
        name: name.clone()?,
        default: None,
        contexts: ContextStack::new(alloc),
    })
}

// Makes the shared span at a place, as a root with ids of its own.
fn make_span(alloc: Global, script: &ThreadScript, place: usize) -> Result<Handle, Memory>
    requires script { IsRunnable script.now }
    requires place { place < length script.now.shared }
    ensures made { IfOk result (IsMadeFor script.now place) }
{
    let line = script.shared.as_slice()[place];
    let callsite = &script.callsites.as_slice()[line.site as usize];
    let lane = first_lane(alloc, script.lanes.as_slice())?;
    let number = place as u64 + 1;
    let own = SpanContext {
        trace: u128::from(number),
        span: number,
    };
    let values = ValueSet {
        pairs: Items::new(alloc),
    };
    Handle::make(
        alloc,
        callsite,
        &lane,
        &script.layer,
        line.at,
        own,
        Context::empty(),
        &values,
    )
}

// Makes the shared spans, in order.
#[tactic(auto, using(crate::proofs::MakingLemmas::made_none, crate::proofs::MakingLemmas::made_push))]
fn make_each(alloc: Global, script: &ThreadScript, handles: &mut Vec<Handle>) -> Result<(), Memory>
    requires script { IsRunnable script.now }
    requires empty { handles.old.items ≡ [] }
    requires room { length script.now.shared ≤ vec_capacity handles.old }
    ensures made { OnOk result (AreMadeFor script.now handles.new.items) }
{
    for place in 0..script.shared.as_slice().len() {
        let handle = make_span(alloc, script, place)?;
        handles.push_reserved(handle);
    }
    Ok(())
}

/// Makes the shared spans of a script, in order. After `Memory` their handles have been ended.
pub(crate) fn make_spans<R: Wait>(
    rt: &R,
    alloc: Global,
    script: &ThreadScript,
) -> Result<Vec<Handle>, Memory>
    requires { IsRunnable script.now }
    ensures { IfOk result (λ handles. AreMadeFor script.now handles.items) }
{
    let mut handles = Vec::with_capacity(alloc, script.shared.as_slice().len())?;
    match make_each(alloc, script, &mut handles) {
        Ok(()) => Ok(handles),
        Err(full) => {
            end_handles(rt, handles);
            Err(full)
        }
    }
}
