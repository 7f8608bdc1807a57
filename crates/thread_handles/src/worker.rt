//! What one worker does in its thread.
ghost use Rattle.std.specs.Prelude.{◌≡◌, ℕ, ◌+◌, ◌<◌, ◌≤◌, [], length, IfOk, OnOk, true, Some, vec_len, vec_capacity, slice_index_or};
ghost use Rattle.otel_state.specs.declared.op.Op.TheVariants.{Exit};
ghost use Rattle.otel_state.specs.declared.times.TheConstants.{GREATEST};
ghost use Rattle.trace_threads.specs.Handles.{SharedHandle, open_count_of};
ghost use Rattle.thread_script.specs.Plans.{AreNoLevels, MomentsInRange, last_moment, release_moment};
ghost use Rattle.thread_script.specs.declared.script.SharedLine.{SharedLine};
ghost use Rattle.thread_handles.specs.Works.{DidCall, DidAt, DidCallOnSpan, MayDo, AllAtWork, AllLeft, SpanMomentsInRange, WasReleased, AllReleased, IsReadyWorker};

use crate::job::Job;
use event_gate::{EventGate, Levels};
use otel_base::list::Items;
use otel_base::memory::Memory;
use otel_base::record::Moment;
use otel_state::Op;
use std::alloc::Global;
use std::collections::VecDeque;
use std::sync::Wait;
use thread_script::{Plan, WorkerOp, op_of};
use trace_threads::handle::{Handle, Released};
use turnstile::Turnstile;

// Applies an op to a handle, if there is one.
fn call_on<R: Wait>(rt: &R, handle: &mut Handle, at: Moment, op: Option<Op>) -> Result<(), Memory>
    requires moment { at ≤ GREATEST }
    requires entered { op ≡ Some Exit → 0 < open_count_of handle.old }
    ensures did { OnOk result (DidCall handle.old handle.new at op) }
{
    match op {
        Some(op) => {
            handle.call(rt, at, op)?;
            Ok(())
        }
        None => Ok(()),
    }
}

// Applies an op to the handle at a place, if there is one.
fn call_at<R: Wait>(
    rt: &R,
    handles: &mut [Handle],
    place: usize,
    at: Moment,
    op: Option<Op>,
) -> Result<(), Memory>
    requires moment { at ≤ GREATEST }
    requires entered { (d : SharedHandle) → place < length handles.old → op ≡ Some Exit → 0 < open_count_of (slice_index_or handles.old place d) }
    ensures len { length handles.new ≡ length handles.old }
    ensures did { OnOk result (DidAt place at op handles.old handles.new) }
{
    if place < handles.len() {
        return call_on(rt, &mut handles[place], at, op);
    }
    drop(op);
    Ok(())
}

// One call of a worker.
fn make_call<R: Wait, G: EventGate>(
    rt: &R,
    alloc: Global,
    plan: &Plan,
    gate: &mut G,
    levels: &Levels,
    handles: &mut [Handle],
    op: WorkerOp,
) -> Result<(), Memory>
    requires opening { G.opening gate.old ≡ plan.now.filter }
    requires levels { AreNoLevels levels.now }
    requires moment { op.at ≤ GREATEST }
    requires entered { MayDo plan.now op handles.old }
    ensures same { G.opening gate.new ≡ G.opening gate.old }
    ensures len { length handles.new ≡ length handles.old }
    ensures did { OnOk result (DidCallOnSpan plan.now op handles.old handles.new) }
{
    let WorkerOp { at, span, what } = op;
    let asked = op_of(alloc, plan, gate, levels, at, span, what)?;
    call_at(rt, handles, span as usize, at, asked)
}

// Makes the calls that are left in a worker's list, in order.
fn make_calls<R: Wait, G: EventGate, T: Turnstile>(
    rt: &R,
    alloc: Global,
    plan: &Plan,
    turns: &T,
    worker: u64,
    gate: &mut G,
    handles: &mut [Handle],
    ops: &mut VecDeque<WorkerOp>,
) -> Result<(), Memory>
    requires opening { G.opening gate.old ≡ plan.now.filter }
    requires timed { MomentsInRange ops.old.items }
    requires begins { AllAtWork plan.now (worker + 1) (last_moment ops.old.items) ops.old.items ops.old.items handles.old handles.old }
    ensures len { length handles.new ≡ length handles.old }
    ensures done { OnOk result (AllAtWork plan.now (worker + 1) (last_moment ops.old.items) ops.old.items [] handles.old handles.new) }
{
    let levels = Levels {
        reload: 0,
        list: Items::new(alloc),
    };
    let mut call = 0u64;
    while let Some(op) = ops.pop_front() {
        turns.before(worker, call);
        make_call(rt, alloc, plan, gate, &levels, handles, op)?;
        turns.after(worker, call);
        call = call.saturating_add(1);
    }
    Ok(())
}

// Closes the entries that a handle has open.
fn close_entries<R: Wait>(rt: &R, handle: &mut Handle, at: Moment)
    requires moment { at ≤ GREATEST }
    ensures closed { open_count_of handle.new ≡ 0 }
{
    while handle.open_entries() > 0 {
        let Ok(_) = handle.call(rt, at, Op::Exit) else {
            unreachable!()
        };
    }
}

/// Ends a handle. Where the worker didn't get to its end, entries that are open are closed first.
pub fn end_handle<R: Wait>(rt: &R, mut handle: Handle, at: Moment) -> Released
    requires moment { at ≤ GREATEST }
    ensures released { open_count_of handle ≡ 0 → WasReleased handle result at }
{
    if handle.open_entries() > 0 {
        close_entries(rt, &mut handle, at);
    }
    handle.release(rt, at)
}

// The moment of a release: that of the worker's last call, or of the making.
fn moment_of(plan: &Plan, last: Option<Moment>, s: usize) -> Moment
    requires { s < length plan.now.shared }
    ensures { (l : SharedLine) → result ≡ release_moment (slice_index_or plan.now.shared s l).at last }
{
    match last {
        Some(at) => at,
        None => plan.shared.as_slice()[s].at,
    }
}

// Ends all handles of a worker, in the order of the spans. For the turnstile they are numbered on from its calls.
fn end_all<R: Wait, T: Turnstile>(
    rt: &R,
    plan: &Plan,
    turns: &T,
    worker: u64,
    calls: u64,
    last: Option<Moment>,
    handles: &mut Vec<Handle>,
    left: &mut Vec<Released>,
)
    requires moments { SpanMomentsInRange plan.now (length handles.old.items) }
    requires last { (at : ℕ) → last ≡ Some at → at ≤ GREATEST }
    requires room { vec_len handles.old ≤ vec_capacity left.old }
    requires empty { left.old.items ≡ [] }
    ensures gone { handles.new.items ≡ [] }
    ensures len { vec_len left.new ≡ vec_len handles.old }
    ensures left { AllReleased plan.now last handles.old.items left.new.items }
{
    for s in 0..handles.len() {
        let at = moment_of(plan, last, s);
        let handle = handles.remove(0);
        let call = calls.saturating_add(s as u64);
        turns.before(worker, call);
        left.push_reserved(end_handle(rt, handle, at));
        turns.after(worker, call);
    }
}

/// Does the work of one worker: makes the calls of its list, and ends its handles, whether it found memory for all calls or
/// not. `turns` is called round each call, and round each end, which are numbered on from the calls.
pub fn run_job<R: Wait, G: EventGate, T: Turnstile>(
    rt: &R,
    alloc: Global,
    plan: &Plan,
    turns: &T,
    worker: u64,
    job: &mut Job<G>,
)
    requires opening { G.opening job.old.gate ≡ plan.now.filter }
    requires ready { IsReadyWorker plan.now (worker + 1) job.old.ops.items job.old.last job.old.handles.items }
    requires room { vec_len job.old.handles ≤ vec_capacity job.old.left }
    requires empty { job.old.left.items ≡ [] }
    ensures gone { job.new.handles.items ≡ [] }
    ensures len { vec_len job.new.left ≡ vec_len job.old.handles }
    ensures done { job.new.is_done ≡ true → AllLeft plan.now (worker + 1) job.old.ops.items job.old.handles.items job.new.left.items }
{
    let Job {
        ops,
        last,
        gate,
        handles,
        left,
        is_done,
    } = job;
    let calls = ops.len() as u64;
    *is_done = make_calls(
        rt,
        alloc,
        plan,
        turns,
        worker,
        gate,
        handles.as_mut_slice(),
        ops,
    )
    .is_ok();
    end_all(rt, plan, turns, worker, calls, *last, handles, left);
}
