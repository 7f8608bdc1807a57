//! A shared span gets a handle for each worker, and its first handle is released.
ghost use Rattle.std.specs.Prelude.{◌≡◌, ℕ, ◌+◌, ◌<◌, ◌≤◌, [], length, IfOk, OnOk, vec_len, vec_capacity, slice_index_or};
ghost use Rattle.otel_state.specs.declared.times.TheConstants.{GREATEST};
ghost use Rattle.trace_threads.specs.Handles.{SharedHandle, open_count_of};
ghost use Rattle.thread_handles.specs.Shares.{IsFirst, AreCloned, HaveNoneOpen, HaveLearnt, IsShared};

use otel_base::memory::Memory;
use otel_base::record::Moment;
use std::alloc::Global;
use std::sync::Wait;
use trace_threads::handle::{Handle, Released};
use trace_threads::pass::Pass;

// Makes a handle for each worker, in order.
fn make_clones<R: Wait>(
    rt: &R,
    first: &mut Handle,
    at: Moment,
    count: usize,
    handles: &mut Vec<Handle>,
) -> Result<(), Memory>
    requires moment { at ≤ GREATEST }
    requires first { IsFirst first.old at }
    requires empty { handles.old.items ≡ [] }
    requires room { count ≤ vec_capacity handles.old }
    ensures cloned { OnOk result (AreCloned first.old first.new handles.new.items) }
    ensures out { (open_count_of first.new ≡ 0) × HaveNoneOpen handles.new.items }
    ensures len { OnOk result (vec_len handles.new ≡ count) }
{
    for _ in 0..count {
        let other = first.clone_handle(rt, at)?;
        handles.push_reserved(other);
    }
    Ok(())
}

// Releases handles that have no entry open.
fn release_all<R: Wait>(rt: &R, mut handles: Vec<Handle>, at: Moment)
    requires moment { at ≤ GREATEST }
    requires out { HaveNoneOpen handles.items }
{
    while let Some(handle) = handles.pop() {
        drop(handle.release(rt, at));
    }
    handles.destroy_empty();
}

// Each handle sees what a pass has seen.
fn teach(pass: &mut Pass, handles: &mut [Handle])
    requires { (i : ℕ) (d : SharedHandle) → i < length handles.old → (slice_index_or handles.old i d).span ≡ pass.old.span }
    ensures pass { (pass.new.span ≡ pass.old.span) × (pass.new.view.seen ≡ pass.old.view.seen) × (pass.new.view.origin ≡ pass.old.view.origin) }
    ensures len { length handles.new ≡ length handles.old }
    ensures learnt { HaveLearnt pass.old handles.old handles.new }
{
    for i in 0..handles.len() {
        handles[i].learn(pass);
    }
}

/// Makes a handle of a span for each worker, and releases the first. `Memory` where there was none; then all are
/// released.
pub fn share<R: Wait>(
    rt: &R,
    alloc: Global,
    mut first: Handle,
    at: Moment,
    count: usize,
) -> Result<(Vec<Handle>, Released), Memory>
    requires moment { at ≤ GREATEST }
    requires first { IsFirst first at }
    ensures len { IfOk result (λ r. vec_len r.0 ≡ count) }
    ensures shared { IfOk result (λ r. IsShared first r.0.items r.1) }
{
    let mut handles = match Vec::with_capacity(alloc, count) {
        Ok(handles) => handles,
        Err(_) => {
            drop(first.release(rt, at));
            return Err(Memory);
        }
    };
    let made = make_clones(rt, &mut first, at, count, &mut handles);
    let mut released = first.release(rt, at);
    match made {
        Ok(()) => {
            teach(&mut released.pass, handles.as_mut_slice());
            Ok((handles, released))
        }
        Err(full) => {
            release_all(rt, handles, at);
            Err(full)
        }
    }
}
