//! Workers in threads over several shared spans.
ghost use Rattle.std.specs.Prelude.{◌≡◌, ◌≤◌, [], length, vec_len, vec_capacity, OnOk, IfOk};
ghost use Rattle.thread_work.specs.Jobs.{lists_of};
ghost use Rattle.thread_work.specs.Spans.{AreFirsts, GotNext, HaveRoomForOne, HaveRoomFor, WereShared, ArePreparedFor, AllEnded};

use crate::threads::{all_done, run_all};
use event_gate::EventGate;
use otel_base::memory::Memory;
use std::alloc::Global;
use std::collections::VecDeque;
use std::sync::Wait;
use std::thread::Threads;
use thread_handles::{Ended, Job, end_handle, gather_all, share};
use thread_script::Plan;
use trace_threads::handle::{Handle, Released};
use turnstile::Turnstile;

// Gives each worker its next handle.
fn give_next<G>(jobs: &mut [Job<G>], mut handles: Vec<Handle>)
    requires len { vec_len handles ≡ length jobs.old }
    requires room { HaveRoomForOne jobs.old }
    ensures len { length jobs.new ≡ length jobs.old }
    ensures got { GotNext handles.items jobs.old jobs.new }
{
    for w in 0..jobs.len() {
        let handle = handles.remove(0);
        jobs[w].handles.push_reserved(handle);
    }
    handles.destroy_empty();
}

// Gives each worker a handle of each span, and releases the first handles.
fn share_all<R: Wait, G>(
    rt: &R,
    alloc: Global,
    plan: &Plan,
    spans: &mut Vec<Handle>,
    jobs: &mut [Job<G>],
    firsts: &mut Vec<Released>,
) -> Result<(), Memory>
    requires firsts { AreFirsts plan.now spans.old.items }
    requires room { HaveRoomFor (length spans.old.items) jobs.old }
    requires empty { firsts.old.items ≡ [] }
    requires firsts_room { vec_len spans.old ≤ vec_capacity firsts.old }

    ensures same { length jobs.new ≡ length jobs.old }
    ensures gone { OnOk result (vec_len spans.new ≡ 0) }
    ensures len { OnOk result (length firsts.new.items ≡ length spans.old.items) }
    ensures shared { OnOk result (WereShared (length spans.old.items) spans.old.items jobs.old jobs.new firsts.new.items) }
{
    for s in 0..spans.len() {
        let at = plan.shared.as_slice()[s].at;
        let first = spans.remove(0);
        let (handles, released) = share(rt, alloc, first, at, jobs.len())?;
        give_next(jobs, handles);
        firsts.push_reserved(released);
    }
    Ok(())
}

/// Ends handles, with the entries that they have open. It is for handles whose work isn't gone on with.
pub fn end_handles<R: Wait>(rt: &R, mut handles: Vec<Handle>) {
    while let Some(handle) = handles.pop() {
        drop(end_handle(rt, handle, 0));
    }
    handles.destroy_empty();
}

// Lets go of workers, and ends the handles that they have.
pub(crate) fn end_jobs<R: Wait, G: Drop>(rt: &R, jobs: Vec<Job<G>>) {
    let mut rest = VecDeque::from(jobs);
    while let Some(job) = rest.pop_front() {
        let Job {
            ops: _,
            last: _,
            gate: _,
            handles,
            left: _,
            is_done: _,
        } = job;
        end_handles(rt, handles);
    }
    rest.destroy_empty();
}

/// Runs workers in threads over shared spans. With an answer, the history of each span does what each worker asks of it
/// by its list, and nothing else; the record is the content of that history, and the pass is of this very span and has
/// seen just that history. After `Memory` all handles have been ended.
pub(crate) fn work_over<R: Threads + Wait + Sync, G: EventGate + Send + Drop, T: Turnstile + Sync>(
    rt: &R,
    alloc: Global,
    plan: &Plan,
    turns: &T,
    mut spans: Vec<Handle>,
    mut jobs: Vec<Job<G>>,
    mut firsts: Vec<Released>,
    mut ended: Vec<Ended>,
) -> Result<Vec<Ended>, Memory>
    requires spans { AreFirsts plan.now spans.items }
    requires jobs { ArePreparedFor G.opening plan.now spans.items jobs.items }
    requires empty { (firsts.items ≡ []) × (ended.items ≡ []) }
    requires room { (vec_len spans ≤ vec_capacity firsts) × (vec_len spans ≤ vec_capacity ended) }
    ensures len { IfOk result (λ es. vec_len es ≡ vec_len spans) }
    ensures ended { IfOk result (λ es. AllEnded plan.now spans.items (lists_of jobs.items) es.items) }
{
    match share_all(
        rt,
        alloc,
        plan,
        &mut spans,
        jobs.as_mut_slice(),
        &mut firsts,
    ) {
        Ok(()) => {}
        Err(full) => {
            end_handles(rt, spans);
            end_jobs(rt, jobs);
            return Err(full);
        }
    }
    spans.destroy_empty();
    run_all(rt, alloc, plan, turns, jobs.as_mut_slice());
    if !all_done(jobs.as_slice()) {
        end_jobs(rt, jobs);
        return Err(Memory);
    }
    gather_all(jobs.as_mut_slice(), firsts, &mut ended);
    end_jobs(rt, jobs);
    Ok(ended)
}
