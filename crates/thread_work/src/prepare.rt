//! What is made before any handle is cloned.
ghost use Rattle.std.specs.Prelude.{◌≡◌, ◌≤◌, [], length, vec_capacity, IfOk, OnOk};
ghost use Rattle.thread_script.specs.Plans.{last_moment};
ghost use Rattle.thread_work.specs.Jobs.{lists_of, gates_of};
ghost use Rattle.thread_work.specs.Preparing.{IsUnstarted, AllUnstarted, WasPrepared};

use crate::spans::end_jobs;
use otel_base::list::Items;
use otel_base::memory::Memory;
use otel_base::record::Moment;
use std::alloc::Global;
use std::collections::VecDeque;
use std::sync::Wait;
use thread_handles::{Ended, Job};
use thread_script::{Plan, ThreadScript, WorkerOp};
use trace_threads::handle::Released;

// What all workers read, the workers without handles, and room for what the spans leave.
pub(crate) struct Prepared<G> {
    pub plan: Plan,
    pub jobs: Vec<Job<G>>,
    pub firsts: Vec<Released>,
    pub ended: Vec<Ended>,
}

// The moment of the last call, if there is one.
fn last_moment(ops: &[WorkerOp]) -> Option<Moment>
    ensures { result ≡ last_moment ops.now }
{
    match ops.last() {
        Some(op) => Some(op.at),
        None => None,
    }
}

// A worker, with room for so many handles.
fn job_of<G: Drop>(
    alloc: Global,
    count: usize,
    ops: Vec<WorkerOp>,
    gate: G,
) -> Result<Job<G>, Memory>
    ensures begun { IfOk result (λ job. IsUnstarted count job) }
    ensures ops { IfOk result (λ job. job.ops.items ≡ ops.items) }
    ensures gate { IfOk result (λ job. job.gate ≡ gate) }
{
    let last = last_moment(ops.as_slice());
    let left = Vec::with_capacity(alloc, count)?;
    let handles = Vec::with_capacity(alloc, count)?;
    Ok(Job {
        ops: VecDeque::from(ops),
        last,
        gate,
        handles,
        left,
        is_done: false,
    })
}

// A worker for each list of calls, with its gate.
fn make_jobs<G: Drop>(
    alloc: Global,
    count: usize,
    workers: Items<Items<WorkerOp>>,
    gates: Vec<G>,
    jobs: &mut Vec<Job<G>>,
) -> Result<(), Memory>
    requires gates { length workers ≡ length gates.items }
    requires empty { jobs.old.items ≡ [] }
    requires room { length workers ≤ vec_capacity jobs.old }
    ensures begun { OnOk result (AllUnstarted count jobs.new.items) }
    ensures lists { OnOk result (lists_of jobs.new.items ≡ workers) }
    ensures gates { OnOk result (gates_of jobs.new.items ≡ gates.items) }
{
    let mut gates = VecDeque::from(gates);
    for ops in workers.into_vec() {
        let Some(gate) = gates.pop_front() else {
            unreachable!()
        };
        let job = job_of(alloc, count, ops.into_vec(), gate)?;
        jobs.push_reserved(job);
    }
    Ok(())
}

// Takes the memory that workers need beside that for their calls, for so many shared spans.
pub(crate) fn prepare<R: Wait, G: Drop>(
    rt: &R,
    alloc: Global,
    script: ThreadScript,
    gates: Vec<G>,
    count: usize,
) -> Result<Prepared<G>, Memory>
    requires gates { length script.workers ≡ length gates.items }
    ensures { IfOk result (λ p. WasPrepared count script gates.items p) }
{
    let ThreadScript {
        filter,
        callsites,
        lanes: _,
        layer,
        shared,
        workers,
    } = script;
    let firsts = Vec::with_capacity(alloc, count)?;
    let ended = Vec::with_capacity(alloc, count)?;
    let mut jobs = Vec::with_capacity(alloc, workers.as_slice().len())?;
    match make_jobs(alloc, count, workers, gates, &mut jobs) {
        Ok(()) => Ok(Prepared {
            plan: Plan {
                filter,
                callsites,
                layer,
                shared,
            },
            jobs,
            firsts,
            ended,
        }),
        Err(full) => {
            end_jobs(rt, jobs);
            Err(full)
        }
    }
}
