//! Workers in threads.
ghost use Rattle.std.specs.Prelude.{◌≡◌, length, true};
ghost use Rattle.thread_work.specs.Jobs.{AreReady, IsJobReady, WasRun, WereRun, AreDone};

use event_gate::EventGate;
use std::alloc::Global;
use std::sync::Wait;
use std::thread::{Threads, for_each_mut};
use thread_handles::{Job, run_job};
use thread_script::Plan;
use turnstile::Turnstile;

// Runs each worker in a thread of its own, or here where none can be started.
pub(crate) fn run_all<R: Threads + Wait + Sync, G: EventGate + Send, T: Turnstile + Sync>(
    rt: &R,
    alloc: Global,
    plan: &Plan,
    turns: &T,
    jobs: &mut [Job<G>],
)
    requires { AreReady G.opening plan.now jobs.old }
    ensures len { length jobs.new ≡ length jobs.old }
    ensures run { WereRun plan.now jobs.old jobs.new }
{
    let threads = jobs.len().max(1);
    for_each_mut(
        rt,
        jobs,
        threads,
        &|w: usize, job: &mut Job<G>|
            requires { IsJobReady G.opening plan.now w job.old }
            ensures { WasRun plan.entry.now w job.old job.new }
        { run_job(rt, alloc, plan, turns, w as u64, job) },
    );
}

// Whether all workers found memory.
pub(crate) fn all_done<G>(jobs: &[Job<G>]) -> bool
    ensures { result ≡ true → AreDone jobs.now }
{
    for w in 0..jobs.len() {
        if !jobs[w].is_done {
            return false;
        }
    }
    true
}
