//! Running a script for threads.
ghost use Rattle.std.specs.Prelude.{IfOk};
ghost use Rattle.thread_lines.specs.Runnable.{IsRunnable};
ghost use Rattle.thread_run.specs.Fits.{AllFit};
ghost use Rattle.thread_script.specs.Tests.{AllAtOpening};

use crate::gates::{Gates, make_gates};
use crate::spans::make_spans;
use event_gate::EventGate;
use otel_base::memory::Memory;
use std::alloc::Global;
use std::sync::Wait;
use std::thread::Threads;
use thread_handles::Ended;
use thread_script::ThreadScript;
use thread_work::work;
use turnstile::Turnstile;

/// Runs a script: makes its spans, and has each worker make its calls in a thread, with a gate of its own. It answers for
/// each span, in order, a history that does what each worker asks and nothing else, its record, and a pass that has seen
/// just that history. After `Memory` all handles have been ended.
pub fn run_script<R: Threads + Wait + Sync, T: Turnstile + Sync>(
    rt: &R,
    alloc: Global,
    script: ThreadScript,
    turns: &T,
) -> Result<Vec<Ended>, Memory>
    requires { IsRunnable script }
    ensures { IfOk result (λ es. AllFit script es.items) }
{
    let workers = script.workers.as_slice().len();
    let Gates { writer, gates } = make_gates(alloc, script.filter.as_str(), workers)?;
    let ended = run_gated(rt, alloc, script, gates, turns);
    if let Some(writer) = writer {
        writer.end(rt);
    }
    ended
}

/// Runs a script as `run_script` does, with these gates.
pub fn run_gated<R: Threads + Wait + Sync, G: EventGate + Send + Drop, T: Turnstile + Sync>(
    rt: &R,
    alloc: Global,
    script: ThreadScript,
    gates: Vec<G>,
    turns: &T,
) -> Result<Vec<Ended>, Memory>
    requires script { IsRunnable script }
    requires gates { AllAtOpening G.opening script.filter script.workers gates.items }
    ensures { IfOk result (λ es. AllFit script es.items) }
{
    let handles = make_spans(rt, alloc, &script)?;
    work(rt, alloc, script, handles, gates, turns)
}
