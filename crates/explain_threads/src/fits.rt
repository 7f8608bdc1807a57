//! Whether an output fits a script.
ghost use Rattle.std.specs.Prelude.{◌≡◌, IfOk, true};
ghost use Rattle.thread_run.specs.Inputs.{TellsThreads};
ghost use Rattle.trace_lines.specs.Lines.{lines_of};

use crate::replay::Replay;
use otel_base::memory::Memory;
use std::alloc::Global;
use std::sync::Wait;
use std::thread::Threads;
use thread_run::threads_outcome;

/// Whether an output fits a script for threads: the script is run once more, in the order that the output tells, and has to
/// write the same. Yes is answered only where the output fits. `Memory` freely.
#[tactic(auto, using(crate::proofs::FitsLemmas::alike))]
pub fn fits<R: Threads + Wait + Sync>(
    rt: &R,
    alloc: Global,
    script: &[u8],
    output: &[u8],
) -> Result<bool, Memory>
    ensures { IfOk result (λ yes. yes ≡ true → TellsThreads (lines_of script.now) output.now) }
{
    let replay = Replay::of(alloc, script, output)?;
    let outcome = threads_outcome(rt, alloc, &replay, script)?;
    Ok(outcome.answer.text.as_slice() == output)
}
