//! What is written for a whole input.
ghost use Rattle.std.specs.Prelude.{◌≡◌, not, None, IfSome, IfOk};
ghost use Rattle.trace_lines.specs.Lines.{lines_of};
ghost use Rattle.input_lines.specs.Refusals.{Refuses, NoneRefused};
ghost use Rattle.thread_run.specs.Inputs.{TellsEnded, TellsThreads, accepts_threads};

use crate::run::run_script;
use crate::text::ended_text;
use input_lines::{Answer, are_blank, refused_answer};
use otel_base::memory::Memory;
use std::alloc::Global;
use std::sync::Wait;
use std::thread::Threads;
use thread_handles::Ended;
use thread_lines::read_script;
use turnstile::Turnstile;

/// What comes of an input.
#[derive(Drop)]
pub struct ThreadsOutcome {
    /// All that is written.
    pub answer: Answer,
    /// What came of each shared span, in order; of none where a line is refused.
    pub ended: Vec<Ended>,
}

/// What comes of the script for threads that these bytes are, or its refusal line alone. It waits for the threads of its
/// workers, and `turns` is called round each of their calls. `Memory` freely.
#[tactic(auto, using(crate::proofs::InputLemmas::runnable, crate::proofs::InputLemmas::accepted, crate::proofs::InputLemmas::tells_ended, crate::proofs::InputLemmas::told_of, crate::proofs::InputLemmas::tells_refused, crate::proofs::InputLemmas::not_accepted))]
pub fn threads_outcome<R: Threads + Wait + Sync, T: Turnstile + Sync>(
    rt: &R,
    alloc: Global,
    turns: &T,
    bytes: &[u8],
) -> Result<ThreadsOutcome, Memory>
    ensures told { IfOk result (λ outcome.
        TellsEnded (lines_of bytes.now) outcome.ended.items outcome.answer.text.items) }
    ensures refused { IfOk result (λ outcome.
        accepts_threads (lines_of bytes.now) ≡ not outcome.answer.refused) }
{
    match read_script(alloc, bytes)? {
        Ok(script) => {
            let ended = run_script(rt, alloc, script, turns)?;
            let text = ended_text(alloc, ended.as_slice())?;
            let refused = false;
            let answer = Answer { text, refused };
            Ok(ThreadsOutcome { answer, ended })
        }
        Err(line) => {
            let answer = refused_answer(alloc, line)?;
            let ended = Vec::new(alloc);
            Ok(ThreadsOutcome { answer, ended })
        }
    }
}

/// The refusal line, if one of the lines that these bytes are is refused whatever lines follow. `Memory` freely.
#[tactic(auto, using(crate::proofs::InputLemmas::told_of, crate::proofs::InputLemmas::refuses, crate::proofs::InputLemmas::none_accepted, crate::proofs::InputLemmas::none_blank))]
pub fn threads_refusal(alloc: Global, bytes: &[u8]) -> Result<Option<Vec<u8>>, Memory>
    ensures some { IfOk result (λ refusal. IfSome refusal (λ text.
        Refuses accepts_threads TellsThreads (lines_of bytes.now) text.items)) }
    ensures none { IfOk result (λ refusal. refusal ≡ None
        → NoneRefused accepts_threads (lines_of bytes.now)) }
{
    if are_blank(bytes) {
        return Ok(None);
    }
    match read_script(alloc, bytes)? {
        Ok(_) => Ok(None),
        Err(line) => Ok(Some(refused_answer(alloc, line)?.text)),
    }
}
