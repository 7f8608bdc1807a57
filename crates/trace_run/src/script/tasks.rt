//! The command `tasks`: a script of tasks is read, its tasks are polled in turn, and the records of their spans are written.
ghost use Rattle.task_runs.specs.Texts.{accepts_tasks, TellsTasks};

use input_lines::Answer;
use otel_base::memory::Memory;
use std::alloc::{AllocGlobal, Global};
use std::random::RandomSource;
use task_runs::{tasks_answer, tasks_refusal};
use trace_stream::all_lines::AllLinesCommand;

/// The command, with the runtime that polls need.
#[derive_where(Clone, Copy)]
pub struct Tasks<'a, H> {
    /// The runtime.
    pub rt: &'a H,
}

impl<'a, H: RandomSource + AllocGlobal> AllLinesCommand for Tasks<'a, H> {
    ghost accepts = { λ _. accepts_tasks };

    ghost writes = { λ _. TellsTasks };

    fn answer(&mut self, alloc: Global, bytes: &[u8]) -> Result<Answer, Memory> {
        tasks_answer(self.rt, alloc, bytes)
    }

    fn refusal(&mut self, alloc: Global, bytes: &[u8]) -> Result<Option<Vec<u8>>, Memory> {
        tasks_refusal(alloc, bytes)
    }
}
