//! What is written for a whole input.
ghost use Rattle.std.specs.Prelude.{◌≡◌, not, None, IfSome, IfOk};
ghost use Rattle.trace_lines.specs.Lines.{lines_of};
ghost use Rattle.input_lines.specs.Refusals.{Refuses, NoneRefused};
ghost use Rattle.task_runs.specs.Reading.{HasReadLines};
ghost use Rattle.task_runs.specs.Texts.{accepts_tasks, TellsTasks};

use crate::run::run_task_script;
use crate::script::TaskReader;
use input_lines::{Answer, first_line, refused_answer};
use otel_base::memory::Memory;
use std::alloc::{AllocGlobal, Global};
use std::random::RandomSource;

// A reader that has read the lines of some bytes.
fn read_lines(alloc: Global, bytes: &[u8]) -> Result<TaskReader, Memory>
    ensures { IfOk result (HasReadLines (lines_of bytes.now)) }
{
    let mut reader = TaskReader::new();
    let mut rest = bytes;
    while !rest.is_empty() {
        let (line, after) = first_line(rest);
        reader.line(alloc, line)?;
        rest = after;
    }
    Ok(reader)
}

/// The record lines of the tasks that these bytes are, polled in turn, and the end line; or the refusal line alone. `Memory`
/// freely.
pub fn tasks_answer<R: RandomSource + AllocGlobal>(
    rt: &R,
    alloc: Global,
    bytes: &[u8],
) -> Result<Answer, Memory>
    ensures text { IfOk result (λ answer. TellsTasks (lines_of bytes.now) answer.text.items) }
    ensures refused { IfOk result (λ answer. accepts_tasks (lines_of bytes.now) ≡ not answer.refused) }
{
    match read_lines(alloc, bytes)?.end()? {
        Ok(script) => {
            let text = run_task_script(rt, alloc, script)?;
            let refused = false;
            Ok(Answer { text, refused })
        }
        Err(line) => refused_answer(alloc, line),
    }
}

/// The refusal line, if one of the lines that these bytes are is refused whatever lines follow. `Memory` freely.
pub fn tasks_refusal(alloc: Global, bytes: &[u8]) -> Result<Option<Vec<u8>>, Memory>
    ensures some { IfOk result (λ refusal. IfSome refusal (λ text.
        Refuses accepts_tasks TellsTasks (lines_of bytes.now) text.items)) }
    ensures none { IfOk result (λ refusal. refusal ≡ None → NoneRefused accepts_tasks (lines_of bytes.now)) }
{
    match read_lines(alloc, bytes)?.refused_line() {
        Some(line) => Ok(Some(refused_answer(alloc, line)?.text)),
        None => Ok(None),
    }
}
