//! What a script of tasks gives.
ghost use Rattle.std.specs.Prelude.{◌≡◌, ◌<◌, ◌^◌, ◌+◌, length, sum_by, IfOk, IfSome};
ghost use Rattle.task_runs.specs.Reading.{IsFit};
ghost use Rattle.task_runs.specs.Texts.{tasks_outcome, TellsOutcome};
ghost use Rattle.trace_tasks.specs.Flat.{yield_count};

use crate::script_run::run_in_poll;
use otel_base::memory::Memory;
use std::alloc::{AllocGlobal, Global};
use std::random::RandomSource;
use trace_tasks::script::{Step, Task, TaskScript};

// More polls than that are never made.
const MAX_POLLS: u64 = 1_000_000_000_000_000_000;

// How many yields some steps have.
fn yield_count(steps: &[Step]) -> u64
    ensures { result ≡ yield_count steps.now }
{
    let mut count = 0;
    for step in steps {
        if matches!(step, Step::Yield) {
            count += 1;
        }
    }
    count
}

// How many polls some tasks take, if they aren't too many.
fn poll_count(tasks: &[Task]) -> Option<u64>
    ensures { IfSome result (λ polls. (polls ≡ sum_by (λ t. yield_count t.steps) tasks.now + length tasks.now)
        × (polls < 2 ^ 60)) }
{
    let mut polls = 0u64;
    for task in tasks {
        polls = polls
            .checked_add(yield_count(task.steps.as_slice()))?
            .checked_add(1)?;
    }
    if polls < MAX_POLLS { Some(polls) } else { None }
}

/// Polls the tasks of a script in turn, and runs the requests that they spell: what is written is of the outcome of the flat
/// list of these, with an entry round each poll, and none of them is refused. `Memory` freely, and where one would be, which
/// isn't so of tasks that fit their settings.
pub fn run_task_script<R: RandomSource + AllocGlobal>(
    rt: &R,
    alloc: Global,
    script: TaskScript,
) -> Result<Vec<u8>, Memory>
    requires { IsFit script }
    ensures { IfOk result (λ text. TellsOutcome (tasks_outcome script) text.items) }
{
    // No input has so many steps.
    let Some(_) = poll_count(script.tasks.as_slice()) else {
        return Err(Memory);
    };
    run_in_poll(rt, alloc, script)
}
