//! A script of tasks that is run in one poll: the tasks are polled in turn over a tape, whose requests a runner takes.
ghost use Rattle.std.specs.Prelude.{◌≡◌, Some, IfOk, OnOk};
ghost use Rattle.futures.specs.Task.{Keeps};
ghost use Rattle.trace_tasks.specs.Flat.{flat_list};
ghost use Rattle.trace_tasks.specs.TapeTurns.{TakesAll};
ghost use Rattle.task_runs.specs.Reading.{IsFit};
ghost use Rattle.task_runs.specs.Runs.{CanSpell, CanRun};
ghost use Rattle.task_runs.specs.Texts.{tasks_outcome, TellsOutcome};
ghost use Rattle.task_runs.specs.Writing.{RunsRequest};

use crate::copies::copied_callsites;
use crate::runner::Runner;
use futures::task::{Context, Poll};
use futures::{Future, FutureExt};
use otel_base::list::Items;
use otel_base::memory::Memory;
use otel_base::stack::ContextStack;
use std::alloc::{AllocGlobal, Global};
use std::random::RandomSource;
use trace_base::callsite::Callsite;
use trace_base::discard::Discard;
use trace_base::lane::Lane;
use trace_pipeline::new_world;
use trace_tape::tape::Tape;
use trace_tasks::script::{Task, TaskScript};
use trace_tasks::taped::run_on_tape;

// Polls tasks in turn over a new tape, whose requests a runner takes.
fn run_polls(
    alloc: Global,
    callsites: Vec<Callsite>,
    tasks: Items<Task>,
    runner: &mut Runner,
    cx: &mut Context<'_>,
) -> Result<(), Memory>
    requires { CanSpell callsites.items tasks }
    ensures ran { OnOk result (TakesAll RunsRequest (flat_list callsites.items tasks) runner.old runner.new) }
    ensures context { Keeps cx.old cx.new }
{
    let (mut world, dispatch) = new_world(alloc, callsites, Tape::new(alloc))?;
    let mut lane = Lane {
        id: 0,
        name: None,
        default: Some(dispatch),
        contexts: ContextStack::new(alloc),
    };
    let ran = run_on_tape(alloc, tasks, &mut world, &mut lane, dispatch, cx, runner);
    world.discard();
    match ran {
        Ok(_) => Ok(()),
        Err(_) => Err(Memory),
    }
}

// Runs a script of tasks, and gives its record lines and the end line.
fn script_text(alloc: Global, script: TaskScript, cx: &mut Context<'_>) -> Result<Vec<u8>, Memory>
    requires fit { IsFit script }
    requires spells { CanSpell script.settings.callsites script.tasks }
    ensures text { IfOk result (λ text. TellsOutcome (tasks_outcome script) text.items) }
    ensures context { Keeps cx.old cx.new }
{
    let TaskScript { settings, tasks } = script;
    let callsites = copied_callsites(alloc, settings.callsites.as_slice())?;
    let mut runner = Runner::open(alloc, settings)?;
    match run_polls(alloc, callsites, tasks, &mut runner, cx) {
        Ok(()) => runner.end(),
        Err(memory) => {
            runner.discard();
            Err(memory)
        }
    }
}

// A script of tasks that is run in one poll, which takes it.
#[derive(Drop)]
struct ScriptRun {
    alloc: Global,
    script: Option<TaskScript>,
}

impl Future for ScriptRun {
    type Output = Result<Vec<u8>, Memory>;

    ghost can_poll = { λ f. CanRun f.script };

    ghost needs = { λ f source. ⊥ };

    ghost gives = { λ f result. (script : _) → f.script ≡ Some script
        → IfOk result (λ text. TellsOutcome (tasks_outcome script) text.items) };

    fn poll(&mut self, cx: &mut Context<'_>) -> Poll<Result<Vec<u8>, Memory>> {
        let Some(script) = self.script.take() else {
            unreachable!()
        };
        Poll::Ready(script_text(self.alloc, script, cx))
    }
}

/// The record lines of a script whose tasks are polled in turn, and the end line. `Memory` freely.
pub(crate) fn run_in_poll<R: RandomSource + AllocGlobal>(
    rt: &R,
    alloc: Global,
    script: TaskScript,
) -> Result<Vec<u8>, Memory>
    requires fit { IsFit script }
    requires spells { CanSpell script.settings.callsites script.tasks }
    ensures { IfOk result (λ text. TellsOutcome (tasks_outcome script) text.items) }
{
    let script = Some(script);
    let run = ScriptRun { alloc, script };
    match run.now_or_never(rt) {
        Ok(Some(text)) => text,
        // It is ready at once.
        Ok(None) => Err(Memory),
        Err(_) => Err(Memory),
    }
}
