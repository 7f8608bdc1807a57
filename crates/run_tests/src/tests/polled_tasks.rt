//! Tasks that are polled over a tape, which keeps the requests that they spell.
ghost use Rattle.std.specs.Prelude.{◌≡◌, [], length, IfOk};
ghost use Rattle.trace_lines.specs.Generated.{generated_settings};
ghost use Rattle.trace_tasks.specs.Begun.{AllHaveCallsites};
ghost use Rattle.trace_tasks.specs.Flat.{poll_count, tasks_at_first, yield_count};
ghost use Rattle.trace_tasks.specs.Spelled.{TasksAreDeclared, StepsAreDeclared};

use futures::task::Context;
use futures::test::MockTask;
use otel_base::list::Items;
use otel_base::memory::Memory;
use otel_base::stack::ContextStack;
use otel_base::text::Text;
use otel_base::value::OtelValue;
use span_script::request::{Call, Request};
use std::alloc::Global;
use std::test::Fail;
use trace_base::discard::Discard;
use trace_base::lane::Lane;
use trace_lines::generated::generated_settings;
use trace_pipeline::new_world;
use trace_tape::tape::Tape;
use trace_tasks::run::run_tasks;
use trace_tasks::script::{Step, Task, TaskScript};
use trace_tasks::taped::runs_over_a_tape;

// An event, and an attribute in the next poll.
fn steps(alloc: Global) -> Result<Items<Step>, Memory>
    ensures tested { IfOk result (StepsAreDeclared generated_settings.callsites) }
    ensures once { IfOk result (λ steps. yield_count steps ≡ 1) }
{
    let mut steps = Items::new(alloc);
    let fields = Items::new(alloc);
    steps.push(Step::Event { site: 2, fields })?;
    steps.push(Step::Yield)?;
    let key = Text::from_str(alloc, "k")?;
    let value = OtelValue::I64(7);
    steps.push(Step::SetAttribute { key, value })?;
    Ok(steps)
}

// A task of the first callsite.
fn task(alloc: Global, steps: Items<Step>) -> Task
    ensures { result ≡ record { site = 0; fields = []; steps = steps } }
{
    let fields = Items::new(alloc);
    Task {
        site: 0,
        fields,
        steps,
    }
}

// A task with these steps, and one without any.
fn script(alloc: Global) -> Result<TaskScript, Memory>
    ensures settings { IfOk result (λ script. script.settings ≡ generated_settings) }
    ensures tested { IfOk result (λ script. TasksAreDeclared generated_settings.callsites script.tasks) }
    ensures sited { IfOk result (λ script. AllHaveCallsites 3 script.tasks) }
    ensures count { IfOk result (λ script. length script.tasks ≡ 2) }
    ensures polls { IfOk result (λ script. poll_count (tasks_at_first 0 script.tasks) ≡ 3) }
{
    let settings = generated_settings(alloc)?;
    let mut tasks = Items::new(alloc);
    tasks.push(task(alloc, steps(alloc)?))?;
    tasks.push(task(alloc, Items::new(alloc)))?;
    Ok(TaskScript { settings, tasks })
}

// The word of a request, and the number of its handle, guard or callsite.
fn word_and_number(call: &Call) -> (&'static str, u64) {
    match call {
        Call::New { site, .. } => ("new", *site),
        Call::Enter { handle } => ("enter", *handle),
        Call::Event { site, .. } => ("event", *site),
        Call::SetAttribute { handle, .. } => ("set_attribute", *handle),
        Call::Exit { guard } => ("exit", *guard),
        Call::Drop { handle } => ("drop", *handle),
        _ => ("other", 0),
    }
}

// A number of polls, and these requests.
fn text(alloc: Global, polls: u64, requests: &[Request]) -> Result<String, Memory> {
    let mut text = format!(in alloc; "{polls}")?;
    for request in requests {
        let (at, (word, number)) = (request.at, word_and_number(&request.call));
        text.push_str(format!(in alloc; ", {at} {word} {number}")?.as_str())?;
    }
    Ok(text)
}

// How many polls the tasks take, and the requests that are on the tape then.
fn spelled_requests(alloc: Global, cx: &mut Context<'_>) -> Result<String, Memory> {
    let script = script(alloc)?;
    let callsites = generated_settings(alloc)?.callsites.into_vec();
    let (mut world, dispatch) = new_world(alloc, callsites, Tape::new(alloc))?;
    let mut lane = Lane {
        id: 0,
        name: None,
        default: Some(dispatch),
        contexts: ContextStack::new(alloc),
    };
    let told = match run_tasks(alloc, &script, &mut world, &mut lane, cx) {
        Ok(polls) => {
            runs_over_a_tape();
            text(alloc, polls, world.subscriber(dispatch).requests())
        }
        Err(_) => Err(Memory),
    };
    world.discard();
    told
}

#[test]
fn spells_the_flat_list(rt: HostRuntime) -> Result<(), Fail> {
    let task = MockTask::new(&rt)?;
    let alloc = rt.alloc();
    let told = task.enter(|cx| spelled_requests(alloc, cx))?;
    let wanted =
        "3, 0 new 0, 0 new 0, 10 enter 0, 10 event 2, 10 exit 0, 20 enter 1, 20 exit 1, 20 drop 1, 30 enter 0, 30 set_attribute 0, 30 exit 2, 30 drop 0";
    assert_eq!(rt; told.as_str(), wanted);
    Ok(())
}
