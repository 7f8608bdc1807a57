//! Reading task lines.
ghost use Rattle.std.specs.Prelude.{◌≡◌, Ok, Err, IfOk, IsErrOf};
ghost use Rattle.trace_lines.specs.forms.Forms.{all_of, each};
ghost use Rattle.trace_lines.specs.reading.Gives.{Gives};
ghost use Rattle.trace_lines.specs.reading.Left.{value_data, members_left};
ghost use Rattle.trace_lines.specs.reading.Object.{items};
ghost use Rattle.trace_lines.specs.reading.Spelled.{value_on_line};
ghost use Rattle.trace_lines.specs.declared.told.Told.TheVariants as told;
ghost use Rattle.task_lines.specs.TaskForm.{event_form, record_form, set_attribute_form, step_by, step_form, step_of, task_form, task_spelled};

use crate::quick::quick_task;
use otel_base::list::Items;
use std::alloc::Global;
use trace_lines::{LineError, Object, Value, fields_of, given_fields, otel_value_of};
use trace_tasks::script::{Step, Task};

#[tactic(auto, unfolding(crate::specs::TaskForm::event_form))]
fn event_step(alloc: Global, object: &mut Object) -> Result<Step, LineError>
    ensures { Gives (λ s. (s, members_left object.new)) result (event_form (members_left object.old)) }
{
    let site = object.whole("site")?;
    let fields = given_fields(alloc, object)?;
    Ok(Step::Event { site, fields })
}

#[tactic(auto, unfolding(crate::specs::TaskForm::record_form))]
fn record_step(alloc: Global, object: &mut Object) -> Result<Step, LineError>
    ensures { Gives (λ s. (s, members_left object.new)) result (record_form (members_left object.old)) }
{
    let fields = fields_of(alloc, object.member("fields")?)?;
    Ok(Step::Record { fields })
}

#[tactic(auto, unfolding(crate::specs::TaskForm::set_attribute_form))]
fn set_attribute_step(alloc: Global, object: &mut Object) -> Result<Step, LineError>
    ensures { Gives (λ s. (s, members_left object.new)) result (set_attribute_form (members_left object.old)) }
{
    let key = object.text(alloc, "key")?;
    let value = otel_value_of(alloc, object.member("value")?)?;
    Ok(Step::SetAttribute { key, value })
}

// Takes what a word of `do` goes on with.
fn step_by(alloc: Global, word: &str, object: &mut Object) -> Result<Step, LineError>
    ensures { Gives (λ s. (s, members_left object.new)) result (step_by word.now (members_left object.old)) }
{
    match word {
        "event" => event_step(alloc, object),
        "record" => record_step(alloc, object),
        "set_attribute" => set_attribute_step(alloc, object),
        "yield" => Ok(Step::Yield),
        _ => Err(LineError::BadLine),
    }
}

// Takes the members of a step.
#[tactic(auto, unfolding(crate::specs::TaskForm::step_form))]
fn step_members(alloc: Global, object: &mut Object) -> Result<Step, LineError>
    ensures { Gives (λ s. (s, members_left object.new)) result (step_form (members_left object.old)) }
{
    let word = object.member("do")?;
    step_by(alloc, word.word()?, object)
}

// The step that a value spells.
fn step_of(alloc: Global, value: Value<'_>) -> Result<Step, LineError>
    ensures { Gives (λ s. s) result (step_of (value_data value.entry)) }
{
    let mut object = Object::of(alloc, value)?;
    let step = step_members(alloc, &mut object)?;
    object.end()?;
    Ok(step)
}

// The steps that the items of an array spell.
fn steps(alloc: Global, values: Vec<Value<'_>>) -> Result<Items<Step>, LineError>
    ensures { Gives (λ l. l) result (each step_of (items value_data values.entry.items)) }
{
    let mut steps = Items::new(alloc);
    for value in values {
        steps.push(step_of(alloc, value)?)?;
    }
    Ok(steps)
}

// Takes the members of a task.
#[tactic(auto, unfolding(crate::specs::TaskForm::task_form))]
fn task_members(alloc: Global, object: &mut Object) -> Result<Task, LineError>
    ensures { Gives (λ t. (t, members_left object.new)) result (task_form (members_left object.old)) }
{
    let site = object.whole("site")?;
    let fields = given_fields(alloc, object)?;
    let values = object.array(alloc, "task")?;
    let steps = steps(alloc, values)?;
    Ok(Task {
        site,
        fields,
        steps,
    })
}

fn task_of(alloc: Global, line: &[u8]) -> Result<Task, LineError>
    ensures { Gives (λ t. t) result (value_on_line (all_of task_form) line.now) }
{
    let mut object = Object::open(alloc, line)?;
    let task = task_members(alloc, &mut object)?;
    object.end()?;
    Ok(task)
}

/// Reads a task line. `BadLine` where it is no JSON or no object or one of no form, `Memory` freely.
#[tactic(auto, unfolding(crate::specs::TaskForm::task_spelled))]
pub fn read_task(alloc: Global, line: &[u8]) -> Result<Task, LineError>
    ensures ok { IfOk result (λ task. task_spelled line.now ≡ Ok task) }
    ensures bad_line { IsErrOf result LineError.BadLine → task_spelled line.now ≡ Err told.BadLine }
{
    if let Some(task) = quick_task(alloc, line) {
        return Ok(task);
    }
    task_of(alloc, line)
}
