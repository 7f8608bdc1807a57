//! Copies of tasks, since a script that is lent keeps its own.
ghost use Rattle.std.specs.Prelude.{◌≡◌, ◌≢◌, [], IfOk, OnErr};

use crate::script::{Step, Task};
use otel_base::list::Items;
use otel_base::memory::Memory;
use otel_base::text::Text;
use otel_base::value::OtelValue;
use std::alloc::Global;
use trace_base::field::Value;
use trace_tape::copies::{copied_texts, copied_value};

/// The same tasks once more.
pub(crate) fn copied_tasks(alloc: Global, tasks: &[Task]) -> Result<Items<Task>, Memory>
    ensures copy { IfOk result (λ copy. copy ≡ tasks.now) }
    ensures some { OnErr result (tasks.now ≢ []) }
{
    let mut copy = Items::new(alloc);
    for task in tasks {
        copy.push(copied_task(alloc, task)?)?;
    }
    Ok(copy)
}

// The same task once more.
fn copied_task(alloc: Global, task: &Task) -> Result<Task, Memory>
    ensures { IfOk result (λ copy. copy ≡ task.now) }
{
    let fields = copied_fields(alloc, task.fields.as_slice())?;
    let steps = copied_steps(alloc, task.steps.as_slice())?;
    let site = task.site;
    Ok(Task {
        site,
        fields,
        steps,
    })
}

// The same steps once more.
fn copied_steps(alloc: Global, steps: &[Step]) -> Result<Items<Step>, Memory>
    ensures { IfOk result (λ copy. copy ≡ steps.now) }
{
    let mut copy = Items::new(alloc);
    for step in steps {
        copy.push(copied_step(alloc, step)?)?;
    }
    Ok(copy)
}

// The same step once more.
fn copied_step(alloc: Global, step: &Step) -> Result<Step, Memory>
    ensures { IfOk result (λ copy. copy ≡ step.now) }
{
    Ok(match step {
        Step::Event { site, fields } => Step::Event {
            site: *site,
            fields: copied_fields(alloc, fields.as_slice())?,
        },
        Step::Record { fields } => Step::Record {
            fields: copied_fields(alloc, fields.as_slice())?,
        },
        Step::SetAttribute { key, value } => {
            let key = key.clone()?;
            Step::SetAttribute {
                key,
                value: copied_attribute(alloc, value)?,
            }
        }
        Step::Yield => Step::Yield,
    })
}

// The same fields once more.
fn copied_fields(alloc: Global, fields: &[(Text, Value)]) -> Result<Items<(Text, Value)>, Memory>
    ensures { IfOk result (λ copy. copy ≡ fields.now) }
{
    let mut copy = Items::new(alloc);
    for field in fields {
        copy.push(copied_field(alloc, field)?)?;
    }
    Ok(copy)
}

// The same field once more.
fn copied_field(alloc: Global, field: &(Text, Value)) -> Result<(Text, Value), Memory>
    ensures { IfOk result (λ copy. copy ≡ field.now) }
{
    let (name, value) = field;
    let name = name.clone()?;
    Ok((name, copied_value(alloc, value)?))
}

// The same value of an attribute once more.
fn copied_attribute(alloc: Global, value: &OtelValue) -> Result<OtelValue, Memory>
    ensures { IfOk result (λ copy. copy ≡ value.now) }
{
    Ok(match value {
        OtelValue::Bool(flag) => OtelValue::Bool(*flag),
        OtelValue::I64(number) => OtelValue::I64(*number),
        OtelValue::Str(text) => OtelValue::Str(text.clone()?),
        OtelValue::List(texts) => OtelValue::List(copied_texts(alloc, texts.as_slice())?),
    })
}
