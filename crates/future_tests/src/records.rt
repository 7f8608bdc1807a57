//! Records as texts.
ghost use Rattle.std.specs.Prelude.{◌≡◌, ◌<◌, length};

use crate::stack::Stack;
use otel_base::memory::Memory;
use otel_base::record::Record;
use otel_base::value::{KeyValue, OtelValue};
use std::alloc::Global;
use trace_base::dispatcher::Dispatch;
use trace_base::world::World;

/// The records that a stack still has, nine at most.
pub fn take_record_texts<S: Stack>(
    alloc: Global,
    world: &mut World<S>,
    stack: Dispatch,
) -> Result<String, Memory>
    requires { stack < length world.old.subscribers }
    ensures { length world.new.subscribers ≡ length world.old.subscribers }
{
    take_texts(alloc, world.subscriber_mut(stack))
}

fn take_texts<S: Stack>(alloc: Global, stack: &mut S) -> Result<String, Memory> {
    let mut told = String::new(alloc);
    for _ in 0..9 {
        let Some(record) = stack.take() else {
            break;
        };
        told.push_str(line(alloc, &record)?.as_str())?;
    }
    Ok(told)
}

// The name, the id, the parent, the times and the attributes of a record.
fn line(alloc: Global, record: &Record) -> Result<String, Memory> {
    let (name, id, parent) = (record.name.as_str(), record.context.span, record.parent);
    let (start, end) = (record.start, record.end);
    let mut told = format!(in alloc; "{name} {id} under {parent}, {start} to {end}")?;
    for pair in record.attributes.as_slice() {
        told.push_str(attribute(alloc, pair)?.as_str())?;
    }
    Ok(told)
}

fn attribute(alloc: Global, pair: &KeyValue) -> Result<String, Memory> {
    let key = pair.key.as_str();
    match &pair.value {
        OtelValue::I64(value) => Ok(format!(in alloc; ", {key} {value}")?),
        OtelValue::Str(value) => {
            let value = value.as_str();
            Ok(format!(in alloc; ", {key} {value}")?)
        }
        _ => Ok(format!(in alloc; ", {key}")?),
    }
}
