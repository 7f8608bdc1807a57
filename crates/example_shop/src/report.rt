//! The lines of a record.
use otel_base::list::Items;
use otel_base::memory::Memory;
use otel_base::record::Record;
use otel_base::value::{KeyValue, OtelValue};
use std::alloc::Global;

/// Adds the line of a record, and one of each of its events.
pub fn add_record(alloc: Global, told: &mut String, record: &Record) -> Result<(), Memory> {
    let (name, id, trace, parent) = (
        record.name.as_str(),
        record.context.span,
        record.context.trace,
        record.parent,
    );
    let (start, end) = (record.start, record.end);
    told.push_str(format!(in alloc;
        "{name}: span {id} of trace {trace} under {parent}, {start} to {end}"
    )?.as_str())?;
    add_attributes(alloc, told, &record.attributes)?;
    for event in record.events.as_slice() {
        let (name, time) = (event.name.as_str(), event.time);
        told.push_str(format!(in alloc; "  {name} at {time}")?.as_str())?;
        add_attributes(alloc, told, &event.attributes)?;
    }
    Ok(())
}

// Adds attributes, and the line's end.
fn add_attributes(
    alloc: Global,
    told: &mut String,
    attributes: &Items<KeyValue>,
) -> Result<(), Memory> {
    for pair in attributes.as_slice() {
        told.push_str(attribute_text(alloc, pair)?.as_str())?;
    }
    told.push('\n')?;
    Ok(())
}

// An attribute. Of lists it tells only that they are there.
fn attribute_text(alloc: Global, pair: &KeyValue) -> Result<String, Memory> {
    let key = pair.key.as_str();
    match &pair.value {
        OtelValue::I64(value) => Ok(format!(in alloc; ", {key} {value}")?),
        OtelValue::Bool(value) => Ok(format!(in alloc; ", {key} {value}")?),
        OtelValue::Str(value) => {
            let value = value.as_str();
            Ok(format!(in alloc; ", {key} {value}")?)
        }
        OtelValue::List(_) => Ok(format!(in alloc; ", {key} ..")?),
    }
}
