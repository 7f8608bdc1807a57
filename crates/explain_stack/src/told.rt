//! The lines that tell what became of a span.
ghost use Rattle.std.specs.Prelude.{◌≡◌, false, IfOk, string_bytes};
ghost use Rattle.explain_stack.specs.Telling.{done_line, poll_line};

use futures::task::Poll;
use otel_base::enter_error::EnterError;
use otel_base::memory::Memory;
use otel_base::record::Record;
use otel_base::status::Status;
use otel_base::value::{KeyValue, OtelValue};
use std::alloc::Global;

/// Adds a record: ids, times, and behind them its status, links, events and attributes, each on a line of its own.
pub fn add_record(alloc: Global, told: &mut String, record: &Record) -> Result<(), Memory> {
    add(told, head(alloc, record)?)?;
    add(told, status_line(alloc, &record.status)?)?;
    add_links(alloc, told, record)?;
    add_events(alloc, told, record)?;
    add_attributes(alloc, told, record)
}

fn head(alloc: Global, record: &Record) -> Result<String, Memory> {
    let (id, trace, parent) = (record.context.span, record.context.trace, record.parent);
    let (name, start, end) = (record.name.as_str(), record.start, record.end);
    Ok(format!(in alloc; "  record {id} `{name}` in {trace} under {parent}, {start} to {end}\n")?)
}

fn status_line(alloc: Global, status: &Status) -> Result<String, Memory> {
    match status {
        Status::Unset => Ok(String::new(alloc)),
        Status::Error { description } => quoted_line(alloc, "error", description.as_str()),
        Status::Ok => Ok(String::from_str(alloc, "    ok\n")?),
    }
}

fn add_links(alloc: Global, told: &mut String, record: &Record) -> Result<(), Memory> {
    for link in record.links.as_slice() {
        let (trace, span) = (link.context.trace, link.context.span);
        add(told, format!(in alloc; "    link {trace} {span}\n")?)?;
    }
    Ok(())
}

fn add_events(alloc: Global, told: &mut String, record: &Record) -> Result<(), Memory> {
    for event in record.events.as_slice() {
        let (name, time) = (event.name.as_str(), event.time);
        add(told, format!(in alloc; "    event `{name}` at {time}\n")?)?;
    }
    Ok(())
}

fn add_attributes(alloc: Global, told: &mut String, record: &Record) -> Result<(), Memory> {
    for pair in record.attributes.as_slice() {
        add(told, attribute_line(alloc, pair)?)?;
    }
    Ok(())
}

fn attribute_line(alloc: Global, pair: &KeyValue) -> Result<String, Memory> {
    let key = pair.key.as_str();
    match &pair.value {
        OtelValue::Bool(value) => Ok(format!(in alloc; "    {key} {value}\n")?),
        OtelValue::I64(value) => Ok(format!(in alloc; "    {key} {value}\n")?),
        OtelValue::Str(value) => quoted_line(alloc, key, value.as_str()),
        OtelValue::List(values) => {
            let count = values.as_slice().len();
            Ok(format!(in alloc; "    {key} of {count} texts\n")?)
        }
    }
}

fn quoted_line(alloc: Global, key: &str, value: &str) -> Result<String, Memory> {
    Ok(format!(in alloc; "    {key} `{value}`\n")?)
}

/// Adds a text behind another.
pub fn add(told: &mut String, text: String) -> Result<(), Memory> {
    told.push_str(text.as_str())?;
    Ok(())
}

/// A line that is no call, or one that can't be made now.
pub fn refused_line(alloc: Global) -> Result<String, Memory>
    ensures { IfOk result (λ told. string_bytes told ≡ done_line false) }
{
    Ok(String::from_str(alloc, "  refused\n")?)
}

/// What a poll answers, if there was one: pending, ready with whether a subscriber serves the lane, or refused by a full lane.
pub fn poll_line(
    alloc: Global,
    polled: Option<Result<Poll<bool>, EnterError>>,
) -> Result<String, Memory>
    ensures { IfOk result (λ told. string_bytes told ≡ poll_line polled) }
{
    match polled {
        None => refused_line(alloc),
        Some(Ok(Poll::Pending)) => Ok(String::from_str(alloc, "  pending\n")?),
        Some(Ok(Poll::Ready(true))) => Ok(String::from_str(alloc, "  ready, served true\n")?),
        Some(Ok(Poll::Ready(false))) => Ok(String::from_str(alloc, "  ready, served false\n")?),
        Some(Err(EnterError::Full)) => Ok(String::from_str(alloc, "  full\n")?),
        Some(Err(EnterError::Memory)) => Err(Memory),
    }
}

/// Whether something is so.
pub fn fact_line(alloc: Global, word: &str, is_so: bool) -> Result<String, Memory> {
    Ok(format!(in alloc; "  {word} {is_so}\n")?)
}

/// That a call was made, if it was.
pub fn done_line(alloc: Global, done: bool) -> Result<String, Memory>
    ensures { IfOk result (λ told. string_bytes told ≡ done_line done) }
{
    if done {
        Ok(String::from_str(alloc, "  done\n")?)
    } else {
        refused_line(alloc)
    }
}
