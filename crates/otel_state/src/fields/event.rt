//! What the fields of an event tell.
ghost use Rattle.std.specs.Prelude.{◌≡◌, ◌++◌, ◌∷◌, [], OnOk, IfOk};
ghost use Rattle.otel_state.specs.fields.Fields.{by_name};
ghost use Rattle.otel_state.specs.fields.EventFields.{begun_event, with_attribute, with_error, with_field_text, with_texts, with_printed, with_field, with_error_value, name_or, op_of_event, event_op};

use crate::fields::first::{add_level, add_target};
use crate::fields::{
    add_error, add_exception, add_location, add_text, debug_text, field_name, plain_text,
};
use crate::op::Op;
use crate::settings::LayerSettings;
use crate::update::Update;
use otel_base::list::Items;
use otel_base::memory::Memory;
use otel_base::record::{Moment, OtelEvent};
use otel_base::status::Status;
use otel_base::text::Text;
use otel_base::value::{KeyValue, OtelValue};
use otel_base::word::Word;
use std::alloc::Global;
use trace_base::callsite::Callsite;
use trace_base::field::{Value, ValueSet};
use trace_base::level::Level;

// What is told of an event: its name, empty where there is none, its attributes, and what it writes on its span.
#[derive(Drop)]
struct Event {
    name: Text,
    attributes: Items<KeyValue>,
    status: Option<Status>,
    on_span: Items<KeyValue>,
}

/// The op of an event of a callsite with some fields, at a moment; the `SpanEventVisitor` of
/// `tracing_opentelemetry::layer`.
pub fn event_op(
    alloc: Global,
    callsite: &Callsite,
    values: &ValueSet,
    settings: &LayerSettings,
    at: Moment,
) -> Result<Op, Memory>
    ensures { IfOk result (λ op. op ≡ event_op callsite.now values.now settings.now at) }
{
    let mut event = begin(alloc, callsite, settings)?;
    let pairs = values.pairs.as_slice();
    for pair in pairs {
        tell_pair(alloc, &mut event, callsite, pair, settings)?;
    }
    finish(alloc, event, callsite, settings, at)
}

fn begin(alloc: Global, callsite: &Callsite, settings: &LayerSettings) -> Result<Event, Memory>
    ensures { IfOk result (λ event. event ≡ begun_event callsite.now) }
{
    // Level and target, and those of the location: all that an event has whose fields are its message.
    let most = if settings.location { 5 } else { 2 };
    let mut attributes = Items::with_capacity(alloc, most)?;
    add_level(alloc, &mut attributes, true, callsite)?;
    add_target(alloc, &mut attributes, true, callsite)?;
    Ok(Event {
        name: Text::from(String::new(alloc)),
        attributes,
        status: None,
        on_span: Items::new(alloc),
    })
}

fn finish(
    alloc: Global,
    event: Event,
    callsite: &Callsite,
    settings: &LayerSettings,
    at: Moment,
) -> Result<Op, Memory>
    ensures { IfOk result (λ op. op ≡ op_of_event event callsite.now settings.now at) }
{
    let Event {
        name,
        mut attributes,
        status,
        on_span,
    } = event;
    add_location(alloc, &mut attributes, settings.location, callsite)?;
    Ok(Op::Event {
        is_error: matches!(callsite.level, Level::ERROR),
        update: Update {
            name: None,
            kind: None,
            status,
            attributes: on_span,
        },
        event: OtelEvent {
            name: name_or(name, &callsite.name)?,
            time: at,
            attributes,
        },
    })
}

// A name, or another where it is empty.
fn name_or(name: Text, other: &Text) -> Result<Text, Memory>
    ensures { IfOk result (λ n. n ≡ name_or name other.now) }
{
    if name.as_str().is_empty() {
        Ok(other.clone()?)
    } else {
        Ok(name)
    }
}

fn tell_pair(
    alloc: Global,
    event: &mut Event,
    callsite: &Callsite,
    pair: &(usize, Value),
    settings: &LayerSettings,
) -> Result<(), Memory>
    ensures { OnOk result (event.new ≡ by_name (with_field settings.now) callsite.now event.old pair.now) }
{
    match field_name(callsite, pair.0) {
        Some(name) => tell_value(alloc, event, name, &pair.1, settings),
        None => Ok(()),
    }
}

fn tell_value(
    alloc: Global,
    event: &mut Event,
    name: &Text,
    value: &Value,
    settings: &LayerSettings,
) -> Result<(), Memory>
    ensures { OnOk result (event.new ≡ with_field settings.now event.old name.now value.now) }
{
    match value {
        Value::Bool(flag) => {
            let printed = format!(in alloc; "{flag}")?;
            tell_printed(event, name, OtelValue::Bool(*flag), Text::from(printed))
        }
        Value::I64(number) => {
            let printed = format!(in alloc; "{number}")?;
            tell_printed(event, name, OtelValue::I64(*number), Text::from(printed))
        }
        Value::Error { message, chain } => tell_error(alloc, event, name, message, chain, settings),
        _ => {
            let text = plain_text(alloc, value)?;
            let debug = debug_text(alloc, value)?;
            tell_texts(alloc, event, name, text, debug, settings)
        }
    }
}

// A value that is an error, whatever its field is called.
fn tell_error(
    alloc: Global,
    event: &mut Event,
    name: &Text,
    message: &Text,
    chain: &Items<Text>,
    settings: &LayerSettings,
) -> Result<(), Memory>
    ensures { OnOk result (event.new ≡ with_error_value settings.now event.old name.now message.now chain.now) }
{
    add_exception(
        alloc,
        &mut event.attributes,
        settings.error_fields_to_exceptions,
        message,
        chain,
    )?;
    add_exception(
        alloc,
        &mut event.on_span,
        settings.error_records_to_exceptions,
        message,
        chain,
    )?;
    add_error(alloc, &mut event.attributes, name, message, chain)
}

fn tell_printed(
    event: &mut Event,
    name: &Text,
    value: OtelValue,
    printed: Text,
) -> Result<(), Memory>
    ensures { OnOk result (event.new ≡ with_printed event.old (record { key = name.now; value = value }) printed) }
{
    if name.as_str() == "message" {
        event.name = printed;
        Ok(())
    } else {
        event.attributes.push(KeyValue {
            key: name.clone()?,
            value,
        })
    }
}

fn tell_texts(
    alloc: Global,
    event: &mut Event,
    name: &Text,
    text: Option<Text>,
    debug: Option<Text>,
    settings: &LayerSettings,
) -> Result<(), Memory>
    ensures { OnOk result (event.new ≡ with_texts settings.now event.old name.now text debug) }
{
    match (text, debug) {
        (Some(text), Some(debug)) => tell_text(alloc, event, name, text, debug, settings),
        _ => Ok(()),
    }
}

fn tell_text(
    alloc: Global,
    event: &mut Event,
    name: &Text,
    text: Text,
    debug: Text,
    settings: &LayerSettings,
) -> Result<(), Memory>
    ensures { OnOk result (event.new ≡ with_field_text settings.now event.old name.now text debug) }
{
    if name.as_str() == "message" {
        event.name = text;
        Ok(())
    } else if name.as_str() == "error" && event.name.as_str().is_empty() {
        tell_special(alloc, event, debug, settings)
    } else {
        add_text(&mut event.attributes, name.clone()?, text)
    }
}

// The special error of an event.
fn tell_special(
    alloc: Global,
    event: &mut Event,
    description: Text,
    settings: &LayerSettings,
) -> Result<(), Memory>
    ensures { OnOk result (event.new ≡ with_error settings.now event.old description) }
{
    if settings.error_events_to_status {
        event.status = Some(Status::Error {
            description: description.clone()?,
        });
    }
    let key = if settings.error_events_to_exceptions {
        event.name = Text::from_word(Word::Exception);
        Word::ExceptionMessage
    } else {
        Word::Error
    };
    add_text(&mut event.attributes, Text::from_word(key), description)
}
