//! What the fields of a span write on it.
ghost use Rattle.std.specs.Prelude.{◌≡◌, ◌++◌, ◌∷◌, [], OnOk, IfOk};
ghost use Rattle.otel_state.specs.fields.Fields.{by_name};
ghost use Rattle.otel_state.specs.fields.SpanFields.{special_of, kind_of_word, status_of_code, with_special, with_named, with_any_text, with_value, span_update};

use crate::fields::{add_error, add_exception, add_text, field_name, plain_text};
use crate::settings::LayerSettings;
use crate::update::Update;
use otel_base::list::Items;
use otel_base::memory::Memory;
use otel_base::record::SpanKind;
use otel_base::status::Status;
use otel_base::text::Text;
use otel_base::value::{KeyValue, OtelValue};
use std::alloc::Global;
use trace_base::callsite::Callsite;
use trace_base::field::{Value, ValueSet};

// A name that doesn't stand for an attribute.
#[derive(Clone, Copy)]
enum Special {
    Name,
    Kind,
    StatusCode,
    StatusDescription,
}

/// What a list of a callsite's fields writes on a span; the `SpanAttributeVisitor` of `tracing_opentelemetry::layer`.
pub fn span_update(
    alloc: Global,
    callsite: &Callsite,
    values: &ValueSet,
    settings: &LayerSettings,
) -> Result<Update, Memory>
    ensures { IfOk result (λ update. update ≡ span_update callsite.now values.now settings.now) }
{
    let mut update = Update {
        name: None,
        kind: None,
        status: None,
        attributes: Items::new(alloc),
    };
    let pairs = values.pairs.as_slice();
    for pair in pairs {
        write_pair(alloc, &mut update, callsite, pair, settings)?;
    }
    Ok(update)
}

fn write_pair(
    alloc: Global,
    update: &mut Update,
    callsite: &Callsite,
    pair: &(usize, Value),
    settings: &LayerSettings,
) -> Result<(), Memory>
    ensures { OnOk result (update.new ≡ by_name (with_value settings.now) callsite.now update.old pair.now) }
{
    match field_name(callsite, pair.0) {
        Some(name) => write_value(alloc, update, name, &pair.1, settings),
        None => Ok(()),
    }
}

fn write_value(
    alloc: Global,
    update: &mut Update,
    name: &Text,
    value: &Value,
    settings: &LayerSettings,
) -> Result<(), Memory>
    ensures { OnOk result (update.new ≡ with_value settings.now update.old name.now value.now) }
{
    match value {
        Value::Bool(flag) => update.attributes.push(KeyValue {
            key: name.clone()?,
            value: OtelValue::Bool(*flag),
        }),
        Value::I64(number) => update.attributes.push(KeyValue {
            key: name.clone()?,
            value: OtelValue::I64(*number),
        }),
        Value::Error { message, chain } => {
            let is_wanted = settings.error_fields_to_exceptions;
            add_exception(alloc, &mut update.attributes, is_wanted, message, chain)?;
            add_error(alloc, &mut update.attributes, name, message, chain)
        }
        _ => write_any_text(alloc, update, name, plain_text(alloc, value)?),
    }
}

fn write_any_text(
    alloc: Global,
    update: &mut Update,
    name: &Text,
    text: Option<Text>,
) -> Result<(), Memory>
    ensures { OnOk result (update.new ≡ with_any_text update.old name.now text) }
{
    match text {
        Some(text) => write_text(alloc, update, name, text),
        None => Ok(()),
    }
}

fn write_text(alloc: Global, update: &mut Update, name: &Text, text: Text) -> Result<(), Memory>
    ensures { OnOk result (update.new ≡ with_named update.old (special_of name.now) name.now text) }
{
    match special_of(name.as_str()) {
        Some(special) => {
            write_special(alloc, update, special, text);
            Ok(())
        }
        None => add_text(&mut update.attributes, name.clone()?, text),
    }
}

fn write_special(alloc: Global, update: &mut Update, special: Special, text: Text)
    ensures { update.new ≡ with_special update.old special text }
{
    match special {
        Special::Name => update.name = Some(text),
        Special::Kind => update.kind = kind_of_word(text.as_str()),
        Special::StatusCode => update.status = Some(status_of_code(alloc, text.as_str())),
        Special::StatusDescription => update.status = Some(Status::Error { description: text }),
    }
}

fn special_of(name: &str) -> Option<Special>
    ensures { result ≡ special_of name.now }
{
    if name == "otel.name" {
        Some(Special::Name)
    } else if name == "otel.kind" {
        Some(Special::Kind)
    } else if name == "otel.status_code" {
        Some(Special::StatusCode)
    } else if name == "otel.status_description" {
        Some(Special::StatusDescription)
    } else {
        None
    }
}

fn kind_of_word(word: &str) -> Option<SpanKind>
    ensures { result ≡ kind_of_word word.now }
{
    if word.eq_ignore_ascii_case("server") {
        Some(SpanKind::Server)
    } else if word.eq_ignore_ascii_case("client") {
        Some(SpanKind::Client)
    } else if word.eq_ignore_ascii_case("producer") {
        Some(SpanKind::Producer)
    } else if word.eq_ignore_ascii_case("consumer") {
        Some(SpanKind::Consumer)
    } else if word.eq_ignore_ascii_case("internal") {
        Some(SpanKind::Internal)
    } else {
        None
    }
}

fn status_of_code(alloc: Global, code: &str) -> Status
    ensures { result ≡ status_of_code code.now }
{
    if code.eq_ignore_ascii_case("ok") {
        Status::Ok
    } else if code.eq_ignore_ascii_case("error") {
        Status::Error {
            description: Text::from(String::new(alloc)),
        }
    } else {
        Status::Unset
    }
}
