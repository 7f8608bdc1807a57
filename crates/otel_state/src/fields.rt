//! What fields add to spans and events. Here stands what is the same for both.
ghost use Rattle.std.specs.Prelude.{◌≡◌, ◌++◌, ◌∷◌, [], OnOk, IfOk, slice_get, pos};
ghost use Rattle.std.specs.Option.{option_copied};
ghost use Rattle.otel_base.specs.Words.{word_text};
ghost use Rattle.otel_base.specs.declared.word.Word.TheVariants.{LineNumber};
ghost use Rattle.otel_state.specs.fields.Fields.{text_attribute, if_wanted, text_attribute_if_known, integer_attribute_if_known, location_attributes, plain_text, debug_text, exception_attributes, error_attributes};

use otel_base::list::Items;
use otel_base::memory::Memory;
use otel_base::text::Text;
use otel_base::value::{KeyValue, OtelValue};
use otel_base::word::Word;
use std::alloc::Global;
use trace_base::callsite::Callsite;
use trace_base::field::Value;
use trace_base::quote::quote;

pub mod event;
pub mod first;
pub mod span;

// The name of the field at a place, if there is one.
fn field_name(callsite: &Callsite, place: usize) -> Option<&Text>
    ensures { option_copied result ≡ slice_get callsite.now.fields place }
{
    callsite.fields.as_slice().get(place)
}

fn add_text(attributes: &mut Items<KeyValue>, key: Text, text: Text) -> Result<(), Memory>
    ensures { OnOk result (attributes.new ≡ attributes.old ++ text_attribute key text ∷ []) }
{
    attributes.push(KeyValue {
        key,
        value: OtelValue::Str(text),
    })
}

fn add_known_text(
    alloc: Global,
    attributes: &mut Items<KeyValue>,
    key: Word,
    text: &Option<Text>,
) -> Result<(), Memory>
    ensures { OnOk result (attributes.new ≡ attributes.old ++ text_attribute_if_known (word_text key) text.now) }
{
    match text {
        Some(text) => add_text(attributes, Text::from_word(key), text.clone()?),
        None => Ok(()),
    }
}

fn add_line(
    alloc: Global,
    attributes: &mut Items<KeyValue>,
    line: Option<u32>,
) -> Result<(), Memory>
    ensures { OnOk result (attributes.new ≡ attributes.old ++ integer_attribute_if_known (word_text LineNumber) line) }
{
    match line {
        Some(line) => attributes.push(KeyValue {
            key: Text::from_word(Word::LineNumber),
            value: OtelValue::I64(i64::from(line)),
        }),
        None => Ok(()),
    }
}

// Adds the file, the module and the line of a callsite, where these are wanted.
fn add_location(
    alloc: Global,
    attributes: &mut Items<KeyValue>,
    is_wanted: bool,
    callsite: &Callsite,
) -> Result<(), Memory>
    ensures { OnOk result (attributes.new ≡ attributes.old ++ if_wanted is_wanted (location_attributes callsite.now)) }
{
    if is_wanted {
        add_known_text(alloc, attributes, Word::FilePath, &callsite.file)?;
        add_known_text(alloc, attributes, Word::ModuleName, &callsite.module_path)?;
        add_line(alloc, attributes, callsite.line)?;
    }
    Ok(())
}

// The text of a value that counts as one.
fn plain_text(alloc: Global, value: &Value) -> Result<Option<Text>, Memory>
    ensures { IfOk result (λ text. text ≡ plain_text value.now) }
{
    match value {
        Value::Str(text) | Value::Debug(text) => Ok(Some(text.clone()?)),
        Value::U64(number) => Ok(Some(Text::from(format!(in alloc; "{number}")?))),
        Value::I128(number) => Ok(Some(Text::from(format!(in alloc; "{number}")?))),
        Value::U128(number) => Ok(Some(Text::from(format!(in alloc; "{number}")?))),
        Value::Bool(_) | Value::I64(_) | Value::Error { .. } => Ok(None),
    }
}

// The same in debug form.
fn debug_text(alloc: Global, value: &Value) -> Result<Option<Text>, Memory>
    ensures { IfOk result (λ text. text ≡ debug_text value.now) }
{
    match value {
        Value::Str(text) => Ok(Some(Text::from(quote(alloc, text.as_str())?))),
        _ => plain_text(alloc, value),
    }
}

// A list of texts once more.
fn copy_of(alloc: Global, texts: &Items<Text>) -> Result<Items<Text>, Memory>
    ensures { IfOk result (λ copy. copy ≡ texts.now) }
{
    let items = texts.as_slice();
    let mut copy = Items::new(alloc);
    for text in items {
        copy.push(text.clone()?)?;
    }
    Ok(copy)
}

// Adds an error as an exception, where that is wanted.
fn add_exception(
    alloc: Global,
    attributes: &mut Items<KeyValue>,
    is_wanted: bool,
    message: &Text,
    chain: &Items<Text>,
) -> Result<(), Memory>
    ensures { OnOk result (attributes.new ≡ attributes.old ++ if_wanted is_wanted (exception_attributes message.now chain.now)) }
{
    if is_wanted {
        add_text(
            attributes,
            Text::from_word(Word::ExceptionMessage),
            message.clone()?,
        )?;
        attributes.push(KeyValue {
            key: Text::from_word(Word::ExceptionStacktrace),
            value: OtelValue::List(copy_of(alloc, chain)?),
        })?;
    }
    Ok(())
}

// Adds an error under its own name, and its sources under that name and `.chain`.
fn add_error(
    alloc: Global,
    attributes: &mut Items<KeyValue>,
    name: &Text,
    message: &Text,
    chain: &Items<Text>,
) -> Result<(), Memory>
    ensures { OnOk result (attributes.new ≡ attributes.old ++ error_attributes name.now message.now chain.now) }
{
    add_text(attributes, name.clone()?, message.clone()?)?;
    let mut key = String::from_str(alloc, name.as_str())?;
    key.push_str(".chain")?;
    attributes.push(KeyValue {
        key: Text::from(key),
        value: OtelValue::List(copy_of(alloc, chain)?),
    })
}
