//! Reading attributes and statuses.
ghost use Rattle.std.specs.Prelude.{◌≡◌, option_map};
ghost use Rattle.serde_json.specs.View.{view};
ghost use Rattle.trace_lines.specs.forms.AttributeForm.{text_list_of, otel_value_of, key_value, attribute_spelled, attributes_spelled, attributes_form, status_of_word, error_status_form, status_spelled};
ghost use Rattle.trace_lines.specs.text.Compact.{plain_data};
ghost use Rattle.trace_lines.specs.forms.Forms.{each, pair_with, object_of};
ghost use Rattle.trace_lines.specs.reading.Gives.{Gives};
ghost use Rattle.trace_lines.specs.reading.Left.{value_data, members_left};
ghost use Rattle.trace_lines.specs.reading.Object.{items};

use crate::read::LineError;
use crate::read::fields::{texts, two_of};
use crate::read::plain::Plain;
use crate::read::syntax::object::Object;
use crate::read::syntax::value::Value;
use otel_base::list::Items;
use otel_base::status::Status;
use otel_base::text::Text;
use otel_base::value::{KeyValue, OtelValue};
use serde_json::Value as Json;
use std::alloc::Global;

// The list of texts that a value is.
fn list_value(alloc: Global, value: Value<'_>) -> Result<OtelValue, LineError>
    ensures { Gives (λ v. v) result (text_list_of (value_data value.entry)) }
{
    let values = value.into_array(alloc)?;
    Ok(OtelValue::List(texts(alloc, values)?))
}

// The value of an attribute that a value of a text spells.
#[tactic(auto, using(crate::proofs::texts::AttributesLemmas::list_nested))]
fn plain_value(alloc: Global, plain: Plain<'_>) -> Result<OtelValue, LineError>
    ensures { Gives (λ v. v) result (otel_value_of (plain_data plain.entry)) }
{
    match plain {
        Plain::Whole(number) => match i64::try_from(number) {
            Ok(signed) => Ok(OtelValue::I64(signed)),
            Err(_) => Err(LineError::BadLine),
        },
        Plain::Negative(number) => Ok(OtelValue::I64(number)),
        Plain::Text(words) => Ok(OtelValue::Str(Text::from_str(alloc, words)?)),
        Plain::Flag(flag) => Ok(OtelValue::Bool(flag)),
        Plain::Nested(_) => list_value(alloc, Value::Plain(plain)),
    }
}

// The value of an attribute that a tree spells.
fn tree_value(alloc: Global, tree: Json) -> Result<OtelValue, LineError>
    ensures { Gives (λ v. v) result (otel_value_of (view tree)) }
{
    match tree {
        Json::Bool(flag) => Ok(OtelValue::Bool(flag)),
        Json::Number(number) => match number.as_i64() {
            Some(signed) => Ok(OtelValue::I64(signed)),
            None => Err(LineError::BadLine),
        },
        Json::String(text) => Ok(OtelValue::Str(Text::from(text))),
        Json::Array(trees) => list_value(alloc, Value::Tree(Json::Array(trees))),
        Json::Null => Err(LineError::BadLine),
        Json::Object(_) => Err(LineError::BadLine),
    }
}

/// The value of an attribute that a value spells.
pub fn otel_value_of(alloc: Global, value: Value<'_>) -> Result<OtelValue, LineError>
    ensures { Gives (λ v. v) result (otel_value_of (value_data value.entry)) }
{
    match value {
        Value::Plain(plain) => plain_value(alloc, plain),
        Value::Tree(tree) => tree_value(alloc, tree),
    }
}

// The attribute that a pair of a key and a value spells.
#[tactic(auto, using(crate::proofs::texts::FieldsLemmas::no_pair))]
fn attribute_of_pair(alloc: Global, values: Vec<Value<'_>>) -> Result<KeyValue, LineError>
    ensures { Gives (λ a. a) result (option_map key_value (pair_with otel_value_of (items value_data values.entry.items))) }
{
    match two_of(values) {
        Some((key, value)) => {
            let key = key.into_text(alloc)?;
            let value = otel_value_of(alloc, value)?;
            Ok(KeyValue { key, value })
        }
        None => Err(LineError::BadLine),
    }
}

// The attribute that a value spells.
fn attribute(alloc: Global, value: Value<'_>) -> Result<KeyValue, LineError>
    ensures { Gives (λ a. a) result (attribute_spelled (value_data value.entry)) }
{
    attribute_of_pair(alloc, value.into_array(alloc)?)
}

// The attributes that the items of an array spell.
fn attributes(alloc: Global, values: Vec<Value<'_>>) -> Result<Items<KeyValue>, LineError>
    ensures { Gives (λ l. l) result (each attribute_spelled (items value_data values.entry.items)) }
{
    let mut attributes = Items::new(alloc);
    for value in values {
        attributes.push(attribute(alloc, value)?)?;
    }
    Ok(attributes)
}

/// Takes the attributes that are given, which are none where nothing is said.
pub(crate) fn given_attributes(
    alloc: Global,
    object: &mut Object,
) -> Result<Items<KeyValue>, LineError>
    ensures { Gives (λ l. (l, members_left object.new)) result (attributes_form (members_left object.old)) }
{
    match object.optional("attributes") {
        Some(value) => attributes(alloc, value.into_array(alloc)?),
        None => Ok(Items::new(alloc)),
    }
}

fn status_of_word(word: &str) -> Option<Status>
    ensures { result ≡ status_of_word word.now }
{
    match word {
        "unset" => Some(Status::Unset),
        "ok" => Some(Status::Ok),
        _ => None,
    }
}

#[tactic(auto, unfolding(crate::specs::forms::AttributeForm::error_status_form))]
fn error_members(alloc: Global, object: &mut Object) -> Result<Status, LineError>
    ensures { Gives (λ s. (s, members_left object.new)) result (error_status_form (members_left object.old)) }
{
    let description = object.text(alloc, "error")?;
    Ok(Status::Error { description })
}

fn error_status(alloc: Global, value: Value<'_>) -> Result<Status, LineError>
    ensures { Gives (λ s. s) result (object_of error_status_form (value_data value.entry)) }
{
    let mut object = Object::of(alloc, value)?;
    let status = error_members(alloc, &mut object)?;
    object.end()?;
    Ok(status)
}

/// The status that a value names: by a word, or as an error.
pub(crate) fn status_of(alloc: Global, value: Value<'_>) -> Result<Status, LineError>
    ensures { Gives (λ s. s) result (status_spelled (value_data value.entry)) }
{
    match value.word() {
        Ok(word) => return status_of_word(word).ok_or(LineError::BadLine),
        Err(LineError::BadLine) => {}
        Err(error) => return Err(error),
    }
    error_status(alloc, value)
}

/// The attributes that a JSON value spells, for readers of other lines. `BadLine` where it spells none, `Memory` freely.
pub fn read_attributes(alloc: Global, value: &Json) -> Result<Items<KeyValue>, LineError>
    ensures { Gives (λ l. l) result (attributes_spelled (view value.now)) }
{
    let tree = value.clone()?;
    attributes(alloc, Value::Tree(tree).into_array(alloc)?)
}

/// The value of an attribute that a JSON value spells. `BadLine` where it spells none, `Memory` freely.
pub fn read_attribute_value(alloc: Global, value: &Json) -> Result<OtelValue, LineError>
    ensures { Gives (λ v. v) result (otel_value_of (view value.now)) }
{
    let tree = value.clone()?;
    otel_value_of(alloc, Value::Tree(tree))
}

/// The status that a JSON value spells. `BadLine` where it spells none, `Memory` freely.
pub fn read_status(alloc: Global, value: &Json) -> Result<Status, LineError>
    ensures { Gives (λ s. s) result (status_spelled (view value.now)) }
{
    let tree = value.clone()?;
    status_of(alloc, Value::Tree(tree))
}
