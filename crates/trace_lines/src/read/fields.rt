//! Reading fields: their names and their values.
ghost use Rattle.std.specs.Prelude.{◌≡◌, ◌≢◌, ◌<◌, ◌^◌, [], ◌∷◌, ◌++◌, Some, None, IfSome, codes, decimal, length};
ghost use Rattle.serde_json.specs.Data.{unsigned};
ghost use Rattle.serde_json.specs.Data as json;
ghost use Rattle.serde_json.specs.Find.{as_str, as_i64};
ghost use Rattle.serde_json.specs.View.{view, number_view};
ghost use Rattle.trace_lines.specs.text.Compact.{plain_data};
ghost use Rattle.trace_lines.specs.forms.Forms.{each, texts, pair_with, all_of};
ghost use Rattle.trace_lines.specs.forms.FieldForm.{whole_value, u64_of, i128_of, u128_of, debug_of, error_form, typed_form, value_spelled, field_of, fields_of};
ghost use Rattle.trace_lines.specs.reading.Gives.{Gives};
ghost use Rattle.trace_lines.specs.reading.Left.{value_data, members_left};
ghost use Rattle.trace_lines.specs.reading.Object.{items};

use crate::read::LineError;
use crate::read::decimal::{i128_of, u128_of};
use crate::read::plain::Plain;
use crate::read::plain_fields::plain_fields;
use crate::read::syntax::flat::expect_bracket;
use crate::read::syntax::object::Object;
use crate::read::syntax::scan::{behind_word, number};
use crate::read::syntax::value::Value;
use otel_base::list::Items;
use otel_base::text::Text;
use serde_json::{Number, Value as Json};
use std::alloc::Global;
use trace_base::field::Value as FieldValue;

// A number with no sign in front, as a signed one where it is small enough.
fn whole_value(number: u64) -> FieldValue
    ensures { Some result ≡ whole_value (as_i64 (unsigned number)) (Some number) }
{
    match i64::try_from(number) {
        Ok(signed) => FieldValue::I64(signed),
        Err(_) => FieldValue::U64(number),
    }
}

// The value of an object that names its type.
fn typed_value(alloc: Global, object: Object<'_>) -> Result<FieldValue, LineError>
    ensures { Gives (λ v. v) result (all_of typed_form (members_left object.entry)) }
{
    let mut object = object;
    let typed = typed_members(alloc, &mut object)?;
    object.end()?;
    Ok(typed)
}

// A number of 64 bits, by its member.
fn u64_value(value: &Value<'_>) -> Result<FieldValue, LineError>
    ensures { Gives (λ v. v) result (u64_of (value_data value.now)) }
{
    Ok(FieldValue::U64(value.whole()?))
}

fn i128_value(value: &Value<'_>) -> Result<FieldValue, LineError>
    ensures { Gives (λ v. v) result (i128_of (value_data value.now)) }
{
    let number = i128_of(value.word()?).ok_or(LineError::BadLine)?;
    Ok(FieldValue::I128(number))
}

fn u128_value(value: &Value<'_>) -> Result<FieldValue, LineError>
    ensures { Gives (λ v. v) result (u128_of (value_data value.now)) }
{
    let number = u128_of(value.word()?).ok_or(LineError::BadLine)?;
    Ok(FieldValue::U128(number))
}

fn debug_value(alloc: Global, value: Value<'_>) -> Result<FieldValue, LineError>
    ensures { Gives (λ v. v) result (debug_of (value_data value.entry)) }
{
    Ok(FieldValue::Debug(value.into_text(alloc)?))
}

/// Texts, to be kept.
pub(crate) fn texts(alloc: Global, values: Vec<Value<'_>>) -> Result<Items<Text>, LineError>
    ensures { Gives (λ l. l) result (each as_str (items value_data values.entry.items)) }
{
    let mut texts = Items::new(alloc);
    for value in values {
        texts.push(value.into_text(alloc)?)?;
    }
    Ok(texts)
}

/// Takes an array of texts, to be kept.
pub(crate) fn taken_texts(
    alloc: Global,
    object: &mut Object,
    name: &str,
) -> Result<Items<Text>, LineError>
    ensures { Gives (λ l. (l, members_left object.new)) result (texts name.now (members_left object.old)) }
{
    texts(alloc, object.array(alloc, name)?)
}

#[tactic(auto, unfolding(crate::specs::forms::FieldForm::error_form))]
fn error_members(alloc: Global, object: &mut Object) -> Result<FieldValue, LineError>
    ensures { Gives (λ v. (v, members_left object.new)) result (error_form (members_left object.old)) }
{
    let message = object.text(alloc, "error")?;
    let chain = taken_texts(alloc, object, "chain")?;
    Ok(FieldValue::Error { message, chain })
}

// Takes the member that names the type of a value; an error has two.
#[tactic(auto, unfolding(crate::specs::forms::FieldForm::typed_form))]
fn typed_members(alloc: Global, object: &mut Object) -> Result<FieldValue, LineError>
    ensures { Gives (λ v. (v, members_left object.new)) result (typed_form (members_left object.old)) }
{
    if let Some(value) = object.optional("u64") {
        return u64_value(&value);
    }
    if let Some(value) = object.optional("i128") {
        return i128_value(&value);
    }
    if let Some(value) = object.optional("u128") {
        return u128_value(&value);
    }
    if let Some(value) = object.optional("debug") {
        return debug_value(alloc, value);
    }
    error_members(alloc, object)
}

// The number of 64 bits that an object names as such, where that stands compactly. None says nothing.
fn plain_u64(object: &[u8]) -> Option<u64>
    ensures text { IfSome result (λ n. object.now ≡ codes "{\"u64\":" ++ (decimal n ++ 125 ∷ [])) }
    ensures fits { IfSome result (λ n. n < 2 ^ 64) }
{
    let digits = behind_word(object, b"{\"u64\":")?;
    let (whole, rest) = number(digits)?;
    expect_bracket(rest, b'}')?;
    Some(whole)
}

/// The value of a field that a value of a text spells.
#[tactic(auto, using(crate::proofs::texts::FieldsLemmas::typed_nested, crate::proofs::texts::FieldsLemmas::u64_nested))]
pub(crate) fn plain_value(alloc: Global, plain: Plain<'_>) -> Result<FieldValue, LineError>
    ensures { Gives (λ v. v) result (value_spelled (plain_data plain.entry)) }
{
    match plain {
        Plain::Whole(number) => Ok(whole_value(number)),
        Plain::Negative(number) => Ok(FieldValue::I64(number)),
        Plain::Text(words) => Ok(FieldValue::Str(Text::from_str(alloc, words)?)),
        Plain::Flag(flag) => Ok(FieldValue::Bool(flag)),
        Plain::Nested(words) => match plain_u64(words.as_bytes()) {
            Some(whole) => Ok(FieldValue::U64(whole)),
            None => typed_value(alloc, Object::of(alloc, Value::Plain(plain))?),
        },
    }
}

// The value of a field that a number of a tree spells.
fn number_value(number: &Number) -> Result<FieldValue, LineError>
    ensures { Gives (λ v. v) result (value_spelled (json.number (number_view number.now))) }
{
    match number.as_i64() {
        Some(signed) => Ok(FieldValue::I64(signed)),
        None => match number.as_u64() {
            Some(whole) => Ok(FieldValue::U64(whole)),
            None => Err(LineError::BadLine),
        },
    }
}

// The value of a field that a tree spells.
fn tree_value(alloc: Global, tree: Json) -> Result<FieldValue, LineError>
    ensures { Gives (λ v. v) result (value_spelled (view tree)) }
{
    match tree {
        Json::Bool(flag) => Ok(FieldValue::Bool(flag)),
        Json::Number(number) => number_value(&number),
        Json::String(text) => Ok(FieldValue::Str(Text::from(text))),
        Json::Object(members) => typed_value(alloc, Object::Tree(members)),
        Json::Null => Err(LineError::BadLine),
        Json::Array(_) => Err(LineError::BadLine),
    }
}

// The value of a field that a value spells.
fn field_value(alloc: Global, value: Value<'_>) -> Result<FieldValue, LineError>
    ensures { Gives (λ v. v) result (value_spelled (value_data value.entry)) }
{
    match value {
        Value::Plain(plain) => plain_value(alloc, plain),
        Value::Tree(tree) => tree_value(alloc, tree),
    }
}

/// The values of an array that has two.
#[tactic(auto, using(crate::proofs::texts::FieldsLemmas::only_two))]
pub(crate) fn two_of<'a>(values: Vec<Value<'a>>) -> Option<(Value<'a>, Value<'a>)>
    ensures some { IfSome result (λ two. values.entry.items ≡ two.0 ∷ two.1 ∷ []) }
    ensures none { result ≡ None → length values.entry.items ≢ 2 }
{
    let mut values = values;
    if values.len() != 2 {
        return None;
    }
    let second = values.pop()?;
    let first = values.pop()?;
    Some((first, second))
}

// The field that a pair of a name and a value spells.
#[tactic(auto, using(crate::proofs::texts::FieldsLemmas::no_pair))]
fn pair(alloc: Global, values: Vec<Value<'_>>) -> Result<(Text, FieldValue), LineError>
    ensures { Gives (λ f. f) result (pair_with value_spelled (items value_data values.entry.items)) }
{
    match two_of(values) {
        Some((name, value)) => {
            let name = name.into_text(alloc)?;
            let value = field_value(alloc, value)?;
            Ok((name, value))
        }
        None => Err(LineError::BadLine),
    }
}

// The field that a value spells.
fn field(alloc: Global, value: Value<'_>) -> Result<(Text, FieldValue), LineError>
    ensures { Gives (λ f. f) result (field_of (value_data value.entry)) }
{
    pair(alloc, value.into_array(alloc)?)
}

// The fields that the items of an array spell.
fn fields(alloc: Global, values: Vec<Value<'_>>) -> Result<Items<(Text, FieldValue)>, LineError>
    ensures { Gives (λ f. f) result (each field_of (items value_data values.entry.items)) }
{
    let mut fields = Items::new(alloc);
    for value in values {
        fields.push(field(alloc, value)?)?;
    }
    Ok(fields)
}

// The fields that a value spells, where they stand plainly.
#[tactic(auto, using(crate::proofs::texts::FieldsLemmas::nested_fields))]
fn quick_fields(alloc: Global, value: &Value<'_>) -> Option<Items<(Text, FieldValue)>>
    ensures { IfSome result (λ fields. fields_of (value_data value.now) ≡ Some fields) }
{
    match value {
        Value::Plain(Plain::Nested(text)) => plain_fields(alloc, text),
        _ => None,
    }
}

/// The fields that a value spells.
pub fn fields_of(alloc: Global, value: Value<'_>) -> Result<Items<(Text, FieldValue)>, LineError>
    ensures { Gives (λ f. f) result (fields_of (value_data value.entry)) }
{
    match quick_fields(alloc, &value) {
        Some(fields) => Ok(fields),
        None => fields(alloc, value.into_array(alloc)?),
    }
}

/// The fields that a JSON value spells, for readers of other lines. `BadLine` where it spells none, `Memory` freely.
pub fn read_fields(alloc: Global, value: &Json) -> Result<Items<(Text, FieldValue)>, LineError>
    ensures { Gives (λ f. f) result (fields_of (view value.now)) }
{
    let tree = value.clone()?;
    fields_of(alloc, Value::Tree(tree))
}
