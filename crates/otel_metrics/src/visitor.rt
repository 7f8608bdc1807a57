//! The numbers and attributes that the values of an event are.
ghost use Rattle.std.specs.Prelude.{◌≡◌, ◌++◌, IfOk, OnOk, slice_get, option_map};
ghost use Rattle.std.specs.Option.{option_copied};
ghost use Rattle.otel_metrics.specs.Families.{family_of};
ghost use Rattle.otel_metrics.specs.Measures.{value_as_number, natural_as_number, signed_as_number, number_of, numbers_at, value_as_attribute, natural_as_attribute, signed_as_attribute, attribute_in, attribute_of, attributes_at, numbers, attributes};

use crate::family::{Family, family_alone, family_of};
use crate::measure::MetricKind;
use otel_base::list::Items;
use otel_base::memory::Memory;
use otel_base::text::Text;
use otel_base::value::{KeyValue, OtelValue};
use std::alloc::Global;
use trace_base::callsite::Callsite;
use trace_base::field::{Value, ValueSet};

// A number under a name, for an instrument of a kind.
#[derive(Drop)]
pub(crate) struct Number {
    pub kind: MetricKind,
    pub name: Text,
    pub value: i128,
}

// The numbers of an event for instruments, in the order of its values.
pub(crate) fn numbers(
    alloc: Global,
    callsite: &Callsite,
    values: &ValueSet,
) -> Result<Items<Number>, Memory>
    ensures { IfOk result (λ found. found ≡ numbers callsite.now values.now) }
{
    let mut found = Items::new(alloc);
    let pairs = values.pairs.as_slice();
    for pair in pairs {
        add_number(alloc, &mut found, callsite, pair)?;
    }
    Ok(found)
}

fn add_number(
    alloc: Global,
    found: &mut Items<Number>,
    callsite: &Callsite,
    pair: &(usize, Value),
) -> Result<(), Memory>
    ensures { OnOk result (found.new ≡ found.old ++ numbers_at callsite.now pair.now) }
{
    let Some(name) = field_name(callsite, pair.0) else {
        return Ok(());
    };
    if let Some(number) = number_of(alloc, family_of(name.as_str()), &pair.1)? {
        found.push(number)?;
    }
    Ok(())
}

// The name of the field at a place, if there is one.
fn field_name(callsite: &Callsite, place: usize) -> Option<&Text>
    ensures { option_copied result ≡ slice_get callsite.now.fields place }
{
    callsite.fields.as_slice().get(place)
}

// The number of a field of a family, where an instrument of it takes the value.
fn number_of(
    alloc: Global,
    family: Option<(Family, &str)>,
    value: &Value,
) -> Result<Option<Number>, Memory>
    ensures { IfOk result (λ n. n ≡ number_of (option_map (λ f. (f.0, f.1.now)) family.entry) value.now) }
{
    let Some((family, rest)) = family else {
        return Ok(None);
    };
    let Some((kind, value)) = value_as_number(family, value) else {
        return Ok(None);
    };
    let name = Text::from_str(alloc, rest)?;
    Ok(Some(Number { kind, name, value }))
}

fn value_as_number(family: Family, value: &Value) -> Option<(MetricKind, i128)>
    ensures { result ≡ value_as_number family value.now }
{
    match value {
        Value::U64(number) => natural_as_number(family, *number),
        Value::I64(number) => signed_as_number(family, *number),
        _ => None,
    }
}

fn natural_as_number(family: Family, number: u64) -> Option<(MetricKind, i128)>
    ensures { result ≡ natural_as_number family number }
{
    let value = i128::from(number);
    match family {
        Family::Gauge => Some((MetricKind::GaugeU64, value)),
        Family::MonotonicCounter => Some((MetricKind::CounterU64, value)),
        Family::Counter if number < 1 << 63 => Some((MetricKind::UpDownCounterI64, value)),
        Family::Counter => None,
        Family::Histogram => Some((MetricKind::HistogramU64, value)),
    }
}

fn signed_as_number(family: Family, number: i64) -> Option<(MetricKind, i128)>
    ensures { result ≡ signed_as_number family number }
{
    let value = i128::from(number);
    match family {
        Family::Gauge => Some((MetricKind::GaugeI64, value)),
        Family::MonotonicCounter if number >= 0 => Some((MetricKind::CounterU64, value)),
        Family::MonotonicCounter => None,
        Family::Counter => Some((MetricKind::UpDownCounterI64, value)),
        Family::Histogram => None,
    }
}

// The attributes of an event, in the order of its values.
pub(crate) fn attributes(
    alloc: Global,
    callsite: &Callsite,
    values: &ValueSet,
) -> Result<Items<KeyValue>, Memory>
    ensures { IfOk result (λ found. found ≡ attributes callsite.now values.now) }
{
    let mut found = Items::new(alloc);
    let pairs = values.pairs.as_slice();
    for pair in pairs {
        add_attribute(alloc, &mut found, callsite, pair)?;
    }
    Ok(found)
}

fn add_attribute(
    alloc: Global,
    found: &mut Items<KeyValue>,
    callsite: &Callsite,
    pair: &(usize, Value),
) -> Result<(), Memory>
    ensures { OnOk result (found.new ≡ found.old ++ attributes_at callsite.now pair.now) }
{
    let Some(name) = field_name(callsite, pair.0) else {
        return Ok(());
    };
    if let Some(pair) = attribute_of(alloc, name, &pair.1)? {
        found.push(pair)?;
    }
    Ok(())
}

fn attribute_of(alloc: Global, name: &Text, value: &Value) -> Result<Option<KeyValue>, Memory>
    ensures { IfOk result (λ attribute. attribute ≡ attribute_of name.now value.now) }
{
    attribute_in(alloc, family_alone(name.as_str()), name, value)
}

fn attribute_in(
    alloc: Global,
    family: Option<Family>,
    name: &Text,
    value: &Value,
) -> Result<Option<KeyValue>, Memory>
    ensures { IfOk result (λ attribute. attribute ≡ attribute_in family name.now value.now) }
{
    let Some(value) = value_as_attribute(alloc, family, value)? else {
        return Ok(None);
    };
    let key = name.clone()?;
    Ok(Some(KeyValue { key, value }))
}

fn value_as_attribute(
    alloc: Global,
    family: Option<Family>,
    value: &Value,
) -> Result<Option<OtelValue>, Memory>
    ensures { IfOk result (λ v. v ≡ value_as_attribute family value.now) }
{
    Ok(match value {
        Value::U64(number) => natural_as_attribute(family, *number),
        Value::I64(number) => signed_as_attribute(family, *number),
        Value::Bool(truth) => Some(OtelValue::Bool(*truth)),
        Value::Str(text) | Value::Debug(text) => Some(OtelValue::Str(text.clone()?)),
        Value::I128(number) => { Some(OtelValue::Str(Text::from(format!(in alloc; "{number}")?))) }
        Value::U128(number) => { Some(OtelValue::Str(Text::from(format!(in alloc; "{number}")?))) }
        Value::Error { message, .. } => Some(OtelValue::Str(message.clone()?)),
    })
}

fn natural_as_attribute(family: Option<Family>, number: u64) -> Option<OtelValue>
    ensures { result ≡ natural_as_attribute family number }
{
    match family {
        None if number < 1 << 63 => Some(OtelValue::I64(number as i64)),
        _ => None,
    }
}

fn signed_as_attribute(family: Option<Family>, number: i64) -> Option<OtelValue>
    ensures { result ≡ signed_as_attribute family number }
{
    match family {
        None | Some(Family::Histogram) => Some(OtelValue::I64(number)),
        Some(_) => None,
    }
}
