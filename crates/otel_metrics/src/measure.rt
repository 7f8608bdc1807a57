//! Measures of events.
ghost use Rattle.std.specs.Prelude.{◌≡◌, ◌++◌, ◌∷◌, [], IfOk, OnOk, map};
ghost use Rattle.otel_metrics.specs.Measures.{measures, measure_of, attributes, numbers};

use crate::family::is_metrics_event;
use crate::visitor::{Number, attributes, numbers};
use otel_base::list::Items;
use otel_base::memory::Memory;
use otel_base::text::Text;
use otel_base::value::KeyValue;
use std::alloc::Global;
use trace_base::callsite::Callsite;
use trace_base::field::ValueSet;

/// The instruments that take whole numbers; `tracing_opentelemetry::metrics::InstrumentType`, without floats.
#[derive(Clone, Copy, Debug, PartialEq, Eq)]
pub enum MetricKind {
    /// `InstrumentType::CounterU64`.
    CounterU64,
    /// `InstrumentType::UpDownCounterI64`.
    UpDownCounterI64,
    /// `InstrumentType::HistogramU64`.
    HistogramU64,
    /// `InstrumentType::GaugeU64`.
    GaugeU64,
    /// `InstrumentType::GaugeI64`.
    GaugeI64,
}

/// A number that an event tells an instrument; what `tracing_opentelemetry` hands to `Instruments::update_metric`.
#[derive(Clone, Drop)]
pub struct Measure {
    /// The kind of the instrument.
    pub kind: MetricKind,
    /// The name of the instrument: that of the field, without its family.
    pub name: Text,
    /// The number.
    pub value: i128,
    /// What else the event tells: each measure of it has all of that.
    pub attributes: Items<KeyValue>,
}

/// The measures of an event of a callsite with these values, in the order of the values; none where it isn't a metrics
/// event. It stands for what `MetricVisitor` makes of an event.
pub fn measures(
    alloc: Global,
    callsite: &Callsite,
    values: &ValueSet,
) -> Result<Vec<Measure>, Memory>
    ensures { IfOk result (λ told. told.items ≡ measures callsite.now values.now) }
{
    if !is_metrics_event(callsite) {
        return Ok(Vec::new(alloc));
    }
    let attributes = attributes(alloc, callsite, values)?;
    let numbers = numbers(alloc, callsite, values)?;
    of_numbers(alloc, numbers.as_slice(), attributes.as_slice())
}

// A measure for each number, with all attributes.
fn of_numbers(
    alloc: Global,
    numbers: &[Number],
    attributes: &[KeyValue],
) -> Result<Vec<Measure>, Memory>
    ensures { IfOk result (λ told. told.items ≡ map (measure_of attributes.now) numbers.now) }
{
    let mut told = Vec::new(alloc);
    for number in numbers {
        told.push(measure_of(alloc, number, attributes)?)?;
    }
    Ok(told)
}

fn measure_of(alloc: Global, number: &Number, attributes: &[KeyValue]) -> Result<Measure, Memory>
    ensures { IfOk result (λ m. m ≡ measure_of attributes.now number.now) }
{
    Ok(Measure {
        kind: number.kind,
        name: number.name.clone()?,
        value: number.value,
        attributes: copy_of(alloc, attributes)?,
    })
}

fn copy_of(alloc: Global, attributes: &[KeyValue]) -> Result<Items<KeyValue>, Memory>
    ensures { IfOk result (λ copy. copy ≡ attributes.now) }
{
    let mut copy = Items::new(alloc);
    for attribute in attributes {
        copy.push(copy_of_one(attribute)?)?;
    }
    Ok(copy)
}

fn copy_of_one(attribute: &KeyValue) -> Result<KeyValue, Memory>
    ensures { IfOk result (λ copy. copy ≡ attribute.now) }
{
    Ok(attribute.clone()?)
}
