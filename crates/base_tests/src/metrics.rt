//! The places of instruments, and what a filter of metrics takes. What measures events tell is shown by runs of the program.
use crate::worlds::callsites::callsite;
use otel_base::list::Items;
use otel_base::memory::Memory;
use otel_metrics::filter::MetricsFilter;
use otel_metrics::instruments::Instruments;
use otel_metrics::measure::{Measure, measures};
use std::alloc::Global;
use std::test::Fail;
use trace_base::callsite::{Callsite, Kind};
use trace_base::field::{Value, ValueSet};
use trace_base::filter::Filter;

const NAMES: [&str; 5] = [
    "counter.hits",
    "monotonic_counter.n",
    "histogram.h",
    "gauge.g",
    "user",
];

// A callsite of events with fields of these names.
fn event(alloc: Global, names: &[&str]) -> Result<Callsite, Memory> {
    Ok(Callsite {
        kind: Kind::Event,
        ..callsite(alloc, names)?
    })
}

// Numbers at the places of those, with whether they are of the type without sign, and one that is at no field.
const NUMBERS: [(usize, bool, i64); 8] = [
    (0, false, -2),
    (1, false, 4),
    (1, true, 7),
    (2, true, 5),
    (3, false, -7),
    (3, true, 8),
    (4, true, 9),
    (5, true, 11),
];

fn values(alloc: Global) -> Result<ValueSet, Memory> {
    let mut pairs = Items::new(alloc);
    for (place, is_unsigned, number) in NUMBERS {
        let value = if is_unsigned {
            Value::U64(number.unsigned_abs())
        } else {
            Value::I64(number)
        };
        pairs.push((place, value))?;
    }
    Ok(ValueSet { pairs })
}

// The measures that an event with these values tells.
fn event_measures(alloc: Global) -> Result<Vec<Measure>, Memory> {
    let callsite = event(alloc, NAMES.as_slice())?;
    let values = values(alloc)?;
    measures(alloc, &callsite, &values)
}

// The place of the instrument of each.
fn places_text(
    alloc: Global,
    instruments: &mut Instruments,
    told: &[Measure],
) -> Result<String, Fail> {
    let mut places = String::new(alloc);
    for measure in told {
        let place = instruments.update_metric(measure)?;
        places.push_str(format!(in alloc; "{place} ")?.as_str())?;
    }
    Ok(places)
}

// Whether a filter takes events with such fields.
fn takes(alloc: Global, names: &[&str]) -> Result<bool, Memory> {
    Ok(MetricsFilter {}.enabled(1, &event(alloc, names)?))
}

#[test]
fn keeps_an_instrument_for_each_kind_and_name(rt: HostRuntime) -> Result<(), Fail> {
    let told = event_measures(rt.alloc())?;
    let mut instruments = Instruments::new(rt.alloc());
    for _ in 0..2 {
        let places = places_text(rt.alloc(), &mut instruments, told.as_slice())?;
        assert_eq!(rt; places.as_str(), "0 1 1 2 3 4 ");
    }
    Ok(())
}

#[test]
fn takes_events_of_metrics(rt: HostRuntime) {
    assert_eq!(rt; takes(rt.alloc(), &["user", "gauge.g"]), Ok(true));
    assert_eq!(rt; takes(rt.alloc(), &["user", "gauge"]), Ok(false));
}
