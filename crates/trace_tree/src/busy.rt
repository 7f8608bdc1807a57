//! Busy times, as attributes tell them.
ghost use Rattle.std.specs.Prelude.{◌≡◌, cond};
ghost use Rattle.trace_tree.specs.Busy.{busy_attribute_of, nanoseconds_of, is_busy_attribute};

use otel_base::record::Record;
use otel_base::value::{KeyValue, OtelValue};

// A whole number that isn't negative as it is, and anything else as 0.
fn nanoseconds(value: &OtelValue) -> u64
    ensures { result ≡ nanoseconds_of value.now }
{
    match value {
        OtelValue::I64(number) => u64::try_from(*number).unwrap_or(0),
        _ => 0,
    }
}

// The busy time after one attribute more.
fn busy_behind(pair: &KeyValue, before: u64) -> u64
    ensures { result ≡ cond (is_busy_attribute pair.now) (nanoseconds_of pair.now.value) before }
{
    if pair.key.as_str() == "busy_ns" {
        nanoseconds(&pair.value)
    } else {
        before
    }
}

/// The busy time of a record, in nanoseconds: the value of its last attribute named `busy_ns`, where that is a whole
/// number that isn't negative, and else 0. `tracing_opentelemetry` writes that attribute where it tracks inactivity.
#[tactic(auto, using(crate::proofs::Latest::latest_more))]
pub fn busy(finished: &Record) -> u64
    ensures { result ≡ busy_attribute_of finished.now }
{
    let mut busy = 0;
    let attributes = finished.attributes.as_slice();
    for pair in attributes {
        busy = busy_behind(pair, busy);
    }
    busy
}
