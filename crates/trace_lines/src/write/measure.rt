//! Measures as JSON.
ghost use Rattle.std.specs.Prelude.{◌≡◌};
ghost use Rattle.serde_json.specs.Written.{compact_text};
ghost use Rattle.trace_lines.specs.values.MeasureData.{instrument_name, measure_data};
ghost use Rattle.trace_lines.specs.text.Writes.{Writes};

use super::array::add_array;
use super::pieces::{add, add_long_integer, add_number, add_text};
use super::text_buffer::TextBuffer;
use otel_metrics::measure::{Measure, MetricKind};
use std::alloc::AllocError;

/// Adds a measure of the event on a line.
pub fn add_measure(out: &mut TextBuffer, line: u64, measure: &Measure) -> Result<(), AllocError>
    ensures { Writes result out.old out.new (compact_text (measure_data line measure.now)) }
{
    add_array(out, "{\"attributes\":", measure.attributes.as_slice())?;
    add_text(out, ",\"instrument\":", name_of(measure.kind))?;
    add_number(out, ",\"line\":", line)?;
    add_text(out, ",\"name\":", measure.name.as_str())?;
    add_long_integer(out, ",\"value\":", measure.value)?;
    add(out, "}")?;
    Ok(())
}

fn name_of(kind: MetricKind) -> &'static str
    ensures { result.now ≡ instrument_name kind }
{
    match kind {
        MetricKind::CounterU64 => "counter_u64",
        MetricKind::UpDownCounterI64 => "up_down_counter_i64",
        MetricKind::HistogramU64 => "histogram_u64",
        MetricKind::GaugeU64 => "gauge_u64",
        MetricKind::GaugeI64 => "gauge_i64",
    }
}
