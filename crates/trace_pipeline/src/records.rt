//! What a pipeline gives besides its answers: records, measures, and how many spans are open.
ghost use Rattle.std.specs.Prelude.{◌≡◌, ◌≤◌, [], ◌∷◌, count_by, nat_lt, MatchOption};
ghost use Rattle.std.specs.List.{range_with_len};
ghost use Rattle.trace_base.specs.Spans.{span_at};

use crate::pipeline::Pipeline;
use otel_base::record::Record;
use otel_metrics::measure::Measure;
use span_registry::registry::Registry;
use span_stack::{laws, stack};
use trace_base::span::Id;

// How many of the spans with the first ids have a hold.
fn count_open(registry: &Registry, ids: u64) -> u64
    requires { ids ≤ 9223372036854775808 }
    ensures { result ≡ count_by (λ id. nat_lt 0 (span_at registry.now.spans.made id).holds) (range_with_len 0 ids) }
{
    let mut open = 0;
    for id in 0..ids {
        if registry.holds(Id::at(id)) > 0 {
            open += 1;
        }
    }
    open
}

impl Pipeline {
    ghost use Rattle.span_script.specs.Tables.{Tables};
    ghost use Rattle.span_script.specs.calls.Spans.{open_spans};
    ghost use Rattle.span_script.specs.Fits.{StandsFor, without_oldest_record, without_oldest_measure};

    /// The oldest record that hasn't been taken, if there is one: what an `opentelemetry_sdk::trace::SpanExporter`
    /// would get next.
    pub fn take_record(&mut self) -> Option<Record>
        ensures oldest { MatchOption result (self.old.recording.finished ≡ [])
            (λ record'. self.old.recording.finished ≡ record' ∷ self.new.recording.finished) }
        ensures rest { self.new ≡ without_oldest_record self.old }
    {
        laws::takes_record();
        stack::take_record(&mut self.world, self.dispatch)
    }

    /// The oldest measure that hasn't been taken, if there is one: what the instruments of a
    /// `tracing_opentelemetry::MetricsLayer` would be told next.
    pub fn take_measure(&mut self) -> Option<Measure>
        ensures oldest { MatchOption result (self.old.measures ≡ [])
            (λ measure. self.old.measures ≡ measure ∷ self.new.measures) }
        ensures rest { self.new ≡ without_oldest_measure self.old }
    {
        laws::takes_measure();
        stack::take_measure(&mut self.world, self.dispatch)
    }

    /// How many spans are open.
    pub fn open_spans(&self) -> u64
        ensures { (t : Tables) → StandsFor self.now t → result ≡ open_spans t }
    {
        count_open(
            stack::registry(&self.world, self.dispatch),
            self.handles.len() as u64,
        )
    }
}
