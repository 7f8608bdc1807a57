//! Scripts of tasks.
use otel_base::list::Items;
use otel_base::text::Text;
use otel_base::value::OtelValue;
use span_script::settings::Settings;
use trace_base::field::Value;

/// One step of a task. Callsites are named by their places.
#[derive(Drop)]
pub enum Step {
    /// Tells a contextual event of a callsite, with the values of some fields; `tracing::Event::dispatch`.
    Event {
        site: u64,
        fields: Items<(Text, Value)>,
    },
    /// Records the values of some fields on the lane's current span; `tracing::Span::record_all`.
    Record {
        fields: Items<(Text, Value)>,
    },
    /// Sets an attribute of the lane's current span; `tracing_opentelemetry::OpenTelemetrySpanExt::set_attribute`.
    SetAttribute {
        key: Text,
        value: OtelValue,
    },
    /// Ends this poll as pending; `std::task::Poll::Pending`.
    Yield,
}

/// A task: the callsite of its span, the values of some of the span's fields, and its steps in order.
#[derive(Drop)]
pub struct Task {
    /// The callsite of its span.
    pub site: u64,
    /// The values of some fields of its span.
    pub fields: Items<(Text, Value)>,
    /// What it does.
    pub steps: Items<Step>,
}

/// The settings of a script, and its tasks in order.
#[derive(Drop)]
pub struct TaskScript {
    /// The settings.
    pub settings: Settings,
    /// The tasks, in the order in which they are begun.
    pub tasks: Items<Task>,
}
