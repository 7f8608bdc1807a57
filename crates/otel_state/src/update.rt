//! What fields write on a span.
use otel_base::list::Items;
use otel_base::record::SpanKind;
use otel_base::status::Status;
use otel_base::text::Text;
use otel_base::value::KeyValue;

/// What the fields of one call write on a span; `tracing_opentelemetry::layer::SpanBuilderUpdates`. `event_op` writes no
/// name and no kind.
#[derive(Clone, Drop)]
pub struct Update {
    /// The name, if they write one.
    pub name: Option<Text>,
    /// The kind, if they write one.
    pub kind: Option<SpanKind>,
    /// The status, if they write one.
    pub status: Option<Status>,
    /// The attributes that they add, in order.
    pub attributes: Items<KeyValue>,
}
