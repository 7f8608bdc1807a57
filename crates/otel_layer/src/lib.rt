//! The OpenTelemetry layer: what becomes of spans and events that a stack of layers is told of, up to the records
//! that a tracer gets. Everything turns on `OpenTelemetryLayer`: each hook applies ops to the state of a span.
#![tactic(auto)]

pub mod counting;
pub mod laws;
pub mod layer;
pub mod part;
pub mod ready;
pub mod recording;
pub mod span_ext;
mod starts;
mod table;

pub use counting::FilteredOpenTelemetryLayer;
pub use layer::OpenTelemetryLayer;
pub use part::{OtelPart, WithoutOtel};
pub use span_ext::{OpenTelemetrySpanExt, get_otel_context};
