//! What is done to a span after its making.
use crate::update::Update;
use otel_base::context::{Context, SpanContext};
use otel_base::record::{Link, OtelEvent};
use otel_base::status::Status;
use otel_base::value::KeyValue;
use thiserror::Error;

/// One thing that is done to a span. Calls of the subscriber's hooks and of `OpenTelemetrySpanExt` come to a span's
/// state as these.
#[derive(Clone, Drop)]
pub enum Op {
    /// Fields are recorded on it.
    Update {
        update: Update,
    },
    /// An event is told to it, with what that writes on the span itself.
    Event {
        /// Whether the event is of level ERROR, which is an error of the span.
        is_error: bool,
        /// What the event's fields write on the span, after the error.
        update: Update,
        /// The event.
        event: OtelEvent,
    },
    /// An event is counted.
    Counted,
    /// An event is added to it as it stands.
    AddEvent {
        event: OtelEvent,
    },
    /// A link is added to it.
    Link {
        link: Link,
    },
    /// An attribute is added to it.
    SetAttribute {
        pair: KeyValue,
    },
    /// A status is written on it, which never lowers the one that it has.
    SetStatus {
        status: Status,
    },
    /// The context of its parent is set, unless it has started.
    SetParent {
        context: Context,
    },
    /// It starts and gets its ids. A second start changes nothing.
    Start {
        own: SpanContext,
    },
    /// An entry of it is opened.
    Enter,
    /// An entry of it is closed.
    Exit,
}

/// What an op answers.
#[derive(Clone, Copy, Debug, PartialEq, Eq)]
pub enum OpReply {
    /// It is done.
    Done,
    /// Whether the parent was set.
    Parent(Result<(), SetParentError>),
}

/// Why a parent isn't set; `tracing_opentelemetry::SetParentError`.
#[derive(Clone, Copy, Debug, PartialEq, Eq, Error)]
pub enum SetParentError {
    /// The subscribers show no OpenTelemetry layer.
    #[error("OpenTelemetry layer not found")]
    LayerNotFound,
    /// The span has started.
    #[error("Span has already been started, cannot set parent")]
    AlreadyStarted,
    /// The handle has no span.
    #[error("Span disabled")]
    SpanDisabled,
}
