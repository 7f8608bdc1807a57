//! Finished spans, as exporters get them.
use crate::context::SpanContext;
use crate::list::Items;
use crate::status::Status;
use crate::text::Text;
use crate::value::KeyValue;

/// A moment, in nanoseconds since a fixed beginning; at most 2^63 - 1. It stands for `std::time::SystemTime`.
pub type Moment = u64;

/// The part that a span plays in a call; `opentelemetry::trace::SpanKind`.
#[derive(Clone, Copy, PartialEq, Eq)]
pub enum SpanKind {
    /// It serves a call from outside.
    Server,
    /// It makes a call to outside.
    Client,
    /// It hands out work that is done later.
    Producer,
    /// It does such work.
    Consumer,
    /// It stays inside.
    Internal,
}

/// Something that happened within a span; `opentelemetry::trace::Event`.
#[derive(Clone, Drop)]
pub struct OtelEvent {
    /// Its message, or the name of its callsite where it has none.
    pub name: Text,
    /// When it happened, in nanoseconds.
    pub time: u64,
    /// What is told of it, in order.
    pub attributes: Items<KeyValue>,
}

/// A link to another span; `opentelemetry::trace::Link`.
#[derive(Clone, Drop)]
pub struct Link {
    /// The ids of the other span.
    pub context: SpanContext,
    /// What is told of the link, in order.
    pub attributes: Items<KeyValue>,
}

/// A span before it has ids: a `Record` without them, whose part may not be told yet;
/// `opentelemetry::trace::SpanBuilder`.
#[derive(Clone, Drop)]
pub struct SpanBuilder {
    /// The name of its callsite, or that which it was given.
    pub name: Text,
    /// The part that it plays, if that was told.
    pub kind: Option<SpanKind>,
    /// When it was made, in nanoseconds.
    pub start: Moment,
    /// When it was exited last, or when it closed if it was never entered, in nanoseconds.
    pub end: Moment,
    /// What is told of it, in order.
    pub attributes: Items<KeyValue>,
    /// The events that were told to it, in order.
    pub events: Items<OtelEvent>,
    /// Its links to other spans, in order.
    pub links: Items<Link>,
    /// How it goes.
    pub status: Status,
}

/// A finished span; `opentelemetry_sdk::trace::SpanData`.
#[derive(Clone, Drop)]
pub struct Record {
    /// The name of its callsite, or that which it was given.
    pub name: Text,
    /// The part that it played.
    pub kind: SpanKind,
    /// Its ids.
    pub context: SpanContext,
    /// The id of its parent, 0 for a root.
    pub parent: u64,
    /// When it was made, in nanoseconds.
    pub start: Moment,
    /// When it was exited last, or when it closed if it was never entered, in nanoseconds.
    pub end: Moment,
    /// What is told of it, in order.
    pub attributes: Items<KeyValue>,
    /// The events that were told to it, in order.
    pub events: Items<OtelEvent>,
    /// Its links to other spans, in order.
    pub links: Items<Link>,
    /// How it went.
    pub status: Status,
}
