//! What workers do on shared spans.
use otel_base::list::Items;
use otel_base::record::Moment;
use otel_base::text::Text;
use otel_state::{LayerSettings, Op};
use trace_base::callsite::Callsite;
use trace_base::field::{Value, ValueSet};

/// A script for threads: the spans that workers share, and for each worker the list of its calls. Callsites, lanes,
/// spans and workers are named by their places, from 0.
#[derive(Drop)]
pub struct ThreadScript {
    /// The text of the filter for events, without patterns.
    pub filter: Text,
    /// The callsites of spans and events.
    pub callsites: Items<Callsite>,
    /// The lanes, each with its id and its name, if it has one: one for each worker, of which the first makes the spans too.
    pub lanes: Items<(u64, Option<Text>)>,
    /// What the OpenTelemetry layer tells.
    pub layer: LayerSettings,
    /// The shared spans.
    pub shared: Items<SharedLine>,
    /// The calls of each worker, in order.
    pub workers: Items<Items<WorkerOp>>,
}

/// A shared span.
#[derive(Clone, Copy, Drop)]
pub struct SharedLine {
    /// When it is made, in nanoseconds.
    pub at: Moment,
    /// Its callsite.
    pub site: u64,
}

/// A call of a worker.
#[derive(Drop)]
pub struct WorkerOp {
    /// When, in nanoseconds.
    pub at: Moment,
    /// On which shared span.
    pub span: u64,
    /// What it does.
    pub what: WorkerCall,
}

/// What a call of a worker does on a span.
#[derive(Drop)]
pub enum WorkerCall {
    /// Records those of some fields that the span's callsite declares; `tracing::Span::record_all`.
    Record { fields: Items<(Text, Value)> },
    /// Tells it an event of a callsite with the values of some fields, if the filter lets it through on a lane without
    /// levels; `tracing::Event::dispatch`.
    Event { site: u64, values: ValueSet },
    /// Applies an op.
    Own { op: Op },
}
