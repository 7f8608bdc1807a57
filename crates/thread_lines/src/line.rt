//! What a line of a script for threads says, before it is tested.
use otel_base::list::Items;
use otel_base::record::Moment;
use otel_base::text::Text;
use otel_state::Op;
use trace_base::field::Value;

/// A line of a script for threads, behind its settings line.
#[derive(Drop)]
pub enum ThreadLine {
    /// A span that the workers share.
    Shared {
        /// When it is made, in nanoseconds.
        at: Moment,
        /// Its callsite, by its place.
        site: u64,
    },
    /// The calls of a worker, in order.
    Worker {
        ops: Items<ThreadOp>,
    },
}

/// A call of a worker.
#[derive(Drop)]
pub struct ThreadOp {
    /// When, in nanoseconds.
    pub at: Moment,
    /// On which shared span, by its place.
    pub span: u64,
    /// What it does.
    pub call: ThreadCall,
}

/// What a call of a worker does.
#[derive(Drop)]
pub enum ThreadCall {
    /// Records the values of some fields; `tracing::Span::record_all`.
    Record {
        fields: Items<(Text, Value)>,
    },
    /// Tells an event of a callsite, with the values of some fields; `tracing::Event::dispatch`.
    Event {
        site: u64,
        fields: Items<(Text, Value)>,
    },
    /// Applies an op.
    Own {
        op: Op,
    },
}
