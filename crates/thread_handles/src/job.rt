//! What a thread works on.
use otel_base::record::Moment;
use std::collections::VecDeque;
use thread_script::WorkerOp;
use trace_threads::handle::{Handle, Released};

/// What a thread works on: a worker's calls, its gate, and a handle of each shared span. It can't be dropped while it has
/// handles.
pub struct Job<G> {
    /// Its calls, from the next on.
    pub ops: VecDeque<WorkerOp>,
    /// The moment of the last, if there is one.
    pub last: Option<Moment>,
    /// Its gate.
    pub gate: G,
    /// Its handles, in the order of the spans.
    pub handles: Vec<Handle>,
    /// What they leave.
    pub left: Vec<Released>,
    /// Whether it found memory for all its calls.
    pub is_done: bool,
}
