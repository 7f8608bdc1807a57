//! A recorder: a tracer that numbers the spans it starts and keeps those that finish.
ghost use Rattle.std.specs.Prelude.{◌≡◌, [], ◌<◌, ◌↔◌, IsSome, length, drop, slice_get};
ghost use Rattle.otel_base.specs.Recorder.{RecorderValue, DoesRecorder};
ghost use Rattle.otel_base.specs.Counts.{recorder_counts};

use crate::context::{Context, SpanContext};
use crate::memory::Memory;
use crate::record::Record;
use crate::tracer::Tracer;
use std::alloc::Global;
use std::collections::VecDeque;
use std::marker::Model;

/// A tracer that keeps the finished spans until they are taken, in the order in which they finished. The k-th span
/// that it starts has the span id k.
#[derive(Drop)]
pub struct Recorder {
    started: u64,
    spare: usize,
    finished: VecDeque<Record>,
}

impl Model for Recorder {
    ghost use Rattle.std.specs.Prelude.{◌+◌, ◌≤◌};
    ghost use Rattle.std.specs.VecDeque.{deque_len, deque_capacity};
    ghost use Rattle.otel_base.specs.Recorder.{RecorderValue};

    ghost Value = { RecorderValue };

    ghost view = { λ r. record { started = r.started; spare = r.spare; finished = r.finished.items } };

    // Each spare is a free place of the queue.
    ghost invariant = { λ r. deque_len r.finished + r.spare ≤ deque_capacity r.finished };
}

impl Recorder {
    /// A recorder that has started nothing; it takes no memory yet.
    pub fn new(alloc: Global) -> Recorder
        ensures { result ≡ record { started = 0; spare = 0; finished = [] } }
    {
        Recorder {
            started: 0,
            spare: 0,
            finished: VecDeque::new(alloc),
        }
    }

    /// How many spans it has started.
    pub fn spans_started(&self) -> u64
        ensures { result ≡ self.now.started }
    {
        self.started
    }

    /// Takes out the oldest of the finished spans that it still has; none exactly where it has none.
    pub fn take(&mut self) -> Option<Record>
        ensures oldest { result ≡ slice_get self.old.finished 0 }
        ensures some { IsSome result ↔ (0 < length self.old.finished) }
        ensures others { self.new ≡ record self.old { finished = drop 1 self.old.finished } }
    {
        // The only one is taken from the back, so that the next comes to lie where it lay.
        if self.finished.len() == 1 {
            self.finished.pop_back()
        } else {
            self.finished.pop_front()
        }
    }
}

impl Tracer for Recorder {
    ghost spare = { λ r. r.spare };

    ghost started = { λ r. r.started };

    ghost does = { DoesRecorder };

    ghost counts = { recorder_counts };

    fn start(&mut self, parent: &Context) -> SpanContext {
        let parent = parent.span_context();
        self.started += 1;
        let id = self.started;
        let trace = if parent.is_valid() {
            parent.trace
        } else {
            u128::from(id)
        };
        SpanContext { trace, span: id }
    }

    fn reserve(&mut self) -> Result<(), Memory> {
        let spare = self.spare + 1;
        self.finished.reserve(spare)?;
        self.spare = spare;
        Ok(())
    }

    fn finish(&mut self, span: Record) {
        self.spare -= 1;
        self.finished.push_back_reserved(span);
    }
}
