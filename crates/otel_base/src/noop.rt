//! A tracer that keeps nothing.
ghost use Rattle.std.specs.Prelude.{◌≡◌};
ghost use Rattle.otel_base.specs.Noop.{DoesNoop};
ghost use Rattle.otel_base.specs.Counts.{noop_counts};

use crate::context::{Context, SpanContext};
use crate::memory::Memory;
use crate::record::Record;
use crate::tracer::Tracer;
use std::marker::Model;

/// A tracer that keeps nothing but the number of its spares; `opentelemetry::trace::noop::NoopTracer`.
#[derive(Drop)]
pub struct NoopTracer {
    spare: u64,
}

impl Model for NoopTracer {
    ghost use Rattle.std.specs.Prelude.{ℕ};

    ghost Value = { ℕ };

    ghost view = { λ t. t.spare };
}

impl NoopTracer {
    /// A tracer without spares.
    pub fn new() -> NoopTracer
        ensures { result ≡ 0 }
    {
        NoopTracer { spare: 0 }
    }
}

impl Tracer for NoopTracer {
    ghost spare = { λ t. t };

    ghost started = { λ _. 0 };

    ghost does = { DoesNoop };

    ghost counts = { noop_counts };

    fn start(&mut self, parent: &Context) -> SpanContext {
        parent.span_context()
    }

    fn reserve(&mut self) -> Result<(), Memory> {
        self.spare = self.spare.checked_add(1).ok_or(Memory)?;
        Ok(())
    }

    fn finish(&mut self, _span: Record) {
        self.spare -= 1;
    }
}
