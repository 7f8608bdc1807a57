//! What stacks of layers are made of; the names of `tracing_subscriber::layer`.
ghost use Rattle.std.specs.Prelude.{◌≡◌};
ghost use Rattle.span_registry.specs.Registering.{no_spans};

pub use crate::layered::Layered;
use crate::registry::Registry;
use std::alloc::Global;
pub use trace_base::filter::Filter;
pub use trace_base::layer::Layer;

/// A registry without spans, which a stack of layers begins with; `tracing_subscriber::registry`. A module can't have
/// it beside `Registry`, since the names differ in case alone.
pub fn registry(alloc: Global) -> Registry
    ensures { result ≡ record { spans = no_spans; slots = 0 } }
{
    Registry::new(alloc)
}
