//! Stacks of layers over a registry.
ghost use Rattle.std.specs.Prelude.{◌≡◌};

pub mod tally;

use crate::stack::tally::Tally;
use env_directives::targets::Targets;
use env_filter::filter::EnvFilter;
use env_filter::reload;
use otel_base::memory::Memory;
use otel_base::tracer::Tracer;
use otel_layer::counting::FilteredOpenTelemetryLayer;
use otel_layer::layer::OpenTelemetryLayer;
use otel_layer::part::{OtelSubscriber, WithoutOtel};
use span_registry::layered::Layered;
use span_registry::registry::Registry;
use std::alloc::Global;
use trace_base::discard::Discard;
use trace_base::filter::Filter;
use trace_base::layer::Layer;

/// A stack over a registry, which may have an OpenTelemetry layer over a tally.
pub trait Stack: OtelSubscriber + Discard {
    /// The registry at its bottom.
    fn registry(&self) -> &Registry
        ensures { result.now.spans ≡ Self.Subscriber.spans self.now };

    /// Tells what its tally tells, if it has one.
    fn tell(&mut self, alloc: Global, told: &mut String) -> Result<(), Memory>;
}

impl Stack for Registry {
    fn registry(&self) -> &Registry {
        self
    }

    fn tell(&mut self, _alloc: Global, _told: &mut String) -> Result<(), Memory> {
        Ok(())
    }
}

/// A tracer that tells what it keeps.
pub trait ReportingTracer: Tracer {
    /// Takes out the finished spans that it still has and tells each, and tells its counts where they are told.
    fn tell(&mut self, alloc: Global, told: &mut String) -> Result<(), Memory>;
}

impl<T: ReportingTracer + Drop> Stack for Layered<OpenTelemetryLayer<T>, Registry> {
    fn registry(&self) -> &Registry {
        self.inner()
    }

    fn tell(&mut self, alloc: Global, told: &mut String) -> Result<(), Memory> {
        self.layer_mut().tracer_mut().tell(alloc, told)
    }
}

impl<F: Filter + Drop> Stack for Layered<FilteredOpenTelemetryLayer<Tally, F>, Registry> {
    fn registry(&self) -> &Registry {
        self.inner()
    }

    fn tell(&mut self, alloc: Global, told: &mut String) -> Result<(), Memory> {
        self.layer_mut().tracer_mut().tell(alloc, told)
    }
}

/// A layer that judges what is told to the stack below it.
pub trait Judge: Layer + WithoutOtel + Discard {}

impl Judge for EnvFilter {}

impl Judge for Targets {}

impl Judge for reload::Layer<Targets> {}

impl<J: Judge, S: Stack> Stack for Layered<J, S> {
    fn registry(&self) -> &Registry {
        self.inner().registry()
    }

    fn tell(&mut self, alloc: Global, told: &mut String) -> Result<(), Memory> {
        self.inner_mut().tell(alloc, told)
    }
}
