//! What handles ask of the layer.
ghost use Rattle.std.specs.Prelude.{◌≡◌, [], Ok, true, false};
ghost use Rattle.otel_base.specs.Ids.{is_valid};
ghost use Rattle.otel_state.specs.declared.op.Op.TheVariants as ops;
ghost use Rattle.otel_layer.specs.Asking.{AppliesOn, AsksDone, AsksParent, link_op};
ghost use Rattle.traced.specs.Standing.{CanAsk};
ghost use Rattle.traced.specs.Staying.{IsUnchanged};

use otel_base::context::{Context, SpanContext};
use otel_base::memory::Memory;
use otel_base::status::Status;
use otel_base::text::Text;
use otel_base::value::OtelValue;
use otel_layer::part::OtelSubscriber;
use otel_layer::span_ext::OpenTelemetrySpanExt;
use otel_state::op::SetParentError;
use span_handles::span::Span;
use trace_base::world::World;

/// Sets the parent of a span that hasn't started, with the answers of `OpenTelemetrySpanExt::set_parent`.
pub fn set_parent<S: OtelSubscriber>(
    span: &Span,
    world: &mut World<S>,
    at: u64,
    cx: Context,
) -> Result<(), SetParentError>
    requires { CanAsk world.old span.now }
    ensures asks { AsksParent S.touches world.old world.new at cx span.now.held result }
    ensures stays { IsUnchanged S.Subscriber world.old world.new }
{
    span.set_parent(world, at, cx)
}

/// Links a span to another, as `OpenTelemetrySpanExt::add_link` does; an invalid context is ignored.
pub fn add_link<S: OtelSubscriber>(
    span: &Span,
    world: &mut World<S>,
    at: u64,
    cx: SpanContext,
) -> Result<(), Memory>
    requires { CanAsk world.old span.now }
    ensures valid { is_valid cx ≡ true
        → AsksDone S.touches world.old world.new at (link_op cx []) span.now.held result }
    ensures invalid { is_valid cx ≡ false → (result ≡ Ok tt) × (world.new ≡ world.old) }
    ensures stays { IsUnchanged S.Subscriber world.old world.new }
{
    span.add_link(world, at, cx)
}

/// Adds an attribute to a span, as `OpenTelemetrySpanExt::set_attribute` does.
pub fn set_attribute<S: OtelSubscriber>(
    span: &Span,
    world: &mut World<S>,
    at: u64,
    key: Text,
    value: OtelValue,
) -> Result<(), Memory>
    requires { CanAsk world.old span.now }
    ensures asks { AsksDone S.touches world.old world.new at (ops.SetAttribute (record { key = key; value = value }))
        span.now.held result }
    ensures stays { IsUnchanged S.Subscriber world.old world.new }
{
    span.set_attribute(world, at, key, value)
}

/// Writes a status on a span, as `OpenTelemetrySpanExt::set_status` does.
pub fn set_status<S: OtelSubscriber>(span: &Span, world: &mut World<S>, at: u64, status: Status)
    requires { CanAsk world.old span.now }
    ensures asks { (answer : _)
        × AppliesOn S.touches world.old world.new at (ops.SetStatus status) span.now.held answer }
    ensures stays { IsUnchanged S.Subscriber world.old world.new }
{
    span.set_status(world, at, status);
}
