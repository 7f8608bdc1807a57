//! What handles of spans ask of the OpenTelemetry layer.
ghost use Rattle.std.specs.Prelude.{◌≡◌, ◌<◌, ℕ, true, false, [], length, Option, Some, None, Ok, option_map};
ghost use Rattle.otel_base.specs.Ids.{is_valid};
ghost use Rattle.otel_state.specs.declared.op.Op.TheVariants as ops;
ghost use Rattle.span_handles.specs.Worlds.{Has, Replaced};
ghost use Rattle.span_handles.specs.Handles.{HeldSpan, HasOn};
ghost use Rattle.span_handles.specs.Entries.{IsThere};
ghost use Rattle.otel_layer.specs.Parts.{Applies, GivesContext, IsOutside};
ghost use Rattle.otel_layer.specs.Asking.{AppliesOn, AsksDone, AsksParent, GivesContextOn, AsksContext};
ghost use Rattle.otel_layer.specs.Asking.{link_op, add_event_op, done_answer, parent_answer};

use crate::part::OtelPart;
use otel_base::context::{Context, SpanContext};
use otel_base::list::Items;
use otel_base::memory::Memory;
use otel_base::record::{Link, OtelEvent};
use otel_base::status::Status;
use otel_base::text::Text;
use otel_base::value::{KeyValue, OtelValue};
use otel_state::op::{Op, OpReply, SetParentError};
use span_handles::span::Span;
use trace_base::dispatcher::Dispatch;
use trace_base::span::Id;
use trace_base::subscriber::Subscriber;
use trace_base::world::World;

/// What can be asked of the OpenTelemetry layer by a handle; `tracing_opentelemetry::OpenTelemetrySpanExt`. A call on a
/// disabled handle, and one over a stack that has no such layer, changes nothing.
pub trait OpenTelemetrySpanExt {
    /// The span that it is a handle of, if it is enabled.
    ghost held: { Self → HeldSpan };

    /// Sets the parent of the span; `SpanDisabled` on a disabled handle, `LayerNotFound` where the stack shows no layer or
    /// that doesn't know the span, and `AlreadyStarted` once the span has started. A layer that hears every call knows
    /// the span of each enabled handle, since a handle's span is live (`live` of span_laws).
    fn set_parent<S: Subscriber + OtelPart>(
        &self,
        world: &mut World<S>,
        at: u64,
        cx: Context,
    ) -> Result<(), SetParentError>
        requires { IsThere world.old (held self.now) }
        ensures { AsksParent S.touches world.old world.new at cx (held self.now) result };

    /// Links the span to another; an invalid context is ignored.
    fn add_link<S: Subscriber + OtelPart>(
        &self,
        world: &mut World<S>,
        at: u64,
        cx: SpanContext,
    ) -> Result<(), Memory>
        requires { IsThere world.old (held self.now) }
        ensures valid { is_valid cx ≡ true
            → AsksDone S.touches world.old world.new at (link_op cx []) (held self.now) result }
        ensures invalid { is_valid cx ≡ false → (result ≡ Ok tt) × (world.new ≡ world.old) };

    /// Links the span to another with attributes; an invalid context is ignored.
    fn add_link_with_attributes<S: Subscriber + OtelPart>(
        &self,
        world: &mut World<S>,
        at: u64,
        cx: SpanContext,
        attributes: Items<KeyValue>,
    ) -> Result<(), Memory>
        requires { IsThere world.old (held self.now) }
        ensures valid { is_valid cx ≡ true
            → AsksDone S.touches world.old world.new at (link_op cx attributes) (held self.now) result }
        ensures invalid { is_valid cx ≡ false → (result ≡ Ok tt) × (world.new ≡ world.old) };

    /// Starts the span, and answers its own context; the empty one where there is none.
    fn context<S: Subscriber + OtelPart>(&self, world: &mut World<S>, at: u64) -> Context
        requires there { IsThere world.old (held self.now) }
        requires can_start { HasOn (λ s id. S.can_start s) world.old (held self.now) }
        ensures { AsksContext S.touches world.old world.new at (held self.now) result };

    /// Adds an attribute to the span.
    fn set_attribute<S: Subscriber + OtelPart>(
        &self,
        world: &mut World<S>,
        at: u64,
        key: Text,
        value: OtelValue,
    ) -> Result<(), Memory>
        requires { IsThere world.old (held self.now) }
        ensures { AsksDone S.touches world.old world.new at (ops.SetAttribute (record { key = key; value = value }))
            (held self.now) result };

    /// Writes a status on the span, which never lowers the one that it has.
    fn set_status<S: Subscriber + OtelPart>(&self, world: &mut World<S>, at: u64, status: Status)
        requires { IsThere world.old (held self.now) }
        ensures { (answer : _)
            × AppliesOn S.touches world.old world.new at (ops.SetStatus status) (held self.now) answer };

    /// Adds an event to the span, which happens now.
    fn add_event<S: Subscriber + OtelPart>(
        &self,
        world: &mut World<S>,
        at: u64,
        name: Text,
        attributes: Items<KeyValue>,
    ) -> Result<(), Memory>
        requires { IsThere world.old (held self.now) }
        ensures { AsksDone S.touches world.old world.new at (add_event_op name at attributes) (held self.now) result };

    /// Adds an event to the span, which happened at a time.
    fn add_event_with_timestamp<S: Subscriber + OtelPart>(
        &self,
        world: &mut World<S>,
        at: u64,
        name: Text,
        time: u64,
        attributes: Items<KeyValue>,
    ) -> Result<(), Memory>
        requires { IsThere world.old (held self.now) }
        ensures { AsksDone S.touches world.old world.new at (add_event_op name time attributes) (held self.now) result };
}

impl OpenTelemetrySpanExt for Span {
    ghost held = { λ s. s.held };

    fn set_parent<S: Subscriber + OtelPart>(
        &self,
        world: &mut World<S>,
        at: u64,
        cx: Context,
    ) -> Result<(), SetParentError> {
        let answer = apply(self, world, at, Op::SetParent { context: cx });
        parent_answer(self, answer)
    }

    fn add_link<S: Subscriber + OtelPart>(
        &self,
        world: &mut World<S>,
        at: u64,
        cx: SpanContext,
    ) -> Result<(), Memory> {
        let attributes = Items::new(world.allocator());
        self.add_link_with_attributes(world, at, cx, attributes)
    }

    fn add_link_with_attributes<S: Subscriber + OtelPart>(
        &self,
        world: &mut World<S>,
        at: u64,
        cx: SpanContext,
        attributes: Items<KeyValue>,
    ) -> Result<(), Memory> {
        if !cx.is_valid() {
            return Ok(());
        }
        let link = Link {
            context: cx,
            attributes,
        };
        done_result(apply(self, world, at, Op::Link { link }))
    }

    fn context<S: Subscriber + OtelPart>(&self, world: &mut World<S>, at: u64) -> Context {
        match start_for_context(self, world, at) {
            Some(context) => context,
            None => Context::empty(),
        }
    }

    fn set_attribute<S: Subscriber + OtelPart>(
        &self,
        world: &mut World<S>,
        at: u64,
        key: Text,
        value: OtelValue,
    ) -> Result<(), Memory> {
        let pair = KeyValue { key, value };
        done_result(apply(self, world, at, Op::SetAttribute { pair }))
    }

    fn set_status<S: Subscriber + OtelPart>(&self, world: &mut World<S>, at: u64, status: Status) {
        let _ = apply(self, world, at, Op::SetStatus { status });
    }

    fn add_event<S: Subscriber + OtelPart>(
        &self,
        world: &mut World<S>,
        at: u64,
        name: Text,
        attributes: Items<KeyValue>,
    ) -> Result<(), Memory> {
        self.add_event_with_timestamp(world, at, name, at, attributes)
    }

    fn add_event_with_timestamp<S: Subscriber + OtelPart>(
        &self,
        world: &mut World<S>,
        at: u64,
        name: Text,
        time: u64,
        attributes: Items<KeyValue>,
    ) -> Result<(), Memory> {
        let event = OtelEvent {
            name,
            time,
            attributes,
        };
        done_result(apply(self, world, at, Op::AddEvent { event }))
    }
}

// Applies an op to the span of a handle, if it is enabled.
fn apply<S: Subscriber + OtelPart>(
    span: &Span,
    world: &mut World<S>,
    at: u64,
    op: Op,
) -> Option<Result<OpReply, Memory>>
    requires there { IsThere world.old span.now.held }
    requires outside { IsOutside op }
    ensures { AppliesOn S.touches world.old world.new at op span.now.held result }
{
    match held_by(span) {
        Some((id, dispatch)) => apply_in(world, dispatch, id, at, op),
        None => {
            drop(op);
            None
        }
    }
}

fn apply_in<S: Subscriber + OtelPart>(
    world: &mut World<S>,
    dispatch: Dispatch,
    id: Id,
    at: u64,
    op: Op,
) -> Option<Result<OpReply, Memory>>
    requires there { dispatch < length world.old.subscribers }
    requires outside { IsOutside op }
    ensures { Replaced (λ s t. S.touches s (Applies id at op result) t) world.old world.new dispatch }
{
    world.subscriber_mut(dispatch).otel_apply(id, at, op)
}

// Starts the span of a handle, if it is enabled, and answers its own context.
fn start_for_context<S: Subscriber + OtelPart>(
    span: &Span,
    world: &mut World<S>,
    at: u64,
) -> Option<Context>
    requires there { IsThere world.old span.now.held }
    requires can_start { HasOn (λ s id. S.can_start s) world.old span.now.held }
    ensures { GivesContextOn S.touches world.old world.new at span.now.held result }
{
    match held_by(span) {
        Some((id, dispatch)) => get_otel_context(id, dispatch, world, at),
        None => None,
    }
}

/// Starts a span of a subscriber, and answers its own context; none exactly where the subscriber has no OpenTelemetry
/// layer, or that doesn't know the span, as one that hears every call knows just the live ones (`live` of span_laws);
/// `tracing_opentelemetry::get_otel_context`.
pub fn get_otel_context<S: Subscriber + OtelPart>(
    id: Id,
    dispatch: Dispatch,
    world: &mut World<S>,
    at: u64,
) -> Option<Context>
    requires there { dispatch < length world.old.subscribers }
    requires can_start { Has (λ s. S.can_start s) world.old dispatch }
    ensures { Replaced (λ s t. S.touches s (GivesContext id at result) t) world.old world.new dispatch }
{
    world.subscriber_mut(dispatch).otel_context(id, at)
}

// The id and the subscriber of a handle's span.
fn held_by(span: &Span) -> Option<(Id, Dispatch)>
    ensures { result ≡ option_map (λ h. (h.1, h.0)) span.now.held }
{
    span.with_subscriber(|held| held)
}

// Whether memory was wanted.
fn done_result(answer: Option<Result<OpReply, Memory>>) -> Result<(), Memory>
    ensures { result ≡ done_answer answer }
{
    match answer {
        Some(Err(memory)) => Err(memory),
        _ => Ok(()),
    }
}

// Whether the parent was set, by a handle.
fn parent_answer(span: &Span, answer: Option<Result<OpReply, Memory>>) -> Result<(), SetParentError>
    ensures { result ≡ parent_answer span.now.held answer }
{
    match held_by(span) {
        Some(_) => held_parent_answer(answer),
        None => Err(SetParentError::SpanDisabled),
    }
}

// Whether the parent of a span was set.
fn held_parent_answer(answer: Option<Result<OpReply, Memory>>) -> Result<(), SetParentError>
    ensures { (held : ℕ × ℕ) → result ≡ parent_answer (Some held) answer }
{
    match answer {
        Some(Ok(OpReply::Parent(set))) => set,
        _ => Err(SetParentError::LayerNotFound),
    }
}
