//! Contexts: making them, attaching them to a lane, and detaching them again.
ghost use Rattle.std.specs.Prelude.{◌≡◌, ◌↔◌, ◌<◌, ◌++◌, [], ◌∷◌, true, false, length, IfOk, OnErr};
ghost use Rattle.otel_base.specs.Stack.{has_number, without_number};
ghost use Rattle.otel_base.specs.declared.stack.TheConstants.{MAX_CONTEXTS};
ghost use Rattle.otel_base.specs.declared.enter_error.EnterError.TheVariants.{Full};
ghost use Rattle.span_handles.specs.Entries.{IsThere};
ghost use Rattle.span_handles.specs.Handles.{HasOn};
ghost use Rattle.otel_layer.specs.Asking.{AsksContext};
ghost use Rattle.span_script.specs.declared.request.Call.{Call};

use crate::laws;
use crate::names::{check_few_names, context_at};
use crate::pipeline::Pipeline;
use otel_base::context::{Context, SpanContext};
use otel_base::enter_error::EnterError;
use otel_base::record::Moment;
use otel_base::stack::Attached;
use otel_layer::part::{OtelPart, OtelSubscriber};
use otel_layer::span_ext::OpenTelemetrySpanExt;
use span_handles::span::Span;
use span_script::contexts::AttachGuard;
use span_script::reply::{Refusal, Reply, What};
use span_stack::Stack;
use trace_base::lane::Lane;
use trace_base::subscriber::Subscriber;
use trace_base::world::World;

// Attaches a context to a lane above all others.
fn attach_to(lane: &mut Lane, context: Context) -> Result<Attached, EnterError>
    ensures id { lane.new.id ≡ lane.old.id }
    ensures name { lane.new.name ≡ lane.old.name }
    ensures same_default { lane.new.default ≡ lane.old.default }
    ensures live { IfOk result (λ number. lane.new.contexts.live ≡ lane.old.contexts.live ++ (number, context) ∷ []) }
    ensures number { IfOk result (λ number. has_number number lane.old.contexts.live ≡ false) }
    ensures full { (result ≡ Err Full) ↔ (length lane.old.contexts.live ≡ MAX_CONTEXTS) }
    ensures leaves { OnErr result (lane.new.contexts.live ≡ lane.old.contexts.live) }
{
    lane.contexts.attach(context)
}

// Detaches a context of a lane, wherever it stands.
fn detach_from(lane: &mut Lane, attached: Attached)
    requires { has_number attached lane.old.contexts.live ≡ true }
    ensures id { lane.new.id ≡ lane.old.id }
    ensures name { lane.new.name ≡ lane.old.name }
    ensures same_default { lane.new.default ≡ lane.old.default }
    ensures live { lane.new.contexts.live ≡ without_number attached lane.old.contexts.live }
{
    lane.contexts.detach(attached);
}

// Starts a span of any whole subscriber, and answers its context.
fn context_any<S: OtelSubscriber>(span: &Span, world: &mut World<S>, at: Moment) -> Context
    requires there { IsThere world.old span.now.held }
    requires whole { HasOn (λ s id. S.is_whole s) world.old span.now.held }
    ensures { AsksContext S.touches world.old world.new at span.now.held result }
{
    span.context(world, at)
}

// Starts a span of the stack, and answers its context.
fn context_of(span: &Span, world: &mut World<Stack>, at: Moment) -> Context
    requires there { IsThere world.old span.now.held }
    requires whole { HasOn (λ s id. ⟦<Stack as Subscriber>⟧.is_whole s) world.old span.now.held }
    ensures { AsksContext ⟦<Stack as OtelPart>⟧.touches world.old world.new at span.now.held result }
{
    context_any(span, world, at)
}

impl Pipeline {
    ghost use Rattle.span_script.specs.Fits.{Serves};

    pub(crate) fn remote(
        &mut self,
        at: Moment,
        place: u64,
        ids: SpanContext,
    ) -> Result<Reply, Refusal>
        ensures { Serves self.old at place (Call.Remote ids) result self.new }
    {
        let context = self.contexts.contexts.len() as u64;
        self.contexts.contexts.push(Context { span: Some(ids) })?;
        self.moment = at;
        Ok(Reply::Context { context, ids })
    }

    pub(crate) fn context(&mut self, at: Moment, place: u64, handle: u64) -> Result<Reply, Refusal>
        ensures { Serves self.old at place (Call.Context handle) result self.new }
    {
        laws::asks();
        let Some(span) = self.handles.get(handle) else {
            return Err(Refusal::UnknownName { what: What::Handle });
        };
        let number = self.contexts.contexts.len() as u64;
        self.contexts.contexts.reserve(1)?;
        let context = context_of(span, &mut self.world, at);
        self.contexts.contexts.push_reserved(context);
        self.moment = at;
        Ok(Reply::Context {
            context: number,
            ids: context.span_context(),
        })
    }

    pub(crate) fn attach(&mut self, at: Moment, place: u64, context: u64) -> Result<Reply, Refusal>
        requires { place < length self.old.lanes }
        ensures { Serves self.old at place (Call.Attach context) result self.new }
    {
        check_few_names(&self.handles, &self.guards)?;
        let guard = self.guards.len() as u64;
        let Some(given) = context_at(&self.contexts.contexts, context) else {
            return Err(Refusal::UnknownName {
                what: What::Context,
            });
        };
        self.guards.reserve()?;
        self.contexts.attaches.reserve()?;
        let attached = match attach_to(&mut self.lanes[place as usize], given) {
            Ok(attached) => attached,
            Err(error) => return Err(Refusal::of_entry(place, error)),
        };
        self.guards.skip();
        self.contexts
            .attaches
            .push_reserved(AttachGuard { place, attached });
        self.moment = at;
        Ok(Reply::Guard { guard })
    }

    pub(crate) fn detach(&mut self, at: Moment, place: u64, guard: u64) -> Result<Reply, Refusal>
        requires { place < length self.old.lanes }
        ensures { Serves self.old at place (Call.Detach guard) result self.new }
    {
        let open = self.contexts.take_on_lane(guard, place)?;
        let AttachGuard { place: _, attached } = open;
        detach_from(&mut self.lanes[place as usize], attached);
        self.moment = at;
        Ok(Reply::Done)
    }
}
