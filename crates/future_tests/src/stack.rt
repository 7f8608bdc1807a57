//! Stacks in worlds, and what is looked up there.
ghost use Rattle.std.specs.Prelude.{◌≡◌, ◌+◌, ◌<◌, [], length, None, IfOk, OnOk};
ghost use Rattle.span_handles.specs.Handles.{IsKnown};
ghost use Rattle.span_futures.specs.Lent.{HasAll};
ghost use Rattle.future_tests.specs.Ready.{IsUnused, IsReadyForCalls};

use otel_base::list::Items;
use otel_base::memory::Memory;
use otel_base::record::Record;
use otel_base::recorder::Recorder;
use otel_base::stack::ContextStack;
use otel_base::text::Text;
use otel_base::tracer::Tracer;
use otel_layer::layer::OpenTelemetryLayer;
use span_handles::span::Span;
use span_registry::layered::Layered;
use span_registry::registry::Registry;
use std::alloc::Global;
use trace_base::callsite::{Callsite, Kind, SiteId};
use trace_base::discard::Discard;
use trace_base::dispatcher::Dispatch;
use trace_base::field::ValueSet;
use trace_base::lane::Lane;
use trace_base::level::Level;
use trace_base::subscriber::Subscriber;
use trace_base::world::World;

/// A stack over a registry that keeps records.
pub trait Stack: Subscriber + Discard {
    /// One that was just made.
    fn new_unused(alloc: Global) -> Self
        ensures { IsUnused Self.Subscriber.spans Self.Subscriber.kept Self.Subscriber.is_whole result };

    /// The registry at its bottom.
    fn registry(&self) -> &Registry
        ensures { result.now.spans ≡ Self.Subscriber.spans self.now };

    /// Takes out the oldest record that it still has.
    fn take(&mut self) -> Option<Record>;
}

/// A tracer that keeps records until they are taken.
pub trait Keeper: Tracer {
    /// One that has started nothing.
    fn new_unstarted(alloc: Global) -> Self
        ensures { Self.Tracer.started result ≡ 0 };

    /// Takes out the oldest record that it still has.
    fn take_one(&mut self) -> Option<Record>;
}

impl Keeper for Recorder {
    fn new_unstarted(alloc: Global) -> Recorder {
        Recorder::new(alloc)
    }

    fn take_one(&mut self) -> Option<Record> {
        self.take()
    }
}

impl<T: Keeper + Drop> Stack for Layered<OpenTelemetryLayer<T>, Registry> {
    fn new_unused(alloc: Global) -> Layered<OpenTelemetryLayer<T>, Registry> {
        Registry::new(alloc).with(OpenTelemetryLayer::new(alloc, T::new_unstarted(alloc)))
    }

    fn registry(&self) -> &Registry {
        self.inner()
    }

    fn take(&mut self) -> Option<Record> {
        self.layer_mut().tracer_mut().take_one()
    }
}

/// A lane that nothing is attached to, without a name or a subscriber.
pub fn lane(alloc: Global) -> Lane
    ensures { result.default ≡ None }
{
    Lane {
        id: 1,
        name: None,
        default: None,
        contexts: ContextStack::new(alloc),
    }
}

/// Adds a stack that was just made.
pub fn add_stack<S: Stack>(alloc: Global, world: &mut World<S>) -> Result<Dispatch, Memory>
    requires { HasAll (IsUnused S.spans S.kept S.is_whole) world.old }
    ensures dispatch { IfOk result (λ dispatch. dispatch ≡ length world.old.subscribers) }
    ensures more { OnOk result (length world.new.subscribers ≡ length world.old.subscribers + 1) }
    ensures unused { OnOk result (HasAll (IsUnused S.spans S.kept S.is_whole) world.new) }
    ensures sites { world.new.sites ≡ world.old.sites }
{
    match world.add(S::new_unused(alloc)) {
        Ok(dispatch) => Ok(dispatch),
        Err((stack, memory)) => {
            stack.discard();
            Err(memory)
        }
    }
}

/// Adds a callsite of spans named `work` to a world without stacks.
pub fn add_work_site<S: Stack>(alloc: Global, world: &mut World<S>) -> Result<SiteId, Memory>
    requires { world.old ≡ record { sites = []; subscribers = []; cached = []; global = None } }
    ensures site { IfOk result (λ site. site ≡ 0) }
    ensures one { OnOk result (length world.new.sites ≡ 1) }
    ensures none { world.new.subscribers ≡ [] }
    ensures global { world.new.global ≡ None }
{
    let callsite = Callsite {
        name: Text::from_str(alloc, "work")?,
        target: Text::from_str(alloc, "tests")?,
        level: Level::INFO,
        kind: Kind::Span,
        file: None,
        module_path: None,
        line: None,
        fields: Items::new(alloc),
    };
    world.add_site(callsite)
}

/// No values.
pub fn no_values(alloc: Global) -> ValueSet {
    ValueSet {
        pairs: Items::new(alloc),
    }
}

/// A stack with a first span, a root that was made at 0.
pub fn add_first_span<S: Stack>(
    alloc: Global,
    world: &mut World<S>,
    lane: &Lane,
) -> Result<(Dispatch, Span), Memory>
    requires empty { world.old ≡ record { sites = []; subscribers = []; cached = []; global = None } }
    requires own { lane.now.default ≡ None }
    ensures there { IfOk result (λ it. it.0 < length world.new.subscribers) }
    ensures known { IfOk result (λ it. IsKnown S.spans world.new it.1.held) }
    ensures ready { OnOk result (IsReadyForCalls S.kept S.is_whole world.new lane.now) }
{
    let site = add_work_site(alloc, world)?;
    let stack = add_stack(alloc, world)?;
    let span = Span::new_root_with(world, lane, 0, site, &no_values(alloc), stack)?;
    Ok((stack, span))
}

/// The number of a lane's current span, 0 where there is none.
pub fn current_span_number<S: Stack>(world: &World<S>, stack: Dispatch, lane: &Lane) -> u64
    requires there { stack < length world.now.subscribers }
    requires whole { HasAll S.is_whole world.now }
{
    match world.subscriber(stack).current_span(lane.id) {
        Some((id, _)) => id.into_u64(),
        None => 0,
    }
}

/// The id of the span whose context is a lane's current one, 0 where that is the empty one.
pub fn context_span_number(lane: &Lane) -> u64 {
    lane.contexts.current().span_context().span
}
