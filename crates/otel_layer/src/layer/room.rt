//! What the hooks of the layer need, and is made and reserved before them.
ghost use Rattle.std.specs.Prelude.{◌≡◌, ◌<◌, length, OnOk, IfOk, Err};
ghost use Rattle.otel_base.specs.declared.enter_error.EnterError.TheVariants.{Full};
ghost use Rattle.trace_base.specs.lanes.Contexts.{KeepsLive};
ghost use Rattle.trace_base.specs.layers.Hooks.{ForNewSpan, ForRecord, ForFollows, ForEvent, ForEnter};
ghost use Rattle.otel_base.specs.Stack.{empty_context};
ghost use Rattle.otel_layer.specs.Steps.{SameCore, new_span_data};
ghost use Rattle.otel_layer.specs.Ready.{IsReadySpan, IsReadyOtel, IsReadyOp, IsReadyLane, MeetsFull};

use crate::layer::OpenTelemetryLayer;
use crate::ready::Ready;
use otel_base::context::Context;
use otel_base::enter_error::EnterError;
use otel_base::memory::Memory;
use otel_base::tracer::Tracer;
use otel_state::fields::event::event_op;
use otel_state::fields::first::first_attributes;
use otel_state::fields::span::span_update;
use otel_state::op::Op;
use otel_state::state::SpanState;
use trace_base::callsite::Callsite;
use trace_base::field::ValueSet;
use trace_base::lane::Lane;
use trace_base::span::Id;

// How many spans a layer makes at most: 2^62 - 1.
const MAX_SPANS: u64 = 0x3fff_ffff_ffff_ffff;

impl<T: Tracer> OpenTelemetryLayer<T> {
    // What a new span needs.
    pub(crate) fn prepare_state(
        &mut self,
        lane: &Lane,
        callsite: &Callsite,
        values: &ValueSet,
    ) -> Result<Ready, Memory>
        ensures same { SameCore T.does self.old.core self.new.core }
        ensures ready { IfOk result (IsReadyOtel self.new (ForNewSpan lane.now callsite.now values.now)) }
    {
        self.reserve_span()?;
        let state = self.new_state(lane, callsite, values)?;
        Ok(Ready::NewState { state })
    }

    // The state of a new span with what its fields write, which doesn't know its parent and its moment yet.
    fn new_state(
        &self,
        lane: &Lane,
        callsite: &Callsite,
        values: &ValueSet,
    ) -> Result<Box<SpanState>, Memory>
        ensures { IfOk result (λ state. state.value.span_data
            ≡ new_span_data callsite.now lane.now values.now empty_context 0 self.now.core.settings self.now.core.counting) }
    {
        let update = span_update(self.alloc, callsite, values, &self.settings)?;
        let more = update.attributes.as_slice().len();
        let first = first_attributes(self.alloc, callsite, lane, &self.settings, more)?;
        let state = SpanState::new(
            self.alloc,
            callsite.name.as_str(),
            Context::empty(),
            0,
            first,
            self.counting,
            self.settings.inactivity,
        )?;
        let mut state = Box::new(self.alloc, state)?;
        state.apply(0, Op::Update { update })?;
        Ok(state)
    }

    // What a record needs.
    pub(crate) fn prepare_update(
        &mut self,
        id: Id,
        callsite: &Callsite,
        values: &ValueSet,
    ) -> Result<Ready, Memory>
        ensures core { self.new.core ≡ self.old.core }
        ensures ready { IfOk result (IsReadyOtel self.new (ForRecord id callsite.now values.now)) }
    {
        let update = span_update(self.alloc, callsite, values, &self.settings)?;
        self.reserve_op(id, Op::Update { update })
    }

    // What a link needs.
    pub(crate) fn prepare_link(&mut self, id: Id, _from: Id) -> Result<Ready, Memory>
        ensures core { self.new.core ≡ self.old.core }
        ensures ready { IfOk result (IsReadyOtel self.new (ForFollows id _from)) }
    {
        self.table.reserve_link(id)?;
        Ok(Ready::Nothing)
    }

    // What an event needs.
    pub(crate) fn prepare_event_op(
        &mut self,
        reached: Option<Id>,
        callsite: &Callsite,
        values: &ValueSet,
    ) -> Result<Ready, Memory>
        ensures core { self.new.core ≡ self.old.core }
        ensures ready { IfOk result (IsReadyOtel self.new (ForEvent reached callsite.now values.now)) }
    {
        match reached {
            Some(id) => {
                let op = event_op(self.alloc, callsite, values, &self.settings, 0)?;
                self.reserve_op(id, op)
            }
            None => Ok(Ready::Nothing),
        }
    }

    // Takes the room for an op in the state of a span, if it is known.
    fn reserve_op(&mut self, id: Id, op: Op) -> Result<Ready, Memory>
        ensures core { self.new.core ≡ self.old.core }
        ensures ready { IfOk result (IsReadyOp self.new id op) }
    {
        match self.table.reserve_op(id, &op) {
            Ok(()) => {
                let op = Box::new(self.alloc, op)?;
                Ok(Ready::PreparedOp { op })
            }
            Err(memory) => {
                drop(op);
                Err(memory)
            }
        }
    }

    // What an entry needs.
    pub(crate) fn prepare_token(&mut self, id: Id, _lane: u64) -> Result<Ready, Memory>
        ensures core { self.new.core ≡ self.old.core }
        ensures ready { IfOk result (IsReadyOtel self.new (ForEnter id _lane)) }
    {
        self.tokens.reserve(1)?;
        Ok(Ready::Nothing)
    }

    // Room on the lane for the span's own context, with activation. Only where there is none it is asked whether the span is
    // known.
    pub(crate) fn prepare_lane(&self, id: Id, lane: &mut Lane) -> Result<(), EnterError>
        ensures room { OnOk result (IsReadyLane self.now.core id lane.new) }
        ensures leaves { KeepsLive self.now.core.settings.activation lane.old lane.new }
        ensures full { result ≡ Err Full → MeetsFull self.now.core id lane.old }
    {
        if !self.settings.activation {
            return Ok(());
        }
        match lane.contexts.reserve() {
            Ok(()) => Ok(()),
            Err(error) => {
                if self.table.knows(id) {
                    Err(error)
                } else {
                    Ok(())
                }
            }
        }
    }

    // Room for one more span, here and with the tracer.
    fn reserve_span(&mut self) -> Result<(), Memory>
        ensures same { SameCore T.does self.old.core self.new.core }
        ensures ok { OnOk result (IsReadySpan self.new) }
    {
        if self.span_count >= MAX_SPANS {
            return Err(Memory);
        }
        self.table.reserve()?;
        self.reserve_finish()
    }

    // Room for one more finish with the tracer, if a close would lack it. Fewer than there are live spans are reserved
    // only after a tracer was lent or exchanged.
    fn reserve_finish(&mut self) -> Result<(), Memory>
        ensures same { SameCore T.does self.old.core self.new.core }
        ensures ok { OnOk result (length self.new.core.spans < self.new.core.reserved) }
        ensures room { self.new.room ≡ self.old.room }
    {
        let live = self.table.len();
        if self.reserved > live {
            return Ok(());
        }
        if self.reserved < live {
            return Err(Memory);
        }
        self.tracer.reserve()?;
        self.reserved += 1;
        Ok(())
    }
}
