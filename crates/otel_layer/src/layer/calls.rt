//! What the hooks of the layer do, a part at a time, in room that was taken.
ghost use Rattle.std.specs.Prelude.{◌≡◌, ◌<◌, ◌≤◌, ◌^◌, ◌+◌, true, false, length, None, Some, if◌then◌else◌};
ghost use Rattle.otel_base.specs.Stack.{IsReadyToAttach};
ghost use Rattle.trace_base.specs.lanes.Contexts.{AreAttached};
ghost use Rattle.otel_state.specs.Stack.{last_passing};
ghost use Rattle.otel_layer.specs.declared.layer.tokens.Token.{Token};
ghost use Rattle.otel_layer.specs.Table.{data_at, knows_span, update, with_op, RoomFor, RoomForLink};
ghost use Rattle.otel_layer.specs.Counting.{after_counted};
ghost use Rattle.otel_layer.specs.Core.{on_spans, with_tracer, open_entry_count, kept_in, is_token, IsWholeCore};
ghost use Rattle.otel_layer.specs.Parts.{own_context_if_known};
ghost use Rattle.otel_layer.specs.Starts.{StartsEarly, FinishesState};
ghost use Rattle.otel_layer.specs.Steps.{StartsSpan, StartsIfSome, parent_source, lane_context, context_from, with_added_span, MakesSpan};
ghost use Rattle.otel_layer.specs.Steps.{with_link, FollowsSpan, with_token, without_token, DetachesOwnContext, with_finish};
ghost use Rattle.otel_layer.specs.Steps.{EntersIfKnown, ExitsIfKnown, ClosesIfKnown};
ghost use Rattle.otel_layer.specs.Ready.{IsReadyState, IsReadyLane, HasOpenEntry, IsAttachedIfKnown};

use crate::layer::OpenTelemetryLayer;
use crate::layer::tokens::{Token, attach, detach_if_active, take_last};
use crate::starts::start_state;
use otel_base::context::{Context, SpanContext};
use otel_base::list::Items;
use otel_base::record::Link;
use otel_base::stack::Attached;
use otel_base::tracer::Tracer;
use otel_state::op::Op;
use otel_state::state::SpanState;
use trace_base::callsite::Callsite;
use trace_base::field::ValueSet;
use trace_base::lane::Lane;
use trace_base::span::{Id, Parent};

impl<T: Tracer> OpenTelemetryLayer<T> {
    // Starts a span, if it is known and hasn't started, and gives its own context.
    pub(crate) fn start(&mut self, id: Id, at: u64) -> Option<Context>
        requires { T.started self.old.core.tracer < 2 ^ 63 }

        ensures starts { StartsSpan T.does id at self.old.core self.new.core }
        ensures context { result ≡ own_context_if_known (data_at id self.new.core.spans) }
        ensures rooms { self.new.rooms ≡ self.old.rooms }
        ensures room { self.new.room ≡ self.old.room }
        ensures span_count { self.new.core.span_count ≡ self.old.core.span_count }
        ensures settings { self.new.core.settings ≡ self.old.core.settings }
        ensures few { T.started self.new.core.tracer ≤ T.started self.old.core.tracer + 1 }
    {
        self.table.start(id, at, &mut self.tracer)
    }

    // Applies an op to a span, and says whether it is known.
    pub(crate) fn put_op(&mut self, id: Id, at: u64, op: Op) -> bool
        requires { RoomFor id op self.old.rooms }
        ensures known { result ≡ knows_span id self.old.core.spans }
        ensures core { self.new.core ≡ on_spans (with_op id at op) self.old.core }
        ensures token_room { self.new.token_room ≡ self.old.token_room }
    {
        self.table.put(id, at, op)
    }

    // Counts an event, and tells it to its span where it is taken.
    pub(crate) fn count_op(&mut self, id: Id, at: u64, op: Op, is_taken: bool)
        requires { RoomFor id op self.old.rooms }
        ensures { self.new.core ≡ on_spans (update id (after_counted is_taken at op)) self.old.core }
    {
        self.table.count_event(id, at, op, is_taken);
    }

    // Makes a span that isn't known yet.
    pub(crate) fn make(
        &mut self,
        state: Box<SpanState>,
        id: Id,
        lane: &Lane,
        at: u64,
        parent: Parent,
        current: Option<Id>,
        callsite: &Callsite,
        _values: &ValueSet,
    )
        requires few { T.started self.old.core.tracer + 1 < 2 ^ 63 }
        requires unknown { knows_span id self.old.core.spans ≡ false }
        requires ready { IsReadyState self.old lane.now callsite.now _values.now state.value }
        ensures { MakesSpan T.does self.old.core id lane.now at parent current callsite.now _values.now
            self.new.core }
    {
        let source = parent_source(self.settings.activation, &parent, current);
        let context = self.context_from(source, lane_context(lane, &parent), at);
        let mut state = Box::into_inner(state);
        state.set_making(context, at);
        self.start_early(&mut state, at);
        self.add(id, state);
    }

    // Starts the span that is named, and gives its own context; else the other one.
    fn context_from(&mut self, source: Option<Id>, other: Context, at: u64) -> Context
        requires { T.started self.old.core.tracer < 2 ^ 63 }

        ensures starts { StartsIfSome T.does source at self.old.core self.new.core }
        ensures context { result ≡ context_from self.new.core.spans other source }
        ensures room { self.new.room ≡ self.old.room }
        ensures span_count { self.new.core.span_count ≡ self.old.core.span_count }
        ensures settings { self.new.core.settings ≡ self.old.core.settings }
        ensures few { T.started self.new.core.tracer ≤ T.started self.old.core.tracer + 1 }
    {
        match source {
            Some(id) => self.start(id, at).unwrap_or(other),
            None => other,
        }
    }

    // Starts a new state where spans start early.
    fn start_early(&mut self, state: &mut SpanState, at: u64)
        requires { T.started self.old.core.tracer < 2 ^ 63 }
        ensures starts { StartsEarly T.does self.old.core.settings.eager at state.old.span_data
            self.old.core.tracer self.new.core.tracer state.new.span_data }
        ensures core { self.new.core ≡ with_tracer self.new.core.tracer self.old.core }
        ensures room { self.new.room ≡ self.old.room }
    {
        if self.settings.eager {
            start_state(state, at, &mut self.tracer);
        }
    }

    // Adds a span.
    fn add(&mut self, id: Id, state: SpanState)
        requires room { 0 < self.old.room }
        requires few { self.old.core.span_count + 1 < 2 ^ 62 }
        ensures { self.new.core ≡ with_added_span id state.span_data self.old.core }
    {
        self.table.add(id, state);
        self.span_count += 1;
    }

    // Starts a span, and links another to it.
    pub(crate) fn follow(&mut self, id: Id, from: Id, at: u64)
        requires few { T.started self.old.core.tracer < 2 ^ 63 }
        requires room { RoomForLink id self.old.rooms }
        ensures { FollowsSpan T.does self.old.core id from at self.new.core }
    {
        if let Some(own) = self.start(from, at) {
            self.link(id, own.span_context(), at);
        }
    }

    // Links a span to a context.
    fn link(&mut self, id: Id, context: SpanContext, at: u64)
        requires { RoomForLink id self.old.rooms }
        ensures { self.new.core ≡ on_spans (with_link id at (Some context)) self.old.core }
    {
        let attributes = Items::new(self.alloc);
        let link = Link {
            context,
            attributes,
        };
        self.put_op(id, at, Op::Link { link });
    }

    // Enters a span, if it is known; with activation its own context is attached.
    pub(crate) fn enter_if_known(&mut self, id: Id, lane: &mut Lane, at: u64)
        requires few { T.started self.old.core.tracer < 2 ^ 63 }
        requires token { 0 < self.old.token_room }
        requires room { IsReadyLane self.old.core id lane.old }
        ensures { EntersIfKnown T.does self.old.core id at lane.old lane.new self.new.core }
    {
        if self.settings.activation {
            self.enter_active(id, lane, at);
        } else if self.put_op(id, at, Op::Enter) {
            self.add_token(lane.id, id, None);
        }
    }

    fn enter_active(&mut self, id: Id, lane: &mut Lane, at: u64)
        requires active { self.old.core.settings.activation ≡ true }
        requires few { T.started self.old.core.tracer < 2 ^ 63 }
        requires token { 0 < self.old.token_room }
        requires room { knows_span id self.old.core.spans ≡ true → IsReadyToAttach lane.old.contexts }
        ensures { EntersIfKnown T.does self.old.core id at lane.old lane.new self.new.core }
    {
        if let Some(own) = self.table.enter(id, at, &mut self.tracer) {
            let attached = attach(own, lane);
            self.add_token(lane.id, id, Some(attached));
        }
    }

    // Adds an open entry.
    fn add_token(&mut self, lane: u64, id: Id, attached: Option<Attached>)
        requires { 0 < self.old.token_room }
        ensures { self.new.core ≡ with_token (record { lane = lane; id = id; attached = attached }) self.old.core }
    {
        match self.tokens.push(Token { lane, id, attached }) {
            Ok(()) => {}
            Err(_) => unreachable!(),
        }
    }

    // Exits a span, if it is known.
    pub(crate) fn exit_if_known(&mut self, id: Id, lane: &mut Lane, at: u64)
        requires open { HasOpenEntry self.old.core id lane.old }
        requires still { IsAttachedIfKnown self.old.core id lane.old }
        ensures { ExitsIfKnown self.old.core id at lane.old lane.new self.new.core }
    {
        if self.put_op(id, at, Op::Exit) {
            self.take_entry_off(id, lane);
        }
    }

    // Takes off the last entry of a span on a lane, and detaches what it attached.
    fn take_entry_off(&mut self, id: Id, lane: &mut Lane)
        requires open { 0 < open_entry_count self.old.core.tokens lane.old.id id }
        requires still { AreAttached (kept_in self.old.core) lane.old }
        ensures { (token : Token) × (last_passing (is_token lane.old.id id) self.old.core.tokens ≡ Some token)
            × DetachesOwnContext (if self.old.core.settings.activation then token.attached else None) lane.old lane.new
            × (self.new.core ≡ without_token lane.old.id id self.old.core) }
    {
        let Token {
            lane: _,
            id: _,
            attached,
        } = take_last(&mut self.tokens, lane.id, id);
        detach_if_active(self.settings.activation, attached, lane);
    }

    // Closes a span, if it is known.
    pub(crate) fn close_if_known(&mut self, id: Id, at: u64)
        requires whole { IsWholeCore T.spare T.started self.old.core }
        ensures { ClosesIfKnown T.does self.old.core id at self.new.core }
    {
        if let Some(state) = self.table.remove(id) {
            self.finish(state, at);
        }
    }

    // Starts a state that was taken out, if it hasn't started, and hands its record to the tracer, in room that was
    // reserved.
    fn finish(&mut self, mut state: SpanState, at: u64)
        requires few { T.started self.old.core.tracer < 2 ^ 63 }
        requires spare { 0 < T.spare self.old.core.tracer }
        requires reserved { 0 < self.old.core.reserved }
        ensures did { FinishesState T.does at state.span_data self.old.core.tracer self.new.core.tracer }
        ensures core { self.new.core ≡ with_finish self.new.core.tracer self.old.core }
    {
        start_state(&mut state, at, &mut self.tracer);
        self.tracer.finish(state.close(at));
        self.reserved -= 1;
    }
}

// The span that a new one gets its parent's context from.
fn parent_source(activation: bool, parent: &Parent, current: Option<Id>) -> Option<Id>
    ensures { result ≡ parent_source activation parent.now current }
{
    match parent {
        Parent::Root => None,
        Parent::Of(id) => Some(*id),
        Parent::Current => { if activation { None } else { current } }
    }
}

// The context where there is no such span.
fn lane_context(lane: &Lane, parent: &Parent) -> Context
    ensures { result ≡ lane_context lane.now parent.now }
{
    match parent {
        Parent::Root | Parent::Of(_) => Context::empty(),
        Parent::Current => lane.contexts.current(),
    }
}
