//! What a call does to the state of one span, once that is found.
ghost use Rattle.std.specs.Prelude.{◌≡◌, ◌<◌, ◌≤◌, ◌+◌, ◌^◌};
ghost use Rattle.otel_state.specs.declared.op.Op.TheVariants as ops;
ghost use Rattle.otel_state.specs.States.{SpanData, after_op, HasRoom};
ghost use Rattle.otel_layer.specs.Counting.{after_counted};
ghost use Rattle.otel_layer.specs.Starts.{StartsState};

use otel_base::context::Context;
use otel_base::tracer::Tracer;
use otel_state::op::Op;
use otel_state::state::SpanState;

// Starts a span, if it hasn't started, and gives its own context.
pub(crate) fn start_state<T: Tracer>(state: &mut SpanState, at: u64, tracer: &mut T) -> Context
    requires { T.started tracer.old < 2 ^ 63 }
    ensures starts { StartsState T.does at state.old.span_data tracer.old tracer.new state.new.span_data }
    ensures context { result ≡ record { span = state.new.span_data.own } }
    ensures room { state.new.room ≡ state.old.room }
    ensures few { T.started tracer.new ≤ T.started tracer.old + 1 }
{
    if state.own_context().is_none() {
        let own = tracer.start(&state.parent());
        state.put(at, Op::Start { own });
    }
    Context {
        span: state.own_context(),
    }
}

// Starts a span, if it hasn't started, enters it, and gives its own context.
pub(crate) fn enter_state<T: Tracer>(state: &mut SpanState, at: u64, tracer: &mut T) -> Context
    requires { T.started tracer.old < 2 ^ 63 }
    ensures { (span_data : SpanData) × StartsState T.does at state.old.span_data tracer.old tracer.new span_data
        × (state.new.span_data ≡ after_op span_data at ops.Enter) × (result ≡ record { span = span_data.own }) }
{
    let own = start_state(state, at, tracer);
    state.put(at, Op::Enter);
    own
}

// Counts an event, and tells it where it is taken, in room that was reserved.
pub(crate) fn count_event(state: &mut SpanState, at: u64, op: Op, is_taken: bool)
    requires { HasRoom state.old.room op }
    ensures { state.new.span_data ≡ after_counted is_taken at op state.old.span_data }
{
    state.put(at, Op::Counted);
    if is_taken {
        state.put(at, op);
    } else {
        drop(op);
    }
}
