//! What the hooks of a layer need, and is made before them.
ghost use Rattle.std.specs.Prelude.{◌≡◌};
ghost use Rattle.otel_layer.specs.Ready.{with_moment};

use otel_state::op::Op;
use otel_state::state::SpanState;

/// What a prepare of the layer made for its hook. What is large is in a box, since each layer above hands it on.
#[derive(Drop)]
pub enum Ready {
    /// The state of a new span.
    NewState { state: Box<SpanState> },
    /// The op of fields, or that of an event without its moment.
    PreparedOp { op: Box<Op> },
    /// All room is in the layer.
    Nothing,
}

// The op of an event at another moment.
pub(crate) fn set_moment(op: &mut Op, at: u64)
    ensures { op.new ≡ with_moment at op.old }
{
    if let Op::Event {
        is_error: _,
        update: _,
        event,
    } = op
    {
        event.time = at;
    }
}
