//! The tape as a stack with an OpenTelemetry layer.
ghost use Rattle.std.specs.Prelude.{◌≡◌, [], ◌∷◌, ◌++◌, true, None, IfOk, OnErr};
ghost use Rattle.std.proofs.Common.{refl};
ghost use Rattle.std.proofs.lemmas.Bool.{true≢false};
ghost use Rattle.otel_state.specs.declared.op.OpReply.TheVariants as replies;
ghost use Rattle.span_script.specs.declared.request.Call.TheVariants as call;
ghost use Rattle.trace_tape.specs.Tapes.{on_first_lane};
ghost use Rattle.trace_tape.specs.PartCalls.{TouchesTape, tape_stays};

use crate::tape::{Tape, request};
use otel_base::context::Context;
use otel_base::memory::Memory;
use otel_base::value::KeyValue;
use otel_layer::part::{OtelPart, OtelSubscriber};
use otel_state::op::{Op, OpReply};
use span_script::request::Call;
use trace_base::span::Id;

/// It has a layer, which tells no states. Of what is asked from outside an attribute is spelled; all else leaves the tape as
/// it is.
impl OtelPart for Tape {
    ghost has_layer = { λ s. true };

    ghost all_span_data = { λ s. None };

    ghost touches = { TouchesTape };

    ghost can_start = { λ s. Unit {0} };

    ghost none = { λ s call t d h. absurd (true≢false h) };

    ghost tells = { λ s call t d. refl };

    ghost keeps_has = { λ s call t d. refl };

    fn has_otel(&self) -> bool {
        true
    }

    fn otel_apply(&mut self, id: Id, at: u64, op: Op) -> Option<Result<OpReply, Memory>> {
        if self.registry.holds(id) == 0 {
            drop(op);
            return None;
        }
        match op {
            Op::SetAttribute { pair } => Some(set_attribute(self, id, at, pair)),
            Op::SetParent { context: _ } => Some(Ok(OpReply::Parent(Ok(())))),
            other => {
                drop(other);
                Some(Ok(OpReply::Done))
            }
        }
    }

    fn otel_context(&mut self, id: Id, _at: u64) -> Option<Context> {
        if self.registry.holds(id) == 0 {
            None
        } else {
            Some(Context::empty())
        }
    }
}

impl OtelSubscriber for Tape {
    ghost stays = { tape_stays };

    ghost starts = { λ s w. tt };
}

// Spells an attribute.
fn set_attribute(tape: &mut Tape, id: Id, at: u64, pair: KeyValue) -> Result<OpReply, Memory>
    ensures ok { IfOk result (λ reply. (reply ≡ replies.Done)
        × (tape.new ≡ record tape.old { requests = tape.old.requests ++ on_first_lane at (call.SetAttribute id pair.key pair.value) ∷ [] })) }
    ensures memory_leaves { OnErr result (tape.new ≡ tape.old) }
{
    let KeyValue { key, value } = pair;
    match tape.roll.reserve() {
        Ok(()) => {
            tape.roll.push_request(request(
                at,
                Call::SetAttribute {
                    handle: id.place(),
                    key,
                    value,
                },
            ));
            Ok(OpReply::Done)
        }
        Err(memory) => {
            drop(key);
            drop(value);
            Err(memory)
        }
    }
}
