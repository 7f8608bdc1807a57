//! What holds of every part that has a layer. Each law is a function that does nothing.
ghost use Rattle.std.specs.Prelude.{◌≡◌, ℕ, List, Option, Some, Result};
ghost use Rattle.otel_base.specs.declared.context.Context.{Context};
ghost use Rattle.otel_base.specs.declared.memory.Memory.{Memory};
ghost use Rattle.otel_state.specs.declared.op.Op.TheVariants as ops;
ghost use Rattle.otel_state.specs.declared.op.OpReply.{OpReply};
ghost use Rattle.otel_state.specs.States.{SpanData};
ghost use Rattle.otel_layer.specs.Table.{data_at};
ghost use Rattle.otel_layer.specs.Parts.{Applies};
ghost use Rattle.otel_layer.specs.Asking.{parent_answer, ok_unless_started};

use crate::part::OtelPart;

/// A parent is set exactly while the span, of an enabled handle over a layer that shows it, hasn't started.
pub fn parents<S: OtelPart>()
    ensures { (s t : S) (id at : ℕ) (context : Context) (answer : Option (Result OpReply Memory))
        (spans : List (ℕ × SpanData)) (span_data : SpanData) (held : ℕ × ℕ) → S.touches s (Applies id at (ops.SetParent context) answer) t
        → S.all_span_data s ≡ Some spans → data_at id spans ≡ Some span_data
        → parent_answer (Some held) answer ≡ ok_unless_started span_data }
{}
