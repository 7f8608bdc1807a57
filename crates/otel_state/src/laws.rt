//! What holds of all lists of ops. Each law is a function that does nothing.
ghost use Rattle.std.specs.Prelude.{◌≡◌, ℕ, List, [], ◌∷◌, ◌++◌, IsTrue, All, is_some};
ghost use Rattle.otel_base.specs.declared.context.SpanContext.{SpanContext};
ghost use Rattle.otel_state.specs.declared.op.Op.{Op};
ghost use Rattle.otel_state.specs.Deeds.{TimedOp};
ghost use Rattle.otel_state.specs.Opening.{ids_of_start};
ghost use Rattle.otel_state.specs.Times.{MomentsRise, open_after_ops, last_exit};
ghost use Rattle.otel_state.specs.Content.{Making, content};
ghost use Rattle.otel_state.specs.States.{SpanData, AppendsOp, after_op};
ghost use Rattle.otel_state.specs.Laws.{TellsTimes, was_entered, SameButSettled, SettlesNothing, start_at, with_early, with_late, SameButIds, StatusNeverFalls};

/// A state that stands for some ops stands, after one more, for these and that one.
pub fn appends()
    ensures { (span_data : SpanData) (at : ℕ) (op : Op) → AppendsOp at op span_data (after_op span_data at op) }
{}

/// Where inactivity is tracked, moments don't fall and no entry is left open: the record's busy and idle times add up to
/// the time from its start to its end if the span was left, as each is that was entered; else both are 0.
pub fn times()
    ensures { (making : Making) (ops : List TimedOp) (closed : ℕ) → IsTrue making.inactivity → MomentsRise making.made_at ops
        → open_after_ops 0 ops ≡ 0 → TellsTimes (was_entered ops) (last_exit ops) (content making ops closed) }
{}

/// A name, a kind or a parent that is written after the start leaves the record as it is.
pub fn late_writes()
    ensures { (making : Making) (before after : List TimedOp) (at closed : ℕ) (a b : Op)
        → IsTrue (is_some (ids_of_start before)) → SameButSettled a b
        → content making (before ++ record { at = at; op = a } ∷ after) closed
        ≡ content making (before ++ record { at = at; op = b } ∷ after) closed }
{}

/// A start may come early or late: where moments don't fall in either order, no entry is left open, and no name, kind or
/// parent is written between the two places, the records differ in their ids alone.
pub fn early_starts()
    ensures { (making : Making) (before between after : List TimedOp) (early late : ℕ) (own given : SpanContext)
        (closed : ℕ) → All SettlesNothing between → open_after_ops 0 (before ++ between ++ after) ≡ 0
        → MomentsRise making.made_at (with_early before (start_at early own) between after)
        → MomentsRise making.made_at (with_late before between (start_at late given) after)
        → SameButIds (content making (with_early before (start_at early own) between after) closed)
        (content making (with_late before between (start_at late given) after) closed) }
{}

/// The status never falls as ops are appended.
pub fn statuses()
    ensures { (ops more : List TimedOp) → StatusNeverFalls ops more }
{}
