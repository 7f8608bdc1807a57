//! When spans started and ended, and how long they were busy and idle.
ghost use Rattle.std.specs.Prelude.{◌≡◌, ℕ, false, true, IsTrue, Some};
ghost use Rattle.trace_base.specs.Spans.{is_in};
ghost use Rattle.otel_state.specs.Laws.{TellsTimes, was_entered};
ghost use Rattle.otel_state.specs.Times.{last_exit};
ghost use Rattle.span_script.specs.Setups.{Setup};
ghost use Rattle.span_script.specs.Tables.{ScopeGuard, History, made_span_at, slot_at, tables};
ghost use Rattle.span_laws.specs.LegalHistories.{IsHistory};
ghost use Rattle.span_laws.specs.Records.{EachRecord, closed_at, ops_of, records_of_history};
ghost use Rattle.span_laws.specs.Telling.{TellsStartAndEnd};

/// No closed span has an entry that is still open. A record starts with its span's making and ends with the last exit,
/// else with the close. Where inactivity is tracked, busy and idle add up to the time from start to end if the span was
/// left, as each was that was entered; else both are 0.
pub fn times()
    ensures none_open { (setup : Setup) (h : History) (n s : ℕ) (g : ScopeGuard) → IsHistory setup h
        → slot_at (tables setup h).guards n ≡ Some g → is_in s g.scope ≡ true
        → is_in s (tables setup h).closed ≡ false }
    ensures spans { (setup : Setup) (h : History) → IsHistory setup h
        → EachRecord (λ s r. TellsStartAndEnd (made_span_at (tables setup h).spans s).made_with.made_at (last_exit (ops_of r.context h s)) (closed_at h s) r)
        (tables setup h).closed (records_of_history setup h) }
    ensures add_up { (setup : Setup) (h : History) → IsHistory setup h → IsTrue setup.layer.inactivity
        → EachRecord (λ s r. TellsTimes (was_entered (ops_of r.context h s)) (last_exit (ops_of r.context h s)) r)
        (tables setup h).closed (records_of_history setup h) }
{}
