//! What holds of each history that requests give. Each law is a function that does nothing.
ghost use Rattle.std.specs.Prelude.{◌≡◌, ℕ, ◌+◌, ◌<◌, ◌≤◌, length, not, false};
ghost use Rattle.trace_base.specs.Spans.{is_in};
ghost use Rattle.span_script.specs.Setups.{Setup};
ghost use Rattle.span_script.specs.Tables.{History, tables};
ghost use Rattle.span_script.specs.calls.Spans.{is_open, open_spans};
ghost use Rattle.span_laws.specs.LegalHistories.{IsHistory, occurrences};

/// A span is recorded at most once, and that when no unspent handle holds it any more.
pub fn records()
    ensures recorded_once { (setup : Setup) (h : History) (s : ℕ) → IsHistory setup h
        → occurrences s (tables setup h).closed ≤ 1 }
    ensures recorded_when_ended { (setup : Setup) (h : History) (s : ℕ) → IsHistory setup h
        → s < length (tables setup h).spans
        → is_in s (tables setup h).closed ≡ not (is_open (tables setup h).handles s) }
    ensures only_made_recorded { (setup : Setup) (h : History) (s : ℕ) → IsHistory setup h
        → length (tables setup h).spans ≤ s → is_in s (tables setup h).closed ≡ false }
    ensures records_and_open { (setup : Setup) (h : History) → IsHistory setup h
        → length (tables setup h).closed + open_spans (tables setup h)
        ≡ length (tables setup h).spans }
{}
