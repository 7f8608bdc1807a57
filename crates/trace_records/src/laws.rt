//! What holds of each script, whatever its lines.
ghost use Rattle.std.specs.Prelude.{◌≡◌, ◌<◌, ◌≤◌, ◌↔◌, ℕ, List, Option, Some, None, Ok, All, is_ok, length};
ghost use Rattle.trace_lines.specs.Report.{accepts, report_from};
ghost use Rattle.trace_lines.specs.declared.signal.Signal.TheVariants.{Traces};
ghost use Rattle.span_laws.specs.LegalHistories.{IsHistory};
ghost use Rattle.span_script.specs.Outcomes.{records_of_history};
ghost use Rattle.trace_records.specs.Inputs.{EndsWith, last_line_of};
ghost use Rattle.trace_records.specs.Scripts.{ScriptHistory, script_of};

/// The history of each script is legal, and each of its records has a lane that the settings give.
pub fn scripts()
    ensures history { (most : Option ℕ) (lines : List (List ℕ)) (s : ScriptHistory) → script_of most lines ≡ Ok s
        → IsHistory s.setup s.history }
    ensures lanes { (most : Option ℕ) (lines : List (List ℕ)) (s : ScriptHistory) → script_of most lines ≡ Ok s
        → length s.lanes ≡ length (records_of_history s.setup s.history) }
    ensures within { (most : Option ℕ) (lines : List (List ℕ)) (s : ScriptHistory) → script_of most lines ≡ Ok s
        → All (λ lane. lane < length s.setup.ids) s.lanes }
{}

/// Where any number of lanes is taken, lines come to a script exactly where a run that tells traces accepts them, and that run
/// writes the end line of the same spans and records, or the same refusal line. Where a most is taken they come to the same
/// script, if it has no more lanes.
pub fn runs()
    ensures accepted { (lines : List (List ℕ)) → accepts lines ≡ is_ok (script_of None lines) }
    ensures last { (lines : List (List ℕ)) → EndsWith (last_line_of (script_of None lines)) (report_from Traces 0 lines).written }
    ensures few { (most : ℕ) (lines : List (List ℕ)) (s : ScriptHistory)
        → (script_of (Some most) lines ≡ Ok s) ↔ ((script_of None lines ≡ Ok s) × (length s.setup.ids ≤ most)) }
{}
