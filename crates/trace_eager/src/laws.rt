//! What is written of a script, by the answers of its requests. Each law is a function that does nothing.
ghost use Rattle.std.specs.Prelude.{◌≡◌, ℕ, List, [], true};
ghost use Rattle.span_script.specs.Outcomes.{outcome_of};
ghost use Rattle.span_script.specs.Setups.{Setup};
ghost use Rattle.span_eager.specs.Early.{answers};
ghost use Rattle.trace_lines.specs.Report.{accepts, report_from, report_on};
ghost use Rattle.trace_lines.specs.declared.signal.Signal.TheVariants as signal;
ghost use Rattle.trace_eager.specs.Written.{answers_text, line_numbers, requests_of};
ghost use Rattle.trace_eager.specs.Renamed.{IsRenamed};

/// What is written for request lines of which none is refused: for each line its reply and its records, and the end line.
pub fn texts()
    ensures { (setup : Setup) (n : ℕ) (lines : List (List ℕ)) → (report_on signal.Traces setup [] n 0 lines).accepted ≡ true
        → (report_on signal.Traces setup [] n 0 lines).written
        ≡ answers_text 0 (line_numbers n lines) (answers setup (requests_of lines)) (outcome_of setup (requests_of lines)).left_open }
{}

/// What is written for lines of which none is refused, and whose settings start spans early, is the text of the same script
/// without that, with other ids, where that script may start them early.
pub fn early_starts()
    ensures { (lines : List (List ℕ)) → accepts lines ≡ true → IsRenamed lines (report_from signal.Traces 0 lines).written }
{}
