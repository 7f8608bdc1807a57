//! What is written of each script, and what that tells of its spans. Each law is a function that does nothing.
ghost use Rattle.std.specs.Prelude.{◌≡◌, ◌≤◌, List, ℕ, [], Ok, Some};
ghost use Rattle.span_script.specs.Admission.{opening_read};
ghost use Rattle.span_script.specs.Tables.{History};
ghost use Rattle.span_eager.specs.Early.{answers};
ghost use Rattle.trace_eager.specs.Renamed.{Script, script_from};
ghost use Rattle.trace_laws.specs.Headline.{TellsScript};
ghost use Rattle.trace_laws.specs.Sums.{Counts};
ghost use Rattle.trace_laws.specs.Written.{IsOutput, first_line_number};
ghost use Rattle.trace_lines.specs.Lines.{lines_of};
ghost use Rattle.trace_lines.specs.Generated.{generated_requests, generated_script, generated_setup};
ghost use Rattle.trace_lines.specs.Replay.{history_after, summary_of};
ghost use Rattle.trace_lines.specs.Report.{output, IsValid};
ghost use Rattle.trace_lines.specs.declared.generated.TheConstants.{MAX_ROUNDS};
ghost use Rattle.trace_lines.specs.declared.signal.Signal.TheVariants as signal;

/// What is written for some bytes: where their settings are read, the lines of the outcome of their requests, and behind
/// them the refusal line of the first line that is refused, or the end line; else the refusal of the settings line alone.
pub fn outputs()
    ensures { (bytes : List ℕ) → IsOutput (first_line_number 0 (lines_of bytes)) (script_from 0 (lines_of bytes)) (output signal.Traces bytes) }
{}

/// So for each request its reply is written and then the records of the spans that it closed; every span is recorded once,
/// child before parent, when its last handle and its children's have ended; and a record holds exactly that span's calls,
/// in order.
pub fn headline()
    ensures { (bytes : List ℕ) (script : Script) → script_from 0 (lines_of bytes) ≡ Some script
        → opening_read script.settings.filter script.settings.counting ≡ Ok tt → TellsScript script (output signal.Traces bytes) }
{}

/// The line of `make` counts what the script that it makes writes, the answers to its requests and the end line: the lines,
/// the requests and the records, with their events and busy times; the open spans are those that the end line tells.
pub fn sums()
    ensures { (rounds : ℕ) (h : History) → rounds ≤ MAX_ROUNDS → IsValid (generated_script rounds)
        → history_after generated_setup [] (generated_requests rounds) ≡ Some h
        → Counts (output signal.Traces (generated_script rounds)) (answers generated_setup (generated_requests rounds)) (summary_of generated_setup h) }
{}
