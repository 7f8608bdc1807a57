//! What holds of each script that is made. Each law is a function that does nothing.
ghost use Rattle.std.specs.Prelude.{◌≡◌, ◌≤◌, ℕ, [], map, Ok, Some};
ghost use Rattle.span_script.specs.Admission.{opening_read};
ghost use Rattle.span_script.specs.Tables.{History};
ghost use Rattle.trace_lines.specs.Generated.{generated_settings, generated_setup, generated_requests, request_line, generated_settings_line, generated_lines, generated_script};
ghost use Rattle.trace_lines.specs.Lines.{lines_of};
ghost use Rattle.trace_lines.specs.Replay.{history_after};
ghost use Rattle.trace_lines.specs.Report.{IsValid};
ghost use Rattle.trace_lines.specs.reading.Spelled.{settings_spelled, request_spelled};

use crate::generated::MAX_ROUNDS;

/// The lines of a script spell its settings and its requests.
pub fn lines()
    ensures lines { (rounds : ℕ) → rounds ≤ MAX_ROUNDS → lines_of (generated_script rounds) ≡ generated_lines rounds }
    ensures settings { settings_spelled generated_settings_line ≡ Ok generated_settings }
    ensures requests { (rounds : ℕ) → rounds ≤ MAX_ROUNDS
        → map (λ request. request_spelled (request_line request)) (generated_requests rounds) ≡ map Ok (generated_requests rounds) }
{}

/// A script is valid if the text of its filter is one of directives, and its requests have effects.
pub fn validity()
    ensures { (rounds : ℕ) (h : History) → rounds ≤ MAX_ROUNDS → opening_read generated_settings.filter generated_settings.counting ≡ Ok tt
        → history_after generated_setup [] (generated_requests rounds) ≡ Some h → IsValid (generated_script rounds) }
{}

/// Each request of a script has an effect.
pub fn effects()
    ensures { (rounds : ℕ) → rounds ≤ MAX_ROUNDS
        → (h : History) × (history_after generated_setup [] (generated_requests rounds) ≡ Some h) }
{}
