//! What holds of the outputs of all scripts.
ghost use Rattle.std.specs.Prelude.{◌≡◌, ℕ, List, [], ◌∷◌, ◌++◌, true};
ghost use Rattle.trace_lines.specs.Laws.{GoesOn};
ghost use Rattle.trace_lines.specs.Report.{report_from, accepts};
ghost use Rattle.trace_lines.specs.declared.signal.Signal.{Signal};

/// A script with one line more first writes all that it wrote without it, up to the end line. Whether a line is refused
/// doesn't depend on what is told.
pub fn outputs()
    ensures goes_on { (signal : Signal) (lines : List (List ℕ)) (line : List ℕ) → accepts lines ≡ true
        → GoesOn signal (report_from signal 0 lines).written (report_from signal 0 (lines ++ line ∷ [])).written }
    ensures alike { (signal : Signal) (lines : List (List ℕ)) → (report_from signal 0 lines).accepted ≡ accepts lines }
{}
