//! The trait of gates.
ghost use Rattle.std.specs.Prelude.{◌≡◌, ℕ, List};
ghost use Rattle.event_gate.specs.Rules.{fixed_text_filter, gate_rule, levels_of_reload};

use crate::levels::{Admission, Levels};
use trace_base::callsite::Callsite;

/// A gate that is asked whether events are let through, and may go on to later texts meanwhile.
pub trait EventGate {
    // The text that it was opened with, which has number 0.
    ghost opening: { Self → List ℕ };

    /// Whether a callsite is let through, and by the text of which number. Under number 0 that is the opening text, with
    /// the levels where they have number 0 too.
    fn enabled(&mut self, c: &Callsite, levels: &Levels) -> Admission
        ensures kept { opening self.new ≡ opening self.old }
        ensures answers { result.reload ≡ 0
            → result.yes ≡ gate_rule (fixed_text_filter (opening self.old)) (levels_of_reload 0 levels.now) c.now };
}
