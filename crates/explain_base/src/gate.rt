//! The rule of the gate.
ghost use Rattle.std.specs.Prelude.{◌≡◌};
ghost use Rattle.trace_base.specs.Gate.{hint_allows, gate};

use trace_base::level::{Level, LevelFilter};
use trace_base::subscriber::Interest;

/// What interest, hint and the answer of `enabled` come to: the rule of the gate.
pub fn passes(interest: Interest, hint: Option<LevelFilter>, enabled: bool, level: Level) -> bool
    ensures { result ≡ gate interest hint enabled level }
{
    match interest {
        Interest::Never => false,
        Interest::Sometimes => hint_allows(hint, level) && enabled,
        Interest::Always => hint_allows(hint, level),
    }
}

fn hint_allows(hint: Option<LevelFilter>, level: Level) -> bool
    ensures { result ≡ hint_allows hint level }
{
    match hint {
        None => true,
        Some(hint) => hint.lets_through(level),
    }
}
