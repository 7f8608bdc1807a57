//! Filters: what decides for a callsite.
ghost use Rattle.std.specs.Prelude.{◌≡◌, ℕ, Bool, Option};
ghost use Rattle.trace_base.specs.declared.callsite.Callsite.{Callsite};
ghost use Rattle.trace_base.specs.declared.level.LevelFilter.{LevelFilter};
ghost use Rattle.trace_base.specs.declared.subscriber.Interest.{Interest};

use crate::callsite::Callsite;
use crate::level::LevelFilter;
use crate::subscriber::Interest;

/// What decides for a callsite; `tracing_subscriber::layer::Filter`, without its hooks.
pub trait Filter {
    /// What it answers for a callsite once and for all.
    ghost interest: { Self → Callsite → Interest };

    /// What it answers for a callsite on a lane.
    ghost enables: { Self → ℕ → Callsite → Bool };

    /// The level past which it lets nothing through, if there is one.
    ghost hint: { Self → Option LevelFilter };

    /// Whether it lets a callsite through on a lane now; `Filter::enabled`.
    fn enabled(&self, lane: u64, callsite: &Callsite) -> bool
        ensures { result ≡ enables self.now lane callsite.now };

    /// Whether it lets a callsite through always, never, or has to be asked; `Filter::callsite_enabled`.
    fn callsite_enabled(&self, callsite: &Callsite) -> Interest
        ensures { result ≡ interest self.now callsite.now };

    /// The level past which it lets nothing through; `Filter::max_level_hint`.
    fn max_level_hint(&self) -> Option<LevelFilter>
        ensures { result ≡ hint self.now };
}
