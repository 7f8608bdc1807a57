//! What admits nothing.
ghost use Rattle.std.specs.Prelude.{false, Some};
ghost use Rattle.trace_base.specs.declared.level.LevelFilter.TheVariants.{OFF};
ghost use Rattle.trace_base.specs.declared.subscriber.Interest.TheVariants as interests;

use crate::callsite::Callsite;
use crate::filter::Filter;
use crate::level::LevelFilter;
use crate::subscriber::Interest;

/// Admits nothing; `tracing_core::subscriber::NoSubscriber`. It decides as a `Filter`: a subscriber without spans
/// could be told of none, so a lane that no subscriber serves stands for that one.
#[derive(Clone, Copy, Debug, Drop)]
pub struct NoSubscriber {}

impl Filter for NoSubscriber {
    ghost interest = { λ s c. interests.Never };

    ghost enables = { λ s lane c. false };

    ghost hint = { λ s. Some OFF };

    fn enabled(&self, _lane: u64, _callsite: &Callsite) -> bool {
        false
    }

    fn callsite_enabled(&self, _callsite: &Callsite) -> Interest {
        Interest::Never
    }

    fn max_level_hint(&self) -> Option<LevelFilter> {
        Some(LevelFilter::OFF)
    }
}
