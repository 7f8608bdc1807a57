//! Moments and times of a span.
ghost use Rattle.std.specs.Prelude.{◌≡◌, ◌+◌, min};
ghost use Rattle.otel_state.specs.declared.times.TheConstants.{GREATEST};
ghost use Rattle.otel_state.specs.Times.{idle_of};
ghost use Rattle.otel_state.specs.States.{moment_after};

use otel_base::record::Moment;

/// The greatest moment, in nanoseconds, and the greatest count of entries and of events: 2^63 - 1.
pub const GREATEST: u64 = 0x7fff_ffff_ffff_ffff;

// The moment at which an op counts: it is no earlier than the last one.
pub(crate) fn moment_after(last: Moment, at: Moment) -> Moment
    ensures { result ≡ moment_after last at }
{
    last.max(at).min(GREATEST)
}

// A count with one more, which stands still at the greatest.
pub(crate) fn one_more(count: u64) -> u64
    ensures { result ≡ min (count + 1) GREATEST }
{
    count.saturating_add(1).min(GREATEST)
}

// The idle time of a span that was left last at a moment, if it was.
pub(crate) fn idle(left: Option<Moment>, made_at: Moment, busy: u64) -> u64
    ensures { result ≡ idle_of left made_at busy }
{
    match left {
        Some(left) => left.saturating_sub(made_at).saturating_sub(busy),
        None => 0,
    }
}
