//! The time of a trace, laid over a number of equal steps.

/// The time from a trace's start to its end, in nanoseconds, over so many steps.
#[derive(Clone, Copy)]
pub struct Scale {
    pub start: u64,
    pub end: u64,
    pub steps: u64,
}

impl Scale {
    /// The step at a moment: none behind the last.
    pub fn step_at(self, moment: u64) -> u64 {
        let whole = u128::from(self.end.saturating_sub(self.start));
        let part = u128::from(moment.saturating_sub(self.start)).min(whole);
        if whole == 0 {
            return 0;
        }
        let step = part * u128::from(self.steps) / whole;
        u64::try_from(step).unwrap_or(self.steps)
    }

    /// The column of eight steps that a moment falls in: the last one at the end.
    pub fn column(self, moment: u64) -> u64 {
        (self.step_at(moment) / 8).min((self.steps / 8).saturating_sub(1))
    }
}
