//! A line that is refused.

use trace_lines::Told;

/// A line that is refused, by its number, from 1.
#[derive(Drop)]
pub struct RefusedLine {
    /// The number of the line, blank ones included; one more than there are where no settings line came.
    pub line: u64,
    /// Why it is refused.
    pub told: Told,
}
