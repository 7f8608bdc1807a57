//! What a run tells of a script.

/// What a run tells of a script; what OpenTelemetry calls a signal.
#[derive(Clone, Copy, Debug, PartialEq, Eq)]
pub enum Signal {
    /// Replies, and the records of spans.
    Traces,
    /// The measures of events.
    Metrics,
}
