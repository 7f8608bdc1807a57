//! The status of a span.
use crate::text::Text;

/// How a span went, from the least to the greatest, errors by the bytes of their descriptions;
/// `opentelemetry::trace::Status`.
#[derive(Clone, PartialEq, Eq, PartialOrd, Ord, Drop)]
pub enum Status {
    /// Nothing was told.
    Unset,
    /// It failed.
    Error { description: Text },
    /// It is said to have gone well, and no error changes that.
    Ok,
}
