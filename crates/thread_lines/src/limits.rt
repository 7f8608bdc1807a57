//! How much a script for threads may have.

/// The most shared spans.
pub const MAX_SHARED_SPANS: usize = 64;

/// The most workers.
pub const MAX_WORKERS: usize = 8;
