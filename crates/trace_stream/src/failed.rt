//! That a read or a write failed.

/// A read or a write failed. Which fault it was isn't told.
#[derive(Clone, Copy, Debug, PartialEq, Eq)]
pub struct Failed;
