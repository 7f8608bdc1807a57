//! The limits of a script.

/// The most bytes that the input of a script may have: 2^26.
pub const MAX_INPUT: usize = 67_108_864;
