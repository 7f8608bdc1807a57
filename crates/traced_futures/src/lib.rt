//! Futures under spans, for programs that carry the records of `traced` from call to call.
#![tactic(auto)]

pub mod polling;

pub use polling::{into_inner, is_ready, poll};
