//! What holds of what a run writes, byte by byte: which lines it has, and what its records tell of the spans of its script.
#![tactic(auto)]

pub mod laws;
