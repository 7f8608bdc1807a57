//! Members of the objects that lines are, taken one after another, for readers of lines that `trace_lines` doesn't read.
//! Everything turns on `Members`.
#![tactic(auto)]

pub mod members;

pub use members::Members;
