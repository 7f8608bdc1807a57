//! Running scripts for threads: the spans are made, workers do their calls in threads, and what comes of each span is written.
//! Everything turns on `run_script`, which runs a script, and `ended_text`, which writes what came of it; `threads_outcome` does both
//! for the script that an input is.
#![tactic(auto)]

mod entry;
mod gates;
pub mod input;
pub mod run;
mod spans;
pub mod text;

pub use input::{ThreadsOutcome, threads_outcome, threads_refusal};
pub use run::{run_gated, run_script};
pub use text::ended_text;
