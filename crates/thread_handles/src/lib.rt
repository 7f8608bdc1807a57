//! The handles of spans that threads share. Everything turns on what a handle leaves when it ends: `share` makes one for
//! each worker, `run_job` does a worker's calls by its own and ends them, and `gather_all` joins what the handles of a span
//! left to the span's one history.
#![tactic(auto)]

mod clones;
pub mod gather;
mod job;
mod worker;

pub use clones::share;
pub use gather::{Ended, gather_all};
pub use job::Job;
pub use worker::{end_handle, run_job};
