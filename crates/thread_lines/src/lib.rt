//! Scripts for threads, as lines: a settings line, then the spans that workers share, then a list of calls for each worker.
//! Everything turns on `read_script`, which tests each line before anything is run: it answers the script, or the first line
//! that is refused.
#![tactic(auto)]

mod added;
pub mod limits;
pub mod line;
pub mod read;
mod require;
pub mod script;
mod stop;
mod worker_ops;

pub use script::read_script;
