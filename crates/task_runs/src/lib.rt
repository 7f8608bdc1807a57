//! Scripts of tasks: a settings line and task lines are read, the tasks are polled in turn over a tape, and the requests that
//! they spell are run by a pipeline.
//!
//! All turns on `run_task_script`, whose outcome is that of the flat list of the script's requests, and on `TaskReader`, which
//! reads the script line by line; `tasks_answer` gives it the lines of an input, and writes what comes of them.
#![tactic(auto)]

mod copies;
pub mod input;
pub mod run;
mod runner;
pub mod script;
mod script_run;
mod text;

pub use input::{tasks_answer, tasks_refusal};
pub use run::run_task_script;
pub use script::TaskReader;
