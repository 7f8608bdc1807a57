//! Tasks that are polled in turn, each under a span of its own.
//!
//! All turns on `run_tasks`, which polls the tasks of a script over any subscriber: it carries out the requests of a flat
//! list (`specs/Flat`), each by exactly its call (`specs/Carrying`), and where it is refused a front of that list
//! (`specs/Stops`). Over a new tape the list itself is left (`runs_over_a_tape`), or handed on as it is spelled
//! (`run_on_tape`).
#![tactic(auto)]

mod acts;
mod begin;
mod copies;
mod fields;
mod queue;
pub mod request_sink;
pub mod run;
pub mod running;
pub mod script;
pub mod taped;
mod turn;

pub use request_sink::RequestSink;
pub use run::run_tasks;
pub use script::{Step, Task, TaskScript};
pub use taped::{run_on_tape, runs_over_a_tape};
