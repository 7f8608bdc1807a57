//! Task lines: what they spell, and whether a task names only what its settings have.
//!
//! All turns on `read_task`, whose form is `specs/TaskForm`, and on `missing_name`, which is `specs/Fit`.
#![tactic(auto)]

pub mod fit;
mod quick;
pub mod read;

pub use fit::missing_name;
pub use read::read_task;
