//! Scripts for threads: the spans that workers share, and for each worker the list of its calls. Everything turns on
//! `ThreadScript`; `specs/Asks` says which histories of a span do what is asked of it, and `op_of` makes the op that a call
//! comes to.
#![tactic(auto)]

mod ops;
mod plan;
pub mod script;
mod values;

pub use ops::op_of;
pub use plan::Plan;
pub use script::{SharedLine, ThreadScript, WorkerCall, WorkerOp};
pub use values::values_of;
