//! Workers in threads over shared spans. Everything turns on `work`: each worker makes the calls of its list through
//! handles of its own, and of each span one history comes back that does what every list asks of it, and nothing else.
#![tactic(auto)]

mod prepare;
pub mod running;
mod spans;
mod threads;

pub use running::work;
pub use spans::end_handles;
pub use thread_handles::Ended;
pub use thread_script::{SharedLine, ThreadScript, WorkerCall, WorkerOp, values_of};
