//! What the program carries out: commands over any source and sink.
//!
//! All turns on `top`, which reads the words and calls what they ask for; which word is which command stands in `script`. How
//! lines come and answers go is `trace_stream`'s.
#![tactic(auto)]

pub mod batch;
pub mod invocation;
pub mod script;
pub mod threads;
pub mod top;
