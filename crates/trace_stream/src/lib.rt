//! A script's lines from a source, answered into a sink: as they come, or all at once.
//!
//! All turns on `run`, which answers each line before it reads on, and `answer_all`, which reads all lines first. What
//! either promises is `Carries` of a `Meaning`.
#![tactic(auto)]

pub mod all_lines;
pub mod answers;
pub mod failed;
pub mod input;
pub mod lines;
pub mod progress;
pub mod run;
pub mod sink;
pub mod source;
pub mod status;
pub mod turns;
pub mod written;

pub use all_lines::{AllLinesCommand, answer_all};
pub use failed::Failed;
pub use sink::{MemSink, Sink, StdSink, SureSink};
pub use source::{MemSource, Source, StdSource, SureSource};
pub use status::Status;
pub use turns::Turn;
