//! What a whole script records. It is run line by line, what is wanted of each finished span (`FromRecord`) is kept in order, and
//! nothing is written.
//! Everything turns on `ScriptRun`, which follows the lines and tells at their end what came of them; `follow_lines` gives it
//! the lines of an input.
#![tactic(auto)]

pub mod finished;
pub mod follow;
pub mod from_record;
pub mod laws;
pub mod line;
pub mod script;

pub use finished::FinishedSpans;
pub use follow::{follow_lines, refusal_of};
pub use from_record::FromRecord;
pub use script::ScriptRun;
