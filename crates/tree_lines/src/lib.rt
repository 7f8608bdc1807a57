//! What the command `tree` writes: of finished spans a line for each node of their forest, one for each total of their
//! traces, and the end line. Everything turns on `tree_text`, which writes these.
#![tactic(auto)]

pub mod line;
pub mod text;

pub use text::tree_text;
