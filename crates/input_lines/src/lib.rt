//! The lines of an input, and what is written for one of which a line is refused. Whatever the lines are, it is the first that is
//! refused whose refusal line is written.
//! Everything turns on `first_line`, which cuts a line off, and `RefusedLine`, which `refused_answer` writes.
#![tactic(auto)]

pub mod answer;
pub mod lines;
pub mod refused_line;

pub use answer::{Answer, refused_answer};
pub use lines::{are_blank, first_line, is_blank};
pub use refused_line::RefusedLine;
