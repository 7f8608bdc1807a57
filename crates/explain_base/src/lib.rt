//! The lines that the explaining programs write of directives, filters and levels, as what a text is read, and the rule of
//! the gate. They stand apart from the programs so that their wrong bodies are tried without a second proof of these.
#![tactic(auto)]

pub mod directives;
pub mod filters;
pub mod gate;
pub mod levels;
pub mod lines;
pub mod reading;

pub use lines::push;
pub use reading::Reading;
