//! Calls of a program that is traced, over any subscriber: what stands for the macros, and handles that are closed and
//! entered where a program says so. A program carries one record of its world and lanes from call to call, `StandsReady` of
//! `specs/Standing.antt`, and what it made and entered since, `specs/AsBefore.antt`.
#![tactic(auto)]

pub mod closing;
pub mod entering;
pub mod laws;
pub mod making;
pub mod placing;
pub mod starting;
pub mod telling;

pub use closing::close;
pub use entering::{enter, exit};
pub use making::span;
pub use placing::{child_of, root};
pub use starting::{lane, start};
pub use telling::event;
