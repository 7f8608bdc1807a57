//! A subscriber that keeps the list of requests that its calls spell.
//!
//! All turns on `specs/Tapes`: what each call makes of a tape beside the registry in it.
#![tactic(auto)]

pub mod copies;
mod naming;
mod opened;
pub mod part;
mod roll;
pub mod tape;

pub use tape::Tape;
