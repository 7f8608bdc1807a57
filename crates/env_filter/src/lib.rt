//! Filters by directives: which spans and events are let through, by what was recorded on spans and by the lane that
//! asks.
#![tactic(auto)]

pub mod builder;
pub mod filter;
mod lanes;
pub mod laws;
mod levels;
pub mod pieces;
pub mod reload;
mod spans;
mod tables;
pub mod vars;
mod watch;

pub use builder::Builder;
pub use builder::env::FromEnvError;
pub use filter::EnvFilter;
pub use pieces::Ignored;
pub use vars::{MemVars, SysVars, Vars};
