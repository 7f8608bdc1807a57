//! The stack that scripts run on: a registry, the OpenTelemetry layer over it, which may count events, the layer of metrics,
//! and a filter outside. How it is made, and what a caller over a world with it reads off each call.
#![tactic(auto)]

pub mod filters;
pub mod gate;
pub mod interests;
pub mod laws;
pub mod measured;
mod over;
pub mod stack;
pub mod through;

pub use gate::{admits, put_in_force};
pub use stack::{Stack, new_stack};
