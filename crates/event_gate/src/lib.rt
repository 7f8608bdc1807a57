//! Gates that are asked about events, one callsite at a time. Everything turns on `EventGate`: what it answers under number
//! 0 is the rule of the gate for the text that it was opened with. `TextFilter` is the filter of one text, for whoever has
//! to ask that text itself.
#![tactic(auto)]

pub mod error;
pub mod filter;
pub mod gate;
pub mod levels;

pub use error::GateError;
pub use filter::TextFilter;
pub use gate::EventGate;
pub use levels::{Admission, Levels};
