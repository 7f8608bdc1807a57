//! The words and numbers that conversions of records go by: which format a word names, the numbers of kinds, which ids
//! name no span, and what the process ends with. They stand apart from `trace_convert` so that its wrong bodies are tried
//! without a second proof of what its derives write.
#![tactic(auto)]

pub mod fault;
pub mod format;
pub mod ids;
pub mod kind;
pub mod markup;

pub use fault::Fault;
pub use format::{Format, width_of};
pub use ids::is_zero;
pub use kind::Kind;
pub use markup::escape;
