//! The registry of spans, and layers over it: a span closes when its last hold is released, and a layer is told of each
//! call after what it lies over.
#![tactic(auto)]

mod entries;
mod lane_entries;
pub mod laws;
pub mod layer;
pub mod layered;
pub mod registry;
mod table;

pub use layered::Layered;
pub use registry::Registry;
