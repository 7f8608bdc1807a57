//! Whole-number metrics that events tell: a field whose name begins with a kind of instrument is a measure.
#![tactic(auto)]

mod family;
pub mod filter;
pub mod instruments;
pub mod layer;
pub mod measure;
mod visitor;

pub use filter::MetricsFilter;
pub use instruments::Instruments;
pub use layer::MetricsLayer;
pub use measure::{Measure, MetricKind, measures};
