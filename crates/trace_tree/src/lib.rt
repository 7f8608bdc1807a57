//! Finished spans under their parents: the forest of a list of spans, totals of its traces, and busy times. Everything
//! turns on the path of a span, the span ids from its root down to itself: the forest is the spans in the order of
//! their paths.
#![tactic(auto)]

mod adjacency;
pub mod busy;
pub mod forest;
pub mod laws;
pub mod node;
pub mod span;
pub mod totals;
mod walk;

pub use node::Node;
pub use span::TreeSpan;
pub use totals::TraceTotal;
