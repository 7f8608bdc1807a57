//! Scripts of span calls on the stack of a registry, the OpenTelemetry layer, the layer of metrics and a filter.
//!
//! All turns on `Pipeline::step`, which appends a request to the history that the pipeline stands for. It serves each kind
//! of `Call`, in every place, on every lane and with any number of open guards. The bodies stand in `calls`, by subject.
#![tactic(auto)]

mod calls;
mod contexts;
mod fields;
mod filters;
mod guards;
mod laws;
mod names;
mod opening;
pub mod pipeline;
mod records;
mod runs;

pub use filters::read_filters;
pub use opening::new_world;
pub use pipeline::Pipeline;
pub use span_script::{
    Call, LAST_MOMENT, OpenError, Outcome, Refusal, Reply, Request, RequestParent, Settings, What,
};
