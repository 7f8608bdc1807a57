//! What a program that is traced asks of the OpenTelemetry layer by its handles: the calls of `OpenTelemetrySpanExt`, which
//! change nothing of spans, lanes and callsites.
#![tactic(auto)]

pub mod asking;

pub use asking::{add_link, set_attribute, set_parent, set_status};
