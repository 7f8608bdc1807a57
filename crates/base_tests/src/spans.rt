//! Spans of a registry, the handles of spans, and what layers over a registry are told.
mod disabled;
mod handles;
mod hooks;
mod registries;
