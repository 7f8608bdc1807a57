//! Directives that may speak of spans and of values of their fields.
mod cut;
pub mod directive;
pub mod field;
pub mod pattern;
