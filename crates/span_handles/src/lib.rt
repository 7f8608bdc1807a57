//! Handles of spans and guards of their entries, over any subscriber: a handle is one hold of its span.
#![tactic(auto)]

mod calls;
pub mod entry;
pub mod event;
pub mod guard;
pub mod laws;
pub mod record;
pub mod span;

pub use entry::Entry;
pub use guard::{Entered, EnteredSpan};
pub use span::Span;
