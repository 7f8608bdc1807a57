//! Lanes: what a thread of a program keeps for tracing.
use crate::dispatcher::Dispatch;
use otel_base::stack::ContextStack;
use otel_base::text::Text;

/// What a thread keeps for tracing, as a value that is handed from call to call; in Rust these are thread-locals.
#[derive(Drop)]
pub struct Lane {
    /// Its id.
    pub id: u64,
    /// Its name, if it has one.
    pub name: Option<Text>,
    /// The subscriber that it uses, if it isn't the world's global one; see `set_default`.
    pub default: Option<Dispatch>,
    /// The contexts that are attached to it.
    pub contexts: ContextStack,
}
