//! What a gate is asked with, and what it answers.
use otel_base::list::Items;
use trace_base::level::LevelFilter;

/// A lane's list of levels, and the number of the text under which they came onto it.
#[derive(Drop)]
pub struct Levels {
    pub reload: u64,
    pub list: Items<LevelFilter>,
}

/// Whether a callsite is let through, and the number of the text that says so: 0 for the opening one.
#[derive(Clone, Copy, Debug, PartialEq, Eq, Drop)]
pub struct Admission {
    pub yes: bool,
    pub reload: u64,
}
