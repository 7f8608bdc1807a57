//! Where a finished span stands among the others.

/// Where a span stands in the forest.
#[derive(Clone, Copy, Debug, PartialEq, Eq)]
pub struct Node {
    /// The span's place in the list of finished spans, from 0.
    pub place: u64,
    /// How many spans it stands under.
    pub depth: u64,
}
