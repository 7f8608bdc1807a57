//! The JSON of a line: its members scanned as they stand or, where that goes no further, read to a tree.
pub(crate) mod cut;
pub mod flat;
pub(crate) mod object;
pub mod scan;
pub(crate) mod tree;
pub(crate) mod value;
