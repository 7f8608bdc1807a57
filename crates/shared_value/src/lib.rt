//! A value that threads share, and that one writer replaces: the writer, and how it and its readers are made.
//!
//! Everything turns on the one list of values that were put in place: a reader has the one at its number in that list, its
//! numbers never fall, and once it has learnt a note of the writer it has none that is older. A reader takes no lock.
#![tactic(auto)]

mod making;
mod order;
pub mod writer;

pub use making::{MAX_READERS, share};
pub use value_reader::{ValueNote, ValueReader};
pub use writer::ValueWriter;
