//! Readers of a value that one writer replaces, and the notes that they learn of it. Everything turns on the one list of
//! values that were put in place: a reader has the one at its number in that list, its numbers never fall, and once it has
//! learnt a note it has none that is older. A reader takes no lock. The writer is `shared_value`.
#![tactic(auto)]

pub mod note;
pub mod numbered;
pub mod order;
pub mod reader;

pub use note::ValueNote;
pub use reader::ValueReader;
