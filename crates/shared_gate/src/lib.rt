//! A gate that threads share. Everything turns on the one list of texts that its writer puts in force: what a gate answers
//! is the rule of the gate for the text at the number that it names, a gate's numbers never fall, and once it has learnt a
//! note of the writer it names none that is older. A gate is asked without a lock.
#![tactic(auto)]

pub mod gate;
pub mod laws;
pub mod note;
pub mod writer;

pub use event_gate::{Admission, EventGate, GateError, Levels};
pub use gate::SharedGate;
pub use note::GateNote;
pub use writer::GateWriter;
