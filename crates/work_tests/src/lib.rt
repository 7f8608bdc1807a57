//! Tests of what threads share. Workers over spans, from the lines of a script to what came of it: with a turnstile that
//! holds calls back, and with gates that count their questions. A gate and its writer in one thread, eight gates in threads
//! while a writer puts texts in force, and a layer that is exchanged through its lock. They stand in a crate of their own,
//! since a crate with tests is proved twice.
#![tactic(auto)]

#[cfg(test)]
mod at_once;
#[cfg(test)]
mod gate_questions;
#[cfg(test)]
mod gates;
#[cfg(test)]
mod handles;
#[cfg(test)]
mod many_gates;
#[cfg(test)]
mod one_gate;
#[cfg(test)]
mod scripts;
