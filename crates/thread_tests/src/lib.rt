//! Tests of `trace_threads`: a span that two handles of one thread share, and spans on which two and eight threads write.
//! They stand in a crate of their own, since a crate with tests is proved twice.
#![tactic(auto)]

#[cfg(test)]
mod many;
#[cfg(test)]
mod one;
#[cfg(test)]
mod spans;
