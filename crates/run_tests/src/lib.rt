//! Tests of the program's runs, over sources and sinks in memory. They stand in a crate of their own, since a crate with tests
//! is proved twice.
#![tactic(auto)]

#[cfg(test)]
mod tests;
