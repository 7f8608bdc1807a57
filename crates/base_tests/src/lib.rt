//! Tests at concrete values of the crates that the layer and the program stand on. They stand in a crate of their own, since a
//! crate with tests is proved twice. What can be said as a line of a script is shown by the stored runs of programs.
#![tactic(auto)]

#[cfg(test)]
mod directives;
#[cfg(test)]
mod metrics;
#[cfg(test)]
mod records;
#[cfg(test)]
mod spans;
#[cfg(test)]
mod states;
#[cfg(test)]
mod worlds;
