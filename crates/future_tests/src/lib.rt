//! Tests of futures and calls inside spans, in worlds of real stacks: an OpenTelemetry layer with a recorder over a registry.
//! They stand in a crate of their own, since a crate with tests is proved twice.
#![tactic(auto)]

#[cfg(test)]
mod acts;
#[cfg(test)]
mod leaving;
#[cfg(test)]
mod plays;
#[cfg(test)]
mod polls;
#[cfg(test)]
mod records;
#[cfg(test)]
mod scopes;
#[cfg(test)]
mod served;
#[cfg(test)]
mod stack;
