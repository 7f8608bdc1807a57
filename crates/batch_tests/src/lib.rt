//! Tests of `trace_batch`: senders in threads that run at once, that fill the queue, and whose threads are refused. They
//! stand in a crate of their own, since a crate with tests is proved twice.
#![tactic(auto)]

#[cfg(test)]
mod lists;
#[cfg(test)]
mod tests;
