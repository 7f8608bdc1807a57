//! Items of several lanes that threads make into texts, and that reach one writer through a queue.
//!
//! `relay` starts a sender for each lane: it makes the texts of the lane's items and puts them into a bounded queue. The
//! caller is the writer, which takes them out; `batches` cuts what it took. All turns on the rule over the queue: what a
//! lane's sender put is what was taken out of that lane, and then what the queue holds of it.
#![tactic(auto)]

pub mod batches;
pub mod item;
mod queue;
pub mod relay;
mod sender;
mod start;
mod writer;

pub use item::{Finished, Item, Sent};
