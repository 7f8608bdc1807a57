//! What a whole script gives.
use crate::reply::{Refusal, Reply};
use otel_base::list::Items;
use otel_base::record::Record;

/// What a whole script gives.
#[derive(Drop)]
pub struct Outcome {
    /// The replies to the requests before the first refused one, or to all of them.
    pub replies: Items<Reply>,
    /// The records of the spans that these requests closed, oldest first.
    pub records: Items<Record>,
    /// The place of the first refused request, from 0, and why it is refused; `None` where none is. It is never
    /// refused for want of memory.
    pub refused: Option<(u64, Refusal)>,
    /// How many spans are open behind the requests that were served.
    pub left_open: u64,
}
