//! What the command `batch` writes: of records batch lines, whose items senders in threads make into texts, and the end
//! line. Everything turns on `batches_text`, which hands each lane's records to `relay` of `trace_batch`.
#![tactic(auto)]

pub mod finished;
mod line;
mod lists;
pub mod text;

pub use finished::FinishedSpan;
pub use text::batches_text;
