//! What a span's state is: a making and the ops that were applied since, which a close turns into the span's record.
//! Everything turns on `SpanState`: `apply` adds an op, and `close` answers the record that the ops define.
#![tactic(auto)]

mod closing;
pub mod fields;
pub mod laws;
pub mod op;
pub mod settings;
pub mod stack;
pub mod state;
pub mod times;
pub mod update;

pub use fields::event::event_op;
pub use fields::first::first_attributes;
pub use fields::span::span_update;
pub use op::{Op, OpReply, SetParentError};
pub use settings::LayerSettings;
pub use stack::IdValueStack;
pub use state::SpanState;
pub use update::Update;
