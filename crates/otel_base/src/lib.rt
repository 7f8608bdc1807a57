//! The part of the OpenTelemetry API and SDK that spans are recorded with: contexts, statuses, attribute values,
//! finished records and the tracers that take them, and the contexts of a lane. Everything turns on `Tracer`, which
//! gives ids to spans as they start and takes their records as they finish.
#![tactic(auto)]

pub mod context;
pub mod enter_error;
pub mod laws;
pub mod list;
pub mod memory;
pub mod noop;
pub mod record;
pub mod recorder;
pub mod stack;
pub mod status;
pub mod text;
pub mod tracer;
pub mod value;
pub mod word;

pub use context::{Context, SpanContext};
pub use enter_error::EnterError;
pub use list::Items;
pub use memory::Memory;
pub use noop::NoopTracer;
pub use record::{Link, Moment, OtelEvent, Record, SpanBuilder, SpanKind};
pub use recorder::Recorder;
pub use stack::{Attached, ContextStack};
pub use status::Status;
pub use text::Text;
pub use tracer::Tracer;
pub use value::{KeyValue, OtelValue};
pub use word::Word;
