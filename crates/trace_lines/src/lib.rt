//! Lines of scripts of span calls: reading their settings and requests, and writing what these give.
//!
//! What requests do is in `span_script`.
#![tactic(auto)]

pub mod generated;
pub mod laws;
mod level_words;
pub mod limits;
pub mod read;
pub mod signal;
pub mod told;
pub mod write;

pub use limits::MAX_INPUT;
pub use read::{
    LineError, Object, Value, fields_of, given_fields, otel_value_of, read_attribute_value,
    read_attributes, read_fields, read_request, read_settings, read_span_id, read_status,
    read_trace_id, read_value,
};
pub use signal::Signal;
pub use span_script::{Call, LAST_MOMENT, Refusal, Reply, Request, RequestParent, Settings, What};
pub use told::Told;
pub use write::{
    TextBuffer, add_end_line, add_measure_line, add_measures_end_line, add_record_line,
    add_refusal_line, add_reply_line, end_line, measure_line, measures_end_line, record_line,
    record_object, refusal_line, reply_line,
};
