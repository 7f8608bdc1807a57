//! Attributes: keys and their values.
use crate::list::Items;
use crate::text::Text;

/// An attribute's value; `opentelemetry::Value`, without floats and with arrays of texts alone.
#[derive(Clone, Drop)]
pub enum OtelValue {
    /// `opentelemetry::Value::Bool`.
    Bool(bool),
    /// `opentelemetry::Value::I64`.
    I64(i64),
    /// `opentelemetry::Value::String`.
    Str(Text),
    /// `opentelemetry::Value::Array` of `opentelemetry::Array::String`.
    List(Items<Text>),
}

/// An attribute; `opentelemetry::KeyValue`.
#[derive(Clone, Drop)]
pub struct KeyValue {
    /// Its name; two attributes of one span may have the same.
    pub key: Text,
    /// What it says.
    pub value: OtelValue,
}
