//! Records as values of JSON, as they are before their lines are written.
ghost use Rattle.std.specs.Prelude.{◌≡◌, IfOk};
ghost use Rattle.serde_json.specs.Data.{Data, no_members, object, string};
ghost use Rattle.serde_json.specs.View.{view};
ghost use Rattle.trace_lines.specs.values.Building.{members_of, with_lane, AddsMember};
ghost use Rattle.trace_lines.specs.text.Hex.{hex16, hex32};
ghost use Rattle.trace_lines.specs.reading.Object.{whole_number};
ghost use Rattle.trace_lines.specs.values.RecordData.{record_object};

use super::hex::{as_text, digits_of, digits_of_long};
use super::record::name_of;
use otel_base::list::Items;
use otel_base::memory::Memory;
use otel_base::record::{Link, OtelEvent, Record};
use otel_base::status::Status;
use otel_base::text::Text;
use otel_base::value::{KeyValue, OtelValue};
use serde_json::{Map, Value, push, put};
use std::alloc::{AllocError, Global};

/// What a part of a record is in JSON.
trait ToJson {
    /// Its value.
    ghost as_data: { Self → Data };

    /// Makes its value.
    fn to_json(&self, alloc: Global) -> Result<Value, AllocError>
        ensures { IfOk result (λ value. view value ≡ as_data self.now) };
}

impl ToJson for Text {
    ghost use Rattle.serde_json.specs.Data.{string};

    ghost as_data = { string };

    fn to_json(&self, alloc: Global) -> Result<Value, AllocError> {
        Value::try_from_str(alloc, self.as_str())
    }
}

impl<T: ToJson> ToJson for Items<T> {
    ghost use Rattle.trace_lines.specs.reading.Object.{array_of};

    ghost as_data = { array_of T.as_data };

    fn to_json(&self, alloc: Global) -> Result<Value, AllocError> {
        let mut values = Vec::new(alloc);
        for item in self.as_slice() {
            push(&mut values, item.to_json(alloc)?)?;
        }
        Ok(Value::Array(values))
    }
}

impl ToJson for OtelValue {
    ghost use Rattle.trace_lines.specs.values.RecordData.{attribute_value};

    ghost as_data = { attribute_value };

    fn to_json(&self, alloc: Global) -> Result<Value, AllocError> {
        match self {
            OtelValue::Bool(truth) => Ok(Value::from(*truth)),
            OtelValue::I64(number) => Ok(Value::from(*number)),
            OtelValue::Str(text) => text.to_json(alloc),
            OtelValue::List(texts) => texts.to_json(alloc),
        }
    }
}

impl ToJson for KeyValue {
    ghost use Rattle.trace_lines.specs.values.RecordData.{attribute_data};

    ghost as_data = { attribute_data };

    fn to_json(&self, alloc: Global) -> Result<Value, AllocError> {
        let mut pair = Vec::new(alloc);
        push(&mut pair, self.key.to_json(alloc)?)?;
        push(&mut pair, self.value.to_json(alloc)?)?;
        Ok(Value::Array(pair))
    }
}

impl ToJson for OtelEvent {
    ghost use Rattle.trace_lines.specs.values.RecordData.{event_data};

    ghost as_data = { event_data };

    fn to_json(&self, alloc: Global) -> Result<Value, AllocError> {
        let object = ObjectBuilder::new(alloc)
            .with("attributes", &self.attributes)?
            .with_number("time", self.time)?
            .with("name", &self.name)?;
        Ok(object.into_value())
    }
}

impl ToJson for Link {
    ghost use Rattle.trace_lines.specs.values.RecordData.{link_data};

    ghost as_data = { link_data };

    fn to_json(&self, alloc: Global) -> Result<Value, AllocError> {
        let object = ObjectBuilder::new(alloc)
            .with("attributes", &self.attributes)?
            .with_id("span", self.context.span)?
            .with_long_id("trace", self.context.trace)?;
        Ok(object.into_value())
    }
}

impl ToJson for Status {
    ghost use Rattle.trace_lines.specs.values.RecordData.{status_data};

    ghost as_data = { status_data };

    fn to_json(&self, alloc: Global) -> Result<Value, AllocError> {
        match self {
            Status::Unset => Value::try_from_str(alloc, "unset"),
            Status::Error { description } => {
                let object = ObjectBuilder::new(alloc).with("error", description)?;
                Ok(object.into_value())
            }
            Status::Ok => Value::try_from_str(alloc, "ok"),
        }
    }
}

// An object that is being made.
#[derive(Drop)]
pub struct ObjectBuilder {
    members: Map<String, Value>,
    alloc: Global,
}

impl ObjectBuilder {
    fn new(alloc: Global) -> ObjectBuilder
        ensures { members_of result ≡ no_members }
    {
        ObjectBuilder {
            members: Map::new(alloc),
            alloc,
        }
    }

    // With one member more.
    fn with<T: ToJson>(self, name: &str, part: &T) -> Result<ObjectBuilder, AllocError>
        ensures { IfOk result (AddsMember self name.now (T.as_data part.now)) }
    {
        let mut object = self;
        let value = part.to_json(object.alloc)?;
        put(&mut object.members, object.alloc, name, value)?;
        Ok(object)
    }

    fn with_number(self, name: &str, number: u64) -> Result<ObjectBuilder, AllocError>
        ensures { IfOk result (AddsMember self name.now (whole_number number)) }
    {
        let mut object = self;
        put(&mut object.members, object.alloc, name, Value::from(number))?;
        Ok(object)
    }

    // With the lane, if that is told.
    fn with_lane(self, lane: Option<u64>) -> Result<ObjectBuilder, AllocError>
        ensures { IfOk result (λ o. members_of o ≡ with_lane lane (members_of self)) }
    {
        match lane {
            Some(lane) => self.with_number("lane", lane),
            None => Ok(self),
        }
    }

    fn with_text(self, name: &str, text: &str) -> Result<ObjectBuilder, AllocError>
        ensures { IfOk result (AddsMember self name.now (string text.now)) }
    {
        let mut object = self;
        let value = Value::try_from_str(object.alloc, text)?;
        put(&mut object.members, object.alloc, name, value)?;
        Ok(object)
    }

    fn with_id(self, name: &str, id: u64) -> Result<ObjectBuilder, AllocError>
        ensures { IfOk result (AddsMember self name.now (string (hex16 id))) }
    {
        let digits = digits_of(id);
        self.with_text(name, as_text(&digits))
    }

    fn with_long_id(self, name: &str, id: u128) -> Result<ObjectBuilder, AllocError>
        ensures { IfOk result (AddsMember self name.now (string (hex32 id))) }
    {
        let digits = digits_of_long(id);
        self.with_text(name, as_text(&digits))
    }

    fn into_value(self) -> Value
        ensures { view result ≡ object (members_of self) }
    {
        Value::Object(self.members)
    }
}

// The record with a number, and its lane, if that is told.
fn object_of(
    alloc: Global,
    number: u64,
    lane: Option<u64>,
    finished: &Record,
) -> Result<Value, AllocError>
    ensures { IfOk result (λ value. view value ≡ record_object lane number finished.now) }
{
    let object = ObjectBuilder::new(alloc)
        .with("status", &finished.status)?
        .with("links", &finished.links)?
        .with("events", &finished.events)?
        .with("attributes", &finished.attributes)?
        .with_number("end", finished.end)?
        .with_number("start", finished.start)?
        .with_id("parent", finished.parent)?
        .with_id("span", finished.context.span)?
        .with_long_id("trace", finished.context.trace)?
        .with_text("kind", name_of(finished.kind))?
        .with("name", &finished.name)?
        .with_number("record", number)?
        .with_lane(lane)?;
    Ok(object.into_value())
}

/// The object of a record's line before it is written, with the record's number, and the lane on which its span closed if
/// that is told; `Memory` freely.
pub fn record_object(
    alloc: Global,
    number: u64,
    lane: Option<u64>,
    finished: &Record,
) -> Result<Value, Memory>
    ensures { IfOk result (λ value. view value ≡ record_object lane number finished.now) }
{
    Ok(object_of(alloc, number, lane, finished)?)
}
