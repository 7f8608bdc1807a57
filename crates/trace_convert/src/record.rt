//! Record lines, as `trace_tool` writes them.
use convert_base::{Fault, Kind};
use serde::{Deserialize, Deserializer, Format, Serialize};
use serde_json::{Error, Value};
use std::alloc::Global;
use std::io;

/// A finished span. Its times are in nanoseconds, its ids lower case hexadecimal.
#[derive(Drop, Deserialize)]
pub struct Record {
    pub name: String,
    #[serde(deserialize_with = "kind")]
    pub kind: Kind,
    pub trace: String,
    pub span: String,
    pub parent: String,
    pub start: u64,
    pub end: u64,
    pub attributes: Vec<(String, AttributeValue)>,
    pub events: Vec<Event>,
    pub links: Vec<Link>,
    pub status: Status,
}

/// The value of an attribute.
#[derive(Drop, Deserialize, Serialize)]
#[serde(untagged)]
pub enum AttributeValue {
    Bool(bool),
    Number(i64),
    Text(String),
    List(Vec<String>),
}

/// What happened at a moment of a span.
#[derive(Drop, Deserialize)]
pub struct Event {
    pub name: String,
    pub time: u64,
    pub attributes: Vec<(String, AttributeValue)>,
}

/// Another span that a span refers to.
#[derive(Drop, Deserialize)]
pub struct Link {
    pub trace: String,
    pub span: String,
    pub attributes: Vec<(String, AttributeValue)>,
}

/// How a span ended.
#[derive(Drop, Deserialize)]
#[serde(rename_all = "lowercase")]
pub enum Status {
    Unset,
    Ok,
    Error(String),
}

fn kind<F: Format>(alloc: Global, from: &mut Deserializer<'_, '_, F>) -> Result<Kind, F::Error> {
    let word = from.string(alloc)?;
    match Kind::of(word.as_str()) {
        Some(kind) => Ok(kind),
        None => Err(from.custom("no kind of a span")),
    }
}

/// The record of a line that was read, none where it is blank, a reply, a refusal or the end.
pub fn record_of(
    alloc: Global,
    read: io::Result<String>,
    line: u64,
) -> Result<Option<Record>, Fault> {
    let text = read.map_err(|error| Fault::of_text(&error, Fault::NoJson { line }))?;
    let text = text.as_str();
    if text.trim().is_empty() {
        return Ok(None);
    }
    let value = Value::from_str(alloc, text).map_err(|error| read_fault(
        &error,
        Fault::NoJson { line },
    ))?;
    if value.get("record").is_none() {
        return Ok(None);
    }
    let record = serde_json::from_str(alloc, text).map_err(|error| read_fault(
        &error,
        Fault::NoRecord { line },
    ))?;
    Ok(Some(record))
}

// Want of memory is told as such, and any other error as the fault.
fn read_fault(error: &Error, fault: Fault) -> Fault {
    if error.is_memory() {
        Fault::Memory
    } else {
        fault
    }
}
