//! OTLP JSON, one export request a line, with the spans of up to 1,000 records.

use crate::record::{self, AttributeValue, Record};
use convert_base::{Fault, is_zero};
use serde::Serialize;
use std::alloc::Global;

#[derive(Drop, Serialize)]
#[serde(rename_all = "camelCase")]
struct Export {
    resource_spans: Vec<ResourceSpans>,
}

#[derive(Drop, Serialize)]
#[serde(rename_all = "camelCase")]
struct ResourceSpans {
    resource: Resource,
    scope_spans: Vec<ScopeSpans>,
}

#[derive(Drop, Serialize)]
struct ScopeSpans {
    scope: Scope,
    spans: Vec<Span>,
}

// What the spans are of: by convention the name of the service.
#[derive(Drop, Serialize)]
struct Resource {
    attributes: Vec<KeyValue>,
}

// What recorded the spans.
#[derive(Drop, Serialize)]
struct Scope {
    name: String,
}

#[derive(Drop, Serialize)]
#[serde(rename_all = "camelCase")]
struct Span {
    trace_id: String,
    span_id: String,
    #[serde(skip_serializing_if = "Option::is_none")]
    parent_span_id: Option<String>,
    name: String,
    kind: u8,
    start_time_unix_nano: String,
    end_time_unix_nano: String,
    attributes: Vec<KeyValue>,
    events: Vec<Event>,
    links: Vec<Link>,
    status: Status,
}

#[derive(Drop, Serialize)]
struct KeyValue {
    key: String,
    value: AnyValue,
}

#[derive(Drop, Serialize)]
#[serde(rename_all = "camelCase")]
enum AnyValue {
    BoolValue(bool),
    // A number of 64 bits is a text in JSON.
    IntValue(String),
    StringValue(String),
    ArrayValue(ArrayValue),
}

#[derive(Drop, Serialize)]
struct ArrayValue {
    values: Vec<Item>,
}

#[derive(Drop, Serialize)]
#[serde(rename_all = "camelCase")]
struct Item {
    string_value: String,
}

#[derive(Drop, Serialize)]
#[serde(rename_all = "camelCase")]
struct Event {
    time_unix_nano: String,
    name: String,
    attributes: Vec<KeyValue>,
}

#[derive(Drop, Serialize)]
#[serde(rename_all = "camelCase")]
struct Link {
    trace_id: String,
    span_id: String,
    attributes: Vec<KeyValue>,
}

#[derive(Drop, Serialize)]
struct Status {
    #[serde(skip_serializing_if = "Option::is_none")]
    message: Option<String>,
    code: u8,
}

/// How many records one request has at most.
pub const MAX_SPANS: usize = 1_000;

/// The records of a request that isn't written yet.
#[derive(Drop)]
pub struct Batch {
    spans: Vec<Span>,
}

impl Batch {
    /// No records.
    pub fn new(alloc: Global) -> Batch {
        Batch {
            spans: Vec::new(alloc),
        }
    }

    /// Adds a record, and answers whether the batch is full.
    pub fn add(&mut self, alloc: Global, record: Record) -> Result<bool, Fault> {
        self.spans.push(span_of(alloc, record)?)?;
        Ok(self.spans.len() >= MAX_SPANS)
    }

    /// The line of the request of a service, none where there is no record.
    pub fn line(self, alloc: Global, service: &str) -> Result<Option<String>, Fault> {
        if self.spans.is_empty() {
            return Ok(None);
        }
        let name = SCOPE.to_string(alloc)?;
        let scope_spans = vec![in alloc;
            ScopeSpans {
                scope: Scope { name },
                spans: self.spans
            },
        ]?;
        let resource = Resource {
            attributes: vec![in alloc; service_name(alloc, service)?]?,
        };
        let resource_spans = vec![in alloc;
            ResourceSpans {
                resource,
                scope_spans
            },
        ]?;
        let line = serde_json::to_string(alloc, &Export { resource_spans }).map_err(
            |_| Fault::Memory,
        )?;
        Ok(Some(line))
    }
}

const SCOPE: &str = "weryndo";

fn service_name(alloc: Global, service: &str) -> Result<KeyValue, Fault> {
    Ok(KeyValue {
        key: "service.name".to_string(alloc)?,
        value: AnyValue::StringValue(service.to_string(alloc)?),
    })
}

fn span_of(alloc: Global, record: Record) -> Result<Span, Fault> {
    let parent = record.parent;
    Ok(Span {
        trace_id: record.trace,
        span_id: record.span,
        parent_span_id: if is_zero(parent.as_str()) {
            None
        } else {
            Some(parent)
        },
        name: record.name,
        kind: record.kind.number(),
        start_time_unix_nano: format!(in alloc; "{}", record.start)?,
        end_time_unix_nano: format!(in alloc; "{}", record.end)?,
        attributes: attributes_of(alloc, record.attributes)?,
        events: events_of(alloc, record.events)?,
        links: links_of(alloc, record.links)?,
        status: status_of(record.status),
    })
}

fn status_of(status: record::Status) -> Status {
    match status {
        record::Status::Unset => Status {
            message: None,
            code: 0,
        },
        record::Status::Ok => Status {
            message: None,
            code: 1,
        },
        record::Status::Error(description) => Status {
            message: Some(description),
            code: 2,
        },
    }
}

fn attributes_of(
    alloc: Global,
    pairs: Vec<(String, AttributeValue)>,
) -> Result<Vec<KeyValue>, Fault> {
    let mut attributes = Vec::new(alloc);
    for (key, value) in pairs {
        attributes.push(KeyValue {
            key,
            value: value_of(alloc, value)?,
        })?;
    }
    Ok(attributes)
}

fn value_of(alloc: Global, value: AttributeValue) -> Result<AnyValue, Fault> {
    match value {
        AttributeValue::Bool(given) => Ok(AnyValue::BoolValue(given)),
        AttributeValue::Number(number) => Ok(AnyValue::IntValue(format!(in alloc; "{number}")?)),
        AttributeValue::Text(text) => Ok(AnyValue::StringValue(text)),
        AttributeValue::List(texts) => Ok(AnyValue::ArrayValue(ArrayValue {
            values: items_of(alloc, texts)?,
        })),
    }
}

fn items_of(alloc: Global, texts: Vec<String>) -> Result<Vec<Item>, Fault> {
    let mut items = Vec::new(alloc);
    for string_value in texts {
        items.push(Item { string_value })?;
    }
    Ok(items)
}

fn events_of(alloc: Global, told: Vec<record::Event>) -> Result<Vec<Event>, Fault> {
    let mut events = Vec::new(alloc);
    for event in told {
        events.push(Event {
            time_unix_nano: format!(in alloc; "{}", event.time)?,
            name: event.name,
            attributes: attributes_of(alloc, event.attributes)?,
        })?;
    }
    Ok(events)
}

fn links_of(alloc: Global, told: Vec<record::Link>) -> Result<Vec<Link>, Fault> {
    let mut links = Vec::new(alloc);
    for link in told {
        links.push(Link {
            trace_id: link.trace,
            span_id: link.span,
            attributes: attributes_of(alloc, link.attributes)?,
        })?;
    }
    Ok(links)
}
