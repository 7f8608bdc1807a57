//! The trace event format: times in microseconds with three decimals, and in each row spans that nest or lie apart.
use crate::record::{AttributeValue, Event, Link, Record, Status};
use crate::traces::Trace;
use convert_base::{Fault, Kind};
use serde::Serialize;
use std::alloc::Global;
use std::collections::BTreeMap;

// What a viewer shows of a span beside its name and times.
#[derive(Drop, Serialize)]
struct SpanDetails {
    span: String,
    parent: String,
    status: String,
    attributes: BTreeMap<String, AttributeValue>,
    links: Vec<LinkDetails>,
}

#[derive(Drop, Serialize)]
struct LinkDetails {
    trace: String,
    span: String,
    attributes: BTreeMap<String, AttributeValue>,
}

#[derive(Drop, Serialize)]
struct EventDetails {
    attributes: BTreeMap<String, AttributeValue>,
}

#[derive(Drop, Serialize)]
struct RowDetails {
    name: String,
}

/// The lines of traces, each but the first of all behind a comma. Rows are numbered from 1.
#[derive(Clone, Copy, Default)]
pub struct ChromeRows {
    row_count: u64,
}

// The rows of one trace: its spans that haven't ended where the last one of the row began, by their ends.
#[derive(Drop)]
struct TraceRows {
    first_number: u64,
    open_ends: Vec<Vec<u64>>,
}

impl ChromeRows {
    /// The lines of a trace whose spans come in the order of their starts, the longer one first: each span, with its
    /// events, in the first row of the trace in which it nests. A new row begins with its name.
    pub fn lines(&mut self, alloc: Global, trace: Trace) -> Result<String, Fault> {
        let mut lines = String::new(alloc);
        let mut rows = TraceRows {
            first_number: self.row_count.saturating_add(1),
            open_ends: Vec::new(alloc),
        };
        for record in trace.records {
            let (row, is_new) = rows.row_for(alloc, record.start, record.end)?;
            if is_new {
                self.row_count = self.row_count.saturating_add(1);
                if self.row_count > 1 {
                    lines.push_str(",\n")?;
                }
                lines.push_str(row_line(alloc, row, trace.id.as_str())?.as_str())?;
            }
            lines.push_str(span_lines(alloc, row, record)?.as_str())?;
        }
        Ok(lines)
    }
}

impl TraceRows {
    // The number of the row of a span, and whether it is a new one.
    fn row_for(&mut self, alloc: Global, start: u64, end: u64) -> Result<(u64, bool), Fault> {
        let mut number = self.first_number;
        for open in self.open_ends.iter_mut() {
            if put_in_row_if_it_nests(open, start, end)? {
                return Ok((number, false));
            }
            number = number.saturating_add(1);
        }
        self.open_ends.push(vec![in alloc; end]?)?;
        Ok((number, true))
    }
}

// Whether a span that starts now nests in a row: those that have ended are left out, and it ends within the last other.
fn put_in_row_if_it_nests(open: &mut Vec<u64>, start: u64, end: u64) -> Result<bool, Fault> {
    for _ in 0..open.len() {
        match open.last() {
            Some(last) if *last <= start => open.pop(),
            _ => break,
        };
    }
    let fits = open.last().is_none_or(|last| end <= *last);
    if fits {
        open.push(end)?;
    }
    Ok(fits)
}

// The lines of a span and its events.
fn span_lines(alloc: Global, row: u64, record: Record) -> Result<String, Fault> {
    let name = json(alloc, &record.name)?;
    let kind = kind_name(record.kind);
    let start = micros(alloc, record.start)?;
    let lasts = micros(alloc, record.end.saturating_sub(record.start))?;
    let details = SpanDetails {
        span: record.span,
        parent: record.parent,
        status: status_text(alloc, record.status)?,
        attributes: members_of(alloc, record.attributes)?,
        links: links_of(alloc, record.links)?,
    };
    let args = json(alloc, &details)?;
    let mut lines = format!(in alloc;
        ",\n{{\"name\":{name},\"cat\":\"{kind}\",\"ph\":\"X\",\"ts\":{start},\"dur\":{lasts},\"pid\":1,\"tid\":{row},\"args\":{args}}}"
    )?;
    for event in record.events {
        lines.push_str(event_line(alloc, row, event)?.as_str())?;
    }
    Ok(lines)
}

fn row_line(alloc: Global, row: u64, trace: &str) -> Result<String, Fault> {
    let args = json(
        alloc,
        &RowDetails {
            name: format!(in alloc; "trace {trace}")?,
        },
    )?;
    Ok(format!(in alloc;
        "{{\"name\":\"thread_name\",\"ph\":\"M\",\"pid\":1,\"tid\":{row},\"args\":{args}}}"
    )?)
}

fn event_line(alloc: Global, row: u64, event: Event) -> Result<String, Fault> {
    let name = json(alloc, &event.name)?;
    let at = micros(alloc, event.time)?;
    let args = json(
        alloc,
        &EventDetails {
            attributes: members_of(alloc, event.attributes)?,
        },
    )?;
    Ok(format!(in alloc;
        ",\n{{\"name\":{name},\"cat\":\"event\",\"ph\":\"i\",\"s\":\"t\",\"ts\":{at},\"pid\":1,\"tid\":{row},\"args\":{args}}}"
    )?)
}

// Nanoseconds as microseconds, exactly.
fn micros(alloc: Global, nanos: u64) -> Result<String, Fault> {
    Ok(format!(in alloc; "{}.{:03}", nanos / 1000, nanos % 1000)?)
}

fn kind_name(kind: Kind) -> &'static str {
    match kind {
        Kind::Internal => "internal",
        Kind::Server => "server",
        Kind::Client => "client",
        Kind::Producer => "producer",
        Kind::Consumer => "consumer",
    }
}

fn status_text(alloc: Global, status: Status) -> Result<String, Fault> {
    match status {
        Status::Unset => Ok("unset".to_string(alloc)?),
        Status::Ok => Ok("ok".to_string(alloc)?),
        Status::Error(description) => Ok(format!(in alloc; "error: {description}")?),
    }
}

// By their keys. Of equal keys the last counts, since a viewer shows one.
fn members_of(
    alloc: Global,
    pairs: Vec<(String, AttributeValue)>,
) -> Result<BTreeMap<String, AttributeValue>, Fault> {
    let mut members = BTreeMap::new(alloc);
    for (key, value) in pairs {
        members.insert(key, value)?;
    }
    Ok(members)
}

fn links_of(alloc: Global, told: Vec<Link>) -> Result<Vec<LinkDetails>, Fault> {
    let mut links = Vec::new(alloc);
    for link in told {
        links.push(LinkDetails {
            trace: link.trace,
            span: link.span,
            attributes: members_of(alloc, link.attributes)?,
        })?;
    }
    Ok(links)
}

fn json<T: Serialize>(alloc: Global, value: &T) -> Result<String, Fault> {
    serde_json::to_string(alloc, value).map_err(|_| Fault::Memory)
}
