//! A page that needs nothing else: a waterfall of each trace, and what each span has on a click. No text of a record
//! stands in it but escaped, in an element inside of a `bdi`, and no script runs on it.
use crate::duration::duration;
use crate::record::{AttributeValue, Event, Link, Record, Status};
use crate::scale::Scale;
use crate::traces::{Row, Trace};
use convert_base::{Fault, escape, is_zero};
use std::alloc::Global;

/// The page up to its first trace.
pub const HEAD: &str = r#"<!DOCTYPE html>
<html lang="en">
<head>
<meta charset="utf-8">
<meta http-equiv="Content-Security-Policy" content="default-src 'none'; style-src 'unsafe-inline'">
<meta name="viewport" content="width=device-width, initial-scale=1">
<title>Traces</title>
<style>
body { font: 14px/1.5 system-ui, sans-serif; margin: 2em auto; max-width: 75em; padding: 0 1em; color: #222; background: #fff; }
h1 { font-size: 1.4em; }
h2 { font-size: 1em; margin: 2em 0 .3em; font-weight: 600; }
code { font: 12px/1.5 ui-monospace, monospace; overflow-wrap: anywhere; }
summary { display: grid; grid-template-columns: 30% 7em 1fr; gap: .8em; align-items: center; padding: .1em .3em; cursor: pointer; list-style: none; }
summary::before { content: none; }
details:nth-child(odd) { background: #f6f7f9; }
summary:hover { background: #e6ecf5; }
summary b { font-weight: 400; overflow: hidden; text-overflow: ellipsis; white-space: nowrap; padding-left: calc(var(--depth) * 1.2em); }
summary em { font-style: normal; text-align: right; font-variant-numeric: tabular-nums; color: #555; }
.error b::before { content: "\26A0  error: "; font-weight: 600; color: #a11; }
.lane { position: relative; height: 1.1em; background: #eceff3; }
.lane i { position: absolute; top: 0; height: 100%; min-width: 2px; background: #3b6fb6; }
.error .lane i { background: #b63b3b; }
.lane u { position: absolute; top: -.1em; height: 1.3em; width: 2px; margin-left: -1px; background: #111; }
table { border-collapse: collapse; margin: .3em 0 .8em 2em; }
td, th { text-align: left; vertical-align: top; padding: .05em 1em .05em 0; font-weight: 400; }
th { color: #555; white-space: nowrap; }
</style>
</head>
<body>
<h1>Traces</h1>
"#;

/// The page behind its last trace.
pub const FOOT: &str = "</body>\n</html>\n";

// Parts of a hundredth of a percent, of which bars are made.
const STEPS: u64 = 10_000;

/// The part of the page that shows a trace.
pub fn section(alloc: Global, trace: &Trace) -> Result<String, Fault> {
    let (start, end) = trace.times();
    let scale = Scale {
        start,
        end,
        steps: STEPS,
    };
    let id = escape(alloc, trace.id.as_str())?;
    let lasts = duration(alloc, end.saturating_sub(start))?;
    let size = trace.size_text(alloc)?;
    let mut page = format!(in alloc;
        "<section>\n<h2>Trace <code><bdi>{id}</bdi></code>, {size}, {lasts}</h2>\n"
    )?;
    for row in trace.rows(alloc)? {
        if let Some(record) = trace.records.get(row.place) {
            page.push_str(span(alloc, record, row, scale)?.as_str())?;
        }
    }
    page.push_str("</section>\n")?;
    Ok(page)
}

// A span: the line that always shows, and what a click opens.
fn span(alloc: Global, record: &Record, row: Row, scale: Scale) -> Result<String, Fault> {
    let class = class_of(&record.status);
    let depth = row.depth.min(20);
    let name = escape(alloc, record.name.as_str())?;
    let lasts = duration(alloc, record.end.saturating_sub(record.start))?;
    let bar = bar(alloc, record, scale)?;
    let details = details(alloc, record)?;
    Ok(format!(in alloc;
        "<details{class}><summary style=\"--depth:{depth}\"><b><bdi>{name}</bdi></b><em>{lasts}</em>{bar}</summary>\n{details}</details>\n"
    )?)
}

fn class_of(status: &Status) -> &'static str {
    match status {
        Status::Error(_) => " class=\"error\"",
        Status::Unset | Status::Ok => "",
    }
}

// The time of a span and of its events within that of the trace.
fn bar(alloc: Global, record: &Record, scale: Scale) -> Result<String, Fault> {
    let from = scale.step_at(record.start);
    let wide = scale.step_at(record.end).saturating_sub(from);
    let left = percent(alloc, from)?;
    let width = percent(alloc, wide)?;
    let mut bar = format!(in alloc;
        "<span class=\"lane\"><i style=\"left:{left};width:{width}\"></i>"
    )?;
    for event in record.events.iter() {
        let name = escape(alloc, event.name.as_str())?;
        let at = percent(alloc, scale.step_at(event.time))?;
        bar.push_str(format!(in alloc; "<u style=\"left:{at}\" title=\"{name}\"></u>")?.as_str())?;
    }
    bar.push_str("</span>")?;
    Ok(bar)
}

fn percent(alloc: Global, steps: u64) -> Result<String, Fault> {
    Ok(format!(in alloc; "{}.{:02}%", steps / 100, steps % 100)?)
}

// What a click shows of a span.
fn details(alloc: Global, record: &Record) -> Result<String, Fault> {
    let mut table = String::new(alloc);
    table.push_str("<table>\n")?;
    push_row(alloc, &mut table, "span", record.span.as_str())?;
    if !is_zero(record.parent.as_str()) {
        push_row(alloc, &mut table, "parent", record.parent.as_str())?;
    }
    let start = record.start;
    let end = record.end;
    push_row(
        alloc,
        &mut table,
        "time",
        format!(in alloc; "{start} to {end} ns")?.as_str(),
    )?;
    push_status(alloc, &mut table, &record.status)?;
    push_attributes(alloc, &mut table, record.attributes.as_slice())?;
    push_events(alloc, &mut table, record.events.as_slice())?;
    push_links(alloc, &mut table, record.links.as_slice())?;
    table.push_str("</table>\n")?;
    Ok(table)
}

fn push_status(alloc: Global, table: &mut String, status: &Status) -> Result<(), Fault> {
    match status {
        Status::Unset => Ok(()),
        Status::Ok => push_row(alloc, table, "status", "ok"),
        Status::Error(description) => {
            let text = format!(in alloc; "error: {description}")?;
            push_row(alloc, table, "status", text.as_str())
        }
    }
}

fn push_attributes(
    alloc: Global,
    table: &mut String,
    pairs: &[(String, AttributeValue)],
) -> Result<(), Fault> {
    for (key, value) in pairs.iter() {
        push_row(
            alloc,
            table,
            key.as_str(),
            value_text(alloc, value)?.as_str(),
        )?;
    }
    Ok(())
}

fn push_events(alloc: Global, table: &mut String, events: &[Event]) -> Result<(), Fault> {
    for event in events.iter() {
        let time = event.time;
        let label = format!(in alloc; "event at {time} ns")?;
        push_row(alloc, table, label.as_str(), event.name.as_str())?;
        push_attributes(alloc, table, event.attributes.as_slice())?;
    }
    Ok(())
}

fn push_links(alloc: Global, table: &mut String, links: &[Link]) -> Result<(), Fault> {
    for link in links.iter() {
        let span = link.span.as_str();
        let trace = link.trace.as_str();
        let text = format!(in alloc; "span {span} of trace {trace}")?;
        push_row(alloc, table, "link", text.as_str())?;
        push_attributes(alloc, table, link.attributes.as_slice())?;
    }
    Ok(())
}

// A row of the table, of any two texts.
fn push_row(alloc: Global, table: &mut String, label: &str, text: &str) -> Result<(), Fault> {
    let label = escape(alloc, label)?;
    let text = escape(alloc, text)?;
    let row = format!(in alloc;
        "<tr><th><bdi>{label}</bdi></th><td><code><bdi>{text}</bdi></code></td></tr>\n"
    )?;
    table.push_str(row.as_str())?;
    Ok(())
}

fn value_text(alloc: Global, value: &AttributeValue) -> Result<String, Fault> {
    Ok(match value {
        AttributeValue::Bool(given) => format!(in alloc; "{given}")?,
        AttributeValue::Number(number) => format!(in alloc; "{number}")?,
        AttributeValue::Text(text) => text.as_str().to_string(alloc)?,
        AttributeValue::List(texts) => join(alloc, texts.as_slice())?,
    })
}

fn join(alloc: Global, texts: &[String]) -> Result<String, Fault> {
    let mut line = String::new(alloc);
    for text in texts.iter() {
        if !line.as_str().is_empty() {
            line.push_str(", ")?;
        }
        line.push_str(text.as_str())?;
    }
    Ok(line)
}
