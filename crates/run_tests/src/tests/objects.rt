//! Records as values of JSON.
use otel_base::context::SpanContext;
use otel_base::list::Items;
use otel_base::record::{Link, OtelEvent, Record, SpanKind};
use otel_base::status::Status;
use otel_base::text::Text;
use serde_json::Value;
use std::test::Fail;
use trace_lines::{read_attributes, record_line, record_object};

// What stands around the lane, if that is told.
const BEFORE_LANE: &str =
    r#"{"attributes":[["b",true],["n",-7],["t","\""],["l",["u",""]]],"end":40,"events":[{"attributes":[["b",true],["n",-7],["t","\""],["l",["u",""]]],"name":"e","time":12}],"kind":"server","#;

const BEHIND_LANE: &str =
    r#""links":[{"attributes":[],"span":"000000000000000a","trace":"00000000000000010000000000000002"}],"name":"s","parent":"00000000000000ff","record":3,"span":"0000000000000005","start":9,"status":{"error":"late"},"trace":"00000000000000000000000000000004"}"#;

fn text<R: AllocGlobal>(rt: &R, text: &str) -> Result<Text, Fail> {
    Ok(Text::from_str(rt.alloc(), text)?)
}

// A record with attributes of each kind, an event, a link and an error.
fn whole_record<R: AllocGlobal>(rt: &R) -> Result<Record, Fail> {
    let alloc = rt.alloc();
    let told = Value::from_str(alloc, r#"[["b",true],["n",-7],["t","\""],["l",["u",""]]]"#)?;
    let mut events = Items::new(alloc);
    events.push(OtelEvent {
        name: text(rt, "e")?,
        time: 12,
        attributes: read_attributes(alloc, &told)?,
    })?;
    let mut links = Items::new(alloc);
    links.push(Link {
        context: SpanContext {
            trace: (1 << 64) + 2,
            span: 10,
        },
        attributes: Items::new(alloc),
    })?;
    Ok(Record {
        name: text(rt, "s")?,
        kind: SpanKind::Server,
        context: SpanContext { trace: 4, span: 5 },
        parent: 255,
        start: 9,
        end: 40,
        attributes: read_attributes(alloc, &told)?,
        events,
        links,
        status: Status::Error {
            description: text(rt, "late")?,
        },
    })
}

#[test]
fn the_object_of_a_record_is_that_of_its_line(rt: HostRuntime) -> Result<(), Fail> {
    let alloc = rt.alloc();
    let record = whole_record(&rt)?;
    let on_lane = record_object(alloc, 3, Some(1), &record)?.to_string(alloc)?;
    let wanted = format!(in alloc; "{BEFORE_LANE}\"lane\":1,{BEHIND_LANE}")?;
    assert_eq!(rt; on_lane.as_str(), wanted.as_str());
    let alone = record_object(alloc, 3, None, &record)?.to_string(alloc)?;
    let line = record_line(alloc, 3, &record)?;
    let wanted = format!(in alloc; "{BEFORE_LANE}{BEHIND_LANE}\n")?;
    assert_eq!(rt; line.as_str(), wanted.as_str());
    assert!(rt; line.strip_suffix("\n") == Some(alone.as_str()));
    Ok(())
}
