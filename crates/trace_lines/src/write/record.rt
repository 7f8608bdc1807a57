//! Records as JSON.
ghost use Rattle.std.specs.Prelude.{◌≡◌, ◌++◌, codes};
ghost use Rattle.json.specs.Print.{quoted};
ghost use Rattle.serde_json.specs.Written.{compact_text};
ghost use Rattle.trace_lines.specs.values.RecordData.{kind_name, status_data, lane_text, record_object};
ghost use Rattle.trace_lines.specs.text.Writes.{Writes};

use super::array::{WriteItem, add_array};
use super::hex::{add_id, add_long_id};
use super::pieces::{add, add_number, add_text};
use super::text_buffer::TextBuffer;
use otel_base::record::{Link, OtelEvent, Record, SpanKind};
use otel_base::status::Status;
use std::alloc::AllocError;

/// Adds the record with a number, and its lane, if that is told.
#[tactic(auto, unfolding(crate::specs::values::RecordData::record_object))]
pub fn add_record(
    out: &mut TextBuffer,
    number: u64,
    lane: Option<u64>,
    finished: &Record,
) -> Result<(), AllocError>
    ensures { Writes result out.old out.new (compact_text (record_object lane number finished.now)) }
{
    add_array(out, "{\"attributes\":", finished.attributes.as_slice())?;
    add_number(out, ",\"end\":", finished.end)?;
    add_array(out, ",\"events\":", finished.events.as_slice())?;
    add_kind(out, finished.kind)?;
    add_lane(out, lane)?;
    add_array(out, ",\"links\":", finished.links.as_slice())?;
    add_text(out, ",\"name\":", finished.name.as_str())?;
    add_id(out, ",\"parent\":", finished.parent)?;
    add_number(out, ",\"record\":", number)?;
    add_id(out, ",\"span\":", finished.context.span)?;
    add_number(out, ",\"start\":", finished.start)?;
    add_status(out, &finished.status)?;
    add_long_id(out, ",\"trace\":", finished.context.trace)?;
    add(out, "}")?;
    Ok(())
}

fn add_lane(out: &mut TextBuffer, lane: Option<u64>) -> Result<(), AllocError>
    ensures { Writes result out.old out.new (lane_text lane) }
{
    match lane {
        Some(lane) => add_number(out, ",\"lane\":", lane),
        None => Ok(()),
    }
}

/// The name of a kind.
pub(crate) fn name_of(kind: SpanKind) -> &'static str
    ensures { result.now ≡ kind_name kind }
{
    match kind {
        SpanKind::Server => "server",
        SpanKind::Client => "client",
        SpanKind::Producer => "producer",
        SpanKind::Consumer => "consumer",
        SpanKind::Internal => "internal",
    }
}

// The member of a kind, whose name needs no escape.
#[tactic(auto, unfolding(json::specs::Print::escape_byte))]
fn kind_member(kind: SpanKind) -> &'static str
    ensures { result.now ≡ codes ",\"kind\":" ++ quoted (kind_name kind) }
{
    match kind {
        SpanKind::Server => ",\"kind\":\"server\"",
        SpanKind::Client => ",\"kind\":\"client\"",
        SpanKind::Producer => ",\"kind\":\"producer\"",
        SpanKind::Consumer => ",\"kind\":\"consumer\"",
        SpanKind::Internal => ",\"kind\":\"internal\"",
    }
}

fn add_kind(out: &mut TextBuffer, kind: SpanKind) -> Result<(), AllocError>
    ensures { Writes result out.old out.new (codes ",\"kind\":" ++ quoted (kind_name kind)) }
{
    add(out, kind_member(kind))?;
    Ok(())
}

fn add_error(out: &mut TextBuffer, front: &str, description: &str) -> Result<(), AllocError>
    ensures { Writes result out.old out.new
        (front.now ++ compact_text (status_data (Status.Error description.now))) }
{
    add(out, front)?;
    add_text(out, "{\"error\":", description)?;
    add(out, "}")?;
    Ok(())
}

#[tactic(auto, unfolding(json::specs::Print::escape_byte))]
fn add_status(out: &mut TextBuffer, status: &Status) -> Result<(), AllocError>
    ensures { Writes result out.old out.new
        (codes ",\"status\":" ++ compact_text (status_data status.now)) }
{
    match status {
        Status::Unset => add(out, ",\"status\":\"unset\""),
        Status::Error { description } => add_error(out, ",\"status\":", description.as_str()),
        Status::Ok => add(out, ",\"status\":\"ok\""),
    }
}

impl WriteItem for OtelEvent {
    ghost use Rattle.trace_lines.specs.values.RecordData.{event_data};

    ghost item_data = { event_data };

    fn add_item(&self, out: &mut TextBuffer, front: &str) -> Result<(), AllocError> {
        add(out, front)?;
        add_array(out, "{\"attributes\":", self.attributes.as_slice())?;
        add_text(out, ",\"name\":", self.name.as_str())?;
        add_number(out, ",\"time\":", self.time)?;
        add(out, "}")?;
        Ok(())
    }
}

impl WriteItem for Link {
    ghost use Rattle.trace_lines.specs.values.RecordData.{link_data};

    ghost item_data = { link_data };

    fn add_item(&self, out: &mut TextBuffer, front: &str) -> Result<(), AllocError> {
        add(out, front)?;
        add_array(out, "{\"attributes\":", self.attributes.as_slice())?;
        add_id(out, ",\"span\":", self.context.span)?;
        add_long_id(out, ",\"trace\":", self.context.trace)?;
        add(out, "}")?;
        Ok(())
    }
}
