//! Replies as JSON.
ghost use Rattle.std.specs.Prelude.{◌≡◌, ◌++◌, codes};
ghost use Rattle.serde_json.specs.Data.{boolean};
ghost use Rattle.serde_json.specs.Written.{compact_text};
ghost use Rattle.trace_lines.specs.text.Texts.{reply_data, name_of_set_result};
ghost use Rattle.trace_lines.specs.text.Writes.{Writes};

use super::hex::{add_id, add_long_id};
use super::pieces::{add, add_flag, add_number, add_text};
use super::text_buffer::TextBuffer;
use otel_base::context::SpanContext;
use otel_state::op::SetParentError;
use span_script::reply::Reply;
use std::alloc::AllocError;

// What stands in front of the handle of a span that was made.
fn handle_front(enabled: bool) -> &'static str
    ensures { result.now ≡ codes "{\"enabled\":" ++ (compact_text (boolean enabled) ++ codes ",\"handle\":") }
{
    if enabled {
        "{\"enabled\":true,\"handle\":"
    } else {
        "{\"enabled\":false,\"handle\":"
    }
}

fn add_handle(out: &mut TextBuffer, line: u64, enabled: bool, handle: u64) -> Result<(), AllocError>
    ensures { Writes result out.old out.new (compact_text (reply_data line (Reply.Made enabled handle))) }
{
    add_number(out, handle_front(enabled), handle)?;
    add_number(out, ",\"reply\":", line)?;
    add(out, "}")?;
    Ok(())
}

fn add_guard(out: &mut TextBuffer, line: u64, guard: u64) -> Result<(), AllocError>
    ensures { Writes result out.old out.new (compact_text (reply_data line (Reply.Guard guard))) }
{
    add_number(out, "{\"guard\":", guard)?;
    add_number(out, ",\"reply\":", line)?;
    add(out, "}")?;
    Ok(())
}

fn add_context(
    out: &mut TextBuffer,
    line: u64,
    context: u64,
    ids: SpanContext,
) -> Result<(), AllocError>
    ensures { Writes result out.old out.new (compact_text (reply_data line (Reply.Context context ids))) }
{
    add_number(out, "{\"context\":", context)?;
    add_number(out, ",\"reply\":", line)?;
    add_id(out, ",\"span\":", ids.span)?;
    add_long_id(out, ",\"trace\":", ids.trace)?;
    add(out, "}")?;
    Ok(())
}

// What stands in front of the line, where the reply is whether something is enabled.
fn enabled_front(enabled: bool) -> &'static str
    ensures { result.now ≡ codes "{\"enabled\":" ++ (compact_text (boolean enabled) ++ codes ",\"reply\":") }
{
    if enabled {
        "{\"enabled\":true,\"reply\":"
    } else {
        "{\"enabled\":false,\"reply\":"
    }
}

fn add_enabled(out: &mut TextBuffer, line: u64, enabled: bool) -> Result<(), AllocError>
    ensures { Writes result out.old out.new (compact_text (reply_data line (Reply.Enabled enabled))) }
{
    add_number(out, enabled_front(enabled), line)?;
    add(out, "}")?;
    Ok(())
}

fn add_has(out: &mut TextBuffer, line: u64, has: bool) -> Result<(), AllocError>
    ensures { Writes result out.old out.new (compact_text (reply_data line (Reply.Has has))) }
{
    add_flag(out, "{\"has\":", has)?;
    add_number(out, ",\"reply\":", line)?;
    add(out, "}")?;
    Ok(())
}

fn name_of(set: Result<(), SetParentError>) -> &'static str
    ensures { result.now ≡ name_of_set_result set }
{
    match set {
        Ok(()) => "Ok",
        Err(SetParentError::AlreadyStarted) => "AlreadyStarted",
        Err(SetParentError::SpanDisabled) => "SpanDisabled",
        Err(SetParentError::LayerNotFound) => "LayerNotFound",
    }
}

fn add_set(
    out: &mut TextBuffer,
    line: u64,
    set: Result<(), SetParentError>,
) -> Result<(), AllocError>
    ensures { Writes result out.old out.new (compact_text (reply_data line (Reply.Set set))) }
{
    add_number(out, "{\"reply\":", line)?;
    add_text(out, ",\"set\":", name_of(set))?;
    add(out, "}")?;
    Ok(())
}

fn add_done(out: &mut TextBuffer, line: u64) -> Result<(), AllocError>
    ensures { Writes result out.old out.new (compact_text (reply_data line Reply.Done)) }
{
    add_number(out, "{\"reply\":", line)?;
    add(out, "}")?;
    Ok(())
}

/// Adds the reply to the request on a line.
pub fn add_reply(out: &mut TextBuffer, line: u64, reply: &Reply) -> Result<(), AllocError>
    ensures { Writes result out.old out.new (compact_text (reply_data line reply.now)) }
{
    match reply {
        Reply::Made { enabled, handle } => add_handle(out, line, *enabled, *handle),
        Reply::Guard { guard } => add_guard(out, line, *guard),
        Reply::Context { context, ids } => add_context(out, line, *context, *ids),
        Reply::Done => add_done(out, line),
        Reply::Enabled { enabled } => add_enabled(out, line, *enabled),
        Reply::Has { has } => add_has(out, line, *has),
        Reply::Set { set } => add_set(out, line, *set),
    }
}
