//! Refusals as JSON.
ghost use Rattle.std.specs.Prelude.{◌≡◌};
ghost use Rattle.serde_json.specs.Written.{compact_text};
ghost use Rattle.trace_lines.specs.text.Texts.{refusal_data, named_refusal, refusal_on, directive_refusal, text_name, what_name};
ghost use Rattle.trace_lines.specs.text.Writes.{Writes};

use super::pieces::{add, add_number, add_text};
use super::text_buffer::TextBuffer;
use crate::told::Told;
use span_script::reply::{Refusal, What};
use std::alloc::AllocError;

/// Adds why a line is refused.
pub fn add_refusal(out: &mut TextBuffer, line: u64, told: &Told) -> Result<(), AllocError>
    ensures { Writes result out.old out.new (compact_text (refusal_data line told.now)) }
{
    match told {
        Told::BadLine => add_named(out, line, "BadLine"),
        Told::Directive { counting, piece } => add_directive(
            out,
            line,
            *piece,
            text_name(*counting),
        ),
        Told::Lanes => add_named(out, line, "Lanes"),
        Told::Step { refusal } => add_step(out, line, *refusal),
    }
}

// The name of the settings' text, which is the one for counting or not.
fn text_name(counting: bool) -> &'static str
    ensures { result.now ≡ text_name counting }
{
    if counting { "counting" } else { "filter" }
}

// Adds which line's step is refused and why.
fn add_step(out: &mut TextBuffer, line: u64, refusal: Refusal) -> Result<(), AllocError>
    ensures { Writes result out.old out.new (compact_text (refusal_data line (Told.Step refusal))) }
{
    match refusal {
        Refusal::BadMoment { before, given } => add_moment(out, line, before, given),
        Refusal::UnknownName { what } => add_unknown(out, line, what),
        Refusal::InUse => add_named(out, line, "InUse"),
        Refusal::WrongLane { lane_place } => add_on_lane(out, line, lane_place, "WrongLane"),
        Refusal::Full { lane_place } => add_on_lane(out, line, lane_place, "Full"),
        Refusal::Directive { piece } => add_directive(out, line, piece, "reload"),
        Refusal::Memory => add_named(out, line, "Memory"),
    }
}

// Adds which piece of a text of directives is none.
fn add_directive(out: &mut TextBuffer, line: u64, piece: u64, text: &str) -> Result<(), AllocError>
    ensures { Writes result out.old out.new (compact_text (directive_refusal line text.now piece)) }
{
    add_number(out, "{\"line\":", line)?;
    add_number(out, ",\"piece\":", piece)?;
    add_text(out, ",\"refused\":\"Directive\",\"text\":", text)?;
    add(out, "}")?;
    Ok(())
}

fn add_moment(out: &mut TextBuffer, line: u64, before: u64, given: u64) -> Result<(), AllocError>
    ensures { Writes result out.old out.new
        (compact_text (refusal_data line (Told.Step (Refusal.BadMoment before given)))) }
{
    add_number(out, "{\"before\":", before)?;
    add_number(out, ",\"given\":", given)?;
    add_number(out, ",\"line\":", line)?;
    add(out, ",\"refused\":\"BadMoment\"}")?;
    Ok(())
}

fn add_unknown(out: &mut TextBuffer, line: u64, what: What) -> Result<(), AllocError>
    ensures { Writes result out.old out.new
        (compact_text (refusal_data line (Told.Step (Refusal.UnknownName what)))) }
{
    add_number(out, "{\"line\":", line)?;
    add_text(out, ",\"refused\":\"UnknownName\",\"what\":", name_of(what))?;
    add(out, "}")?;
    Ok(())
}

fn name_of(what: What) -> &'static str
    ensures { result.now ≡ what_name what }
{
    match what {
        What::Lane => "lane",
        What::Site => "site",
        What::Handle => "handle",
        What::Guard => "guard",
        What::Context => "context",
        What::Field => "field",
    }
}

// Adds which line is refused and the refusal's name.
fn add_named(out: &mut TextBuffer, line: u64, name: &str) -> Result<(), AllocError>
    ensures { Writes result out.old out.new (compact_text (named_refusal line name.now)) }
{
    add_number(out, "{\"line\":", line)?;
    add_text(out, ",\"refused\":", name)?;
    add(out, "}")?;
    Ok(())
}

// Adds which line is refused on which lane, and the refusal's name.
fn add_on_lane(out: &mut TextBuffer, line: u64, lane: u64, name: &str) -> Result<(), AllocError>
    ensures { Writes result out.old out.new (compact_text (refusal_on line lane name.now)) }
{
    add_number(out, "{\"lane\":", lane)?;
    add_number(out, ",\"line\":", line)?;
    add_text(out, ",\"refused\":", name)?;
    add(out, "}")?;
    Ok(())
}
