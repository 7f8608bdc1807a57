//! The lines that tell what a filter answers.
use env_directives::ParseError;
use env_filter::{EnvFilter, Ignored};
use explain_base::gate::passes;
use explain_base::push;
use otel_base::memory::Memory;
use std::alloc::Global;
use trace_base::callsite::Callsite;

/// A line that is no call.
pub fn no_call_line(alloc: Global) -> Result<String, Memory> {
    Ok(String::from_str(alloc, "  no call\n")?)
}

/// The pieces that were left out.
pub fn ignored_lines(alloc: Global, pieces: &[Ignored]) -> Result<String, Memory> {
    let mut told = String::new(alloc);
    for piece in pieces {
        push(&mut told, ignored_line(alloc, piece))?;
    }
    Ok(told)
}

fn ignored_line(alloc: Global, piece: &Ignored) -> Result<String, Memory> {
    let number = piece.piece;
    let text = piece.text.as_str();
    let fault = piece.fault;
    Ok(format!(in alloc; "  piece {number} `{text}`: {fault:?}\n")?)
}

/// The first piece that is no directive.
pub fn refusal_line(alloc: Global, piece: u64, fault: ParseError) -> Result<String, Memory> {
    if fault == ParseError::Memory {
        return Err(Memory);
    }
    Ok(format!(in alloc; "  piece {piece}: {fault:?}, {fault}\n")?)
}

/// A text that has a piece that is no directive.
pub fn fault_line(alloc: Global, fault: ParseError) -> Result<String, Memory> {
    if fault == ParseError::Memory {
        return Err(Memory);
    }
    Ok(format!(in alloc; "  {fault:?}, {fault}\n")?)
}

/// Whether a filter lets a callsite through on a lane, and what `enabled` answers, which the gate alone may differ from.
pub fn gate_line(
    alloc: Global,
    filter: &EnvFilter,
    lane: u64,
    callsite: &Callsite,
) -> Result<String, Memory> {
    let admitted = admits(filter, lane, callsite);
    let enabled = filter.enabled(lane, callsite);
    Ok(format!(in alloc; "  admitted {admitted}, enabled {enabled}\n")?)
}

// What interest, hint and answer come to: the rule of the gate.
fn admits(filter: &EnvFilter, lane: u64, callsite: &Callsite) -> bool {
    let interest = filter.register_callsite(callsite);
    let enabled = filter.enabled(lane, callsite);
    passes(interest, filter.max_level_hint(), enabled, callsite.level)
}
