//! What a text is read as, in lines that are indented.
use crate::answer::{answer_about_value, answer_of_set, answer_of_targets};
use env_directives::{Directive, DirectiveSet, ParseError, Targets};
use explain_base::directives::{directive_lines, push_directive};
use explain_base::{Reading, push};
use otel_base::memory::Memory;
use std::alloc::Global;
use trace_base::level::{Level, LevelFilter};

/// The lines that tell what a text is read as: each directive, in the order in which they are asked, or the faults; and
/// what is answered to a question, which may stand behind the text and ` ? `.
pub fn explain(alloc: Global, reading: Reading, line: &str) -> Result<String, Memory> {
    let (text, asked) = match line.split_once(" ? ") {
        Some((text, asked)) => (text, Some(asked)),
        None => (line, None),
    };
    match reading {
        Reading::Filter => explain_as_filter(alloc, text, asked),
        Reading::Directive => explain_as_directive(alloc, text, asked, true),
        Reading::Fixed => explain_as_directive(alloc, text, asked, false),
        Reading::Targets => explain_as_targets(alloc, text, asked),
        Reading::Levels => explain_as_levels(alloc, line),
    }
}

// One directive, and whether the value that is asked about meets its fields.
fn explain_as_directive(
    alloc: Global,
    text: &str,
    asked: Option<&str>,
    patterns: bool,
) -> Result<String, Memory> {
    match Directive::parse(alloc, text, patterns) {
        Ok(directive) => directive_answer(alloc, &directive, asked),
        Err(fault) => fault_line(alloc, fault),
    }
}

fn directive_answer(
    alloc: Global,
    directive: &Directive,
    asked: Option<&str>,
) -> Result<String, Memory> {
    let mut told = String::new(alloc);
    push_directive(alloc, &mut told, directive)?;
    if let Some(asked) = asked {
        push(&mut told, answer_about_value(alloc, directive, asked))?;
    }
    Ok(told)
}

// The level that a text reads as, and the filter.
fn explain_as_levels(alloc: Global, text: &str) -> Result<String, Memory> {
    let mut told = level_text(alloc, text)?;
    push(&mut told, level_filter_text(alloc, text))?;
    Ok(told)
}

fn level_text(alloc: Global, text: &str) -> Result<String, Memory> {
    match text.parse::<Level>() {
        Ok(level) => Ok(format!(in alloc; "  {level}")?),
        Err(fault) => Ok(format!(in alloc; "  {fault}")?),
    }
}

fn level_filter_text(alloc: Global, text: &str) -> Result<String, Memory> {
    match text.parse::<LevelFilter>() {
        Ok(filter) => Ok(format!(in alloc; "; {filter}\n")?),
        Err(fault) => Ok(format!(in alloc; "; {fault}\n")?),
    }
}

// The faults of a list's pieces, each with the piece's number and text, and then the directives of the others in order.
fn explain_as_filter(alloc: Global, text: &str, asked: Option<&str>) -> Result<String, Memory> {
    let mut told = String::new(alloc);
    let set = read_pieces(alloc, text, &mut told)?;
    push(&mut told, directive_lines(alloc, &set))?;
    if let Some(asked) = asked {
        push(&mut told, answer_of_set(alloc, &set, asked))?;
    }
    Ok(told)
}

// The set of a list's pieces that are directives; the faults of the others are told.
fn read_pieces(
    alloc: Global,
    text: &str,
    told: &mut String,
) -> Result<DirectiveSet<Directive>, Memory> {
    let mut set = DirectiveSet::new(alloc);
    let mut number = 0u64;
    for piece in text.split(',') {
        number = number.saturating_add(1);
        read_piece(alloc, number, piece, &mut set, told)?;
    }
    Ok(set)
}

fn read_piece(
    alloc: Global,
    number: u64,
    piece: &str,
    set: &mut DirectiveSet<Directive>,
    told: &mut String,
) -> Result<(), Memory> {
    if piece.is_empty() {
        return Ok(());
    }
    match Directive::parse(alloc, piece, true) {
        Ok(directive) => set.add(directive),
        Err(ParseError::Memory) => Err(Memory),
        Err(fault) => push(told, piece_fault_line(alloc, number, piece, fault)),
    }
}

fn piece_fault_line(
    alloc: Global,
    number: u64,
    piece: &str,
    fault: ParseError,
) -> Result<String, Memory> {
    Ok(format!(in alloc; "  piece {number} `{piece}`: {fault:?}, {fault}\n")?)
}

// The targets with their levels in order, and the level of all others, if there is one.
fn explain_as_targets(alloc: Global, text: &str, asked: Option<&str>) -> Result<String, Memory> {
    match Targets::from_str(alloc, text) {
        Ok(targets) => targets_answer(alloc, text, &targets, asked),
        Err(fault) => fault_line(alloc, fault),
    }
}

fn targets_answer(
    alloc: Global,
    text: &str,
    targets: &Targets,
    asked: Option<&str>,
) -> Result<String, Memory> {
    let mut told = format!(in alloc; "  prints {targets}\n")?;
    push_targets(alloc, &mut told, targets)?;
    if let Some(asked) = asked {
        push(&mut told, answer_of_targets(alloc, text, targets, asked))?;
    }
    Ok(told)
}

fn push_targets(alloc: Global, told: &mut String, targets: &Targets) -> Result<(), Memory> {
    for (target, level) in targets.iter() {
        push(told, target_line(alloc, target, level))?;
    }
    match targets.default_level() {
        Some(level) => push(told, others_line(alloc, level)),
        None => Ok(()),
    }
}

fn target_line(alloc: Global, target: &str, level: LevelFilter) -> Result<String, Memory> {
    Ok(format!(in alloc; "  target {target} level {level}\n")?)
}

fn others_line(alloc: Global, level: LevelFilter) -> Result<String, Memory> {
    Ok(format!(in alloc; "  others level {level}\n")?)
}

// A fault by its name and its text.
fn fault_line(alloc: Global, fault: ParseError) -> Result<String, Memory> {
    if fault == ParseError::Memory {
        return Err(Memory);
    }
    Ok(format!(in alloc; "  {fault:?}, {fault}\n")?)
}
