//! What directives answer about a callsite or a value.
use crate::question::{callsite_of, value_of};
use env_directives::directive::Match;
use env_directives::{Directive, DirectiveSet, FieldMatch, ParseError, StaticDirective, Targets};
use explain_base::push;
use otel_base::memory::Memory;
use std::alloc::Global;
use std::fmt;
use trace_base::callsite::Callsite;
use trace_base::field::Value;

// What is told of a question that can't be read.
const NO_QUESTION: &str = "  no question\n";

/// Whether each field of a directive is met by a value.
pub fn answer_about_value(
    alloc: Global,
    directive: &Directive,
    asked: &str,
) -> Result<String, Memory> {
    let Some(value) = value_of(alloc, asked)? else {
        return Ok(String::from_str(alloc, NO_QUESTION)?);
    };
    let mut told = String::new(alloc);
    for field in directive.fields() {
        push_met(alloc, &mut told, field, &value)?;
    }
    Ok(told)
}

// Whether a field is met by a value, which one without a value is by any.
fn push_met(
    alloc: Global,
    told: &mut String,
    field: &FieldMatch,
    value: &Value,
) -> Result<(), Memory> {
    let met = match &field.value {
        Some(wanted) => wanted.is_met_by(alloc, value)?,
        None => true,
    };
    told.push_str(format!(in alloc; "  {field} met: {met}\n")?.as_str())?;
    Ok(())
}

/// The directives of a set that speak of a callsite, in order.
pub fn answer_of_set(
    alloc: Global,
    set: &DirectiveSet<Directive>,
    asked: &str,
) -> Result<String, Memory> {
    let Some(callsite) = callsite_of(alloc, asked)? else {
        return Ok(String::from_str(alloc, NO_QUESTION)?);
    };
    let mut told = format!(in alloc; "  greatest level {}\n", set.max_level())?;
    push_caring(alloc, &mut told, set, &callsite)?;
    Ok(told)
}

/// The static directives that speak of a callsite, in order, whether they let it through, and whether targets let
/// through what has its target and level.
pub fn answer_of_targets(
    alloc: Global,
    text: &str,
    targets: &Targets,
    asked: &str,
) -> Result<String, Memory> {
    let Some(callsite) = callsite_of(alloc, asked)? else {
        return Ok(String::from_str(alloc, NO_QUESTION)?);
    };
    let mut told = String::new(alloc);
    let set = static_set(alloc, text).map_err(|_| Memory)?;
    push_statics(alloc, &mut told, &set, &callsite)?;
    let would = targets.would_enable(callsite.target.as_str(), callsite.level);
    push(&mut told, target_enabled_line(alloc, would))?;
    Ok(told)
}

fn target_enabled_line(alloc: Global, would: bool) -> Result<String, Memory> {
    Ok(format!(in alloc; "  target enabled: {would}\n")?)
}

fn push_statics(
    alloc: Global,
    told: &mut String,
    set: &DirectiveSet<StaticDirective>,
    callsite: &Callsite,
) -> Result<(), Memory> {
    push_caring(alloc, told, set, callsite)?;
    push(told, enabled_line(alloc, set.enabled(callsite)))
}

fn enabled_line(alloc: Global, enabled: bool) -> Result<String, Memory> {
    Ok(format!(in alloc; "  enabled: {enabled}\n")?)
}

// The set of a list's pieces, of which each is known to be a directive.
fn static_set(alloc: Global, text: &str) -> Result<DirectiveSet<StaticDirective>, ParseError> {
    let mut set = DirectiveSet::new(alloc);
    for piece in text.split(',') {
        set.add(StaticDirective::from_str(alloc, piece)?)?;
    }
    Ok(set)
}

fn push_caring<T: Match + Ord + fmt::Display>(
    alloc: Global,
    told: &mut String,
    set: &DirectiveSet<T>,
    callsite: &Callsite,
) -> Result<(), Memory> {
    for directive in set.directives_for(callsite) {
        told.push_str(format!(in alloc; "  speaks of it: {directive}\n")?.as_str())?;
    }
    Ok(())
}
