//! The lines that tell of directives.
ghost use Rattle.std.specs.Prelude.{◌≡◌, ◌++◌, flat_map, string_bytes, IfOk, OnOk};
ghost use Rattle.explain_base.specs.Directives.{tables_text, asks_values, value_kind_text, directive_line, target_part, span_part, field_part};

use env_directives::{Directive, DirectiveSet, FieldMatch, ValueMatch};
use otel_base::memory::Memory;
use std::alloc::Global;

/// A line for each directive of a set, in order; `Memory` where memory is wanting.
pub fn directive_lines(alloc: Global, set: &DirectiveSet<Directive>) -> Result<String, Memory>
    ensures { IfOk result (λ told. string_bytes told ≡ flat_map directive_line set.now.directives) }
{
    let mut told = String::new(alloc);
    for directive in set.as_slice() {
        push_directive(alloc, &mut told, directive)?;
    }
    Ok(told)
}

/// The line of a directive: its tables and parts, and how it prints; `Memory` where memory is wanting.
pub fn push_directive(alloc: Global, told: &mut String, directive: &Directive) -> Result<(), Memory>
    ensures { OnOk result (string_bytes told.new ≡ string_bytes told.old ++ directive_line directive.now) }
{
    told.push_str("  ")?;
    told.push_str(tables_text(directive))?;
    push_target(told, directive)?;
    push_span(told, directive)?;
    push_fields(alloc, told, directive.fields())?;
    let level = directive.level();
    let end = format!(in alloc; " level {level}: {directive}\n")?;
    told.push_str(end.as_str())?;
    Ok(())
}

fn push_target(told: &mut String, directive: &Directive) -> Result<(), Memory>
    ensures { OnOk result (string_bytes told.new ≡ string_bytes told.old ++ target_part directive.now.target) }
{
    if let Some(target) = directive.target() {
        told.push_str(" target ")?;
        told.push_str(target)?;
    }
    Ok(())
}

fn push_span(told: &mut String, directive: &Directive) -> Result<(), Memory>
    ensures { OnOk result (string_bytes told.new ≡ string_bytes told.old ++ span_part directive.now.in_span) }
{
    if let Some(span) = directive.in_span() {
        told.push_str(" span `")?;
        told.push_str(span)?;
        told.push_str("`")?;
    }
    Ok(())
}

// Each field, with the kind of its value.
fn push_fields(alloc: Global, told: &mut String, fields: &[FieldMatch]) -> Result<(), Memory>
    ensures { OnOk result (string_bytes told.new ≡ string_bytes told.old ++ flat_map field_part fields.now) }
{
    for field in fields {
        push_field(alloc, told, field)?;
    }
    Ok(())
}

fn push_field(alloc: Global, told: &mut String, field: &FieldMatch) -> Result<(), Memory>
    ensures { OnOk result (string_bytes told.new ≡ string_bytes told.old ++ field_part field.now) }
{
    let part = format!(in alloc; " field {field} ({})", value_kind_text(field))?;
    told.push_str(part.as_str())?;
    Ok(())
}

// Whether a directive is judged by callsites alone, by spans, or both.
fn tables_text(directive: &Directive) -> &'static str
    ensures { result.now ≡ tables_text directive.now }
{
    if directive.in_span().is_some() || asks_values(directive.fields()) {
        "dynamic"
    } else if directive.fields().is_empty() {
        "static"
    } else {
        "static and dynamic"
    }
}

fn asks_values(fields: &[FieldMatch]) -> bool
    ensures { result ≡ asks_values fields.now }
{
    fields.iter().any(|field| field.value.is_some())
}

// Of which kind a field's value is.
fn value_kind_text(field: &FieldMatch) -> &'static str
    ensures { result.now ≡ value_kind_text field.now.value }
{
    match &field.value {
        Some(ValueMatch::Bool(_)) => "truth value",
        Some(ValueMatch::U64(_)) => "number",
        Some(ValueMatch::I64(_)) => "negative number",
        Some(ValueMatch::Debug(_)) => "text",
        Some(ValueMatch::Pat(_)) => "pattern",
        None => "any value",
    }
}
