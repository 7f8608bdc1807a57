//! What the words of a line name.
ghost use Rattle.std.specs.Prelude.{◌≡◌, IfOk};
ghost use Rattle.explain_stack.specs.Telling.{status_of_word};

use otel_base::context::SpanContext;
use otel_base::list::Items;
use otel_base::memory::Memory;
use otel_base::status::Status;
use otel_base::text::Text;
use std::alloc::Global;
use trace_base::callsite::{Callsite, Kind};
use trace_base::field::{Value, ValueSet};
use trace_base::level::Level;

/// The number that a word spells, if it does.
pub fn number(word: &str) -> Option<u64> {
    let number = word.parse::<u32>().ok()?;
    Some(number as u64)
}

/// The callsite of the words `LEVEL NAME FIELD ..`; none where they aren't such words.
pub fn callsite(alloc: Global, words: &str) -> Result<Option<Callsite>, Memory> {
    let Some((level, rest)) = words.split_once(' ') else {
        return Ok(None);
    };
    match level.parse::<Level>() {
        Ok(level) => Ok(Some(callsite_of_level(alloc, level, rest)?)),
        Err(_) => Ok(None),
    }
}

// The callsite of a level and the words `NAME FIELD ..`.
fn callsite_of_level(alloc: Global, level: Level, words: &str) -> Result<Callsite, Memory> {
    let (name, names) = words.split_once(' ').unwrap_or((words, ""));
    let mut callsite = Callsite {
        name: text(alloc, name)?,
        target: text(alloc, "app")?,
        level,
        kind: Kind::Span,
        file: None,
        module_path: None,
        line: None,
        fields: Items::new(alloc),
    };
    add_fields(alloc, &mut callsite.fields, names)?;
    Ok(callsite)
}

// Adds the names of fields.
fn add_fields(alloc: Global, fields: &mut Items<Text>, names: &str) -> Result<(), Memory> {
    for field in names.split(' ') {
        if !field.is_empty() {
            fields.push(text(alloc, field)?)?;
        }
    }
    Ok(())
}

/// The values of words `PLACE=NUMBER` for the fields of a callsite; other words are left out.
pub fn values(alloc: Global, words: &str) -> Result<ValueSet, Memory> {
    let mut pairs = Items::new(alloc);
    add_values(alloc, &mut pairs, words)?;
    Ok(ValueSet { pairs })
}

fn add_values(alloc: Global, pairs: &mut Items<(usize, Value)>, words: &str) -> Result<(), Memory> {
    for word in words.split(' ') {
        add_value(alloc, pairs, word)?;
    }
    Ok(())
}

// Adds the value of a word `PLACE=NUMBER`, if it is such a word.
fn add_value(alloc: Global, pairs: &mut Items<(usize, Value)>, word: &str) -> Result<(), Memory> {
    let (place, value) = word.split_once('=').unwrap_or((word, ""));
    if let Some(place) = number(place) {
        pairs.push((place as usize, Value::Str(text(alloc, value)?)))?;
    }
    Ok(())
}

/// The ids of the words `TRACE SPAN`, 0 where there are none.
pub fn ids(words: &str) -> SpanContext {
    let (trace, span) = words.split_once(' ').unwrap_or((words, ""));
    SpanContext {
        trace: u128::from(number(trace).unwrap_or(0)),
        span: number(span).unwrap_or(0),
    }
}

/// The status of a word: `ok`, or the description of an error.
pub fn status(alloc: Global, word: &str) -> Result<Status, Memory>
    ensures { IfOk result (λ status. status ≡ status_of_word word.now) }
{
    match word {
        "ok" => Ok(Status::Ok),
        _ => Ok(Status::Error {
            description: text(alloc, word)?,
        }),
    }
}

/// A text of a word.
pub fn text(alloc: Global, word: &str) -> Result<Text, Memory>
    ensures { IfOk result (λ text. text ≡ word.now) }
{
    Text::from_str(alloc, word)
}
