//! What a line asks about: a callsite or a value of a field.
use otel_base::list::Items;
use otel_base::memory::Memory;
use otel_base::text::Text;
use std::alloc::Global;
use trace_base::callsite::{Callsite, Kind};
use trace_base::field::Value;
use trace_base::level::Level;

/// The callsite of the words `span LEVEL TARGET NAME FIELD ..`, or `event` in front, with one blank between two words.
/// None where they aren't such words.
pub fn callsite_of(alloc: Global, words: &str) -> Result<Option<Callsite>, Memory> {
    let Some((kind, level, rest)) = head_of(words) else {
        return Ok(None);
    };
    let Some((target, rest)) = rest.split_once(" ") else {
        return Ok(None);
    };
    let (name, fields) = match rest.split_once(" ") {
        Some((name, fields)) => (name, fields_of(alloc, fields)?),
        None => (rest, Items::new(alloc)),
    };
    Ok(Some(Callsite {
        name: text_of(alloc, name)?,
        target: text_of(alloc, target)?,
        level,
        kind,
        file: None,
        module_path: None,
        line: None,
        fields,
    }))
}

// The kind and the level at the front, and the words behind them.
fn head_of(words: &str) -> Option<(Kind, Level, &str)> {
    let (kind, rest) = words.split_once(" ")?;
    let (level, rest) = rest.split_once(" ")?;
    let kind = match kind {
        "span" => Kind::Span,
        "event" => Kind::Event,
        _ => return None,
    };
    let level = level.parse::<Level>().ok()?;
    Some((kind, level, rest))
}

fn fields_of(alloc: Global, words: &str) -> Result<Items<Text>, Memory> {
    let mut fields = Items::new(alloc);
    for word in words.split(' ') {
        fields.push(text_of(alloc, word)?)?;
    }
    Ok(fields)
}

/// The value of a field, written as its kind, a blank and the value. None where it isn't one.
pub fn value_of(alloc: Global, text: &str) -> Result<Option<Value>, Memory> {
    let Some((kind, rest)) = text.split_once(" ") else {
        return Ok(None);
    };
    Ok(match kind {
        "str" => Some(Value::Str(text_of(alloc, rest)?)),
        "debug" => Some(Value::Debug(text_of(alloc, rest)?)),
        "error" => Some(Value::Error {
            message: text_of(alloc, rest)?,
            chain: Items::new(alloc),
        }),
        _ => plain_value(kind, rest),
    })
}

// A truth value or a number.
fn plain_value(kind: &str, text: &str) -> Option<Value> {
    Some(match kind {
        "bool" => Value::Bool(text.parse::<bool>().ok()?),
        "i64" => Value::I64(text.parse::<i64>().ok()?),
        "u64" => Value::U64(text.parse::<u64>().ok()?),
        "i128" => Value::I128(text.parse::<i128>().ok()?),
        "u128" => Value::U128(text.parse::<u128>().ok()?),
        _ => return None,
    })
}

fn text_of(alloc: Global, text: &str) -> Result<Text, Memory> {
    Text::from_str(alloc, text)
}
