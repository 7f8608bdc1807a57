//! What the words of a line name: callsites, values, spans and lanes.
ghost use Rattle.std.specs.Prelude.{◌≡◌, ◌<◌, ◌^◌, IfSome};

use otel_base::list::Items;
use otel_base::memory::Memory;
use otel_base::stack::ContextStack;
use otel_base::text::Text;
use std::alloc::Global;
use trace_base::callsite::{Callsite, Kind};
use trace_base::field::{Value, ValueSet};
use trace_base::lane::Lane;
use trace_base::level::Level;

/// The number that a word spells, if it does and is below 2^32.
pub fn number(word: &str) -> Option<u64>
    ensures { IfSome result (λ number. number < 2 ^ 32) }
{
    let number = word.parse::<u32>().ok()?;
    Some(number as u64)
}

/// The callsite of the words `LEVEL TARGET NAME FIELD ..`, with one blank between two words. None where they aren't such
/// words.
pub fn callsite(alloc: Global, kind: Kind, words: &str) -> Result<Option<Callsite>, Memory> {
    let Some((level, target, rest)) = head(words) else {
        return Ok(None);
    };
    let (name, names) = rest.split_once(' ').unwrap_or((rest, ""));
    let fields = fields(alloc, names)?;
    Ok(Some(Callsite {
        name: text(alloc, name)?,
        target: text(alloc, target)?,
        level,
        kind,
        file: None,
        module_path: None,
        line: None,
        fields,
    }))
}

fn fields(alloc: Global, names: &str) -> Result<Items<Text>, Memory> {
    let mut fields = Items::new(alloc);
    for name in names.split(' ') {
        push_name(alloc, &mut fields, name)?;
    }
    Ok(fields)
}

fn push_name(alloc: Global, fields: &mut Items<Text>, name: &str) -> Result<(), Memory> {
    if name.is_empty() {
        return Ok(());
    }
    let name = text(alloc, name)?;
    fields.push(name)?;
    Ok(())
}

// The level and the target at the front, and the words behind them.
fn head(words: &str) -> Option<(Level, &str, &str)> {
    let (level, rest) = words.split_once(' ')?;
    let (target, rest) = rest.split_once(' ')?;
    Some((level.parse::<Level>().ok()?, target, rest))
}

/// The values of words `FIELD=VALUE` for the fields of a callsite; what names none of them is left out.
pub fn values(alloc: Global, callsite: &Callsite, words: &str) -> Result<ValueSet, Memory> {
    let mut pairs = Items::new(alloc);
    for word in words.split(' ') {
        push_value(alloc, &mut pairs, callsite, word)?;
    }
    Ok(ValueSet { pairs })
}

fn push_value(
    alloc: Global,
    pairs: &mut Items<(usize, Value)>,
    callsite: &Callsite,
    word: &str,
) -> Result<(), Memory> {
    let (name, text) = word.split_once('=').unwrap_or((word, ""));
    let Some(place) = callsite.field(name) else {
        return Ok(());
    };
    let value = value(alloc, text)?;
    pairs.push((place, value))?;
    Ok(())
}

// A truth value, a number, the debug text behind a `?`, or a text.
fn value(alloc: Global, word: &str) -> Result<Value, Memory> {
    match word {
        "true" => return Ok(Value::Bool(true)),
        "false" => return Ok(Value::Bool(false)),
        _ => {}
    }
    if let Some(shown) = word.strip_prefix('?') {
        return Ok(Value::Debug(text(alloc, shown)?));
    }
    if let Ok(number) = word.parse::<u64>() {
        return Ok(Value::U64(number));
    }
    if let Ok(number) = word.parse::<i64>() {
        return Ok(Value::I64(number));
    }
    Ok(Value::Str(text(alloc, word)?))
}

/// A lane with an id, with nothing attached to it.
pub fn lane(alloc: Global, id: u64) -> Lane
    ensures { result.id ≡ id }
{
    Lane {
        id,
        name: None,
        default: None,
        contexts: ContextStack::new(alloc),
    }
}

fn text(alloc: Global, word: &str) -> Result<Text, Memory> {
    Text::from_str(alloc, word)
}
