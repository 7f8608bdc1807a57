//! Interests, the places of names, values and names of spans.
use otel_base::list::Items;
use otel_base::memory::Memory;
use otel_base::text::Text;
use std::alloc::Global;
use trace_base::callsite::{Callsite, Kind};
use trace_base::field::{Value, ValueSet};
use trace_base::level::Level;
use trace_base::span::{Id, Parent};
use trace_base::subscriber::Interest;

/// A text.
pub fn text(alloc: Global, text: &str) -> Result<Text, Memory> {
    Text::from_str(alloc, text)
}

/// A callsite of spans with fields of these names.
pub fn callsite(alloc: Global, names: &[&str]) -> Result<Callsite, Memory> {
    let mut made = bare(alloc);
    for name in names {
        made.fields.push(text(alloc, *name)?)?;
    }
    Ok(made)
}

/// A callsite of spans without a name, a target or fields.
pub fn bare(alloc: Global) -> Callsite {
    Callsite {
        name: Text::from(String::new(alloc)),
        target: Text::from(String::new(alloc)),
        level: Level::INFO,
        kind: Kind::Span,
        file: None,
        module_path: None,
        line: None,
        fields: Items::new(alloc),
    }
}

#[test]
fn tells_interests_and_spans_apart(rt: HostRuntime) {
    let (never, always) = (Interest::never(), Interest::always());
    assert!(rt; never.is_never() && !never.is_sometimes() && !never.is_always());
    assert!(rt; Interest::sometimes().is_sometimes() && always.is_always() && !always.is_never());
    let third = Id::at(2);
    assert!(rt; third.place() == 2 && third.into_u64() == 3 && Id::from_u64(3) == third);
    assert!(rt; Parent::Of(third) == Parent::Of(third) && Parent::Of(third) != Parent::Current);
}

// The places of some names, of which one is declared twice.
fn places(alloc: Global) -> Result<[Option<usize>; 6], Memory> {
    let declared = callsite(alloc, &["a", "f", "a", "otel.name", ""])?;
    Ok([
        declared.field("a"),
        declared.field("otel.name"),
        declared.field(""),
        declared.field("A"),
        declared.field("otel"),
        declared.field("otel.name2"),
    ])
}

#[test]
fn finds_the_first_place_of_a_name(rt: HostRuntime) {
    let told = places(rt.alloc());
    assert!(rt; told == Ok([Some(0), Some(3), Some(4), None, None, None]));
}

// A number at place 1 and an error at place 0.
fn two_values(alloc: Global) -> Result<ValueSet, Memory> {
    let mut pairs = Items::new(alloc);
    pairs.push((1, Value::I128(i128::MIN)))?;
    let mut chain = Items::new(alloc);
    chain.push(text(alloc, "no such file")?)?;
    let message = text(alloc, "can't read")?;
    pairs.push((0, Value::Error { message, chain }))?;
    Ok(ValueSet { pairs })
}

// Whether a copy has the same number, and the same error.
fn copy_is_same(alloc: Global) -> Result<[bool; 2], Memory> {
    let copy = two_values(alloc)?.clone()?;
    let [
        (first, Value::I128(number)),
        (second, Value::Error { message, chain }),
    ] = copy.pairs.as_slice()
    else {
        return Ok([false; 2]);
    };
    let same_number = (*first, *number) == (1, i128::MIN);
    let same_error = (*second, message.as_str(), chain.as_slice().len()) == (0, "can't read", 1);
    Ok([same_number, same_error])
}

#[test]
fn copies_values(rt: HostRuntime) {
    assert_eq!(rt; copy_is_same(rt.alloc()), Ok([true; 2]));
}
