//! The vectors of a stack of values, and a status that is written though it is unset. What ops and fields make of spans is
//! shown by runs of programs.
use crate::worlds::callsites::{callsite, text};
use otel_base::list::Items;
use otel_base::memory::Memory;
use otel_base::status::Status;
use otel_state::fields::span::span_update;
use otel_state::settings::LayerSettings;
use otel_state::stack::IdValueStack;
use std::alloc::Global;
use std::fmt::Write;
use std::test::Fail;
use trace_base::field::{Value, ValueSet};
use trace_base::span::Id;

// Values that are pushed with their ids, the ids that are popped, and what that tells.
const STACKS: [(&[(u64, &str)], &[u64], &str); 3] = [
    (
        &[(4711, "one"), (1729, "two"), (1001, "three")],
        &[1001, 1729, 4711, 5],
        "three 2 two 1 one 0 none 0 ",
    ),
    (
        &[(4711, "one"), (1729, "two")],
        &[4711, 1729, 5],
        "one 1 two 0 none 0 ",
    ),
    (&[(1, "a"), (2, "b"), (1, "c")], &[1, 1, 2], "c 2 a 1 b 0 "),
];

// What is popped after some pushes, with how many are left after each.
fn pops_text(alloc: Global, pushes: &[(u64, &'static str)], pops: &[u64]) -> Result<String, Fail> {
    let mut stack = IdValueStack::new(alloc);
    for (place, value) in pushes {
        if stack.push(id(*place), *value).is_err() {
            return Err(Fail::from(Memory));
        }
    }
    let mut told = String::new(alloc);
    for place in pops {
        let value = stack.pop(&id(*place)).unwrap_or("none");
        write!(told, "{value} {} ", stack.len())?;
    }
    Ok(told)
}

fn id(place: u64) -> Id {
    Id::at(place.min(9999))
}

#[test]
fn pops_the_latest_of_a_span(rt: HostRuntime) -> Result<(), Fail> {
    for (pushes, pops, wanted) in STACKS {
        assert_eq!(rt; pops_text(rt.alloc(), pushes, pops)?.as_str(), wanted);
    }
    Ok(())
}

// The status that a value writes at a place of a callsite with one field.
fn status_at(alloc: Global, place: usize) -> Result<Option<Status>, Memory> {
    let callsite = callsite(alloc, &["otel.status_code"])?;
    let mut pairs = Items::new(alloc);
    pairs.push((place, Value::Str(text(alloc, "okay")?)))?;
    let values = ValueSet { pairs };
    Ok(span_update(alloc, &callsite, &values, &LayerSettings::default())?.status)
}

#[test]
fn writes_what_is_unset(rt: HostRuntime) {
    assert!(rt; status_at(rt.alloc(), 0) == Ok(Some(Status::Unset)));
    assert!(rt; status_at(rt.alloc(), 1) == Ok(None));
}
