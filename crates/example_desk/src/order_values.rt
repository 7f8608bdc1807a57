//! What is given to the spans and the events of an order.
ghost use Rattle.std.specs.Prelude.{◌≡◌, ◌<◌, ◌^◌, IfOk};

use crate::sites::{Sites, text};
use otel_base::list::Items;
use otel_base::memory::Memory;
use std::alloc::Global;
use trace_base::field::{Value, ValueSet};

/// The moment of an order, in nanoseconds, and the callsites of its spans and events, with what is given to each.
#[derive(Drop)]
pub struct OrderValues {
    pub at: u64,
    pub sites: Sites,
    pub order: ValueSet,
    pub pay: ValueSet,
    pub pack: ValueSet,
    pub failed: ValueSet,
    pub paid: ValueSet,
    ghost early: { at < 2 ^ 62 },
}

impl OrderValues {
    /// What is given for the order of a user; there is no box for what they want.
    pub fn new(alloc: Global, at: u64, sites: Sites, user: &str) -> Result<OrderValues, Memory>
        requires { at < 2 ^ 62 }
        ensures { IfOk result (λ given. given.at ≡ at) }
    {
        let error = Value::Error {
            message: text(alloc, "no box")?,
            chain: Items::new(alloc),
        };
        Ok(OrderValues {
            at,
            sites,
            order: two_values(alloc, Value::Str(text(alloc, user)?), Value::U64(3))?,
            pay: one_value(alloc, Value::Str(text(alloc, user)?))?,
            pack: ValueSet {
                pairs: Items::new(alloc),
            },
            failed: two_values(alloc, Value::Str(text(alloc, "failed")?), error)?,
            paid: one_value(alloc, Value::Str(text(alloc, "paid")?))?,
        })
    }
}

// A value for the first field, and one for the second.
fn one_value(alloc: Global, first: Value) -> Result<ValueSet, Memory> {
    let mut pairs = Items::new(alloc);
    pairs.push((0, first))?;
    Ok(ValueSet { pairs })
}

fn two_values(alloc: Global, first: Value, second: Value) -> Result<ValueSet, Memory> {
    let mut set = one_value(alloc, first)?;
    set.pairs.push((1, second))?;
    Ok(set)
}
