//! Fields that requests give, by the fields that callsites declare.
ghost use Rattle.std.specs.Prelude.{◌≡◌, false, Some, Err, IfOk, IfErr};
ghost use Rattle.span_script.specs.Fields.{values_of, all_values};
ghost use Rattle.span_script.specs.Fits.{is_for_memory};
ghost use Rattle.span_script.specs.Slots.{values_or_refusal};

use otel_base::list::Items;
use otel_base::memory::Memory;
use otel_base::text::Text;
use span_script::reply::{Refusal, What};
use std::alloc::Global;
use trace_base::callsite::Callsite;
use trace_base::field::{Value, ValueSet};
use trace_base::span::Parent;

/// The values of those fields that the callsite declares, in their order.
pub fn values_of(
    alloc: Global,
    callsite: &Callsite,
    fields: Items<(Text, Value)>,
) -> Result<ValueSet, Memory>
    ensures { IfOk result (λ values. values ≡ values_of callsite.now fields) }
{
    let mut pairs = Items::new(alloc);
    for (name, value) in fields.into_vec() {
        if let Some(place) = callsite.field(name.as_str()) {
            pairs.push((place, value))?;
        }
    }
    Ok(ValueSet { pairs })
}

// The values of all fields, and none where the callsite doesn't declare one of them.
fn all_values(
    alloc: Global,
    callsite: &Callsite,
    fields: Items<(Text, Value)>,
) -> Result<Option<ValueSet>, Memory>
    ensures { IfOk result (λ values. values ≡ all_values callsite.now fields) }
{
    let given = fields.as_slice().len();
    let values = values_of(alloc, callsite, fields)?;
    if values.pairs.as_slice().len() < given {
        return Ok(None);
    }
    Ok(Some(values))
}

/// Under what a new span or an event of a callsite goes and the values of all its fields, where what a request names is there.
pub fn parent_and_values(
    alloc: Global,
    callsite: &Callsite,
    parent: Option<Parent>,
    fields: Items<(Text, Value)>,
) -> Result<(Parent, ValueSet), Refusal>
    ensures parent { IfOk result (λ named. parent ≡ Some named.0) }
    ensures values { IfOk result (λ named. all_values callsite.now fields ≡ Some named.1) }
    ensures refused { IfErr result (λ refusal. is_for_memory refusal ≡ false
        → values_or_refusal (Some callsite.now) parent fields ≡ Err refusal) }
{
    let Some(parent) = parent else {
        return Err(Refusal::UnknownName { what: What::Handle });
    };
    let Some(values) = all_values(alloc, callsite, fields)? else {
        return Err(Refusal::UnknownName { what: What::Field });
    };
    Ok((parent, values))
}
