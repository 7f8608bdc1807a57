//! Fields by the fields that callsites declare.
ghost use Rattle.std.specs.Prelude.{◌≡◌, IfOk};
ghost use Rattle.span_script.specs.Fields.{values_of};

use otel_base::list::Items;
use otel_base::memory::Memory;
use otel_base::text::Text;
use std::alloc::Global;
use trace_base::callsite::Callsite;
use trace_base::field::{Value, ValueSet};

/// The values of those fields that the callsite declares, in their order.
pub(crate) fn values_of(
    alloc: Global,
    callsite: &Callsite,
    fields: Items<(Text, Value)>,
) -> Result<ValueSet, Memory>
    ensures { IfOk result (λ values. values ≡ values_of callsite.now fields) }
{
    let mut pairs = Vec::with_capacity(alloc, fields.as_slice().len())?;
    for (name, value) in fields.into_vec() {
        if let Some(place) = callsite.field(name.as_str()) {
            pairs.push((place, value))?;
        }
    }
    let pairs = Items::from(pairs);
    Ok(ValueSet { pairs })
}
