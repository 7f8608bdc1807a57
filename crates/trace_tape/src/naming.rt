//! Values by the names of their fields.
ghost use Rattle.std.specs.Prelude.{◌≡◌, ℕ, List, IfOk};
ghost use Rattle.trace_tape.specs.Tapes.{field_name_at, named_values};

use crate::copies::copied_value;
use otel_base::list::Items;
use otel_base::memory::Memory;
use otel_base::text::Text;
use std::alloc::Global;
use trace_base::callsite::Callsite;
use trace_base::field::{Value, ValueSet};

// The name of the field at a place, and the empty one where there is none.
fn field_name_at(alloc: Global, callsite: &Callsite, place: usize) -> Result<Text, Memory>
    ensures { IfOk result (λ name. name ≡ field_name_at callsite.now place) }
{
    let names = callsite.fields.as_slice();
    if place < names.len() {
        Ok(names[place].clone()?)
    } else {
        Ok(Text::from(String::new(alloc)))
    }
}

/// The values of fields, each beside the name of its field.
pub(crate) fn named_values(
    alloc: Global,
    callsite: &Callsite,
    values: &ValueSet,
) -> Result<Items<(Text, Value)>, Memory>
    ensures { IfOk result (λ fields. fields ≡ named_values callsite.now values.now) }
{
    let pairs = values.pairs.as_slice();
    let mut fields = Vec::with_capacity(alloc, pairs.len())?;
    for (place, value) in pairs {
        fields.push((
            field_name_at(alloc, callsite, *place)?,
            copied_value(alloc, value)?,
        ))?;
    }
    Ok(Items::from(fields))
}
