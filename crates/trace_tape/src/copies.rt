//! Copies of values, since what is lent can't be kept.
ghost use Rattle.std.specs.Prelude.{◌≡◌, IfOk};

use otel_base::list::Items;
use otel_base::memory::Memory;
use otel_base::text::Text;
use std::alloc::Global;
use trace_base::field::Value;

/// The same value once more. `Memory` freely.
pub fn copied_value(alloc: Global, value: &Value) -> Result<Value, Memory>
    ensures { IfOk result (λ v. v ≡ value.now) }
{
    Ok(match value {
        Value::Bool(b) => Value::Bool(*b),
        Value::I64(n) => Value::I64(*n),
        Value::U64(n) => Value::U64(*n),
        Value::I128(n) => Value::I128(*n),
        Value::U128(n) => Value::U128(*n),
        Value::Str(text) => Value::Str(text.clone()?),
        Value::Debug(text) => Value::Debug(text.clone()?),
        Value::Error { message, chain } => {
            let message = message.clone()?;
            Value::Error {
                message,
                chain: copied_texts(alloc, chain.as_slice())?,
            }
        }
    })
}

/// The same texts once more. `Memory` freely.
pub fn copied_texts(alloc: Global, texts: &[Text]) -> Result<Items<Text>, Memory>
    ensures { IfOk result (λ copy. copy ≡ texts.now) }
{
    let mut copy = Items::new(alloc);
    for text in texts {
        copy.push(text.clone()?)?;
    }
    Ok(copy)
}
