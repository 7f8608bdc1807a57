//! Lines that are told one behind the other.
ghost use Rattle.std.specs.Prelude.{◌≡◌, ◌++◌, string_bytes, OnOk};
ghost use Rattle.std.specs.Result.{IsOkAnd};

use otel_base::memory::Memory;

/// Puts lines behind others; `Memory` where they were not to be had, or memory is wanting now.
pub fn push(told: &mut String, more: Result<String, Memory>) -> Result<(), Memory>
    ensures { OnOk result (IsOkAnd more (λ more. string_bytes told.new ≡ string_bytes told.old ++ string_bytes more)) }
{
    told.push_str(more?.as_str())?;
    Ok(())
}
