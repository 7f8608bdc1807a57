//! Durations, as people read them.
use convert_base::Fault;
use std::alloc::Global;

/// Nanoseconds in the largest unit of which they have one, with one decimal, which is cut and not rounded.
pub fn duration(alloc: Global, nanos: u64) -> Result<String, Fault> {
    let text = if nanos < 1_000 {
        format!(in alloc; "{nanos}ns")?
    } else if nanos < 1_000_000 {
        format!(in alloc; "{}.{}us", nanos / 1_000, nanos / 100 % 10)?
    } else if nanos < 1_000_000_000 {
        format!(in alloc; "{}.{}ms", nanos / 1_000_000, nanos / 100_000 % 10)?
    } else {
        format!(in alloc; "{}.{}s", nanos / 1_000_000_000, nanos / 100_000_000 % 10)?
    };
    Ok(text)
}
