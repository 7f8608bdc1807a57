//! The line that tells of a filter.
ghost use Rattle.std.specs.Prelude.{◌≡◌, ◌++◌, string_bytes, IfOk, OnOk};
ghost use Rattle.explain_base.specs.Filters.{filter_line};

use crate::lines::push;
use env_filter::EnvFilter;
use otel_base::memory::Memory;
use std::alloc::Global;
use trace_base::level::LevelFilter;

/// How a filter prints, and its hint; `Memory` where memory is wanting.
pub fn filter_line(alloc: Global, filter: &EnvFilter) -> Result<String, Memory>
    ensures { IfOk result (λ told. string_bytes told ≡ filter_line filter.now) }
{
    let hint = filter.max_level_hint().unwrap_or(LevelFilter::TRACE);
    Ok(format!(in alloc; "  prints `{filter}`, hint {hint}\n")?)
}

/// The same, behind other lines.
pub fn push_filter(alloc: Global, told: &mut String, shown: &EnvFilter) -> Result<(), Memory>
    ensures { OnOk result (string_bytes told.new ≡ string_bytes told.old ++ filter_line shown.now) }
{
    push(told, filter_line(alloc, shown))
}
