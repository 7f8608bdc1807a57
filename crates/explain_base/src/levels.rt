//! The lines that tell of levels.
ghost use Rattle.std.specs.Prelude.{◌≡◌, ◌++◌, flat_map, string_bytes, IfOk, OnOk};
ghost use Rattle.explain_base.specs.Filters.{level_line, level_part, levels_line};

use otel_base::memory::Memory;
use std::alloc::Global;
use trace_base::level::LevelFilter;

/// The level of a span, if it has one; `Memory` where memory is wanting.
pub fn level_line(alloc: Global, level: Option<LevelFilter>) -> Result<String, Memory>
    ensures { IfOk result (λ told. string_bytes told ≡ level_line level) }
{
    match level {
        Some(level) => Ok(format!(in alloc; "  level {level}\n")?),
        None => Ok(String::from_str(alloc, "  no level\n")?),
    }
}

/// The levels of a lane; `Memory` where memory is wanting.
pub fn levels_line(alloc: Global, levels: &[LevelFilter]) -> Result<String, Memory>
    ensures { IfOk result (λ told. string_bytes told ≡ levels_line levels.now) }
{
    let mut told = String::from_str(alloc, "  levels")?;
    push_levels(alloc, &mut told, levels)?;
    told.push_str("\n")?;
    Ok(told)
}

fn push_levels(alloc: Global, told: &mut String, levels: &[LevelFilter]) -> Result<(), Memory>
    ensures { OnOk result (string_bytes told.new ≡ string_bytes told.old ++ flat_map level_part levels.now) }
{
    for level in levels {
        push_level(alloc, told, *level)?;
    }
    Ok(())
}

fn push_level(alloc: Global, told: &mut String, level: LevelFilter) -> Result<(), Memory>
    ensures { OnOk result (string_bytes told.new ≡ string_bytes told.old ++ level_part level) }
{
    let part = format!(in alloc; " {level}")?;
    told.push_str(part.as_str())?;
    Ok(())
}
