//! Copies of callsites, since a tape's world keeps its own.
ghost use Rattle.std.specs.Prelude.{◌≡◌, IfOk};

use otel_base::memory::Memory;
use otel_base::text::Text;
use std::alloc::Global;
use trace_base::callsite::Callsite;
use trace_tape::copies::copied_texts;

// The same text once more, if there is one.
fn copied_if(text: &Option<Text>) -> Result<Option<Text>, Memory>
    ensures { IfOk result (λ copy. copy ≡ text.now) }
{
    match text {
        Some(text) => Ok(Some(text.clone()?)),
        None => Ok(None),
    }
}

// The same callsite once more.
fn copied_callsite(alloc: Global, callsite: &Callsite) -> Result<Callsite, Memory>
    ensures { IfOk result (λ copy. copy ≡ callsite.now) }
{
    let name = callsite.name.clone()?;
    let target = callsite.target.clone()?;
    let file = copied_if(&callsite.file)?;
    let module_path = copied_if(&callsite.module_path)?;
    let fields = copied_texts(alloc, callsite.fields.as_slice())?;
    Ok(Callsite {
        name,
        target,
        level: callsite.level,
        kind: callsite.kind,
        file,
        module_path,
        line: callsite.line,
        fields,
    })
}

/// The same callsites once more.
pub fn copied_callsites(alloc: Global, callsites: &[Callsite]) -> Result<Vec<Callsite>, Memory>
    ensures { IfOk result (λ copy. copy.items ≡ callsites.now) }
{
    let mut copy = Vec::new(alloc);
    for callsite in callsites {
        copy.push(copied_callsite(alloc, callsite)?)?;
    }
    Ok(copy)
}
