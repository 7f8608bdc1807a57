//! Targets as a filter, as a layer, and as a layer that can be exchanged.
use crate::answers;
use env_directives::Targets;
use env_filter::reload;
use explain_base::push;
use otel_base::memory::Memory;
use std::alloc::Global;
use trace_base::callsite::Callsite;
use trace_base::filter::Filter;
use trace_base::layer::Layer;
use trace_base::level::LevelFilter;
use trace_base::subscriber::Interest;

/// What targets answer of a callsite: as a filter and as a layer, inside a layer that can be exchanged, and what the
/// others answer for which they are exchanged there. None where one of two words is no text of targets.
pub fn answer_lines(
    alloc: Global,
    callsite: &Callsite,
    words: &str,
) -> Result<Option<String>, Memory> {
    let (first, next) = words.split_once(' ').unwrap_or((words, ""));
    let Ok(targets) = Targets::from_str(alloc, first) else {
        return Ok(None);
    };
    let Ok(others) = Targets::from_str(alloc, next) else {
        return Ok(None);
    };
    Ok(Some(lines(alloc, callsite, targets, others)?))
}

fn lines(
    alloc: Global,
    callsite: &Callsite,
    targets: Targets,
    others: Targets,
) -> Result<String, Memory> {
    let mut told = filter_answer_line(alloc, &targets, callsite)?;
    push(
        &mut told,
        layer_answer_line(alloc, "layer", &targets, callsite),
    )?;
    push(&mut told, exchange_lines(alloc, callsite, targets, others))?;
    Ok(told)
}

// What a layer answers with targets inside, and with others once they are exchanged.
fn exchange_lines(
    alloc: Global,
    callsite: &Callsite,
    targets: Targets,
    others: Targets,
) -> Result<String, Memory> {
    let mut layer = reload::Layer::new(targets);
    let mut told = layer_answer_line(alloc, "inside", &layer, callsite)?;
    if layer.reload(others).is_err() {
        return answers::no_call_line(alloc);
    }
    push(
        &mut told,
        layer_answer_line(alloc, "exchanged", &layer, callsite),
    )?;
    push(&mut told, copy_line(alloc, &layer, callsite))?;
    Ok(told)
}

// What a copy of the targets inside answers.
fn copy_line(
    alloc: Global,
    layer: &reload::Layer<Targets>,
    callsite: &Callsite,
) -> Result<String, Memory> {
    match layer.clone_current()? {
        Some(targets) => layer_answer_line(alloc, "copied", &targets, callsite),
        None => answers::no_call_line(alloc),
    }
}

fn filter_answer_line<F: Filter>(
    alloc: Global,
    filter: &F,
    callsite: &Callsite,
) -> Result<String, Memory> {
    let interest = filter.callsite_enabled(callsite);
    let enabled = filter.enabled(0, callsite);
    line(alloc, "filter", interest, enabled, filter.max_level_hint())
}

fn layer_answer_line<L: Layer>(
    alloc: Global,
    kind: &str,
    layer: &L,
    callsite: &Callsite,
) -> Result<String, Memory> {
    let interest = layer.register_callsite(callsite);
    let enabled = layer.enabled(0, callsite);
    line(alloc, kind, interest, enabled, layer.max_level_hint())
}

fn line(
    alloc: Global,
    kind: &str,
    interest: Interest,
    enabled: bool,
    hint: Option<LevelFilter>,
) -> Result<String, Memory> {
    match hint {
        Some(hint) => Ok(format!(in alloc;
            "  {kind} {interest:?}, enabled {enabled}, hint {hint}\n"
        )?),
        None => Ok(format!(in alloc; "  {kind} {interest:?}, enabled {enabled}, no hint\n")?),
    }
}
