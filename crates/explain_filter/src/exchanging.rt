//! Filters that are exchanged, and taken out for good.
use env_filter::{EnvFilter, reload};
use explain_base::push;
use otel_base::memory::Memory;
use std::alloc::Global;
use trace_base::callsite::Callsite;
use trace_base::layer::Layer;

/// What is in place once a filter was exchanged for another.
pub fn exchange(filter: EnvFilter, next: EnvFilter) -> Option<EnvFilter> {
    let mut layer = reload::Layer::new(filter);
    let inner = reload_and_retire(&mut layer, next);
    drop(layer);
    inner
}

// The filter inside a layer after it was given another.
fn reload_and_retire(layer: &mut reload::Layer<EnvFilter>, next: EnvFilter) -> Option<EnvFilter> {
    match layer.reload(next) {
        Ok(()) => layer.retire(),
        Err(_) => None,
    }
}

/// A copy of the filter inside a layer that can be exchanged.
pub fn copy_current(filter: EnvFilter) -> Result<Option<EnvFilter>, Memory> {
    reload::Layer::new(filter).clone_current()
}

/// What a layer answers whose filter was changed in place and then taken out for good, and whether it says so when it is
/// to lend a filter, to change it, or is given another.
pub fn retirement_line(alloc: Global, lane: u64, callsite: &Callsite) -> Result<String, Memory> {
    let mut layer = reload::Layer::new(EnvFilter::new(alloc, "trace")?);
    let told = change_and_retire(alloc, &mut layer, lane, callsite);
    drop(layer);
    told
}

fn change_and_retire(
    alloc: Global,
    layer: &mut reload::Layer<EnvFilter>,
    lane: u64,
    callsite: &Callsite,
) -> Result<String, Memory> {
    let mut told = change_line(alloc, layer, lane, callsite)?;
    push_retired(alloc, &mut told, layer, lane, callsite)?;
    Ok(told)
}

// What a layer answers before and after its filter is changed in place for one that lets nothing through.
fn change_line(
    alloc: Global,
    layer: &mut reload::Layer<EnvFilter>,
    lane: u64,
    callsite: &Callsite,
) -> Result<String, Memory> {
    let before = lent_answer(layer, lane, callsite);
    let changed = change_in_place(layer, EnvFilter::new(alloc, "off")?);
    let after = lent_answer(layer, lane, callsite);
    Ok(format!(in alloc; "  enabled {before:?}, changed {changed}, enabled {after:?}")?)
}

// Whether a layer's filter is changed in place for another.
fn change_in_place(layer: &mut reload::Layer<EnvFilter>, next: EnvFilter) -> bool {
    layer.modify(|filter| *filter = next).is_ok()
}

// What a layer answers once its filter was taken out.
fn push_retired(
    alloc: Global,
    told: &mut String,
    layer: &mut reload::Layer<EnvFilter>,
    lane: u64,
    callsite: &Callsite,
) -> Result<(), Memory> {
    let dropped = retires_as_dropped(layer, lane, callsite);
    push(told, retired_line(alloc, layer, lane, callsite, dropped))
}

fn retired_line(
    alloc: Global,
    layer: &reload::Layer<EnvFilter>,
    lane: u64,
    callsite: &Callsite,
    dropped: bool,
) -> Result<String, Memory> {
    let interest = layer.register_callsite(callsite);
    let enabled = layer.enabled(lane, callsite);
    let hinted = layer.max_level_hint().is_some();
    Ok(format!(in alloc;
        ", then {interest:?}, enabled {enabled}, hinted {hinted}, dropped {dropped}\n"
    )?)
}

// What the filter inside a layer answers, if there is one.
fn lent_answer(layer: &reload::Layer<EnvFilter>, lane: u64, callsite: &Callsite) -> Option<bool> {
    layer
        .with_current(|filter| filter.enabled(lane, callsite))
        .ok()
}

// Takes the filter of a layer out, and tells whether the layer says so, and not that it is poisoned: where it gets
// another, where it lends it, and where it changes it.
fn retires_as_dropped(
    layer: &mut reload::Layer<EnvFilter>,
    lane: u64,
    callsite: &Callsite,
) -> bool {
    let Some(filter) = layer.retire() else {
        return false;
    };
    let refuses = layer
        .reload(filter)
        .is_err_and(|error| error.is_dropped() && !error.is_poisoned());
    refuses && lent_answer(layer, lane, callsite).is_none() && layer.modify(|_| ()).is_err()
}
