//! Parents and contexts by the numbers that requests give, and how many handles and guards there may be.
ghost use Rattle.std.specs.Prelude.{◌≡◌, ◌<◌, length, OnOk, map, slice_get};
ghost use Rattle.span_script.specs.Fits.{held_by};
ghost use Rattle.span_script.specs.Slots.{parent_for};
ghost use Rattle.trace_pipeline.specs.declared.names.TheConstants.{MAX_NAMES};

use crate::guards::Guards;
use otel_base::context::Context;
use otel_base::memory::Memory;
use span_handles::span::Span;
use span_script::request::RequestParent;
use sparse_slots::Slots;
use trace_base::span::Parent;

// So many handles and guards are never exceeded.
const MAX_NAMES: usize = 1_000_000_000_000;

/// Whether there are so few handles and guards that either may be one more: else `Memory`.
pub fn check_few_names(handles: &Slots<Span>, guards: &Guards) -> Result<(), Memory>
    ensures handles { OnOk result (length handles.now.items < MAX_NAMES) }
    ensures guards { OnOk result (length guards.now.items < MAX_NAMES) }
{
    if handles.len() >= MAX_NAMES || guards.len() >= MAX_NAMES {
        return Err(Memory);
    }
    Ok(())
}

/// Under what a new span or an event is put, if the handle that its place names is there.
pub fn parent_for(handles: &Slots<Span>, parent: RequestParent) -> Option<Parent>
    ensures { result ≡ parent_for (map held_by handles.now.items) parent }
{
    match parent {
        RequestParent::Contextual => Some(Parent::Current),
        RequestParent::Root => Some(Parent::Root),
        RequestParent::Under { handle } => Some(handles.get(handle)?.as_parent()),
    }
}

/// The context of a number, if it is there.
pub fn context_at(contexts: &Vec<Context>, number: u64) -> Option<Context>
    ensures { result ≡ slice_get contexts.now.items number }
{
    match contexts.get(number as usize) {
        Some(context) => Some(*context),
        None => None,
    }
}
