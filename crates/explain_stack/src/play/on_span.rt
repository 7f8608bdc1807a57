//! Lines of calls on the span of one handle, which leave its entries.
ghost use Rattle.std.specs.Prelude.{◌≡◌, ◌<◌};
ghost use Rattle.explain_stack.specs.Order.{SceneInOrder, IsKnownWithSite, KeepsScene};

use crate::scene::Scene;
use crate::stack::Stack;
use crate::{told, words};
use otel_base::context::Context;
use otel_base::memory::Memory;
use span_handles::span::Span;
use std::alloc::Global;
use trace_base::callsite::SiteId;

/// Makes a call that leaves entries, and tells what is answered.
pub fn tell<S: Stack>(
    alloc: Global,
    scene: &mut Scene<S>,
    span: &Span,
    at: u64,
    call: &str,
    words: &str,
) -> Result<String, Memory>
    requires order { SceneInOrder S.spans S.kept S.is_whole scene.old }
    requires held { IsKnownWithSite S.spans scene.old.site_count scene.old.world span.now }
    ensures keeps { KeepsScene S.spans S.kept S.is_whole scene.old scene.new }
{
    match call {
        "record" => record(alloc, scene, span, at, words)?,
        "event" => event(alloc, scene, span, at, words)?,
        "link" => scene.link(at, span, words::ids(words))?,
        "status" => scene.set_status(at, span, words::status(alloc, words)?),
        _ => return ask(alloc, scene, span, at, call, words),
    }
    told::done_line(alloc, true)
}

// Values of words.
fn record<S: Stack>(
    alloc: Global,
    scene: &mut Scene<S>,
    span: &Span,
    at: u64,
    words: &str,
) -> Result<(), Memory>
    requires order { SceneInOrder S.spans S.kept S.is_whole scene.old }
    requires held { IsKnownWithSite S.spans scene.old.site_count scene.old.world span.now }
    ensures keeps { KeepsScene S.spans S.kept S.is_whole scene.old scene.new }
{
    let values = words::values(alloc, words)?;
    let done = scene.record(at, span, &values);
    drop(values);
    done
}

// An event of the words `SITE VALUES`.
fn event<S: Stack>(
    alloc: Global,
    scene: &mut Scene<S>,
    span: &Span,
    at: u64,
    words: &str,
) -> Result<(), Memory>
    requires order { SceneInOrder S.spans S.kept S.is_whole scene.old }
    requires held { IsKnownWithSite S.spans scene.old.site_count scene.old.world span.now }
    ensures keeps { KeepsScene S.spans S.kept S.is_whole scene.old scene.new }
{
    let (site, words) = words.split_once(' ').unwrap_or((words, ""));
    if let Some(site) = scene.site_at(words::number(site).unwrap_or(0)) {
        if scene.admits(alloc, scene.lane_ids().0, site) {
            return admitted_event(alloc, scene, span, at, site, words);
        }
    }
    Ok(())
}

// An event of a callsite, which is taken.
fn admitted_event<S: Stack>(
    alloc: Global,
    scene: &mut Scene<S>,
    span: &Span,
    at: u64,
    site: SiteId,
    words: &str,
) -> Result<(), Memory>
    requires order { SceneInOrder S.spans S.kept S.is_whole scene.old }
    requires held { IsKnownWithSite S.spans scene.old.site_count scene.old.world span.now }
    requires site { site < scene.old.site_count }
    ensures keeps { KeepsScene S.spans S.kept S.is_whole scene.old scene.new }
{
    let values = words::values(alloc, words)?;
    let done = scene.event(at, span, site, &values);
    drop(values);
    done
}

// A call that answers something.
fn ask<S: Stack>(
    alloc: Global,
    scene: &mut Scene<S>,
    span: &Span,
    at: u64,
    call: &str,
    words: &str,
) -> Result<String, Memory>
    requires order { SceneInOrder S.spans S.kept S.is_whole scene.old }
    requires held { IsKnownWithSite S.spans scene.old.site_count scene.old.world span.now }
    ensures keeps { KeepsScene S.spans S.kept S.is_whole scene.old scene.new }
{
    match call {
        "context" => context_line(alloc, scene, span, at),
        "parent" => set_parent(alloc, scene, span, at, words),
        _ => told::refused_line(alloc),
    }
}

// The own context of a span, which starts it.
fn context_line<S: Stack>(
    alloc: Global,
    scene: &mut Scene<S>,
    span: &Span,
    at: u64,
) -> Result<String, Memory>
    requires order { SceneInOrder S.spans S.kept S.is_whole scene.old }
    requires held { IsKnownWithSite S.spans scene.old.site_count scene.old.world span.now }
    ensures keeps { KeepsScene S.spans S.kept S.is_whole scene.old scene.new }
{
    let own = scene.context(at, span).span_context();
    let (trace, id) = (own.trace, own.span);
    Ok(format!(in alloc; "  context {trace} {id}\n")?)
}

// A parent of the words `TRACE SPAN`.
fn set_parent<S: Stack>(
    alloc: Global,
    scene: &mut Scene<S>,
    span: &Span,
    at: u64,
    words: &str,
) -> Result<String, Memory>
    requires order { SceneInOrder S.spans S.kept S.is_whole scene.old }
    requires held { IsKnownWithSite S.spans scene.old.site_count scene.old.world span.now }
    ensures keeps { KeepsScene S.spans S.kept S.is_whole scene.old scene.new }
{
    let context = Context {
        span: Some(words::ids(words)),
    };
    match scene.set_parent(at, span, context) {
        Ok(()) => told::done_line(alloc, true),
        Err(error) => Ok(format!(in alloc; "  {error}\n")?),
    }
}
