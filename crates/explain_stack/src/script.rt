//! Scripts: a stack, callsites, and calls.
ghost use Rattle.std.specs.Prelude.{◌≡◌, ℕ, [], false, length};
ghost use Rattle.span_registry.specs.Both.{KnowsNone};
ghost use Rattle.span_registry.specs.Registering.{no_spans};
ghost use Rattle.explain_stack.specs.Order.{SceneInOrder};
ghost use Rattle.explain_stack.specs.Places.{InPlay};

use crate::handles::Handles;
use crate::scene::Scene;
use crate::stack::tally::Tally;
use crate::stack::{Judge, Stack};
use crate::{play, told, words};
use env_directives::targets::Targets;
use env_filter::filter::EnvFilter;
use env_filter::reload;
use futures::task::Context;
use otel_base::memory::Memory;
use otel_base::recorder::Recorder;
use otel_layer::layer::OpenTelemetryLayer;
use span_registry::registry::Registry;
use std::alloc::Global;
use trace_base::discard::Discard;
use trace_base::filter::Filter;
use trace_base::world::World;

/// Runs the lines of a script on the stack of some words, and tells each line and what came of it.
pub fn run(
    alloc: Global,
    stack: &str,
    lines: &[String],
    cx: &mut Context<'_>,
) -> Result<String, Memory> {
    let (kind, words) = stack.split_once(' ').unwrap_or((stack, ""));
    match kind {
        "layer" => run_layer(alloc, true, false, lines, cx),
        "passive" => run_layer(alloc, false, false, lines, cx),
        "counted" => run_layer(alloc, true, true, lines, cx),
        "counting" => run_counting(alloc, EnvFilter::new(alloc, words)?, lines, cx),
        "targets" => match Targets::from_str(alloc, words) {
            Ok(targets) => run_counting(alloc, targets, lines, cx),
            Err(_) => told::refused_line(alloc),
        },
        "filtered" => run_judged(alloc, EnvFilter::new(alloc, words)?, lines, cx),
        "below" => match Targets::from_str(alloc, words) {
            Ok(targets) => run_judged(alloc, targets, lines, cx),
            Err(_) => told::refused_line(alloc),
        },
        "exchanged" => run_exchanged(alloc, words, lines, cx),
        _ => run_on(alloc, Registry::new(alloc), lines, cx),
    }
}

// Runs them under the layer, with or without activation, over a tally that may tell its counts.
fn run_layer(
    alloc: Global,
    activation: bool,
    is_counted: bool,
    lines: &[String],
    cx: &mut Context<'_>,
) -> Result<String, Memory> {
    let layer = OpenTelemetryLayer::new(alloc, Recorder::new(alloc));
    let layer = layer.with_tracer(Tally::new(alloc, is_counted));
    let layer = layer.with_context_activation(activation);
    run_on(alloc, Registry::new(alloc).with(layer), lines, cx)
}

// Runs them under a layer that counts events, and tells those that a filter lets through.
fn run_counting<F: Filter + Drop>(
    alloc: Global,
    filter: F,
    lines: &[String],
    cx: &mut Context<'_>,
) -> Result<String, Memory> {
    let layer = OpenTelemetryLayer::new(alloc, Tally::new(alloc, false));
    let layer = layer.with_counting_event_filter(filter);
    run_on(alloc, Registry::new(alloc).with(layer), lines, cx)
}

// Runs them under a layer that judges, over the layer.
fn run_judged<J: Judge>(
    alloc: Global,
    judge: J,
    lines: &[String],
    cx: &mut Context<'_>,
) -> Result<String, Memory>
    requires whole { J.is_whole judge }
    requires new { KnowsNone (J.seen judge) × (J.attaches judge ≡ false) }
    requires kept { (lane number : ℕ) → J.kept judge lane number ≡ 0 }
{
    let layer = OpenTelemetryLayer::new(alloc, Tally::new(alloc, false));
    let stack = Registry::new(alloc).with(layer).with(judge);
    run_on(alloc, stack, lines, cx)
}

// Runs them under targets that were exchanged for others, over the layer; the words are both.
fn run_exchanged(
    alloc: Global,
    words: &str,
    lines: &[String],
    cx: &mut Context<'_>,
) -> Result<String, Memory> {
    let (first, next) = words.split_once(' ').unwrap_or((words, ""));
    let Ok(first) = Targets::from_str(alloc, first) else {
        return told::refused_line(alloc);
    };
    let Ok(next) = Targets::from_str(alloc, next) else {
        return told::refused_line(alloc);
    };
    let mut judge = reload::Layer::new(first);
    if judge.reload(next).is_err() {
        return told::refused_line(alloc);
    }
    run_judged(alloc, judge, lines, cx)
}

// Runs them on a stack that knows no span.
fn run_on<S: Stack>(
    alloc: Global,
    stack: S,
    lines: &[String],
    cx: &mut Context<'_>,
) -> Result<String, Memory>
    requires whole { S.is_whole stack }
    requires spans { S.spans stack ≡ no_spans }
    requires kept { (lane number : ℕ) → S.kept stack lane number ≡ 0 }
{
    let mut world = World::new(alloc);
    let site_count = match declare(alloc, &mut world, lines) {
        Ok(site_count) => site_count,
        Err(memory) => {
            world.discard();
            stack.discard();
            return Err(memory);
        }
    };
    let mut scene = Scene::new(alloc, world, site_count, stack)?;
    let mut handles = Handles::new();
    let mut told = String::new(alloc);
    let played = play(alloc, &mut scene, &mut handles, lines, &mut told, cx);
    handles.discard();
    let ended = scene.end(alloc, &mut told);
    played.and(ended)?;
    Ok(told)
}

// Adds the callsites of the lines `site LEVEL NAME FIELD ..` to a world, and answers how many there are.
fn declare<S: Stack>(alloc: Global, world: &mut World<S>, lines: &[String]) -> Result<u64, Memory>
    requires { length world.old.subscribers ≡ 0 }
    ensures { length world.new.subscribers ≡ 0 }
{
    let mut site_count = 0;
    for line in lines {
        if let Some(words) = line.as_str().strip_prefix("site ") {
            if let Some(callsite) = words::callsite(alloc, words)? {
                site_count = world.add_site(callsite)?.number().wrapping_add(1);
            }
        }
    }
    Ok(site_count)
}

// Makes the calls of the other lines, and tells each line and what is answered.
fn play<S: Stack>(
    alloc: Global,
    scene: &mut Scene<S>,
    handles: &mut Handles,
    lines: &[String],
    told: &mut String,
    cx: &mut Context<'_>,
) -> Result<(), Memory>
    requires { InPlay S.spans S.kept S.is_whole scene.old handles.old }
    ensures { SceneInOrder S.spans S.kept S.is_whole scene.new }
{
    for line in lines {
        told.push_str(line.as_str())?;
        told.push_str("\n")?;
        if !line.as_str().starts_with("site ") && !line.as_str().starts_with('#') {
            let answer = play::answer(alloc, scene, handles, line.as_str(), cx)?;
            told::add(told, answer)?;
        }
    }
    Ok(())
}
