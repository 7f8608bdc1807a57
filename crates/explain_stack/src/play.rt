//! Lines of calls, made on the handles of a scene.
ghost use Rattle.std.specs.Prelude.{◌≡◌, ◌⊎◌, ◌<◌, IfOk, IfSome};
ghost use Rattle.explain_stack.specs.Order.{SceneInOrder, IsKnownWithSite};
ghost use Rattle.explain_stack.specs.Places.{InPlay, ClosesNamed};

mod inside;
mod on_handle;
mod on_span;
mod polls;

use crate::handles::{Handles, Slot};
use crate::scene::Scene;
use crate::stack::Stack;
use crate::{told, words};
use futures::task;
use otel_base::memory::Memory;
use span_handles::span::Span;
use std::alloc::Global;
use trace_base::callsite::SiteId;
use trace_base::field::ValueSet;

/// Makes the call of a line `AT CALL NAME WORDS`, and tells what is answered.
pub fn answer<S: Stack>(
    alloc: Global,
    scene: &mut Scene<S>,
    handles: &mut Handles,
    line: &str,
    cx: &mut task::Context<'_>,
) -> Result<String, Memory>
    requires play { InPlay S.spans S.kept S.is_whole scene.old handles.old }
    ensures play { InPlay S.spans S.kept S.is_whole scene.new handles.new }
{
    let (at, line) = line.split_once(' ').unwrap_or((line, ""));
    let (call, line) = line.split_once(' ').unwrap_or((line, ""));
    let (name, words) = line.split_once(' ').unwrap_or((line, ""));
    let Some(at) = words::number(at) else {
        return told::refused_line(alloc);
    };
    match call {
        "new" => make(alloc, scene, handles, at, name, words),
        "follows" => follow(alloc, scene, handles, at, name, words),
        "close" => close(alloc, scene, handles, at, name),
        "admits" => admits(alloc, scene, name, words),
        "lane" => swap_lanes(alloc, scene, handles, name),
        "fill" => polls::fill(alloc, scene),
        "around" => polls::around(alloc, scene, handles, at, name),
        "inside" => inside::line(alloc, scene.dispatch),
        "poll" => polls::poll(alloc, scene, handles, at, name, words, cx),
        _ => on_handle::tell(alloc, scene, handles, at, call, name, words),
    }
}

// A new span of the words `PARENT SITE VALUES`, where a parent is a handle, `current` or `root`.
#[tactic(auto, using(crate::proofs::Held::none_put))]
fn make<S: Stack>(
    alloc: Global,
    scene: &mut Scene<S>,
    handles: &mut Handles,
    at: u64,
    name: &str,
    words: &str,
) -> Result<String, Memory>
    requires play { InPlay S.spans S.kept S.is_whole scene.old handles.old }
    ensures play { InPlay S.spans S.kept S.is_whole scene.new handles.new }
{
    let (parent, words) = words.split_once(' ').unwrap_or((words, ""));
    let (site, words) = words.split_once(' ').unwrap_or((words, ""));
    let Some(site) = scene.site_at(words::number(site).unwrap_or(0)) else {
        return told::refused_line(alloc);
    };
    if !scene.admits(alloc, scene.lane_ids().0, site) {
        handles.put(name, Slot::of(Span::none()));
        return told::done_line(alloc, false);
    }
    make_admitted(alloc, scene, handles, at, name, parent, site, words)
}

// A new span of a callsite that is taken.
#[tactic(auto, using(crate::proofs::Held::put_held))]
fn make_admitted<S: Stack>(
    alloc: Global,
    scene: &mut Scene<S>,
    handles: &mut Handles,
    at: u64,
    name: &str,
    parent: &str,
    site: SiteId,
    words: &str,
) -> Result<String, Memory>
    requires play { InPlay S.spans S.kept S.is_whole scene.old handles.old }
    requires site { site < scene.old.site_count }
    ensures play { InPlay S.spans S.kept S.is_whole scene.new handles.new }
{
    let values = words::values(alloc, words)?;
    let made = new_span(scene, handles, at, parent, site, &values);
    drop(values);
    match made? {
        Some(span) => {
            handles.put(name, Slot::of(span));
            told::done_line(alloc, true)
        }
        None => told::refused_line(alloc),
    }
}

// The span that is made.
#[tactic(auto, using(crate::proofs::Held::named_held, crate::proofs::Held::still_held))]
fn new_span<S: Stack>(
    scene: &mut Scene<S>,
    handles: &Handles,
    at: u64,
    parent: &str,
    site: SiteId,
    values: &ValueSet,
) -> Result<Option<Span>, Memory>
    requires play { InPlay S.spans S.kept S.is_whole scene.old handles.now }
    requires site { site < scene.old.site_count }
    ensures play { InPlay S.spans S.kept S.is_whole scene.new handles.now }
    ensures made { IfOk result (λ made. IfSome made (IsKnownWithSite S.spans scene.new.site_count scene.new.world)) }
{
    if parent == "root" {
        let root = Span::none();
        let made = scene.make_under(at, &root, site, values);
        root.discard();
        return made;
    }
    if parent == "current" {
        return scene.make_under_current(at, site, values);
    }
    match handles.get(parent) {
        Some(slot) => scene.make_under(at, slot.span(), site, values),
        None => Ok(None),
    }
}

// Whether what the callsite of a number makes is taken on the lane of an id.
fn admits<S: Stack>(
    alloc: Global,
    scene: &Scene<S>,
    site: &str,
    lane: &str,
) -> Result<String, Memory>
    requires order { SceneInOrder S.spans S.kept S.is_whole scene.now }
{
    let Some(site) = scene.site_at(words::number(site).unwrap_or(0)) else {
        return told::refused_line(alloc);
    };
    let admits = scene.admits(alloc, words::number(lane).unwrap_or(0), site);
    told::fact_line(alloc, "admits", admits)
}

// Calls are made on the lane of an id from here on.
fn swap_lanes<S: Stack>(
    alloc: Global,
    scene: &mut Scene<S>,
    handles: &mut Handles,
    lane: &str,
) -> Result<String, Memory>
    requires play { InPlay S.spans S.kept S.is_whole scene.old handles.old }
    ensures play { InPlay S.spans S.kept S.is_whole scene.new handles.new }
    ensures handles { handles.new ≡ handles.old }
{
    let (here, there) = scene.lane_ids();
    let lane = words::number(lane).unwrap_or(0);
    if lane == there {
        scene.swap_lanes();
        handles.swap_lanes();
    }
    told::done_line(alloc, lane == here || lane == there)
}

// A span follows from another, which may be itself.
#[tactic(auto, using(crate::proofs::Held::named_held, crate::proofs::Held::still_held))]
fn follow<S: Stack>(
    alloc: Global,
    scene: &mut Scene<S>,
    handles: &Handles,
    at: u64,
    name: &str,
    other: &str,
) -> Result<String, Memory>
    requires play { InPlay S.spans S.kept S.is_whole scene.old handles.now }
    ensures play { InPlay S.spans S.kept S.is_whole scene.new handles.now }
{
    if let Some(slot) = handles.get(name) {
        if let Some(from) = handles.get(other) {
            scene.follow(at, slot.span(), from.span())?;
        }
    }
    told::done_line(alloc, true)
}

// A handle is closed, where no other is of its span and it isn't entered.
#[tactic(auto, using(crate::proofs::Held::named_held, crate::proofs::Held::closes_named))]
fn close<S: Stack>(
    alloc: Global,
    scene: &mut Scene<S>,
    handles: &mut Handles,
    at: u64,
    name: &str,
) -> Result<String, Memory>
    requires play { InPlay S.spans S.kept S.is_whole scene.old handles.old }
    ensures play { InPlay S.spans S.kept S.is_whole scene.new handles.new }
    ensures closes { ((scene.new ≡ scene.old) × (handles.new ≡ handles.old))
        ⊎ ClosesNamed S.spans S.does at name.now handles.old scene.old.world handles.new scene.new.world }
{
    let Some(slot) = handles.take_sole(name) else {
        return told::refused_line(alloc);
    };
    let closed = scene.close(at, slot.into_span());
    told::fact_line(alloc, "closed", closed)
}
