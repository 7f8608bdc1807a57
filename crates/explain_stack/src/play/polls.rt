//! Lines of futures and of full lanes.
ghost use Rattle.std.specs.Prelude.{◌≡◌};
ghost use Rattle.explain_stack.specs.Order.{SceneInOrder};
ghost use Rattle.explain_stack.specs.Places.{InPlay};

use crate::handles::{Handles, Slot};
use crate::scene::Scene;
use crate::scene::polls::SubscriberProbe;
use crate::stack::Stack;
use crate::told;
use futures::task::Context;
use otel_base::memory::Memory;
use std::alloc::Global;

/// Fills the lane on which calls are made.
pub fn fill<S: Stack>(alloc: Global, scene: &mut Scene<S>) -> Result<String, Memory>
    requires order { SceneInOrder S.spans S.kept S.is_whole scene.old }
    ensures order { SceneInOrder S.spans S.kept S.is_whole scene.new }
    ensures world { scene.new.world ≡ scene.old.world }
    ensures sites { scene.new.site_count ≡ scene.old.site_count }
{
    scene.fill()?;
    told::done_line(alloc, true)
}

/// Whether a future under the lane's current span is under that of a handle.
#[tactic(auto, using(crate::proofs::Held::still_held))]
pub fn around<S: Stack>(
    alloc: Global,
    scene: &mut Scene<S>,
    handles: &Handles,
    at: u64,
    name: &str,
) -> Result<String, Memory>
    requires play { InPlay S.spans S.kept S.is_whole scene.old handles.now }
    ensures play { InPlay S.spans S.kept S.is_whole scene.new handles.now }
{
    let Some(slot) = handles.get(name) else {
        return told::refused_line(alloc);
    };
    match scene.is_around(at, slot.span()) {
        Some(is_around) => told::fact_line(alloc, "around", is_around),
        None => told::refused_line(alloc),
    }
}

/// Polls a future under the span of a handle: one that is pending, one that is ready, or one that is ready and served by the
/// stack.
#[tactic(auto, using(crate::proofs::Held::named_held, crate::proofs::Held::put_back, crate::proofs::Held::still_held))]
pub fn poll<S: Stack>(
    alloc: Global,
    scene: &mut Scene<S>,
    handles: &mut Handles,
    at: u64,
    name: &str,
    word: &str,
    cx: &mut Context<'_>,
) -> Result<String, Memory>
    requires play { InPlay S.spans S.kept S.is_whole scene.old handles.old }
    ensures play { InPlay S.spans S.kept S.is_whole scene.new handles.new }
    ensures back { handles.new ≡ handles.old }
{
    let Some(slot) = handles.take(name) else {
        return told::refused_line(alloc);
    };
    let Slot { span, entry, other } = slot;
    let future = SubscriberProbe {
        is_ready: word != "pending",
    };
    let (span, polled) = scene.poll(at, span, future, word == "served", cx);
    handles.put(name, Slot { span, entry, other });
    told::poll_line(alloc, polled)
}
