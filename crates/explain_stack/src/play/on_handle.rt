//! Calls on one handle.
ghost use Rattle.std.specs.Prelude.{◌≡◌};
ghost use Rattle.explain_stack.specs.Order.{SceneInOrder, IsKnownWithSite, KeepsScene};
ghost use Rattle.explain_stack.specs.Places.{InPlay};

use crate::handles::{Handles, Slot};
use crate::play::on_span;
use crate::scene::Scene;
use crate::stack::Stack;
use crate::told;
use otel_base::memory::Memory;
use std::alloc::Global;

/// Makes a call on the handle of a name, which stays there, and tells what is answered.
#[tactic(auto, using(crate::proofs::Held::named_held, crate::proofs::Held::put_back, crate::proofs::Held::still_held))]
pub fn tell<S: Stack>(
    alloc: Global,
    scene: &mut Scene<S>,
    handles: &mut Handles,
    at: u64,
    call: &str,
    name: &str,
    words: &str,
) -> Result<String, Memory>
    requires play { InPlay S.spans S.kept S.is_whole scene.old handles.old }
    ensures play { InPlay S.spans S.kept S.is_whole scene.new handles.new }
    ensures back { handles.new ≡ handles.old }
{
    let Some(slot) = handles.take(name) else {
        return told::refused_line(alloc);
    };
    let (slot, told) = act(alloc, scene, slot, at, call, words);
    handles.put(name, slot);
    told
}

fn act<S: Stack>(
    alloc: Global,
    scene: &mut Scene<S>,
    slot: Slot,
    at: u64,
    call: &str,
    words: &str,
) -> (Slot, Result<String, Memory>)
    requires order { SceneInOrder S.spans S.kept S.is_whole scene.old }
    requires held { IsKnownWithSite S.spans scene.old.site_count scene.old.world slot }
    ensures keeps { KeepsScene S.spans S.kept S.is_whole scene.old scene.new }
    ensures slot { result.0 ≡ slot }
{
    match call {
        "enter" => enter(alloc, scene, slot, at),
        "exit" => exit(alloc, scene, slot, at),
        _ => {
            let told = on_span::tell(alloc, scene, slot.span(), at, call, words);
            (slot, told)
        }
    }
}

// Enters the span of a handle that isn't entered.
fn enter<S: Stack>(
    alloc: Global,
    scene: &mut Scene<S>,
    slot: Slot,
    at: u64,
) -> (Slot, Result<String, Memory>)
    requires order { SceneInOrder S.spans S.kept S.is_whole scene.old }
    requires held { IsKnownWithSite S.spans scene.old.site_count scene.old.world slot }
    ensures keeps { KeepsScene S.spans S.kept S.is_whole scene.old scene.new }
    ensures slot { result.0 ≡ slot }
{
    let Slot { span, entry, other } = slot;
    match entry {
        Some(entry) => {
            let entry = Some(entry);
            (Slot { span, entry, other }, told::refused_line(alloc))
        }
        None => match scene.enter(at, &span) {
            Ok(entry) => {
                let entered = entry.is_some();
                (Slot { span, entry, other }, told::done_line(alloc, entered))
            }
            Err(memory) => (Slot { span, entry, other }, Err(memory)),
        },
    }
}

// Exits the span of a handle that is entered.
fn exit<S: Stack>(
    alloc: Global,
    scene: &mut Scene<S>,
    slot: Slot,
    at: u64,
) -> (Slot, Result<String, Memory>)
    requires order { SceneInOrder S.spans S.kept S.is_whole scene.old }
    requires held { IsKnownWithSite S.spans scene.old.site_count scene.old.world slot }
    ensures keeps { KeepsScene S.spans S.kept S.is_whole scene.old scene.new }
    ensures slot { result.0 ≡ slot }
{
    let Slot { span, entry, other } = slot;
    match entry {
        Some(entry) => {
            let entry = scene.exit(at, &span, entry);
            let exited = entry.is_none();
            (Slot { span, entry, other }, told::done_line(alloc, exited))
        }
        None => (Slot { span, entry, other }, told::refused_line(alloc)),
    }
}
