//! The entries that a layer has open.
ghost use Rattle.std.specs.Prelude.{◌≡◌, ℕ, ◌<◌, ◌≤◌, true, false, length, Some, None, IfSome, if◌then◌else◌};
ghost use Rattle.std.specs.List.{list_any};
ghost use Rattle.otel_base.specs.Stack.{IsReadyToAttach};
ghost use Rattle.trace_base.specs.lanes.Contexts.{attached_count};
ghost use Rattle.trace_base.specs.Spans.{without_last};
ghost use Rattle.otel_state.specs.Stack.{last_passing, IsLastPlace};
ghost use Rattle.otel_layer.specs.Core.{open_entry_count, is_token};
ghost use Rattle.otel_layer.specs.Steps.{AttachesContext, DetachesContext, DetachesOwnContext};

use otel_base::context::Context;
use otel_base::stack::Attached;
use trace_base::discard::Discard;
use trace_base::lane::Lane;
use trace_base::span::Id;

// An open entry of a span on a lane, with the context that it attached, if it did.
pub(crate) struct Token {
    pub(crate) lane: u64,
    pub(crate) id: Id,
    pub(crate) attached: Option<Attached>,
}

/// What it attached stays attached for good.
impl Discard for Token {
    fn discard(self) {
        let Token {
            lane: _,
            id: _,
            attached,
        } = self;
        attached.discard();
    }
}

// Takes out the last entry of a span on a lane.
pub(crate) fn take_last(tokens: &mut Vec<Token>, lane: u64, id: Id) -> Token
    requires { 0 < open_entry_count tokens.old.items lane id }
    ensures last { last_passing (is_token lane id) tokens.old.items ≡ Some result }
    ensures others { tokens.new.items ≡ without_last (is_token lane id) tokens.old.items }
{
    let at = last_place(tokens.as_slice(), lane, id);
    tokens.remove(at)
}

// Where the last entry of a span on a lane stands.
fn last_place(tokens: &[Token], lane: u64, id: Id) -> usize
    requires { 0 < open_entry_count tokens.now lane id }
    ensures { IsLastPlace (is_token lane id) tokens.now result }
{
    let mut at = tokens.len();
    while at > 0 {
        at -= 1;
        if tokens[at].lane == lane && tokens[at].id == id {
            return at;
        }
    }
    0
}

// Attaches a context to a lane that has room for it.
pub(crate) fn attach(context: Context, lane: &mut Lane) -> Attached
    requires { IsReadyToAttach lane.old.contexts }
    ensures { AttachesContext context lane.old lane.new (Some result) }
{
    let Ok(attached) = lane.contexts.attach(context) else {
        unreachable!()
    };
    attached
}

// Detaches what an entry attached, with activation.
pub(crate) fn detach_if_active(activation: bool, attached: Option<Attached>, lane: &mut Lane)
    requires { activation ≡ true → IfSome attached (λ n. 0 < attached_count n lane.old) }
    ensures lane { DetachesOwnContext (if activation then attached else None) lane.old lane.new }
    ensures id { lane.new.id ≡ lane.old.id }
{
    match attached {
        Some(attached) => {
            if activation {
                detach(attached, lane);
            } else {
                attached.discard();
            }
        }
        None => {}
    }
}

fn detach(attached: Attached, lane: &mut Lane)
    requires { 0 < attached_count attached lane.old }
    ensures lane { DetachesContext attached lane.old lane.new }
    ensures id { lane.new.id ≡ lane.old.id }
{
    lane.contexts.detach(attached);
}
