//! What is done to the stack, in all that a pipeline keeps of it. Each law is a function that does nothing, read at the stack
//! once, for all that call on it.
ghost use Rattle.span_script.specs.Fits.{stack_views};
ghost use Rattle.span_script.specs.SubscriberLaws.{PlainLaws, CallsLaw, SameLaw, ChainsLaw, AsksLaw};

use otel_layer::part::{OtelPart, OtelSubscriber};
use otel_layer::recording;
use span_stack::{Stack, laws};
use trace_base::subscriber::Subscriber;

// What is done to any subscriber, in its plain data.
fn of_any<S: OtelSubscriber>()
    ensures { PlainLaws S.spans S.attaches S.kept S.is_whole S.does S.same_but_room S.touches }
{
    span_handles::laws::calls::<S>();
    span_handles::laws::same::<S>();
    span_handles::laws::chains::<S>();
    recording::asks_leave_spans::<S>();
}

// The same of the stack.
fn of_stack()
    ensures { PlainLaws ⟦<Stack as Subscriber>⟧.spans ⟦<Stack as Subscriber>⟧.attaches ⟦<Stack as Subscriber>⟧.kept
        ⟦<Stack as Subscriber>⟧.is_whole ⟦<Stack as Subscriber>⟧.does ⟦<Stack as Subscriber>⟧.same_but_room
        ⟦<Stack as OtelPart>⟧.touches }
{
    of_any::<Stack>();
}

/// One call is one step of all that a pipeline keeps of the stack.
pub fn calls()
    ensures { CallsLaw ⟦<Stack as Subscriber>⟧.spans stack_views ⟦<Stack as Subscriber>⟧.attaches
        ⟦<Stack as Subscriber>⟧.kept ⟦<Stack as Subscriber>⟧.is_whole ⟦<Stack as Subscriber>⟧.does }
{
    of_stack();
    laws::calls();
}

/// What is the same but for spare room is kept alike.
pub fn same()
    ensures { SameLaw ⟦<Stack as Subscriber>⟧.spans stack_views ⟦<Stack as Subscriber>⟧.attaches
        ⟦<Stack as Subscriber>⟧.kept ⟦<Stack as Subscriber>⟧.is_whole ⟦<Stack as Subscriber>⟧.same_but_room }
{
    of_stack();
    laws::same();
}

/// A chain of closes is a chain of all that is kept.
pub fn chains()
    ensures { ChainsLaw ⟦<Stack as Subscriber>⟧.spans stack_views ⟦<Stack as Subscriber>⟧.attaches
        ⟦<Stack as Subscriber>⟧.kept ⟦<Stack as Subscriber>⟧.is_whole ⟦<Stack as Subscriber>⟧.does }
{
    of_stack();
    laws::chains();
}

/// A call from outside is one step of what is recorded.
pub fn asks()
    ensures { AsksLaw ⟦<Stack as Subscriber>⟧.spans stack_views ⟦<Stack as Subscriber>⟧.attaches
        ⟦<Stack as Subscriber>⟧.kept ⟦<Stack as Subscriber>⟧.is_whole ⟦<Stack as OtelPart>⟧.touches }
{
    of_stack();
    laws::asks();
}
