//! Contexts, and a stack of them, which keeps what isn't detached.
ghost use Rattle.std.specs.Prelude.{◌≡◌, []};

use otel_base::context::{Context, SpanContext};
use otel_base::enter_error::EnterError;
use otel_base::stack::ContextStack;
use std::test::Fail;

/// A context with a span of these ids.
pub fn context_with(trace: u128, span: u64) -> Context {
    let span = Some(SpanContext { trace, span });
    Context { span }
}

// A context with a span of the same number as its trace.
fn context_of(span: u64) -> Context {
    context_with(span as u128, span)
}

#[test]
fn is_valid_with_both_ids(rt: HostRuntime) {
    for (trace, span, parent) in [
        (0, 0, 0),
        (9, 0, 0),
        (0, 7, 0),
        (9, 7, 7),
        (u128::MAX, u64::MAX, u64::MAX),
    ] {
        let ids = SpanContext { trace, span };
        assert_eq!(rt; (ids.is_valid(), ids.parent_id()), (parent != 0, parent));
    }
}

#[test]
fn shows_the_ids_of_a_context(rt: HostRuntime) {
    assert!(rt; context_of(7).span_context() == SpanContext { trace: 7, span: 7 });
    assert!(rt; Context::empty().span_context() == SpanContext { trace: 0, span: 0 });
    assert!(rt; Context::empty() != context_of(0));
}

// The current contexts and how many are live: with two attached above one that stays, with the lower of these detached, and
// with both.
fn after_detaches(stack: &mut ContextStack) -> Result<[(u128, u64); 3], EnterError>
    requires { stack.old.live ≡ [] }
{
    stack.attach(context_of(9))?.discard();
    let first = stack.attach(context_of(1))?;
    match stack.attach(context_of(2)) {
        Ok(second) => {
            let attached = top(stack);
            stack.detach(first);
            let left = top(stack);
            stack.detach(second);
            Ok([attached, left, top(stack)])
        }
        Err(error) => {
            first.discard();
            Err(error)
        }
    }
}

// The trace of the current context, and how many are live.
fn top(stack: &ContextStack) -> (u128, u64) {
    (stack.current().span_context().trace, stack.live())
}

#[test]
fn detaches_out_of_order(rt: HostRuntime) {
    let mut stack = ContextStack::new(rt.alloc());
    assert_eq!(rt; top(&stack), (0, 0));
    assert_eq!(rt; after_detaches(&mut stack), Ok([(2, 3), (2, 2), (9, 1)]));
}

// Attaches contexts of these numbers, which stay.
fn fill(stack: &mut ContextStack, numbers: u64) -> Result<(), EnterError> {
    for span in 0..numbers {
        stack.attach(context_of(span))?.discard();
    }
    Ok(())
}

// Whether a full stack refuses room, gives it where one was detached, and is full again after that.
fn refills(stack: &mut ContextStack) -> Result<bool, EnterError> {
    let last = stack.attach(Context::empty())?;
    let full = stack.reserve() == Err(EnterError::Full);
    stack.detach(last);
    stack.reserve()?;
    stack.attach(Context::empty())?.discard();
    Ok(full)
}

#[test]
fn holds_65534_contexts(rt: HostRuntime) -> Result<(), Fail> {
    let mut stack = ContextStack::new(rt.alloc());
    fill(&mut stack, 65_533)?;
    stack.reserve()?;
    assert_eq!(rt; refills(&mut stack), Ok(true));
    assert_eq!(rt; stack.live(), 65_534);
    assert!(rt; fill(&mut stack, 1) == Err(EnterError::Full));
    Ok(())
}
