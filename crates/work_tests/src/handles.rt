//! A layer that is exchanged through its lock.
ghost use Rattle.std.specs.Prelude.{◌≡◌};

use env_filter::reload::{CloneLayer, Layer};
use otel_base::memory::Memory;
use reload_handle::Handle;
use std::sync::Wait;
use std::test::{Fail, *};

// A layer that has a number, and is cheap to let go.
#[derive(Drop)]
struct NumberLayer {
    number: u64,
}

impl CloneLayer for NumberLayer {
    ghost is_copy = { λ s t. t ≡ s };

    fn clone_layer(&self) -> Result<NumberLayer, Memory> {
        Ok(NumberLayer {
            number: self.number,
        })
    }
}

// Whether the layer behind a lock has this number, as a closure that is lent the layer sees it.
fn has_number<R: Wait>(rt: &R, handle: &Handle<NumberLayer>, number: u64) -> bool {
    match handle.with_current(rt, |layer| layer.number) {
        Ok(seen) => seen == number,
        Err(_) => false,
    }
}

// Whether a copy of it has, if there is memory for one.
fn copies_number<R: Wait>(rt: &R, handle: &Handle<NumberLayer>, number: u64) -> bool {
    match handle.clone_current(rt) {
        Ok(Some(layer)) => layer.number == number,
        _ => false,
    }
}

// Whether one handle of a lock sees what the other puts in place and what that changes, and copies it then.
fn exchange_and_check<R: Wait>(
    rt: &R,
    handle: &Handle<NumberLayer>,
    other: &Handle<NumberLayer>,
) -> bool {
    let mut is_seen = has_number(rt, other, 1);
    is_seen &= handle.reload(rt, NumberLayer { number: 2 }).is_ok();
    is_seen &= has_number(rt, other, 2);
    is_seen &= handle.modify(rt, |layer| layer.number = 3).is_ok();
    is_seen & has_number(rt, other, 3) & copies_number(rt, other, 3)
}

// What is put in place or changed is what is seen then, through another handle of the lock too, and what is copied.
#[test]
fn handle_reload(rt: HostRuntime) -> Result<(), Fail> {
    let handle = Handle::new(rt.alloc(), Layer::new(NumberLayer { number: 1 }))?;
    let other = handle.clone()?;
    assert!(rt; exchange_and_check(&rt, &handle, &other));
    Ok(())
}
