//! The value in place.
ghost use Rattle.std.specs.Prelude.{◌≡◌, ◌+◌, IfOk};
ghost use Rattle.std.specs.Arc.{arc_value};
ghost use Rattle.value_reader.specs.Knowing.{IsFirst};

use left_right::Absorb;
use std::alloc::{AllocError, Global};
use std::sync::Arc;
use std::sync::atomic::{AtomicBool, Ordering};

/// A value with its number, which never change, and whether the next is put in place or about to be.
pub struct Numbered<T> {
    pub number: u64,
    pub value: T,
    pub(crate) is_replaced: AtomicBool,
}

impl<T: Drop> Numbered<T> {
    /// The first value, which has number 0.
    pub fn first(alloc: Global, value: T) -> Result<Arc<Numbered<T>, Global>, AllocError>
        ensures { IfOk result (λ first. IsFirst value (arc_value first)) }
    {
        let first = Arc::new(
            alloc,
            Numbered {
                number: 0,
                value,
                is_replaced: AtomicBool::new(false),
            },
        )?;
        Ok(first)
    }

    /// The value to put in place behind this one. An error too behind the number 2^64 - 1.
    pub fn next(&self, alloc: Global, value: T) -> Result<Arc<Numbered<T>, Global>, AllocError>
        ensures number { IfOk result (λ next. (arc_value next).number ≡ self.now.number + 1) }
        ensures value { IfOk result (λ next. (arc_value next).value ≡ value) }
    {
        let number = self.number.checked_add(1).ok_or(AllocError)?;
        let is_replaced = AtomicBool::new(false);
        let next = Arc::new(
            alloc,
            Numbered {
                number,
                value,
                is_replaced,
            },
        )?;
        // From here on readers that have this one look, so none misses the next. If that isn't put in place, they look in
        // vain.
        self.is_replaced.store(true, Ordering::SeqCst);
        Ok(next)
    }
}

/// It lets its parts go here, as a reader does, so that crates above need no proof of that.
impl<T: Drop> Drop for Numbered<T> {
    fn drop(self) {
        let Numbered {
            number: _,
            value: _value,
            is_replaced: _is_replaced,
        } = self;
    }
}

/// The one that is in place.
#[derive(Drop)]
pub struct InPlace<T> {
    pub last: Arc<Numbered<T>, Global>,
}

impl<T: Drop> Absorb<Arc<Numbered<T>, Global>> for InPlace<T> {
    type State = Numbered<T>;

    ghost state = { λ s. arc_value s.last };

    ghost applied = { λ _ last. arc_value last };

    fn absorb_first(
        &mut self,
        operation: &Arc<Numbered<T>, Global>,
        _other: &InPlace<T>,
    ) -> Result<(), AllocError> {
        self.last = Arc::try_clone(operation)?;
        Ok(())
    }

    fn absorb_second(
        &mut self,
        operation: Arc<Numbered<T>, Global>,
        _other: &InPlace<T>,
    ) -> Result<(), Arc<Numbered<T>, Global>> {
        self.last = operation;
        Ok(())
    }
}
