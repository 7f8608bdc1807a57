//! Giving up what has to be spent.

use otel_base::stack::Attached;

/// What can be given up, in place of being dropped: it takes no memory, and nobody is told of it.
pub trait Discard {
    /// Gives it up.
    fn discard(self);
}

/// Its context stays attached for good.
impl Discard for Attached {
    fn discard(self) {
        Attached::discard(self);
    }
}

impl<T: Discard> Discard for Vec<T> {
    fn discard(self) {
        let mut items = self;
        while let Some(item) = items.pop() {
            item.discard();
        }
        items.destroy_empty();
    }
}

impl<T: Discard> Discard for Option<T> {
    fn discard(self) {
        match self {
            Some(item) => item.discard(),
            None => {}
        }
    }
}
