//! The order of the values: what the writer, the readers and the notes know of it.
use crate::numbered::InPlace;
use crossbeam_utils::rule::{Outcome, Protocol};
use left_right::reader::{Factory, Reader};
use std::collections::LinkedList;

/// What one of them knows: the values that replaced the first, as far as it has seen. No value of it is made.
pub struct View<T> {
    pub seen: LinkedList<T>,
}

/// Values are put in place one behind another.
pub struct InOrder;

impl<T: Drop> Protocol<InPlace<T>, View<T>> for InOrder {
    ghost use Rattle.value_reader.specs.Order.{KeepsOrder, newcomer};

    ghost holds = { KeepsOrder };

    ghost first = { newcomer };
}

/// A reader of `left_right` that keeps to this order, and what makes such readers.
pub type OrderedReader<T> = Reader<InPlace<T>, View<T>, InOrder>;

/// What makes readers that see what is put in place in its order.
pub type OrderedFactory<T> = Factory<InPlace<T>, View<T>, InOrder>;

/// A reader looks at what is in place.
pub(crate) struct Looks;

impl<T: Drop> Outcome<InPlace<T>, View<T>> for Looks {
    ghost use Rattle.value_reader.specs.Order.{SeesAll};

    ghost then = { SeesAll };
}
