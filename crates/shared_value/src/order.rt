//! What the writer does by the order of the values.
use atomic_table::{Join, Split};
use crossbeam_utils::rule::Outcome;
use left_right::writer::Writer;
use std::alloc::Global;
use std::sync::Arc;
use value_reader::numbered::{InPlace, Numbered};
use value_reader::order::{InOrder, View};

/// A writer of `left_right` that keeps to the order.
pub(crate) type OrderedWriter<T> = Writer<InPlace<T>, Arc<Numbered<T>, Global>, View<T>, InOrder>;

/// The writer puts a value in place.
pub(crate) struct Puts;

impl<T: Drop> Outcome<InPlace<T>, View<T>> for Puts {
    ghost use Rattle.shared_value.specs.Puts.{Put};

    ghost then = { Put };
}

/// A note of what the writer has seen is cut off, and given to a reader that has seen nothing.
pub(crate) struct GivesNote;

impl<T> Split<View<T>> for GivesNote {
    ghost left = { λ v. v };

    ghost right = { λ v. v };
}

impl<T> Join<View<T>> for GivesNote {
    ghost use Rattle.value_reader.specs.Order.{newcomer};

    ghost both = { λ _ told. told };

    ghost spent = { newcomer };
}
