//! What holds of every list of attaches and detaches, and of every two statuses.
ghost use Rattle.std.specs.Prelude.{◌≡◌, ◌↔◌, List, [], IsTrue};
ghost use Rattle.otel_base.specs.Changes.{StackChange, ArePossible, after_changes, left_attached};
ghost use Rattle.otel_base.specs.Statuses.{status_cmp};
ghost use Rattle.otel_base.specs.declared.status.Status.{Status};

use crate::status::Status;

/// Calls of a stack, one after the other, leave its attaches less its detaches, in the order of the attaches.
pub fn stacks()
    ensures { (changes : List StackChange) → ArePossible [] changes → after_changes [] changes ≡ left_attached changes }
{}

/// Statuses are ordered from unset over errors, these by the bytes of their descriptions, to ok; two are equal exactly
/// where they are the same.
pub fn statuses()
    ensures order { (a b : Status) → ⟦<Status as Ord>⟧.cmp a b ≡ status_cmp a b }
    ensures equal { (a b : Status) → IsTrue (⟦<Status as PartialEq>⟧.eq a b) ↔ (a ≡ b) }
{}
