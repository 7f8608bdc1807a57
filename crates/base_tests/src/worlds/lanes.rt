//! A lane of its own.
ghost use Rattle.std.specs.Prelude.{◌≡◌, None};

use otel_base::stack::ContextStack;
use std::alloc::Global;
use trace_base::lane::Lane;

/// A lane that nothing is attached to, without a name or a subscriber.
pub fn lane(alloc: Global) -> Lane
    ensures id { result.id ≡ 1 }
    ensures default { result.default ≡ None }
{
    Lane {
        id: 1,
        name: None,
        default: None,
        contexts: ContextStack::new(alloc),
    }
}
