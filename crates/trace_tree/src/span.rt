//! What trees need of a finished span.
ghost use Rattle.std.specs.Prelude.{◌≡◌};
ghost use Rattle.trace_tree.specs.Busy.{tree_span};

use crate::busy::busy;
use otel_base::record::Record;
use otel_base::text::Text;

/// What trees need of a finished span. It is far smaller than its record, so that those of a long script can be kept.
#[derive(Drop)]
pub struct TreeSpan {
    /// The id of its trace.
    pub trace: u128,
    /// Its own id.
    pub span: u64,
    /// The id of its parent, 0 for a root.
    pub parent: u64,
    /// Its name.
    pub name: Text,
    /// How long it was entered, in nanoseconds.
    pub busy: u64,
}

impl TreeSpan {
    /// Takes out of a record what trees need, and drops the rest.
    pub fn of(finished: Record) -> TreeSpan
        ensures { result ≡ tree_span finished }
    {
        let busy = busy(&finished);
        let Record {
            name,
            context,
            parent,
            ..
        } = finished;
        TreeSpan {
            trace: context.trace,
            span: context.span,
            parent,
            name,
            busy,
        }
    }
}
