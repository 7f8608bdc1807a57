//! What is kept of each finished span.
ghost use Rattle.std.specs.Prelude.{◌≡◌};
ghost use Rattle.otel_base.specs.declared.record.Record.{Record};

use otel_base::record::Record;
use trace_tree::TreeSpan;

/// What is kept of a finished span. Whoever reads a script whole keeps no more than it needs, since there may be many.
pub trait FromRecord: Drop {
    /// What is kept of a record.
    ghost of_record: { Record → Self };

    /// Keeps what is wanted of a record, and drops the rest.
    fn from_record(finished: Record) -> Self
        ensures { result ≡ of_record finished };
}

/// The whole record.
impl FromRecord for Record {
    ghost of_record = { λ r. r };

    fn from_record(finished: Record) -> Record {
        finished
    }
}

/// What trees need.
impl FromRecord for TreeSpan {
    ghost use Rattle.trace_tree.specs.Busy.{tree_span};

    ghost of_record = { tree_span };

    fn from_record(finished: Record) -> TreeSpan {
        TreeSpan::of(finished)
    }
}
