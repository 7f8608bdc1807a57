//! What a guard's number stands for.
use span_handles::entry::Entry;
use trace_base::discard::Discard;

/// What an open guard keeps.
pub struct Guard {
    /// The number of its handle.
    pub handle: u64,
    /// The place of its lane.
    pub place: u64,
    /// Whether it owns the handle.
    pub owns: bool,
    /// The entry.
    pub entry: Entry,
}

/// Its entry stays open for good.
impl Discard for Guard {
    fn discard(self) {
        let Guard {
            handle: _,
            place: _,
            owns: _,
            entry,
        } = self;
        entry.discard();
    }
}
