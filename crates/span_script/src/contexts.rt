//! The guards of attaches.
use otel_base::stack::Attached;
use trace_base::discard::Discard;

/// What the guard of an attach keeps.
pub struct AttachGuard {
    /// The place of its lane.
    pub place: u64,
    /// What was attached there.
    pub attached: Attached,
}

/// Its context stays attached for good.
impl Discard for AttachGuard {
    fn discard(self) {
        let AttachGuard { place: _, attached } = self;
        attached.discard();
    }
}
