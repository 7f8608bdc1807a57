//! Where requests go as they are spelled.
ghost use Rattle.std.specs.Prelude.{OnOk};
ghost use Rattle.span_script.specs.declared.request.Request.{Request};

use otel_base::memory::Memory;
use span_script::request::Request;

/// Takes requests, one after another.
pub trait RequestSink {
    /// What it makes of itself as it takes a request.
    ghost takes: { Self → Request → Self → Type 0 };

    /// Takes a request. `Memory` freely.
    fn push(&mut self, request: Request) -> Result<(), Memory>
        ensures { OnOk result (takes self.old request self.new) };
}
