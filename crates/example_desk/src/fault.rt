//! Why an order isn't served.
ghost use Rattle.std.specs.Prelude.{◌≡◌, ◌↔◌};
ghost use Rattle.otel_base.specs.declared.enter_error.EnterError.TheVariants as enter;
ghost use Rattle.example_desk.specs.declared.fault.Fault.TheVariants as fault;

use otel_base::enter_error::EnterError;
use otel_base::memory::Memory;
use thiserror::Error;

/// Why an order isn't served.
#[derive(Clone, Copy, Debug, PartialEq, Eq, Error)]
pub enum Fault {
    /// A lane has as many live contexts as it may have.
    #[error("as many contexts are live on the lane as may be")]
    Full,
    /// No memory was to be had.
    #[error("no memory was to be had")]
    Memory,
}

impl From<EnterError> for Fault {
    ghost from_gives = { λ error e. e ≡ fault.Full ↔ error ≡ enter.Full };

    fn from(error: EnterError) -> Fault {
        match error {
            EnterError::Full => Fault::Full,
            EnterError::Memory => Fault::Memory,
        }
    }
}

impl From<Memory> for Fault {
    ghost from_gives = { λ _ e. e ≡ fault.Memory };

    fn from(_error: Memory) -> Fault {
        Fault::Memory
    }
}
