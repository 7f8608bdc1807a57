//! Why a context isn't attached.
ghost use Rattle.std.specs.Prelude.{◌≡◌, Some, codes};
ghost use Rattle.otel_base.specs.declared.enter_error.EnterError.TheVariants.{Memory};
ghost use Rattle.otel_base.specs.EnterErrors.{enter_error_text};

use std::alloc::{AllocError, AllocFailed};
use std::error::Error;
use std::fmt;

/// Why a context isn't attached, and so why a span isn't entered.
#[derive(Clone, Copy, Debug, PartialEq, Eq)]
pub enum EnterError {
    /// The lane has as many live contexts as it may have.
    Full,
    /// No memory was to be had.
    Memory,
}

impl fmt::Display for EnterError {
    ghost output = { λ e. Some (enter_error_text e) };

    fn fmt<W: fmt::Write>(&self, f: &mut fmt::Formatter<W>) -> fmt::Result {
        match self {
            EnterError::Full => f.write_str("as many contexts are live as may be"),
            EnterError::Memory => f.write_str("out of memory"),
        }
    }
}

impl Error for EnterError {}

impl From<AllocError> for EnterError {
    ghost from_gives = { λ _ e. e ≡ Memory };

    fn from(_error: AllocError) -> EnterError {
        EnterError::Memory
    }
}

impl<T: Drop> From<AllocFailed<T>> for EnterError {
    ghost from_gives = { λ _ e. e ≡ Memory };

    fn from(_error: AllocFailed<T>) -> EnterError {
        EnterError::Memory
    }
}
