//! Why a conversion ends early.
ghost use Rattle.std.specs.Prelude.{◌≡◌};
ghost use Rattle.std.specs.IoError.{error_kind};
ghost use Rattle.convert_base.specs.Numbers.{io_fault, exit_status_of, text_fault};
ghost use Rattle.convert_base.specs.declared.fault.Fault.TheVariants as fault;

use std::alloc::{AllocError, AllocFailed};
use std::io::{self, ErrorKind};
use thiserror::Error;

/// Why a conversion ended early. What was written before it stands.
#[derive(Debug, Drop, Error)]
pub enum Fault {
    /// The words aren't the name of a format, with what it takes.
    #[error("the words are otlp [SERVICE], chrome, text [COLUMNS] or html")]
    Usage,
    /// A line is no JSON.
    #[error("line {line} is no JSON")]
    NoJson {
        /// The line's number, from 1.
        line: u64,
    },
    /// A line has a member `record`, and isn't what `trace_tool` writes of a record.
    #[error("line {line} is no record")]
    NoRecord {
        /// The line's number, from 1.
        line: u64,
    },
    /// Reading or writing failed.
    #[error("reading or writing failed")]
    Io,
    /// No memory was to be had.
    #[error("no memory was to be had")]
    Memory,
}

impl Fault {
    /// What the process ends with.
    pub fn exit_status(&self) -> u8
        ensures { result ≡ exit_status_of self.now }
    {
        match self {
            Fault::Usage => 1,
            Fault::NoJson { line: _ } | Fault::NoRecord { line: _ } => 2,
            Fault::Io => 3,
            Fault::Memory => 5,
        }
    }

    /// Why no text came: `broken` where its bytes are no UTF-8.
    pub fn of_text(error: &io::Error, broken: Fault) -> Fault
        ensures { result ≡ text_fault broken (error_kind error.now) }
    {
        match error.kind() {
            ErrorKind::InvalidData => broken,
            kind => Fault::of_kind(kind),
        }
    }

    fn of_kind(kind: ErrorKind) -> Fault
        ensures { result ≡ io_fault kind }
    {
        match kind {
            ErrorKind::OutOfMemory => Fault::Memory,
            _ => Fault::Io,
        }
    }
}

impl From<AllocError> for Fault {
    ghost from_gives = { λ _ f. f ≡ fault.Memory };

    fn from(_: AllocError) -> Fault {
        Fault::Memory
    }
}

impl<T: Drop> From<AllocFailed<T>> for Fault {
    ghost from_gives = { λ _ f. f ≡ fault.Memory };

    fn from(_: AllocFailed<T>) -> Fault {
        Fault::Memory
    }
}

impl From<io::Error> for Fault {
    ghost from_gives = { λ error f. f ≡ io_fault (error_kind error) };

    fn from(error: io::Error) -> Fault {
        Fault::of_kind(error.kind())
    }
}
