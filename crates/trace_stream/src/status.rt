//! How a call of the program ends.
ghost use Rattle.std.specs.Prelude.{◌≡◌};
ghost use Rattle.std.specs.Process.{exit_status};
ghost use Rattle.trace_stream.specs.Statuses.{exit_number};

use std::process::ExitCode;

/// How a call ends. Each has its number, which the process ends with.
#[derive(Clone, Copy, Debug, PartialEq, Eq)]
pub enum Status {
    /// All lines were answered.
    Ok,
    /// The words ask for nothing that the program does.
    Usage,
    /// A line was refused, or no settings line came.
    Refused,
    /// A read failed.
    ReadFault,
    /// A write failed.
    WriteFault,
    /// No memory was to be had.
    Memory,
    /// The input is longer than an input may be.
    TooLong,
}

impl Status {
    /// The number of the status.
    pub fn number(self) -> u8
        ensures { result ≡ exit_number self }
    {
        match self {
            Status::Ok => 0,
            Status::Usage => 1,
            Status::Refused => 2,
            Status::ReadFault => 3,
            Status::WriteFault => 4,
            Status::Memory => 5,
            Status::TooLong => 6,
        }
    }

    /// What the process ends with.
    pub fn exit_code(self) -> ExitCode
        ensures { exit_status result ≡ exit_number self }
    {
        ExitCode::from(self.number())
    }
}
