//! The exit status.

use crate::fault::ToolFault;
use crate::status::Status;

/// How the program ends.
#[derive(Clone, Copy)]
pub enum ExitStatus {
    /// All was done, or help or the version was printed that was asked for.
    Done = 0,
    /// Something that was asked for does not exist, or has too many references or parents; or a certificate
    /// is rejected, or cannot be made; or an id map leaves out ids or references of its overlay; or a survey
    /// finds what a device may read otherwise; or a change alters something.
    Negative = 1,
    /// A bad command line, or an argument that is neither a resource id nor a name, or a file of words that has none.
    BadCommandLine = 2,
    /// An input was refused.
    Refused = 3,
    /// Memory ran out.
    Memory = 4,
    /// A file could not be read, the output could not be written, or an input is too large.
    Failed = 5,
}

impl ExitStatus {
    ghost use Rattle.std.specs.Prelude.{◌≡◌};
    ghost use Rattle.command_base.specs.ExitStatus.{number_of, after_fault, after_status};

    /// How the program ends after a fault of a command.
    pub fn after_fault(fault: &ToolFault) -> ExitStatus
        ensures { result ≡ after_fault fault.now }
    {
        match fault {
            ToolFault::OutOfMemory => ExitStatus::Memory,
            ToolFault::Write => ExitStatus::Failed,
            // All others are of an input.
            _ => ExitStatus::Refused,
        }
    }

    /// How the program ends where a command was carried out.
    pub fn after_status(status: Status) -> ExitStatus
        ensures { result ≡ after_status status }
    {
        match status {
            Status::Done => ExitStatus::Done,
            Status::Negative => ExitStatus::Negative,
        }
    }

    /// The number that the process ends with.
    pub fn number(self) -> u8
        ensures { result ≡ number_of self }
    {
        self as u8
    }
}
