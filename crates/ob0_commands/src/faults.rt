//! Defines the faults of commands on files. Each fault has an exit status and a line on standard
//! error.

ghost use Rattle.std.specs.Prelude.{◌≡◌, ◌≤◌, Some};
ghost use Rattle.ob0_commands.specs.PrintedTexts.{fault_line};
ghost use Rattle.ob0_commands.specs.StderrLines.{PrintsOptionalLine};
ghost use Rattle.ob0_commands.specs.Statuses.{exit_status_of_fault};

use crate::tracked_output::{TrackedOutput, write_and_flush};
use std::alloc::{AllocError, AllocFailed};
use thiserror::Error;

/// The reason why a command on a file failed. It is printed on standard error as `fault: NAME`,
/// with the name of the variant.
#[derive(Clone, Copy, Debug, Drop, PartialEq, Eq, Error)]
pub enum FileCommandFault {
    #[error("the file can't be read")]
    File,
    #[error("the file isn't UTF-8")]
    Utf8,
    #[error("the input can't be read, is too long, or isn't a list of numbers")]
    Input,
    #[error("the output can't be written")]
    Write,
    #[error("out of memory")]
    Memory,
}

impl FileCommandFault {
    /// Returns the program's exit status for this fault: 5 for `Memory`, otherwise 4.
    pub fn exit_status(self) -> u8
        ensures status { result ≡ exit_status_of_fault self }
        ensures fails { 4 ≤ result }
    {
        match self {
            FileCommandFault::Memory => 5,
            FileCommandFault::File
            | FileCommandFault::Utf8
            | FileCommandFault::Input
            | FileCommandFault::Write => 4,
        }
    }

    /// Returns the line that reports the fault, including its line feed.
    fn fault_line(self) -> &'static str
        ensures { result.now ≡ fault_line self }
    {
        match self {
            FileCommandFault::File => "fault: File\n",
            FileCommandFault::Utf8 => "fault: Utf8\n",
            FileCommandFault::Input => "fault: Input\n",
            FileCommandFault::Write => "fault: Write\n",
            FileCommandFault::Memory => "fault: Memory\n",
        }
    }
}

impl From<AllocError> for FileCommandFault {
    ghost use Rattle.ob0_commands.specs.declared.faults.FileCommandFault.TheVariants.{Memory};

    ghost from_gives = { λ _ fault. fault ≡ Memory };

    fn from(_error: AllocError) -> FileCommandFault {
        FileCommandFault::Memory
    }
}

impl<T: Drop> From<AllocFailed<T>> for FileCommandFault {
    ghost use Rattle.ob0_commands.specs.declared.faults.FileCommandFault.TheVariants.{Memory};

    ghost from_gives = { λ _ fault. fault ≡ Memory };

    fn from(_error: AllocFailed<T>) -> FileCommandFault {
        FileCommandFault::Memory
    }
}

/// Prints the line of a fault to `err`, and returns the fault's exit status, even if the line can't
/// be written.
pub fn print_fault<E: TrackedOutput>(fault: FileCommandFault, err: &mut E) -> u8
    ensures status { result ≡ exit_status_of_fault fault }
    ensures fails { 4 ≤ result }
    ensures said { PrintsOptionalLine E.contents E.is_flushed E.has_failed err.old err.new
        (Some (fault_line fault)) }
{
    let _ = write_and_flush(err, fault.fault_line());
    fault.exit_status()
}
