//! Performs the program's commands on files (docs/PROTOCOL.md, The program). The caller passes the
//! bytes of the file, a reader for the input, and writers for the output and the faults.
#![tactic(auto)]

mod check_command;
mod command_dispatch;
mod faults;
mod input_numbers;
mod rename_command;
mod run_command;
mod tracked_input;
mod tracked_output;

pub use check_command::check_text;
pub use command_dispatch::perform_command;
pub use faults::{FileCommandFault, print_fault};
pub use rename_command::rename_text;
pub use run_command::run_text;
pub use tracked_input::{MAX_FILE_BYTES_READ, TrackedInput, TrackedReader, read_file};
pub use tracked_output::{TrackedOutput, TrackedWriter};
