//! Reads the command line with clap (docs/PROTOCOL.md, The program).
#![tactic(auto)]

mod line;

pub use line::{CommandFault, CommandLine, command};
