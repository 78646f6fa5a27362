//! Tests how command lines are parsed, and that commands flush their output. The tests use a writer
//! that counts bytes, and counts as output only the bytes that were flushed.

use crate::devices::{CountingWriter, FailingReader, WriterCounts};
use ob0_cli::{CommandFault, CommandLine, command};
use ob0_commands::{
    TrackedOutput, TrackedReader, TrackedWriter, check_text, perform_command, rename_text, run_text,
};
use ob0_text::Position;
use std::alloc::Global;
use std::process::Abort;

const READ_AND_WRITE_MODULE: &[u8] = b"MODULE M; VAR x: INTEGER; BEGIN Read(x); Write(x) END M.";

/// A call of one of the commands on the bytes of a file.
#[derive(Clone, Copy)]
enum CommandCall {
    Check,
    /// A run on these bytes of input, in which no call may be open and no loop may have an
    /// iteration.
    Run(&'static [u8]),
    /// A renaming to `abc` of the name at this character of the first line.
    Rename(u64),
}

/// Calls a command on a file with these bytes. Returns the command's status. An input is read byte
/// by byte.
fn status_of_call<O: TrackedOutput, E: TrackedOutput>(
    alloc: Global,
    call: CommandCall,
    file: &[u8],
    out: &mut O,
    err: &mut E,
) -> u8 {
    match call {
        CommandCall::Check => check_text(alloc, file, out, err),
        CommandCall::Run(bytes) => {
            let mut input = TrackedReader::new(FailingReader {
                bytes,
                max_bytes_per_read: 1,
                calls_left: 16,
            });
            run_text(alloc, file, &mut input, 0, 0, out, err)
        }
        CommandCall::Rename(character) => {
            let position = Position { line: 0, character };
            rename_text(alloc, file, position, "abc", out, err)
        }
    }
}

/// Calls a command with an output writer whose first `flushes` flushes succeed and whose later
/// flushes fail. Returns the command's status, and the number of output bytes that were flushed.
fn status_and_flushed_byte_count(
    alloc: Global,
    call: CommandCall,
    file: &[u8],
    flushes: u32,
) -> (u8, usize) {
    let (mut printed, mut reported) = (WriterCounts::new(512, flushes), WriterCounts::new(512, 1));
    let mut out = TrackedWriter::new(CountingWriter {
        count: &mut printed,
    });
    let mut err = TrackedWriter::new(CountingWriter {
        count: &mut reported,
    });
    let status = status_of_call(alloc, call, file, &mut out, &mut err);
    (status, printed.flushed_bytes)
}

/// A call with its file, the number of flushes that succeed, the expected status, and the expected
/// number of output bytes that are flushed.
type CommandCase = (CommandCall, &'static [u8], u32, (u8, usize));

static COMMAND_CASES: &[CommandCase] = &[
    (
        CommandCall::Check,
        b"",
        1,
        (1, "0:0: Syntax: expected MODULE\n".len()),
    ),
    (CommandCall::Check, b"", 0, (4, 0)),
    (
        CommandCall::Run(b"-17"),
        READ_AND_WRITE_MODULE,
        1,
        (0, " -17".len()),
    ),
    (CommandCall::Run(b""), READ_AND_WRITE_MODULE, 1, (1, 0)),
    (CommandCall::Run(b"x"), READ_AND_WRITE_MODULE, 1, (4, 0)),
    (
        CommandCall::Rename(14),
        READ_AND_WRITE_MODULE,
        1,
        (0, READ_AND_WRITE_MODULE.len() + 6),
    ),
    // (`MODULE` isn't a name)
    (CommandCall::Rename(0), READ_AND_WRITE_MODULE, 1, (1, 0)),
];

/// Returns the index, from 0, of the first call without its expected outcome. Returns None if all
/// calls have their expected outcomes.
fn first_failing_call(alloc: Global, cases: &[CommandCase]) -> Option<usize> {
    for i in 0..cases.len() {
        let (call, file, flushes, outcome) = cases[i];
        if status_and_flushed_byte_count(alloc, call, file, flushes) != outcome {
            return Some(i);
        }
    }
    None
}

#[test]
fn commands_print_what_they_flush(rt: HostRuntime) {
    let number = first_failing_call(rt.alloc(), COMMAND_CASES);
    assert!(rt; number.is_none(), "call {number:?}");
}

/// Performs a command line on a file with these bytes and an empty input. Returns the status, and
/// the number of output bytes that were flushed. If the command line has no file, performs nothing
/// and returns the status 2 and 0 bytes.
fn performed_command(alloc: Global, line: CommandLine<'_>, file: &[u8]) -> (u8, usize) {
    let Some(_path) = line.file_path() else {
        return (2, 0);
    };
    let (mut printed, mut reported) = (WriterCounts::new(512, 1), WriterCounts::new(512, 1));
    let mut out = TrackedWriter::new(CountingWriter {
        count: &mut printed,
    });
    let mut err = TrackedWriter::new(CountingWriter {
        count: &mut reported,
    });
    let mut input = TrackedReader::new(FailingReader {
        bytes: b"",
        max_bytes_per_read: 1,
        calls_left: 16,
    });
    let mut kept = None;
    let status = perform_command(alloc, line, file, &mut input, &mut out, &mut err, &mut kept);
    (status, printed.flushed_bytes)
}

#[test]
fn a_command_line_is_performed_by_its_command(rt: HostRuntime) {
    let check = CommandLine::Check { file: "m" };
    let run = CommandLine::Run {
        file: "m",
        calls: 0,
        turns: 0,
    };
    let rename = CommandLine::Rename {
        file: "m",
        position: Position {
            line: 0,
            character: 14,
        },
        name: "abc",
    };
    let file = READ_AND_WRITE_MODULE;
    assert!(rt;
        performed_command(rt.alloc(), check, file) == (0, 0),
        "check"
    );
    assert!(rt; performed_command(rt.alloc(), run, file) == (1, 0), "run");
    assert!(rt;
        performed_command(rt.alloc(), rename, file) == (0, file.len() + 6),
        "rename"
    );
}

/// Returns the command of a command line in words, such as `serve`. A run of the file `m` with the
/// default bounds is `run m`.
fn command_in_words(line: &CommandLine<'_>) -> &'static str {
    match line {
        CommandLine::Serve => "serve",
        CommandLine::Check { .. } => "check",
        CommandLine::Run {
            file: "m",
            calls: 64,
            turns: 100_000,
        } => "run m",
        CommandLine::Run { .. } => "another run",
        CommandLine::Rename { .. } => "rename",
    }
}

/// Parses these arguments, and returns the resulting command as `command_in_words` does. Returns
/// `refused` if the arguments are refused, and `out of memory` if an allocation fails.
fn parsed_command_in_words(alloc: Global, words: &[&str]) -> &'static str {
    match command(alloc, words) {
        Ok(line) => command_in_words(&line),
        Err(CommandFault::Refused(_error)) => "refused",
        Err(CommandFault::Memory) => "out of memory",
    }
}

static COMMAND_LINE_CASES: &[(&[&str], &str)] = &[
    (&["ob0", "serve"], "serve"),
    (&["ob0", "run", "m"], "run m"),
    (&["ob0", "check", "m"], "check"),
    (&["ob0", "rename", "m", "0", "7", "x"], "rename"),
    (&["ob0", "serve", "m"], "refused"),
];

#[test]
fn command_lines_are_parsed(rt: HostRuntime) {
    for row in COMMAND_LINE_CASES {
        assert!(rt;
            parsed_command_in_words(rt.alloc(), row.0) == row.1,
            "{}",
            row.1
        );
    }
}
