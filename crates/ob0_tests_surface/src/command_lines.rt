//! The names of `ob0_commands` and `ob0_cli`: the parts of the program `ob0`. The outputs of the
//! commands are writers that remember their failures (`TrackedOutput`), as is their input.

use clap::Error;
use ob0_cli::{CommandFault, CommandLine, command};
use ob0_commands::{
    TrackedInput, TrackedOutput, TrackedReader, TrackedWriter, check_text, rename_text, run_text,
};
use ob0_text::Position;
use std::alloc::Global;
use std::io::{self, Read, Write};
use std::process::Abort;

/// Returns the number of a command in the order of the variants, from 0, with its file.
fn number_and_file<'a>(line: CommandLine<'a>) -> (u8, &'a str) {
    match line {
        CommandLine::Serve => (0, ""),
        CommandLine::Check { file } => (1, file),
        CommandLine::Run {
            file,
            calls: 64,
            turns: 100_000,
        } => (2, file),
        CommandLine::Run {
            file: _,
            calls: _,
            turns: _,
        } => (4, ""),
        CommandLine::Rename {
            file,
            position: Position {
                line: 1,
                character: 2,
            },
            name: "x",
        } => (3, file),
        CommandLine::Rename {
            file: _,
            position: _,
            name: _,
        } => (5, ""),
    }
}

/// Returns the exit code of a refused command line.
fn exit_code(error: &Error) -> i32 {
    error.exit_code()
}

/// Returns the number and the file of the command that these words request, or the exit code if
/// they are refused.
fn requested<'a>(alloc: Global, words: &'a [&'a str]) -> Result<(u8, &'a str), i32> {
    let line: Result<CommandLine<'a>, CommandFault> = command(alloc, words);
    match line {
        Ok(line) => Ok(number_and_file(line)),
        Err(CommandFault::Refused(error)) => Err(exit_code(&error)),
        Err(CommandFault::Memory) => Err(5),
    }
}

/// A reader of bytes.
#[derive(Drop)]
struct BytesReader {
    bytes: &'static [u8],
}

impl Read for BytesReader {
    fn read(&mut self, buf: &mut [u8]) -> io::Result<usize> {
        self.bytes.read(buf)
    }
}

/// A writer that counts the bytes.
#[derive(Drop)]
struct CountingWriter<'a> {
    count: &'a mut usize,
}

impl<'a> Write for CountingWriter<'a> {
    fn write(&mut self, buf: &[u8]) -> io::Result<usize> {
        *self.count = self.count.saturating_add(buf.len());
        Ok(buf.len())
    }

    fn flush(&mut self) -> io::Result<()> {
        Ok(())
    }
}

/// Checks, runs and renames a file with these bytes. Returns the three statuses.
fn statuses<R: TrackedInput, O: TrackedOutput, E: TrackedOutput>(
    alloc: Global,
    file: &[u8],
    input: &mut R,
    out: &mut O,
    err: &mut E,
) -> (u8, u8, u8) {
    let checked: u8 = check_text(alloc, file, out, err);
    let (calls, turns): (u32, u32) = (0, 0);
    let ran: u8 = run_text(alloc, file, input, calls, turns, out, err);
    let position: Position = Position {
        line: 0,
        character: 14,
    };
    let renamed: u8 = rename_text(alloc, file, position, "yz", out, err);
    (checked, ran, renamed)
}

/// Returns the statuses of the three commands on a file, and the numbers of bytes that they print
/// to the output and as errors.
fn statuses_and_counts(alloc: Global, file: &[u8]) -> ((u8, u8, u8), usize, usize) {
    let (mut printed, mut reported): (usize, usize) = (0, 0);
    let mut out = TrackedWriter::new(CountingWriter {
        count: &mut printed,
    });
    let mut err = TrackedWriter::new(CountingWriter {
        count: &mut reported,
    });
    let mut input = TrackedReader::new(BytesReader { bytes: b"12" });
    let found = statuses(alloc, file, &mut input, &mut out, &mut err);
    (found, printed, reported)
}

/// Command lines, each with the number and the file of its command, or the exit code.
static LINE_CASES: &[(&[&str], Result<(u8, &str), i32>)] = &[
    (&["ob0", "serve"], Ok((0, ""))),
    (&["ob0", "check", "m"], Ok((1, "m"))),
    (&["ob0", "run", "m"], Ok((2, "m"))),
    (&["ob0", "rename", "m", "1", "2", "x"], Ok((3, "m"))),
    (&["ob0"], Err(2)),
];

#[test]
fn command_lines_are_read(rt: HostRuntime) {
    for row in LINE_CASES {
        assert!(rt; requested(rt.alloc(), row.0) == row.1);
    }
}

const MODULE: &[u8] = b"MODULE M; VAR x: INTEGER; BEGIN Read(x); Write(x) END M.";

/// Files, each with the statuses of the three commands and the numbers of printed and of reported
/// bytes. They print the run's ` 12` and the renamed module, or three lines of diagnostics, or
/// report three faults.
static FILE_CASES: &[(&[u8], ((u8, u8, u8), usize, usize))] = &[
    (MODULE, ((0, 0, 0), 3 + MODULE.len() + 3, 0)),
    (
        b"",
        ((1, 1, 1), 3 * "0:0: Syntax: expected MODULE\n".len(), 0),
    ),
    (b"\xff", ((4, 4, 4), 0, 3 * "fault: Utf8\n".len())),
];

#[test]
fn commands_have_their_statuses(rt: HostRuntime) {
    for row in FILE_CASES {
        assert!(rt; statuses_and_counts(rt.alloc(), row.0) == row.1);
    }
}
