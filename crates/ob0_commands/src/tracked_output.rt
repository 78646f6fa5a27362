//! Prints whole texts.
//!
//! The commands print through the trait `TrackedOutput`: a writer that remembers whether it has
//! been flushed since the last write, and whether it has failed. std's contracts of `Write` mention
//! neither fact, but the contract of `write_and_flush` needs both. `TrackedWriter` implements this trait for
//! any writer, including the writer for standard error. A writer's `contents` are the bytes that it
//! has written, or None if these bytes aren't known. For None, the contracts say nothing about the
//! bytes.
//!
//! Each command flushes its output after it has printed. If `rename` refuses the renaming, nothing
//! is printed to the output, so the output may still be unflushed (`IsFlushedOrUnchanged`). `check`
//! and `rename` print only once, so their contracts follow from one call of `write_and_flush`. After a failed
//! write, the contracts say nothing about the written bytes, because the contract of std's
//! `write_all` says nothing about them.

ghost use Rattle.std.specs.Prelude.{◌≡◌, ◌≢◌, ◌||◌, [], Bool, Some, true, false, is_err, OnOk, OnErr, IfErr};
ghost use Rattle.std.specs.Io.{WritesAtMost};
ghost use Rattle.std.specs.Io.KnownBytes.{Appends, Keeps, WriteAppends};
ghost use Rattle.ob0_commands.specs.declared.faults.FileCommandFault.TheVariants as faults;
ghost use Rattle.ob0_commands.specs.OutputWriters.{wrapped_writer, has_output_failed, has_flushed};
ghost use Rattle.ob0_commands.specs.StderrLines.{PrintsOptionalLine};

use crate::faults::FileCommandFault;
use std::io::{self, Write};

/// The size, in bytes, of the buffer through which files and inputs are read, and of the buffer in
/// which the output of a run is collected.
pub(crate) const IO_BUFFER_BYTES: usize = 8192;

/// A writer that remembers whether it has been flushed since the last write, and whether a call of
/// `write_all_noting_failure` or `flush_noting_result` has failed.
pub trait TrackedOutput: Write {
    // Returns whether a call of `flush_noting_result` has succeeded since the last write. A call of
    // `write_all_noting_failure` without any bytes doesn't count as a write.
    ghost is_flushed: { Self → Bool };

    // Returns whether a call of `write_all_noting_failure` or `flush_noting_result` has failed.
    ghost has_failed: { Self → Bool };

    /// Writes all the bytes. If that fails, the failure is remembered (`has_failed`).
    fn write_all_noting_failure(&mut self, bytes: &[u8]) -> io::Result<()>
        ensures bytes { OnOk result
            (Appends (Self.contents self.old) (Self.contents self.new) bytes.now) }
        ensures unflushed { bytes.now ≢ [] → is_flushed self.new ≡ false }
        ensures kept { bytes.now ≡ [] → is_flushed self.new ≡ is_flushed self.old }
        ensures failed { has_failed self.new ≡ (has_failed self.old || is_err result) };

    /// Flushes the writer, and remembers whether that succeeded.
    fn flush_noting_result(&mut self) -> io::Result<()>
        ensures bytes { Keeps (Self.contents self.old) (Self.contents self.new) }
        ensures flushed { OnOk result (is_flushed self.new ≡ true) }
        ensures kept { OnErr result (is_flushed self.new ≡ is_flushed self.old) }
        ensures failed { has_failed self.new ≡ (has_failed self.old || is_err result) };
}

/// A wrapper that implements the trait `TrackedOutput` for any writer. It remembers whether
/// `flush_noting_result` has succeeded since the last write, and whether
/// `write_all_noting_failure` or `flush_noting_result` has failed.
#[derive(Drop)]
pub struct TrackedWriter<W> {
    device: W,
    has_flushed: bool,
    has_failed: bool,
}

impl<W> TrackedWriter<W> {
    /// Wraps a writer. The wrapper counts as not flushed and not failed.
    pub fn new(device: W) -> TrackedWriter<W>
        ensures device { wrapped_writer result ≡ device }
        ensures fresh { has_flushed result ≡ false }
        ensures works { has_output_failed result ≡ false }
    {
        TrackedWriter {
            device,
            has_flushed: false,
            has_failed: false,
        }
    }
}

impl<W: Write> Write for TrackedWriter<W> {
    ghost contents = { λ output. W.contents (wrapped_writer output) };

    fn write(&mut self, buf: &[u8]) -> io::Result<usize>
        ensures bound { WritesAtMost result buf.now }
        ensures bytes { WriteAppends (W.contents (wrapped_writer self.old))
            (W.contents (wrapped_writer self.new)) result buf.now }
        ensures flushed { has_flushed self.new ≡ false }
        ensures kept { has_output_failed self.new ≡ has_output_failed self.old }
    {
        self.has_flushed = false;
        self.device.write(buf)
    }

    fn flush(&mut self) -> io::Result<()>
        ensures bytes { Keeps (W.contents (wrapped_writer self.old))
            (W.contents (wrapped_writer self.new)) }
        ensures flushed { has_flushed self.new ≡ has_flushed self.old }
        ensures kept { has_output_failed self.new ≡ has_output_failed self.old }
    {
        self.device.flush()
    }
}

impl<W: Write> TrackedOutput for TrackedWriter<W> {
    ghost is_flushed = { λ output. has_flushed output };

    ghost has_failed = { λ output. has_output_failed output };

    fn write_all_noting_failure(&mut self, bytes: &[u8]) -> io::Result<()> {
        self.has_flushed = self.has_flushed && bytes.is_empty();
        match self.device.write_all(bytes) {
            Ok(()) => Ok(()),
            Err(error) => {
                self.has_failed = true;
                Err(error)
            }
        }
    }

    fn flush_noting_result(&mut self) -> io::Result<()> {
        match self.device.flush() {
            Ok(()) => {
                self.has_flushed = true;
                Ok(())
            }
            Err(unflushed) => {
                self.has_failed = true;
                Err(unflushed)
            }
        }
    }
}

/// Writes a whole text, but doesn't flush. If the write fails, the fault is `Write`.
pub(crate) fn write_without_flush<W: TrackedOutput>(
    out: &mut W,
    text: &str,
) -> Result<(), FileCommandFault>
    ensures written { OnOk result (Appends (W.contents out.old) (W.contents out.new) text.now) }
    ensures unfailed { OnOk result (W.has_failed out.new ≡ W.has_failed out.old) }
    ensures fault { IfErr result (λ fault. fault ≡ faults.Write) }
    ensures failed { OnErr result (W.has_failed out.new ≡ true) }
{
    match out.write_all_noting_failure(text.as_bytes()) {
        Ok(()) => Ok(()),
        Err(_) => Err(FileCommandFault::Write),
    }
}

/// Writes a whole text, and flushes. If the write or the flush fails, the fault is `Write`.
pub fn write_and_flush<W: TrackedOutput>(out: &mut W, text: &str) -> Result<(), FileCommandFault>
    ensures printed { OnOk result (Appends (W.contents out.old) (W.contents out.new) text.now) }
    ensures flushed { OnOk result (W.is_flushed out.new ≡ true) }
    ensures unfailed { OnOk result (W.has_failed out.new ≡ W.has_failed out.old) }
    ensures fault { IfErr result (λ fault. fault ≡ faults.Write) }
    ensures failed { OnErr result (W.has_failed out.new ≡ true) }
    ensures said { PrintsOptionalLine W.contents W.is_flushed W.has_failed out.old out.new
        (Some text.now) }
{
    write_without_flush(out, text)?;
    match out.flush_noting_result() {
        Ok(()) => Ok(()),
        Err(_) => Err(FileCommandFault::Write),
    }
}
