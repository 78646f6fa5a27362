//! Reads all bytes of a file, and all bytes of the input of a run.
//!
//! The commands read through the trait `TrackedInput`: a reader that remembers whether a read has
//! failed. So the contracts can state why the fault is `File` or `Input`
//! (`IsFaultForReasonOrMemory`). `TrackedReader` implements this trait for any reader. If the
//! remaining bytes of a reader aren't known (`Read::remaining` is None), the contracts don't say
//! which bytes are read.

ghost use Rattle.std.specs.Prelude.{◌≡◌, ◌≤◌, ◌<◌, ◌||◌, ◌⊎◌, Bool, true, false, is_err, IfOk, OnOk, IfErr, IfSome, length, suc};
ghost use Rattle.std.specs.Io.{ReadsAtMost};
ghost use Rattle.std.specs.Io.KnownBytes.{Consumes, IsAtEnd, ReadConsumes};
ghost use Rattle.ob0_scan.specs.TextWithTokens.{max_text_length};
ghost use Rattle.ob0_commands.specs.InputReaders.{ConsumesAtMost, wrapped_reader, has_input_failed};
ghost use Rattle.ob0_commands.specs.InputNumbers.{max_input_bytes};
ghost use Rattle.ob0_commands.specs.Statuses.{IsFaultForReasonOrMemory};
ghost use Rattle.ob0_commands.specs.declared.faults.FileCommandFault.TheVariants as faults;

use crate::faults::FileCommandFault;
use crate::tracked_output::IO_BUFFER_BYTES;
use ob0_scan::MAX_TEXT_LENGTH;
use std::alloc::Global;
use std::io::{self, Read};

/// The greatest number of bytes that are read from a file: one more than a text may have.
pub const MAX_FILE_BYTES_READ: usize = MAX_TEXT_LENGTH + 1;

/// The greatest length of the input of a run, in bytes.
const MAX_INPUT_BYTES: usize = 16_777_216;

/// A reader that remembers whether one of its reads has failed.
pub trait TrackedInput: Read {
    // Returns whether a call of `read_noting_failure` has failed.
    ghost has_failed: { Self → Bool };

    /// Reads bytes into the buffer, and returns the number of bytes read. If the read fails, this
    /// is remembered (`has_failed`).
    fn read_noting_failure(&mut self, buf: &mut [u8]) -> io::Result<usize>
        ensures bound { ReadsAtMost result buf.new }
        ensures bytes { ReadConsumes
            (Self.remaining self.old) (Self.remaining self.new) result buf.new }
        ensures failed { has_failed self.new ≡ (has_failed self.old || is_err result) };
}

/// A wrapper that implements the trait `TrackedInput` for any reader. It remembers whether a read
/// has failed.
#[derive(Drop)]
pub struct TrackedReader<R> {
    device: R,
    has_failed: bool,
}

impl<R> TrackedReader<R> {
    /// Wraps a reader. No read of the wrapper has failed yet.
    pub fn new(device: R) -> TrackedReader<R>
        ensures device { wrapped_reader result ≡ device }
        ensures works { has_input_failed result ≡ false }
    {
        TrackedReader {
            device,
            has_failed: false,
        }
    }
}

impl<R: Read> Read for TrackedReader<R> {
    ghost remaining = { λ input. R.remaining (wrapped_reader input) };

    fn read(&mut self, buf: &mut [u8]) -> io::Result<usize>
        ensures bound { ReadsAtMost result buf.new }
        ensures bytes { ReadConsumes (R.remaining (wrapped_reader self.old))
            (R.remaining (wrapped_reader self.new)) result buf.new }
        ensures failed { has_input_failed self.new ≡ (has_input_failed self.old || is_err result) }
    {
        match self.device.read(buf) {
            Ok(count) => Ok(count),
            Err(error) => {
                self.has_failed = true;
                Err(error)
            }
        }
    }
}

impl<R: Read> TrackedInput for TrackedReader<R> {
    ghost has_failed = { λ input. has_input_failed input };

    fn read_noting_failure(&mut self, buf: &mut [u8]) -> io::Result<usize> {
        self.read(buf)
    }
}

/// Returns all bytes of a file, or the first 1,048,577 if the file has more. If a read fails, the
/// fault is `File`. If an allocation fails, it is `Memory`.
pub fn read_file<R: TrackedInput>(alloc: Global, file: &mut R) -> Result<Vec<u8>, FileCommandFault>
    ensures bound { IfOk result (λ bytes. length bytes.items ≤ suc max_text_length) }
    ensures taken { IfOk result
        (λ bytes. Consumes (R.remaining file.old) (R.remaining file.new) bytes.items) }
    ensures end { IfOk result
        (λ bytes. length bytes.items ≤ max_text_length → IsAtEnd (R.remaining file.new)) }
    ensures limit { ConsumesAtMost (suc max_text_length) (R.remaining file.old)
        (R.remaining file.new) }
    ensures unfailed { OnOk result (R.has_failed file.new ≡ R.has_failed file.old) }
    ensures fault { IfErr result (IsFaultForReasonOrMemory faults.File (R.has_failed file.new ≡ true)
        (R.has_failed file.new ≡ R.has_failed file.old)) }
{
    read_up_to_limit(alloc, file, MAX_FILE_BYTES_READ, FileCommandFault::File)
}

/// Returns all bytes of the input. If a read fails, the fault is `Input`. If the input has more
/// than 16,777,216 bytes, the fault is also `Input`. In that case one byte over the limit is read.
/// If an allocation fails, the fault is `Memory`.
pub fn read_input<R: TrackedInput>(
    alloc: Global,
    input: &mut R,
) -> Result<Vec<u8>, FileCommandFault>
    ensures bound { IfOk result (λ bytes. length bytes.items ≤ max_input_bytes) }
    ensures taken { IfOk result
        (λ bytes. Consumes (R.remaining input.old) (R.remaining input.new) bytes.items) }
    ensures end { IfOk result (λ bytes. IsAtEnd (R.remaining input.new)) }
    ensures limit { ConsumesAtMost (suc max_input_bytes) (R.remaining input.old)
        (R.remaining input.new) }
    ensures unfailed { OnOk result (R.has_failed input.new ≡ R.has_failed input.old) }
    ensures fault { IfErr result (IsFaultForReasonOrMemory faults.Input ((R.has_failed input.new ≡ true)
        ⊎ IfSome (R.remaining input.old) (λ text. max_input_bytes < length text))
        (R.has_failed input.new ≡ R.has_failed input.old)) }
{
    let bytes = read_up_to_limit(alloc, input, MAX_INPUT_BYTES + 1, FileCommandFault::Input)?;
    if bytes.len() > MAX_INPUT_BYTES {
        return Err(FileCommandFault::Input);
    }
    Ok(bytes)
}

/// Returns all remaining bytes of the reader, or the first `most` if there are more. If a read
/// fails, returns `fault`. If an allocation fails, the fault is `Memory`.
fn read_up_to_limit<R: TrackedInput>(
    alloc: Global,
    reader: &mut R,
    most: usize,
    fault: FileCommandFault,
) -> Result<Vec<u8>, FileCommandFault>
    ensures bound { IfOk result (λ bytes. length bytes.items ≤ most) }
    ensures taken { IfOk result
        (λ bytes. Consumes (R.remaining reader.old) (R.remaining reader.new) bytes.items) }
    ensures end { IfOk result
        (λ bytes. length bytes.items < most → IsAtEnd (R.remaining reader.new)) }
    ensures limit { ConsumesAtMost most (R.remaining reader.old) (R.remaining reader.new) }
    ensures unfailed { OnOk result (R.has_failed reader.new ≡ R.has_failed reader.old) }
    ensures stops { IfErr result (IsFaultForReasonOrMemory fault (R.has_failed reader.new ≡ true)
        (R.has_failed reader.new ≡ R.has_failed reader.old)) }
{
    let mut bytes = Vec::new(alloc);
    let mut piece = [0u8; IO_BUFFER_BYTES];
    while bytes.len() < most {
        let wanted = (most - bytes.len()).min(IO_BUFFER_BYTES);
        let Ok(count) = reader.read_noting_failure(&mut piece[..wanted]) else {
            return Err(fault);
        };
        if count == 0 {
            break;
        }
        bytes.extend_from_slice(&piece[..count])?;
    }
    Ok(bytes)
}
