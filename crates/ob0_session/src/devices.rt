//! Declares the devices that `serve` and `serve_stream` read from and write to. Ghost members, which
//! only contracts use, record the calls of a device and their failures.
//!
//! std's contracts don't count the calls of a reader, and don't record whether a call failed. The
//! contract of `serve` needs both, for every device that implements these traits. `Noted` turns
//! each reader or writer of std into such a device.
//!
//! A `Stream` has both directions. It may also record what its calls did, in order, so that a
//! contract can say which bytes were written before a read. A `DevicePair` makes a stream of an
//! `InputDevice` and an `OutputDevice`, and records no such order.
ghost use Rattle.std.specs.Prelude.{◌≡◌, ◌≢◌, ◌||◌, ◌<◌, ℕ, List, [], Option, Bool, true, false, length, is_err, IfOk, OnOk, OnErr};
ghost use Rattle.std.specs.Io.{ReadsAtMost, WritesAtMost};
ghost use Rattle.std.specs.Io.KnownBytes.{Keeps, ReadConsumes, WriteAppends};
ghost use Rattle.ob0_session.specs.Devices.{ReadStatistics, statistics_after_read};
ghost use Rattle.ob0_session.specs.StreamSteps.{Records, StreamState, steps_of_flush, steps_of_read, steps_of_write};

use thiserror::Error;

/// The error of a device: a call failed, or a write of at least one byte wrote none.
#[derive(Clone, Copy, Debug, PartialEq, Eq, Error)]
#[error("the device failed")]
pub struct DeviceFault;

/// A device from which bytes are read. Its ghost members record the calls.
pub trait InputDevice {
    // Returns the remaining bytes of the input, or None if they aren't known.
    ghost remaining: { Self → Option (List ℕ) };

    // Returns the number of reads, and the length in bytes of the longest buffer passed to a read.
    ghost reads: { Self → ReadStatistics };

    // Returns whether a call of `read` has failed.
    ghost has_failed: { Self → Bool };

    /// Reads bytes into the buffer, and returns the number of bytes read. Returns 0 only at the end
    /// of the input or if the buffer is empty.
    fn read(&mut self, buf: &mut [u8]) -> Result<usize, DeviceFault>
        ensures bound { ReadsAtMost result buf.new }
        ensures bytes { ReadConsumes (remaining self.old) (remaining self.new) result buf.new }
        ensures noted { has_failed self.new ≡ (has_failed self.old || is_err result) }
        ensures reads { reads self.new ≡ statistics_after_read (length buf.new) (reads self.old) };
}

/// A device to which bytes are written. Its ghost members record the calls.
pub trait OutputDevice {
    // Returns all bytes that were written, or None if they aren't known.
    ghost contents: { Self → Option (List ℕ) };

    // Returns whether everything written is flushed: nothing was written, or a flush has succeeded
    // since the last write.
    ghost is_flushed: { Self → Bool };

    // Returns whether a call of `write` or `flush` has failed.
    ghost has_failed: { Self → Bool };

    /// Writes a prefix of the bytes, and returns the number of bytes written. If `buf` isn't empty,
    /// the call writes at least one byte or fails.
    fn write(&mut self, buf: &[u8]) -> Result<usize, DeviceFault>
        ensures bound { WritesAtMost result buf.now }
        ensures progress { IfOk result (λ count. buf.now ≢ [] → 0 < count) }
        ensures bytes { WriteAppends (contents self.old) (contents self.new) result buf.now }
        ensures noted { has_failed self.new ≡ (has_failed self.old || is_err result) }
        ensures flushed { is_flushed self.new ≡ false };

    /// Flushes everything that was written. If the flush fails, `is_flushed` is unchanged.
    fn flush(&mut self) -> Result<(), DeviceFault>
        ensures bytes { Keeps (contents self.old) (contents self.new) }
        ensures noted { has_failed self.new ≡ (has_failed self.old || is_err result) }
        ensures flushed { OnOk result (is_flushed self.new ≡ true) }
        ensures unflushed { OnErr result (is_flushed self.new ≡ is_flushed self.old) };
}

/// A device with both directions. Its ghost member records the calls.
pub trait Stream {
    // Returns the state of both directions, and what the calls did, if that is known.
    ghost state: { Self → StreamState };

    /// Reads bytes into the buffer, and returns the number of bytes read. Returns 0 only at the end
    /// of the input or if the buffer is empty.
    fn read(&mut self, buf: &mut [u8]) -> Result<usize, DeviceFault>
        ensures bound { ReadsAtMost result buf.new }
        ensures bytes { ReadConsumes
            (state self.old).input.remaining (state self.new).input.remaining result buf.new }
        ensures noted { (state self.new).input.has_failed
            ≡ ((state self.old).input.has_failed || is_err result) }
        ensures reads { (state self.new).input.reads
            ≡ statistics_after_read (length buf.new) (state self.old).input.reads }
        ensures output { (state self.new).output ≡ (state self.old).output }
        ensures steps { Records (state self.old).steps (state self.new).steps
            (steps_of_read result buf.new) }
        ensures references { (state self.new).references ≡ (state self.old).references };

    /// Writes a prefix of the bytes, and returns the number of bytes written. If `buf` isn't empty,
    /// the call writes at least one byte or fails.
    fn write(&mut self, buf: &[u8]) -> Result<usize, DeviceFault>
        ensures bound { WritesAtMost result buf.now }
        ensures progress { IfOk result (λ count. buf.now ≢ [] → 0 < count) }
        ensures bytes { WriteAppends
            (state self.old).output.contents (state self.new).output.contents result buf.now }
        ensures noted { (state self.new).output.has_failed
            ≡ ((state self.old).output.has_failed || is_err result) }
        ensures flushed { (state self.new).output.is_flushed ≡ false }
        ensures input { (state self.new).input ≡ (state self.old).input }
        ensures steps { Records (state self.old).steps (state self.new).steps
            (steps_of_write result buf.now) }
        ensures references { (state self.new).references ≡ (state self.old).references };

    /// Flushes everything that was written. If the flush fails, `is_flushed` is unchanged.
    fn flush(&mut self) -> Result<(), DeviceFault>
        ensures bytes { Keeps (state self.old).output.contents (state self.new).output.contents }
        ensures noted { (state self.new).output.has_failed
            ≡ ((state self.old).output.has_failed || is_err result) }
        ensures flushed { OnOk result ((state self.new).output.is_flushed ≡ true) }
        ensures unflushed { OnErr result
            ((state self.new).output.is_flushed ≡ (state self.old).output.is_flushed) }
        ensures input { (state self.new).input ≡ (state self.old).input }
        ensures steps { Records (state self.old).steps (state self.new).steps
            (steps_of_flush result) }
        ensures references { (state self.new).references ≡ (state self.old).references };
}
