//! Defines devices that fail: a reader that fails after some calls, and a writer that fails after
//! some bytes or flushes.

use std::io::{self, Read, Write};

/// A reader of `bytes`, which returns at most `max_bytes_per_read` bytes in each call. The next `calls_left`
/// calls succeed, and later calls fail.
#[derive(Drop)]
pub struct FailingReader<'a> {
    pub bytes: &'a [u8],
    pub max_bytes_per_read: usize,
    pub calls_left: u32,
}

impl<'a> Read for FailingReader<'a> {
    fn read(&mut self, buf: &mut [u8]) -> io::Result<usize> {
        if self.calls_left == 0 {
            return Err(io::ErrorKind::Other.into());
        }
        self.calls_left -= 1;
        let count = self.max_bytes_per_read.min(buf.len());
        self.bytes.read(&mut buf[..count])
    }
}

/// The counts of a `CountingWriter`: the number of written bytes, and how many of these were
/// flushed (`flushed_bytes`). The other two numbers say how many more bytes it accepts, and how many
/// more flushes succeed.
#[derive(Clone, Copy)]
pub struct WriterCounts {
    pub written: usize,
    pub flushed_bytes: usize,
    pub capacity: usize,
    pub flushes_left: u32,
}

impl WriterCounts {
    /// Returns the counts before anything is written.
    pub fn new(capacity: usize, flushes_left: u32) -> WriterCounts {
        WriterCounts {
            written: 0,
            flushed_bytes: 0,
            capacity,
            flushes_left,
        }
    }
}

/// A writer that stores nothing: it only counts the written bytes, in `count`. A write fails if no
/// more bytes are accepted. Once a flush succeeds, all bytes written so far count as flushed
/// (`flushed_bytes`).
#[derive(Drop)]
pub struct CountingWriter<'a> {
    pub count: &'a mut WriterCounts,
}

impl<'a> Write for CountingWriter<'a> {
    fn write(&mut self, buf: &[u8]) -> io::Result<usize> {
        if self.count.capacity == 0 {
            return Err(io::ErrorKind::Other.into());
        }
        let taken = self.count.capacity.min(buf.len());
        self.count.capacity -= taken;
        self.count.written = self.count.written.saturating_add(taken);
        Ok(taken)
    }

    fn flush(&mut self) -> io::Result<()> {
        if self.count.flushes_left == 0 {
            return Err(io::ErrorKind::Other.into());
        }
        self.count.flushes_left -= 1;
        self.count.flushed_bytes = self.count.written;
        Ok(())
    }
}
