//! Tests conversations with readers and writers that fail. Also tests that `serve` flushes the
//! bytes that it writes, and that it owes no answer when it reads.

use crate::devices::{CountingWriter, FailingReader, WriterCounts};
use crate::recorder::{RecordedStep, Recorder, StepRecord, serve_recorded};
use ob0_session::{DeviceFault, InputDevice, Noted, OutputDevice, ServeFault, serve, status_of};
use std::alloc::Global;
use std::process::Abort;

/// A conversation from `initialize` to `exit`.
const WHOLE_CONVERSATION: &[u8] = b"Content-Length: 75\r\n\r\n\
    {\"id\":1,\"jsonrpc\":\"2.0\",\"method\":\"initialize\",\"params\":{\"capabilities\":{}}}\
    Content-Length: 171\r\n\r\n{\"jsonrpc\":\"2.0\",\"method\":\"textDocument/didOpen\",\
    \"params\":{\"textDocument\":{\"languageId\":\"oberon-0\",\
    \"text\":\"MODULE M; BEGIN WriteLn END M.\",\"uri\":\"file:///m\",\"version\":1}}}\
    Content-Length: 44\r\n\r\n{\"id\":2,\"jsonrpc\":\"2.0\",\"method\":\"shutdown\"}\
    Content-Length: 33\r\n\r\n{\"jsonrpc\":\"2.0\",\"method\":\"exit\"}";

/// The first message of `WHOLE_CONVERSATION`, followed by a bad head.
const CONVERSATION_WITH_BAD_HEAD: &[u8] = b"Content-Length: 75\r\n\r\n\
    {\"id\":1,\"jsonrpc\":\"2.0\",\"method\":\"initialize\",\"params\":{\"capabilities\":{}}}\
    Content-Length: x\r\n\r\n";

/// A conversation and its expected result. The input is the first `len` bytes of `bytes`. The first
/// `reads` reads succeed, and each returns at most `max_read_length` bytes. The writer accepts
/// `capacity` bytes. The conversation needs exactly `flushes` flushes.
struct ConversationCase {
    bytes: &'static [u8],
    len: usize,
    max_read_length: usize,
    reads: u32,
    capacity: usize,
    flushes: u32,
    result: Result<u8, ServeFault>,
}

/// Builds a table of conversations, each written `BYTES to LEN, MAX READ LENGTH, READS; CAPACITY,
/// FLUSHES => RESULT;`.
macro_rules! conversation_rows {
    ($($bytes:ident to $len:expr, $max_read_length:expr, $reads:expr; $capacity:expr, $flushes:expr => $result:expr;)*) => {
        &[$(ConversationCase { bytes: $bytes, len: $len, max_read_length: $max_read_length, reads: $reads, capacity: $capacity, flushes: $flushes,
            result: $result }),*]
    };
}

static CONVERSATION_CASES: &[ConversationCase] = conversation_rows![
    WHOLE_CONVERSATION to 412, 8192, u32::MAX; 512, 1 => Ok(0);
    WHOLE_CONVERSATION to 412, 40, u32::MAX; 512, 11 => Ok(0);
    WHOLE_CONVERSATION to 291, 40, u32::MAX; 512, 8 => Ok(1);
    WHOLE_CONVERSATION to 300, 8192, u32::MAX; 512, 1 => Err(ServeFault::Truncated);
    WHOLE_CONVERSATION to 412, 40, 5; 512, 5 => Err(ServeFault::Read);
    WHOLE_CONVERSATION to 412, 8192, u32::MAX; 300, 1 => Err(ServeFault::Write);
    CONVERSATION_WITH_BAD_HEAD to 118, 8192, u32::MAX; 512, 1 => Err(ServeFault::BadHead);
    CONVERSATION_WITH_BAD_HEAD to 118, 40, u32::MAX; 512, 3 => Err(ServeFault::BadHead);
];

/// The end of a conversation: the result of `serve`, whether a read or a write failed, and whether
/// everything was flushed.
#[derive(Clone, Copy)]
struct ConversationEnd {
    result: Result<u8, ServeFault>,
    read_failed: bool,
    write_failed: bool,
    flushed: bool,
}

/// Calls `serve` for this conversation, with a writer that has these counts, and returns how the
/// conversation ended.
fn serve_with_failing_devices(
    alloc: Global,
    end: &ConversationCase,
    count: &mut WriterCounts,
) -> ConversationEnd {
    let mut reader = Noted::new(FailingReader {
        bytes: &end.bytes[..end.len.min(end.bytes.len())],
        max_bytes_per_read: end.max_read_length,
        calls_left: end.reads,
    });
    let mut writer = Noted::new(CountingWriter { count });
    let result = serve(alloc, &mut reader, &mut writer);
    ConversationEnd {
        result,
        read_failed: reader.failed(),
        write_failed: writer.failed(),
        flushed: writer.is_flushed(),
    }
}

/// Returns whether everything was flushed, and the recorded failures agree with the result. A
/// failed read must be recorded exactly if the result is `Read`, and a failed write exactly if it
/// is `Write`.
fn result_matches_failures(found: ConversationEnd) -> bool {
    found.read_failed == (found.result == Err(ServeFault::Read))
        && found.write_failed == (found.result == Err(ServeFault::Write))
        && found.flushed
}

/// Returns whether a conversation ends as expected when only this many flushes succeed. If a needed
/// flush fails, the result must be `Write`. Otherwise it must be the expected result, and all
/// written bytes must have been flushed.
fn ends_as_expected_with_flushes(alloc: Global, end: &ConversationCase, flushes: u32) -> bool {
    let mut count = WriterCounts::new(end.capacity, flushes);
    let found = serve_with_failing_devices(alloc, end, &mut count);
    if flushes < end.flushes {
        return found.result == Err(ServeFault::Write);
    }
    found.result == end.result
        && result_matches_failures(found)
        && count.flushed_bytes == count.written
}

/// Returns whether a conversation needs exactly `end.flushes` flushes. With fewer flushes it must
/// end with `Write`, and with this number it must end as expected.
fn needs_expected_flushes(alloc: Global, end: &ConversationCase) -> bool {
    for flushes in 0..end.flushes {
        if !ends_as_expected_with_flushes(alloc, end, flushes) {
            return false;
        }
    }
    ends_as_expected_with_flushes(alloc, end, end.flushes)
}

/// Returns the index, from 0, of the first conversation that doesn't end as expected. Returns None
/// if all conversations end as expected.
fn first_failing_conversation(alloc: Global, ends: &[ConversationCase]) -> Option<usize> {
    for i in 0..ends.len() {
        if !needs_expected_flushes(alloc, &ends[i]) {
            return Some(i);
        }
    }
    None
}

#[test]
fn output_is_flushed_after_each_piece(rt: HostRuntime) {
    let number = first_failing_conversation(rt.alloc(), CONVERSATION_CASES);
    assert!(rt; number.is_none(), "conversation {number:?}");
}

/// Calls `serve` for this input, with reads of at most 8,192 bytes and a writer that has these
/// counts.
fn serve_and_count(alloc: Global, bytes: &[u8], count: &mut WriterCounts) {
    let mut reader = Noted::new(FailingReader {
        bytes,
        max_bytes_per_read: 8192,
        calls_left: u32::MAX,
    });
    let mut writer = Noted::new(CountingWriter { count });
    let _ = serve(alloc, &mut reader, &mut writer);
}

/// Returns how many bytes `serve` writes for this input.
fn output_length(alloc: Global, bytes: &[u8]) -> usize {
    let mut count = WriterCounts::new(usize::MAX, u32::MAX);
    serve_and_count(alloc, bytes, &mut count);
    count.written
}

/// Returns the index, from 0, of the first step at which a read begins although an answer is owed:
/// a byte that was written isn't flushed yet, or the bytes written aren't the ones that `serve`
/// writes for the bytes given so far. Returns None if no answer is owed at any read.
fn first_owing_read(alloc: Global, input: &[u8], steps: &[RecordedStep]) -> Option<usize> {
    let mut given = 0usize;
    let mut written = 0usize;
    let mut is_flushed = true;
    for i in 0..steps.len() {
        match &steps[i] {
            RecordedStep::ReadBegins => {
                let so_far = &input[..given.min(input.len())];
                if !is_flushed || written != output_length(alloc, so_far) {
                    return Some(i);
                }
            }
            RecordedStep::ReadGives(bytes) => given = given.saturating_add(bytes.len()),
            RecordedStep::Writes(bytes) => {
                written = written.saturating_add(bytes.len());
                is_flushed = false;
            }
            RecordedStep::WriteFails => is_flushed = false,
            RecordedStep::Flushes => is_flushed = true,
            RecordedStep::ReadFails => {}
            RecordedStep::FlushFails => {}
        }
    }
    None
}

/// Returns whether the record of a whole conversation is complete, and no answer is owed at any
/// read. Each read gives at most `max_bytes_per_read` bytes.
fn never_reads_owing(alloc: Global, max_bytes_per_read: usize, count: &mut WriterCounts) -> bool {
    let mut stream = Recorder {
        reader: Noted::new(FailingReader {
            bytes: WHOLE_CONVERSATION,
            max_bytes_per_read,
            calls_left: u32::MAX,
        }),
        writer: Noted::new(CountingWriter { count }),
        record_of_steps: StepRecord::new(alloc),
    };
    let result = serve_recorded(alloc, &mut stream);
    let Some(steps) = stream.record_of_steps.complete_steps() else {
        return false;
    };
    result == Ok(0) && first_owing_read(alloc, WHOLE_CONVERSATION, steps).is_none()
}

#[test]
fn no_answer_is_owed_when_a_read_begins(rt: HostRuntime) {
    for max_bytes_per_read in [1usize, 40, 8192] {
        let mut count = WriterCounts::new(usize::MAX, u32::MAX);
        assert!(rt;
            never_reads_owing(rt.alloc(), max_bytes_per_read, &mut count),
            "pieces of {max_bytes_per_read} bytes"
        );
    }
}

/// Returns whether the wrapper `Noted` returns its reader's results and bytes unchanged, and
/// records the reader's failure.
fn reader_failure_is_recorded() -> bool {
    let mut reader = Noted::new(FailingReader {
        bytes: b"ab",
        max_bytes_per_read: 1,
        calls_left: 1,
    });
    let mut piece = [0; 4];
    let is_read = reader.read(&mut piece) == Ok(1) && piece[0] == b'a' && !reader.failed();
    is_read && reader.read(&mut piece) == Err(DeviceFault) && reader.failed()
}

/// Returns whether the wrapper `Noted` returns its writer's results unchanged, and records the
/// writer's failure.
fn writer_failure_is_recorded() -> bool {
    let mut count = WriterCounts::new(1, 1);
    let mut writer = Noted::new(CountingWriter { count: &mut count });
    let is_written = writer.write(b"ab") == Ok(1) && writer.flush().is_ok() && !writer.failed();
    is_written && writer.write(b"b") == Err(DeviceFault) && writer.failed()
}

#[test]
fn device_failures_are_recorded(rt: HostRuntime) {
    assert!(rt; reader_failure_is_recorded() && writer_failure_is_recorded());
}

/// The faults that end a conversation, with the status of the program for each.
static FAULT_STATUSES: &[(ServeFault, u8)] = &[
    (ServeFault::BadHead, 3),
    (ServeFault::Truncated, 3),
    (ServeFault::Read, 4),
    (ServeFault::Write, 4),
    (ServeFault::TooManyReads, 4),
    (ServeFault::Memory, 5),
];

#[test]
fn each_fault_has_its_status(rt: HostRuntime) {
    for row in FAULT_STATUSES {
        assert!(rt; status_of(row.0) == row.1, "{:?}", row.0);
    }
}
