//! The names of `ob0_session`. `serve` takes any device; `Noted` makes one of a reader or a writer
//! of std. `read`, `write` and `flush` are methods of the traits `InputDevice` and `OutputDevice`.

use ob0_session::{
    DeviceFault, InputDevice, Next, Noted, OutputDevice, ServeFault, Session, SessionFault, Step,
    serve,
};
use ob0_text::{Documents, Lines, TextStore, Whole};
use std::alloc::Global;
use std::io::{self, Read, Write};
use std::process::Abort;

const INITIALIZE: &[u8] = b"{\"id\":1,\"jsonrpc\":\"2.0\",\"method\":\"initialize\",\"params\":{}}";

const EXIT: &[u8] = b"{\"jsonrpc\":\"2.0\",\"method\":\"exit\"}";

/// A stream with the frame of `EXIT`.
const EXIT_STREAM: &[u8] = b"Content-Length: 33\r\n\r\n{\"jsonrpc\":\"2.0\",\"method\":\"exit\"}";

/// Returns the status with which a session has ended. Returns None if it hasn't ended.
fn status_of_next(next: Next) -> Option<u8> {
    match next {
        Next::Continue => None,
        Next::End(status) => Some(status),
    }
}

/// Returns how many messages a step sends, and the status if it ends the session. Returns the
/// fault's number in the order of the variants, from 1, if the step fails.
fn count_and_status(step: Result<Step, SessionFault>) -> Result<(usize, Option<u8>), u8> {
    match step {
        Ok(Step { send, next }) => {
            let contents: Vec<Vec<u8>> = send;
            Ok((contents.len(), status_of_next(next)))
        }
        Err(SessionFault::Memory) => Err(1),
        Err(SessionFault::Failed) => Err(2),
    }
}

/// Returns whether a session answers one message and ends at the next.
fn answers_and_ends<T: TextStore>(session: &mut Session<T>) -> bool {
    let first: Result<Step, SessionFault> = Session::step(session, INITIALIZE);
    if count_and_status(first) != Ok((1, None)) {
        return false;
    }
    let documents: &Documents<T> = Session::documents(session);
    if documents.get("u").is_some() {
        return false;
    }
    let last: Result<Step, SessionFault> = Session::step(session, EXIT);
    count_and_status(last) == Ok((0, Some(1)))
}

fn new_session_answers_and_ends<T: TextStore>(alloc: Global) -> bool {
    let mut session: Session<T> = Session::new(alloc);
    answers_and_ends(&mut session)
}

/// A reader of bytes.
#[derive(Drop)]
struct BytesReader {
    bytes: &'static [u8],
}

impl Read for BytesReader {
    fn read(&mut self, buf: &mut [u8]) -> io::Result<usize> {
        self.bytes.read(buf)
    }
}

/// A writer that stores nothing.
#[derive(Drop)]
struct NoWriter;

impl Write for NoWriter {
    fn write(&mut self, buf: &[u8]) -> io::Result<usize> {
        Ok(buf.len())
    }

    fn flush(&mut self) -> io::Result<()> {
        Ok(())
    }
}

/// Returns the number of a fault in the order of the variants, from 1.
fn number_of_fault(fault: ServeFault) -> u8 {
    match fault {
        ServeFault::BadHead => 1,
        ServeFault::Truncated => 2,
        ServeFault::Read => 3,
        ServeFault::Write => 4,
        ServeFault::Memory => 5,
        ServeFault::TooManyReads => 6,
    }
}

/// Serves these bytes. Returns the status, or the number of the fault.
fn served(alloc: Global, bytes: &'static [u8]) -> Result<u8, u8> {
    let mut reader: Noted<BytesReader> = Noted::new(BytesReader { bytes });
    let mut writer: Noted<NoWriter> = Noted::new(NoWriter);
    let result: Result<u8, ServeFault> = serve(alloc, &mut reader, &mut writer);
    let failed: (bool, bool) = (Noted::failed(&reader), Noted::failed(&writer));
    match result {
        Ok(status) => if failed == (false, false) {
            Ok(status)
        } else {
            Err(0)
        },
        Err(fault) => Err(number_of_fault(fault)),
    }
}

/// Returns whether a device reads, writes and flushes a byte.
fn device_is_used() -> bool {
    let mut reader: Noted<BytesReader> = Noted::new(BytesReader { bytes: b"a" });
    let mut writer: Noted<NoWriter> = Noted::new(NoWriter);
    let mut byte = [0u8; 1];
    let read: Result<usize, DeviceFault> = InputDevice::read(&mut reader, &mut byte);
    let written: Result<usize, DeviceFault> = OutputDevice::write(&mut writer, &byte);
    let flushed: Result<(), DeviceFault> = OutputDevice::flush(&mut writer);
    read == Ok(1) && written == Ok(1) && flushed == Ok(())
}

fn sessions_are_as_expected(alloc: Global) -> bool {
    new_session_answers_and_ends::<Whole>(alloc) && new_session_answers_and_ends::<Lines>(alloc)
}

#[test]
fn sessions_have_each_call(rt: HostRuntime) {
    assert!(rt; sessions_are_as_expected(rt.alloc()));
}

fn streams_are_as_expected(alloc: Global) -> bool {
    served(alloc, EXIT_STREAM) == Ok(1)
        && served(alloc, b"") == Ok(1)
        && served(alloc, b"\n") == Err(1)
        && device_is_used()
}

#[test]
fn streams_are_served(rt: HostRuntime) {
    assert!(rt; streams_are_as_expected(rt.alloc()));
}
