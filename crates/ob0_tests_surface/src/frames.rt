//! The names of `ob0_frame`.

use ob0_frame::{FrameFault, Framer, write_frame};
use std::alloc::{AllocError, Global};
use std::process::Abort;

/// Returns the number of a fault in the order of the variants, from 1.
fn number_of_fault(fault: FrameFault) -> u8 {
    match fault {
        FrameFault::BadHead => 1,
        FrameFault::Truncated => 2,
        FrameFault::Memory => 3,
    }
}

/// Returns whether a framer that is fed these bytes returns this content, and has then no rest.
fn reads_only_content(alloc: Global, bytes: &[u8], content: &[u8]) -> bool {
    let mut framer: Framer = Framer::new(alloc);
    let fed: Result<(), FrameFault> = Framer::feed(&mut framer, bytes);
    if fed.is_err() {
        return false;
    }
    let next: Option<Vec<u8>> = Framer::next(&mut framer);
    let finished: Result<(), FrameFault> = Framer::finish(&framer);
    finished.is_ok() && next.is_some_and(|it| it.as_slice() == content)
}

/// Writes a frame, and returns whether it is read again.
fn frame_is_read_again(alloc: Global, content: &[u8]) -> Result<bool, AllocError> {
    let mut out: Vec<u8> = Vec::new(alloc);
    let written: Result<(), AllocError> = write_frame(alloc, &mut out, content);
    written?;
    Ok(reads_only_content(alloc, out.as_slice(), content))
}

/// Returns the number of the fault of feeding these bytes, or 0 if there is none.
fn fault_of_feeding(alloc: Global, bytes: &[u8]) -> u8 {
    let mut framer: Framer = Framer::new(alloc);
    match Framer::feed(&mut framer, bytes) {
        Ok(()) => 0,
        Err(fault) => number_of_fault(fault),
    }
}

fn frames_are_as_expected(alloc: Global) -> bool {
    frame_is_read_again(alloc, b"{}") == Ok(true)
        && fault_of_feeding(alloc, b"\n") == 1
        && number_of_fault(FrameFault::Memory) == 3
}

#[test]
fn frames_are_written_and_read(rt: HostRuntime) {
    assert!(rt; frames_are_as_expected(rt.alloc()));
}
