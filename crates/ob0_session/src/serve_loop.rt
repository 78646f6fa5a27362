//! Serves a conversation over a stream (docs/PROTOCOL.md, Framing and The program). `serve_stream`
//! reads pieces of the stream, answers the content of each complete message, writes frames
//! (messages with their heads), and flushes them. `serve` is the same over a reader and a writer.
//!
//! `Serves` states for each result which direction has failed. For `Read` only reads have failed,
//! for `Write` only writes or flushes, and for any other result nothing. Everything written is
//! flushed, unless the result is `Write`.
//!
//! `LeavesWriterFlushed` states that everything is flushed on return if it was flushed at the call,
//! or if something was written. So `serve_stream` must flush after its last write, unless it
//! returns `Write`. If an allocation fails, the answers that are already written are flushed before
//! the return (`flush_after_fault`). If that flush fails, the result is `Write`.
//!
//! `NeverReadsOwing` states that no answer is owed when a read begins: each message that was read is
//! answered, and the answers are written and flushed. It needs a stream that records its calls in
//! order. A reader and a writer record no common order, so `serve` can't state it. `answer_piece`
//! does what one piece requires: its clause `prompt` states that no answer is owed for that piece.

ghost use Rattle.std.specs.Prelude.{◌≡◌, ◌≢◌, ◌++◌, List, ℕ, [], true, false, IfOk, OnOk, OnErr, length, map, MatchResult};
ghost use Rattle.std.specs.Io.KnownBytes.{Appends, Consumes, IsAtEnd};
ghost use Rattle.std.specs.List.{flat_map};
ghost use Rattle.ob0_frame.specs.Frames.{frame, written_head};
ghost use Rattle.ob0_frame.specs.FramerState.{Open, Broken, PieceAdvancesFramer};
ghost use Rattle.ob0_session_server.specs.Steps.{HasNotEnded};
ghost use Rattle.ob0_session.specs.ServeResults.{UsesAllReads, LeavesWriterFlushed, IsReadInPieces, Serves};
ghost use Rattle.ob0_session.specs.Statuses.{status_of};
ghost use Rattle.ob0_session.specs.ServeSteps.{AnswersPiece, AnswersWaitingMessages, IfContinues, IsFaultAfterFlush, SendsFrames, WritesPrefixToStream, WritesToStream};
ghost use Rattle.ob0_session.specs.OwedAnswers.{NeverReadsOwing, OwesNothingForPiece};
ghost use Rattle.ob0_session.specs.StreamSteps.{Records, StreamStep};

use crate::complete_writes::write_all_bytes;
use crate::device_pair::DevicePair;
use crate::devices::{DeviceFault, InputDevice, OutputDevice, Stream};
use ob0_frame::{FrameFault, Framer, head_for_content_length};
use ob0_session_server::{Next, Session};
use ob0_text::Lines;
use std::alloc::{AllocError, Global};
use thiserror::Error;

/// The greatest number of pieces that one call of `serve` reads. A piece is the bytes that one read
/// returns.
const MAX_READS: u64 = 1 << 40;

/// The greatest length in bytes of a piece. Each read of `serve` returns at most this many bytes.
const MAX_PIECE_LENGTH: usize = 8192;

/// The reason why `serve` stopped without an exit status.
#[derive(Clone, Copy, Debug, Drop, PartialEq, Eq, Error)]
pub enum ServeFault {
    #[error("BadHead")]
    BadHead,
    #[error("Truncated")]
    Truncated,
    #[error("Read")]
    Read,
    #[error("Write")]
    Write,
    #[error("Memory")]
    Memory,
    #[error("TooManyReads")]
    TooManyReads,
}

/// Returns the program's exit status after this fault. The status is 3 if the bytes aren't framed
/// messages, and 5 if an allocation failed. It is 4 if a device can't be read or written, or if
/// there were too many reads.
pub fn status_of(fault: ServeFault) -> u8
    ensures { result ≡ status_of fault }
{
    match fault {
        ServeFault::BadHead | ServeFault::Truncated => 3,
        ServeFault::Read | ServeFault::Write | ServeFault::TooManyReads => 4,
        ServeFault::Memory => 5,
    }
}

/// Serves one conversation over a reader and a writer, and returns the exit status with which the
/// conversation ends. At most 2^40 pieces are read, each of at most 8,192 bytes. If a flush fails,
/// returns the fault `Write`. Everything that was read is answered before the next read: the
/// contract of `serve_stream`, which does the work, states this for streams that record their calls.
pub fn serve<R: InputDevice, W: OutputDevice>(
    alloc: Global,
    reader: &mut R,
    writer: &mut W,
) -> Result<u8, ServeFault>
    requires reads { R.has_failed reader.old ≡ false }
    requires writes { W.has_failed writer.old ≡ false }
    ensures { (taken : List ℕ) × (put : List ℕ)
        × Consumes (R.remaining reader.old) (R.remaining reader.new) taken
        × Appends (W.contents writer.old) (W.contents writer.new) put
        × IsReadInPieces (R.reads reader.old) (R.reads reader.new) taken
        × Serves result taken put (IsAtEnd (R.remaining reader.new))
        (UsesAllReads (R.reads reader.old) (R.reads reader.new))
        (R.has_failed reader.new) (W.has_failed writer.new)
        (LeavesWriterFlushed (W.is_flushed writer.old) (W.is_flushed writer.new) put) }
{
    let mut devices = DevicePair { reader, writer };
    serve_stream(alloc, &mut devices)
}

/// Serves one conversation over a device with both directions, and returns the exit status with
/// which the conversation ends. The result and the bytes are the same as for `serve`. Whenever a read
/// begins, no answer is owed (`prompt`): each message that was read is answered, and all answers are
/// written and flushed.
pub fn serve_stream<S: Stream>(alloc: Global, stream: &mut S) -> Result<u8, ServeFault>
    requires reads { (S.state stream.old).input.has_failed ≡ false }
    requires writes { (S.state stream.old).output.has_failed ≡ false }
    ensures served { (taken : List ℕ) × (put : List ℕ)
        × Consumes (S.state stream.old).input.remaining (S.state stream.new).input.remaining taken
        × Appends (S.state stream.old).output.contents (S.state stream.new).output.contents put
        × IsReadInPieces (S.state stream.old).input.reads (S.state stream.new).input.reads taken
        × Serves result taken put (IsAtEnd (S.state stream.new).input.remaining)
        (UsesAllReads (S.state stream.old).input.reads (S.state stream.new).input.reads)
        (S.state stream.new).input.has_failed (S.state stream.new).output.has_failed
        (LeavesWriterFlushed (S.state stream.old).output.is_flushed
        (S.state stream.new).output.is_flushed put) }
    ensures prompt { (steps : List StreamStep)
        × Records (S.state stream.old).steps (S.state stream.new).steps steps
        × NeverReadsOwing steps }
    ensures references { (S.state stream.new).references ≡ (S.state stream.old).references }
{
    let mut framer = Framer::new(alloc);
    let mut session: Session<Lines> = Session::new(alloc);
    let mut piece = [0u8; MAX_PIECE_LENGTH];
    for _turn in 0..MAX_READS {
        let Ok(count) = stream.read(&mut piece) else {
            return Err(ServeFault::Read);
        };
        if count == 0 {
            return result_at_end_of_input(&framer);
        }
        let next = match answer_piece(alloc, &mut framer, &mut session, &piece[..count], stream) {
            Ok(next) => next,
            Err(fault) => return Err(fault),
        };
        match next {
            Next::Continue => {}
            Next::End(status) => return Ok(status),
        }
    }
    Err(ServeFault::TooManyReads)
}

// Answers the message contents that a piece completes, one after another, and flushes the answers.
// Returns `Continue` if the next piece can be read: then no answer is owed (`prompt`). Returns `End`
// with the exit status if the conversation ends. Returns `BadHead` if no message can begin with the
// bytes after the last content. Returns `Memory` if an allocation fails, and `Write` if a write or a
// flush fails.
fn answer_piece<S: Stream>(
    alloc: Global,
    framer: &mut Framer,
    session: &mut Session<Lines>,
    piece: &[u8],
    stream: &mut S,
) -> Result<Next, ServeFault>
    requires between { (left : List ℕ) × (framer.old ≡ record { waiting = []; rest = Open left }) }
    requires serves { HasNotEnded session.old.phase }
    requires writes { (S.state stream.old).output.has_failed ≡ false }
    ensures prompt { IfContinues result (OwesNothingForPiece framer.old session.old
        (S.state stream.old) piece.now framer.new session.new (S.state stream.new)) }
    ensures answers { AnswersPiece framer.old session.old piece.now result (S.state stream.old)
        (S.state stream.new) }
{
    let Ok(can_continue) = feed_piece(framer, piece) else {
        return Err(ServeFault::Memory);
    };
    let answered = answer_waiting_messages(alloc, framer, session, stream);
    let next = match answered {
        Ok(next) => next,
        Err(fault) => return Err(flush_after_fault(fault, stream)),
    };
    let done = stream.flush();
    match done {
        Ok(()) => {}
        Err(DeviceFault) => return Err(ServeFault::Write),
    }
    match next {
        Next::Continue => {}
        Next::End(status) => return Ok(Next::End(status)),
    }
    if !can_continue {
        return Err(ServeFault::BadHead);
    }
    Ok(Next::Continue)
}

// Flushes everything that was written before a fault, and returns the fault to report: `fault`, or
// `Write` if the flush fails.
fn flush_after_fault<S: Stream>(fault: ServeFault, stream: &mut S) -> ServeFault
    ensures bytes { WritesToStream (S.state stream.old) (S.state stream.new) [] }
    ensures fault { IsFaultAfterFlush fault (S.state stream.old).output.has_failed result
        (S.state stream.new).output.has_failed (S.state stream.new).output.is_flushed }
{
    let flushed = stream.flush();
    match flushed {
        Ok(()) => fault,
        Err(DeviceFault) => ServeFault::Write,
    }
}

// Passes a piece to the framer, which splits the stream into messages. Returns true if the stream
// can continue, and false if the framer has found a bad head. If an allocation fails, returns
// `Memory`.
fn feed_piece(framer: &mut Framer, piece: &[u8]) -> Result<bool, ServeFault>
    ensures taken { OnOk result (PieceAdvancesFramer framer.old piece.now framer.new) }
    ensures can_continue { IfOk result (λ can_continue. can_continue ≡ true
        → framer.new.rest ≢ Broken) }
    ensures broken { IfOk result (λ can_continue. can_continue ≡ false → framer.new.rest ≡ Broken) }
{
    match framer.feed(piece) {
        Ok(()) => Ok(true),
        Err(FrameFault::Memory) => Err(ServeFault::Memory),
        Err(_) => Ok(false),
    }
}

/// Returns the result of `serve` at the end of the input: the status 1 if the input ends between
/// messages, otherwise the fault `Truncated`.
fn result_at_end_of_input(framer: &Framer) -> Result<u8, ServeFault>
    ensures { MatchResult result
        (λ status. (status ≡ 1) × (framer.now.rest ≡ Open []))
        (λ fault. (fault ≡ ServeFault.Truncated) × (framer.now.rest ≢ Open [])) }
{
    match framer.finish() {
        Ok(()) => Ok(1),
        Err(_) => Err(ServeFault::Truncated),
    }
}

// Answers the message contents that wait in the framer, one after another. Returns `Continue` once
// no content waits. If the conversation ends first, returns `End` with the exit status, and the
// remaining contents aren't answered. Returns `Memory` if an allocation fails, and `Write` if a
// write fails.
fn answer_waiting_messages<S: Stream>(
    alloc: Global,
    framer: &mut Framer,
    session: &mut Session<Lines>,
    stream: &mut S,
) -> Result<Next, ServeFault>
    requires serves { HasNotEnded session.old.phase }
    requires writes { (S.state stream.old).output.has_failed ≡ false }
    ensures same { framer.new.rest ≡ framer.old.rest }
    ensures answers { (put : List ℕ)
        × WritesToStream (S.state stream.old) (S.state stream.new) put
        × AnswersWaitingMessages framer.old.waiting session.old framer.new.waiting session.new put result
        (S.state stream.new).output.has_failed }
{
    while let Some(content) = framer.next() {
        let Ok(step) = session.step(content.as_slice()) else {
            return Err(ServeFault::Memory);
        };
        match send_messages(alloc, step.send.as_slice(), stream) {
            Ok(()) => {}
            Err(fault) => return Err(fault),
        }
        match step.next {
            Next::Continue => {}
            Next::End(status) => return Ok(Next::End(status)),
        }
    }
    Ok(Next::Continue)
}

// Writes each message as a frame: a head, followed by the message. All heads are computed before
// the first write, so nothing is written if an allocation fails. The messages aren't copied.
fn send_messages<S: Stream>(
    alloc: Global,
    messages: &[Vec<u8>],
    stream: &mut S,
) -> Result<(), ServeFault>
    requires { (S.state stream.old).output.has_failed ≡ false }
    ensures { SendsFrames (S.state stream.old) (S.state stream.new)
        (map (λ v. v.items) messages.now) result (S.state stream.new).output.has_failed }
{
    let Ok(heads) = heads_of_messages(alloc, messages) else {
        return Err(ServeFault::Memory);
    };
    match write_all_frames(heads.as_slice(), messages, stream) {
        Ok(()) => Ok(()),
        Err(DeviceFault) => Err(ServeFault::Write),
    }
}

// Returns the head for each message, in order.
fn heads_of_messages(alloc: Global, messages: &[Vec<u8>]) -> Result<Vec<Vec<u8>>, AllocError>
    ensures { IfOk result (λ heads. map (λ v. v.items) heads.items
        ≡ map (λ v. written_head (length v.items)) messages.now) }
{
    let mut heads = Vec::new(alloc);
    for message in messages {
        heads.push(head_for_content_length(alloc, message.len())?)?;
    }
    Ok(heads)
}

// Writes the frames of the messages: each head, followed by its message. If the device fails, a
// prefix of these bytes has been written.
fn write_all_frames<S: Stream>(
    heads: &[Vec<u8>],
    messages: &[Vec<u8>],
    stream: &mut S,
) -> Result<(), DeviceFault>
    requires heads { map (λ v. v.items) heads.now
        ≡ map (λ v. written_head (length v.items)) messages.now }
    requires not_failed { (S.state stream.old).output.has_failed ≡ false }
    ensures whole { OnOk result (WritesToStream (S.state stream.old) (S.state stream.new)
        (flat_map frame (map (λ v. v.items) messages.now))
        × ((S.state stream.new).output.has_failed ≡ false)) }
    ensures front { OnErr result (WritesPrefixToStream (S.state stream.old) (S.state stream.new)
        (flat_map frame (map (λ v. v.items) messages.now))
        × ((S.state stream.new).output.has_failed ≡ true)) }
{
    for i in 0..messages.len() {
        write_frame(heads[i].as_slice(), messages[i].as_slice(), stream)?;
    }
    Ok(())
}

// Writes one frame: its head, followed by its content. If the device fails, a prefix of these bytes
// has been written.
fn write_frame<S: Stream>(head: &[u8], content: &[u8], stream: &mut S) -> Result<(), DeviceFault>
    requires not_failed { (S.state stream.old).output.has_failed ≡ false }
    ensures whole { OnOk result (WritesToStream (S.state stream.old) (S.state stream.new)
        (head.now ++ content.now) × ((S.state stream.new).output.has_failed ≡ false)) }
    ensures front { OnErr result (WritesPrefixToStream (S.state stream.old) (S.state stream.new)
        (head.now ++ content.now) × ((S.state stream.new).output.has_failed ≡ true)) }
{
    write_all_bytes(stream, head)?;
    write_all_bytes(stream, content)
}
