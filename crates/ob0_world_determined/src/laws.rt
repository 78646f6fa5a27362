//! Proves that the server's input determines the server's output, and that `serve` writes the
//! frames of the messages that a session sends. A frame is a message's head and content.
ghost use Rattle.ob0_world_determined.specs.DeterminedOutput.{FramingExists, UnfinishedMessageIsBounded, ServeAnswersLikeSession, ServeAnswersPrefixLikeSession, ServeEndsLikeSession, ServeHasAnsweredAtReads, AnswerIsDetermined, ConversationIsDetermined, DiagnosesAreDetermined, OutputIsDetermined, ReplyContentsAreDetermined, ResultIsDetermined, ResolutionIsDetermined};
ghost use Rattle.ob0_world_determined.specs.ServeGuarantees.{ServeGuaranteesHoldForExchange};
ghost use Rattle.std.specs.Prelude.{List};
ghost use Rattle.ob0_text.specs.declared.position_types.Unit.{Unit};
ghost use Rattle.ob0_world_rules.specs.EveryEditor.{ExchangeTurn};
ghost use Rattle.ob0_world.specs.Exchanges.{Exchange, IsInitialExchange, IsExchangeCourse};

use ob0_analysis::laws::reported_refusal_is_unique;
use ob0_frame::laws::{
    empty_feed_completes_nothing, feeding_result_is_unique, written_frames_are_read,
};
use ob0_scan::laws::{reported_faults_are_unique, scan_is_unique};
use ob0_world::laws::guarantees_hold_for_every_exchange;

/// Proves that a module's names are resolved in at most one way: two resolutions of the same module
/// agree at each token. Both bind the token to the same declaration, or both leave it unbound.
pub fn resolution_is_determined()
    ensures { ResolutionIsDetermined }
{}

/// Proves that a text has at most one list of diagnostics.
pub fn diagnoses_are_determined()
    ensures { DiagnosesAreDetermined }
{
    resolution_is_determined();
    scan_is_unique();
    reported_faults_are_unique();
    reported_refusal_is_unique();
}

/// Proves that a reply (`Reply`) determines the contents that the session sends as this reply.
pub fn reply_contents_are_determined()
    ensures { ReplyContentsAreDetermined }
{
    resolution_is_determined();
    diagnoses_are_determined();
}

/// Proves that a session's state and the content that it takes next determine the session's replies
/// and its next state.
pub fn answer_is_determined()
    ensures { AnswerIsDetermined }
{
    reply_contents_are_determined();
}

/// Proves that a session's state and the contents that it takes in a conversation determine the
/// session's replies and its state after the conversation.
pub fn conversation_is_determined()
    ensures { ConversationIsDetermined }
{
    answer_is_determined();
}

/// Proves how the outputs of two calls of `serve` are related if the first call's input is a prefix
/// of the second call's input, and the second call returns neither `Memory` nor `Write`. The first
/// call's output is then a prefix of the second call's output. The outputs are equal if the first
/// call also returns neither `Memory` nor `Write`, and either the inputs are equal, or an `exit` or
/// a bad head ended the first call. So it makes no difference how an input is cut into pieces.
pub fn output_is_determined()
    ensures { OutputIsDetermined }
{
    conversation_is_determined();
    feeding_result_is_unique();
}

/// Proves that two calls of `serve` with the same input return the same result. If an `exit` or a
/// bad head ended the first call, the second call's input may continue after the first call's. The
/// law excludes calls that return `Read`, `TooManyReads`, `Write` or `Memory`.
pub fn result_is_determined()
    ensures { ResultIsDetermined }
{
    conversation_is_determined();
    feeding_result_is_unique();
}

/// Proves that each list of bytes can be split into complete messages and a rest that doesn't begin
/// with a complete message. (It is impossible that there is no split.) So a law about all splits
/// isn't vacuous.
pub fn framing_exists()
    ensures { FramingExists }
{}

/// Proves that an unfinished message has fewer than 4,096 + 16,777,216 bytes, the greatest lengths of
/// a head and a content. These are the bytes of its input that `serve` keeps between two reads.
pub fn unfinished_message_is_bounded()
    ensures { UnfinishedMessageIsBounded }
{}

/// Proves that `serve` answers as the session does. Suppose that the input of `serve` consists of
/// the frames of the contents that a session took. Then the output consists of the frames of the
/// contents that the session sent. The law excludes calls that return `Memory` or `Write`, and
/// contents of more than `max_content_length` bytes.
pub fn serve_answers_like_session()
    ensures { ServeAnswersLikeSession }
{
    conversation_is_determined();
    feeding_result_is_unique();
    empty_feed_completes_nothing();
    written_frames_are_read();
}

/// Proves that `serve` answers as the session does, even if the input continues. Suppose that the
/// input of `serve` begins with the frames of the contents that a session took. Then the output
/// begins with the frames of the contents that the session sent. The law excludes calls that return
/// `Memory` or `Write`, and contents of more than `max_content_length` bytes.
pub fn serve_answers_prefix_like_session()
    ensures { ServeAnswersPrefixLikeSession }
{
    conversation_is_determined();
    feeding_result_is_unique();
    empty_feed_completes_nothing();
    written_frames_are_read();
}

/// Proves that `serve` ends as the session does. Suppose that a session ended after it took some
/// contents. Suppose also that the input of `serve` consists of the frames of these contents,
/// followed by any bytes. Then `serve` writes the frames of the contents that the session sent, and
/// no more, and returns the session's status. The law excludes calls that return `Memory` or
/// `Write`, and contents of more than `max_content_length` bytes.
pub fn serve_ends_like_session()
    ensures { ServeEndsLikeSession }
{
    conversation_is_determined();
    feeding_result_is_unique();
    empty_feed_completes_nothing();
    written_frames_are_read();
}

/// Proves that `serve` has answered as the session does whenever no answer is owed, as at the
/// beginning of each read. Suppose that the bytes given so far begin with the frames of the contents
/// that a session took, each of at most `max_content_length` bytes. Then the bytes written begin
/// with the frames of the contents that the session sent.
pub fn serve_has_answered_at_reads()
    ensures { ServeHasAnsweredAtReads }
{
    conversation_is_determined();
    feeding_result_is_unique();
    empty_feed_completes_nothing();
    written_frames_are_read();
}

/// Proves the guarantees of `serve` for every editor that keeps ob0's rules. Each exchange of the
/// editor with a session has the guarantees of `GuaranteesHoldForExchange`. Suppose that the input
/// of `serve` consists of the frames of the contents that the session took, each of at most
/// `max_content_length` bytes. Then `serve` writes the frames of the contents that the session
/// sent, unless `serve` returns `Memory` or `Write`. If `serve` returns `Memory` after it has
/// answered exactly these contents, it has written the same frames. Whenever a read of the input
/// begins, the frames of all replies to the contents that were read are written and flushed.
pub fn serve_guarantees_hold_for_every_exchange()
    ensures { (unit : Unit) (begin now : Exchange) (turns : List ExchangeTurn)
        → IsInitialExchange unit begin
        → IsExchangeCourse begin turns now
        → ServeGuaranteesHoldForExchange begin now }
{
    guarantees_hold_for_every_exchange();
    serve_answers_like_session();
    serve_answers_prefix_like_session();
    serve_ends_like_session();
    serve_has_answered_at_reads();
    conversation_is_determined();
}
