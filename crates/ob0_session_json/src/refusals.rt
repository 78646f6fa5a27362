//! Writes the error responses that refuse requests for edits.
ghost use Rattle.std.specs.Prelude.{IfOk, codes};
ghost use Rattle.ob0_rpc.specs.MessageViews.{json_of_id};
ghost use Rattle.ob0_rpc.specs.WrittenMessages.{Writes};
ghost use Rattle.ob0_session_json.specs.JsonShapes.{edit_refusal_message};
ghost use Rattle.ob0_text.specs.RefusalTexts.{refusal_text};

use ob0_rpc::{Id, error};
use ob0_text::EditRefusal;
use std::alloc::{AllocError, Global};

/// Returns the error response that refuses a request for edits. `said` is the text of the error.
pub fn refusal_message(alloc: Global, id: &Id, said: &str) -> Result<Vec<u8>, AllocError>
    ensures { IfOk result (λ bytes. Writes (edit_refusal_message (json_of_id id.now) said.now)
        bytes.items) }
{
    error(alloc, Some(id), -32803, said)
}

/// Returns the error response that refuses a request for edits because of `refusal`. The text of
/// the error is the text of `refusal`.
pub fn refusal_message_for_reason(
    alloc: Global,
    id: &Id,
    refusal: EditRefusal,
) -> Result<Vec<u8>, AllocError>
    ensures { IfOk result
        (λ bytes. Writes (edit_refusal_message (json_of_id id.now) (refusal_text refusal)) bytes.items) }
{
    let text = refusal.text(alloc)?;
    refusal_message(alloc, id, text.as_str())
}

/// Returns the error response that refuses a request for edits, because the document's text isn't a
/// well-typed module.
pub fn refusal_message_for_ill_typed_text(alloc: Global, id: &Id) -> Result<Vec<u8>, AllocError>
    ensures { IfOk result
        (λ bytes. Writes (edit_refusal_message (json_of_id id.now) (codes "ill-typed")) bytes.items) }
{
    refusal_message(alloc, id, "ill-typed")
}
