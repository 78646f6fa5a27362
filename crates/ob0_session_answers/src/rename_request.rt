//! Answers requests for renaming.

ghost use Rattle.std.specs.Prelude.{IfOk};
ghost use Rattle.ob0_rpc.specs.MessageViews.{json_of_id};
ghost use Rattle.ob0_rpc.specs.JsonShapes.{result_message};
ghost use Rattle.ob0_rpc.specs.WrittenMessages.{Writes};
ghost use Rattle.ob0_session_answers.specs.RenamingAnswers.{WritesAnswerToRenameRequest, rename_request_view, edits_for_client};

use ob0_analysis::Analysis;
use ob0_edits::renaming_edits;
use ob0_rpc::{ClientFeatures, DocumentPosition, Id, success_response_text};
use ob0_session_documents::DocumentRequest;
use ob0_session_json::edits::WorkspaceEdit;
use ob0_session_json::refusals::{refusal_message_for_ill_typed_text, refusal_message_for_reason};
use ob0_text::{Edit, TextStore};
use std::alloc::{AllocError, Global};

/// A request to rename the name or field at a position of a document.
#[derive(Drop)]
pub struct RenameRequest<'a> {
    pub id: &'a Id,
    pub client: ClientFeatures,
    pub place: &'a DocumentPosition,
    pub new: &'a str,
}

impl<'a, T: TextStore> DocumentRequest<T> for RenameRequest<'a> {
    ghost answers = { λ r version unit text content.
        WritesAnswerToRenameRequest unit (rename_request_view r version) text content };

    fn answer(
        &self,
        alloc: Global,
        version: i64,
        text: &T,
        analysis: &Analysis,
    ) -> Result<Vec<u8>, AllocError> {
        match renaming_edits(alloc, text, analysis, self.place.position, self.new)? {
            Some(outcome) => match outcome {
                Ok(edits) => self.answer_with_edits(alloc, version, edits.as_slice()),
                Err(refusal) => refusal_message_for_reason(alloc, self.id, refusal),
            },
            None => refusal_message_for_ill_typed_text(alloc, self.id),
        }
    }
}

impl<'a> RenameRequest<'a> {
    /// Returns the answer to the request, with these edits in the form that the client accepts.
    fn answer_with_edits(
        &self,
        alloc: Global,
        version: i64,
        edits: &[Edit],
    ) -> Result<Vec<u8>, AllocError>
        ensures { IfOk result (λ bytes. Writes (result_message (json_of_id self.now.id.now)
            (edits_for_client (rename_request_view self.now version) edits.now)) bytes.items) }
    {
        let edits = WorkspaceEdit {
            client: self.client,
            uri: self.place.uri.as_str(),
            version,
            edits,
        };
        success_response_text(alloc, self.id, &edits)
    }
}
