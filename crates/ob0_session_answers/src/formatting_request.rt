//! Answers requests for formatting.
ghost use Rattle.ob0_rpc.specs.MessageViews.{json_of_id};
ghost use Rattle.ob0_session_answers.specs.FormattingAnswers.{WritesAnswerToFormattingRequest};

use ob0_analysis::Analysis;
use ob0_edits::formatting_edits;
use ob0_rpc::{Id, success_response_text};
use ob0_session_documents::DocumentRequest;
use ob0_session_json::refusals::{refusal_message_for_ill_typed_text, refusal_message_for_reason};
use ob0_text::{Indent, TextStore};
use std::alloc::{AllocError, Global};

/// A request for the edits that format a document.
#[derive(Drop)]
pub struct FormattingRequest<'a> {
    pub id: &'a Id,
    pub indent: Indent,
}

impl<'a, T: TextStore> DocumentRequest<T> for FormattingRequest<'a> {
    ghost answers = { λ r _ unit text content.
        WritesAnswerToFormattingRequest unit (json_of_id r.id.now) r.indent text content };

    fn answer(
        &self,
        alloc: Global,
        _version: i64,
        text: &T,
        analysis: &Analysis,
    ) -> Result<Vec<u8>, AllocError> {
        match formatting_edits(alloc, text, analysis, self.indent)? {
            Some(outcome) => match outcome {
                Ok(edits) => success_response_text(alloc, self.id, &edits.as_slice()),
                Err(refusal) => refusal_message_for_reason(alloc, self.id, refusal),
            },
            None => refusal_message_for_ill_typed_text(alloc, self.id),
        }
    }
}
