//! Answers requests about the name or field at a position: hover, definition, references and
//! prepareRename.
//!
//! Each request is a type that computes its answer from a document (`DocumentRequest`). To do this,
//! it asks the document's analysis a question. Each question is a type that implements `Question`,
//! and is answered only if the text is a well-typed module.

ghost use Rattle.std.specs.Prelude.{◌≡◌, IfOk, option_map, map};
ghost use Rattle.serde_json.specs.Data.{array};
ghost use Rattle.serde_json.specs.View.{items_of};
ghost use Rattle.ob0_rpc.specs.MessageViews.{document_place_view, json_of_id};
ghost use Rattle.ob0_rpc.specs.JsonShapes.{result_message};
ghost use Rattle.ob0_rpc.specs.WrittenMessages.{Writes};
ghost use Rattle.ob0_refs.specs.AnswerViews.{hover_view};
ghost use Rattle.ob0_refs.specs.Questions.{AreReferencesAtOffset, hover_at_offset, definition_at_offset, renamable_span_at_offset};
ghost use Rattle.ob0_session_answers.specs.Questions.{WritesAnswerToQuestion, definition_question, hover_question, hover_value_with_range, location_value_of_span, range_value_of_span, references_question, prepare_rename_question, value_or_null};

use ob0_analysis::{Analysis, Question, WellTyped, ask};
use ob0_edits_tokens::{range_of, ranges_of_spans};
use ob0_refs::{definition, hover, references, renamable_span};
use ob0_rpc::{DocumentPosition, Id, success_response_text};
use ob0_scan::Span;
use ob0_session_documents::DocumentRequest;
use ob0_session_json::locations_and_hovers::{HoverResult, Location, LocationList, MarkupContent};
use ob0_text::TextStore;
use std::alloc::{AllocError, Global};

/// The question for the hover text of the name or field at a byte offset. The answer is None if
/// there is no hover text.
#[derive(Drop)]
struct HoverQuestion {
    offset: usize,
}

impl Question for HoverQuestion {
    type Answer = Option<ob0_refs::Hover>;

    ghost answers = { λ q names found. option_map hover_view found ≡ hover_at_offset names q.offset };

    fn answer(
        &self,
        alloc: Global,
        module: &WellTyped<'_>,
    ) -> Result<Option<ob0_refs::Hover>, AllocError> {
        hover(alloc, module, self.offset)
    }
}

/// The question for the declaration of the name or field at a byte offset. The answer is the
/// declaration's span, or None if there is no declaration.
#[derive(Drop)]
struct DefinitionQuestion {
    offset: usize,
}

impl Question for DefinitionQuestion {
    type Answer = Option<Span>;

    ghost answers = { λ q names found. found ≡ definition_at_offset names q.offset };

    fn answer(&self, _alloc: Global, module: &WellTyped<'_>) -> Result<Option<Span>, AllocError> {
        Ok(definition(module, self.offset))
    }
}

/// The question for the spans of all references to the name or field at a byte offset. The answer
/// is an empty list if there is no name or field at the offset. The declaration is included if
/// `include_declaration` is true.
#[derive(Drop)]
struct ReferencesQuestion {
    offset: usize,
    include_declaration: bool,
}

impl Question for ReferencesQuestion {
    type Answer = Vec<Span>;

    ghost answers = { λ q names found.
        AreReferencesAtOffset names q.offset q.include_declaration found.items };

    fn answer(&self, alloc: Global, module: &WellTyped<'_>) -> Result<Vec<Span>, AllocError> {
        references(alloc, module, self.offset, self.include_declaration)
    }
}

/// The question for the span of the name or field at a byte offset. The answer is None if there is
/// no name or field, or if the name is predeclared and so can't be renamed.
#[derive(Drop)]
struct RenamableSpanQuestion {
    offset: usize,
}

impl Question for RenamableSpanQuestion {
    type Answer = Option<Span>;

    ghost answers = { λ q names found. found ≡ renamable_span_at_offset names q.offset };

    fn answer(&self, _alloc: Global, module: &WellTyped<'_>) -> Result<Option<Span>, AllocError> {
        Ok(renamable_span(module, self.offset))
    }
}

/// A request for the hover text at a position of a document.
#[derive(Drop)]
pub struct HoverRequest<'a> {
    pub id: &'a Id,
    pub place: &'a DocumentPosition,
}

impl<'a, T: TextStore> DocumentRequest<T> for HoverRequest<'a> {
    ghost answers = { λ r _ unit text content.
        WritesAnswerToQuestion unit (json_of_id r.id.now) (document_place_view r.place.now) hover_question text content };

    fn answer(
        &self,
        alloc: Global,
        _version: i64,
        text: &T,
        analysis: &Analysis,
    ) -> Result<Vec<u8>, AllocError> {
        let offset = text.offset(self.place.position);
        match ask(alloc, analysis, &HoverQuestion { offset })? {
            Some(found) => hover_answer(alloc, self.id, text, found),
            None => success_response_text(alloc, self.id, &()),
        }
    }
}

/// A request for the declaration of the name or field at a position of a document.
#[derive(Drop)]
pub struct DefinitionRequest<'a> {
    pub id: &'a Id,
    pub place: &'a DocumentPosition,
}

impl<'a, T: TextStore> DocumentRequest<T> for DefinitionRequest<'a> {
    ghost answers = { λ r _ unit text content.
        WritesAnswerToQuestion unit (json_of_id r.id.now) (document_place_view r.place.now)
        definition_question text content };

    fn answer(
        &self,
        alloc: Global,
        _version: i64,
        text: &T,
        analysis: &Analysis,
    ) -> Result<Vec<u8>, AllocError> {
        let offset = text.offset(self.place.position);
        match ask(alloc, analysis, &DefinitionQuestion { offset })? {
            Some(found) => definition_answer(alloc, self.id, text, self.place.uri.as_str(), found),
            None => success_response_text(alloc, self.id, &()),
        }
    }
}

/// A request for all references to the name or field at a position of a document.
#[derive(Drop)]
pub struct ReferencesRequest<'a> {
    pub id: &'a Id,
    pub place: &'a DocumentPosition,
    pub include_declaration: bool,
}

impl<'a, T: TextStore> DocumentRequest<T> for ReferencesRequest<'a> {
    ghost answers = { λ r _ unit text content.
        WritesAnswerToQuestion unit (json_of_id r.id.now) (document_place_view r.place.now)
        (references_question r.include_declaration) text content };

    fn answer(
        &self,
        alloc: Global,
        _version: i64,
        text: &T,
        analysis: &Analysis,
    ) -> Result<Vec<u8>, AllocError> {
        let uri = self.place.uri.as_str();
        let question = ReferencesQuestion {
            offset: text.offset(self.place.position),
            include_declaration: self.include_declaration,
        };
        match ask(alloc, analysis, &question)? {
            Some(found) => references_answer(alloc, self.id, text, uri, found.as_slice()),
            None => references_answer(alloc, self.id, text, uri, &[]),
        }
    }
}

/// A request for the range of the name or field at a position of a document. The answer is null if
/// the text isn't a well-typed module, if there is no name or field, or if the name is predeclared
/// and so can't be renamed.
#[derive(Drop)]
pub struct PrepareRenameRequest<'a> {
    pub id: &'a Id,
    pub place: &'a DocumentPosition,
}

impl<'a, T: TextStore> DocumentRequest<T> for PrepareRenameRequest<'a> {
    ghost answers = { λ r _ unit text content.
        WritesAnswerToQuestion unit (json_of_id r.id.now) (document_place_view r.place.now)
        prepare_rename_question text content };

    fn answer(
        &self,
        alloc: Global,
        _version: i64,
        text: &T,
        analysis: &Analysis,
    ) -> Result<Vec<u8>, AllocError> {
        let offset = text.offset(self.place.position);
        match ask(alloc, analysis, &RenamableSpanQuestion { offset })? {
            Some(found) => prepare_rename_answer(alloc, self.id, text, found),
            None => success_response_text(alloc, self.id, &()),
        }
    }
}

/// Returns the answer to a hover request: the hover text with its range, or null if there is no
/// hover text (`found` is None).
fn hover_answer<T: TextStore>(
    alloc: Global,
    id: &Id,
    store: &T,
    found: Option<ob0_refs::Hover>,
) -> Result<Vec<u8>, AllocError>
    ensures { IfOk result (λ bytes. Writes (result_message (json_of_id id.now)
        (value_or_null (option_map (hover_value_with_range (T.unit_of store.now) (T.content store.now))
        (option_map hover_view found)))) bytes.items) }
{
    match found {
        Some(shown) => {
            let contents = MarkupContent {
                value: shown.text.as_str(),
            };
            let range = range_of(store, shown.span);
            success_response_text(alloc, id, &HoverResult { contents, range })
        }
        None => success_response_text(alloc, id, &()),
    }
}

/// Returns the answer to a definition request: the location of the span, or null if there is no
/// span (`found` is None).
fn definition_answer<T: TextStore>(
    alloc: Global,
    id: &Id,
    store: &T,
    uri: &str,
    found: Option<Span>,
) -> Result<Vec<u8>, AllocError>
    ensures { IfOk result (λ bytes. Writes (result_message (json_of_id id.now)
        (value_or_null
        (option_map (location_value_of_span (T.unit_of store.now) uri.now (T.content store.now)) found)))
        bytes.items) }
{
    match found {
        Some(span) => {
            let range = range_of(store, span);
            success_response_text(alloc, id, &Location { range, uri })
        }
        None => success_response_text(alloc, id, &()),
    }
}

/// Returns the answer to a `prepareRename` request: the range of the span, or null if there is no
/// span (`found` is None).
fn prepare_rename_answer<T: TextStore>(
    alloc: Global,
    id: &Id,
    store: &T,
    found: Option<Span>,
) -> Result<Vec<u8>, AllocError>
    ensures { IfOk result (λ bytes. Writes (result_message (json_of_id id.now)
        (value_or_null (option_map (range_value_of_span (T.unit_of store.now) (T.content store.now)) found)))
        bytes.items) }
{
    match found {
        Some(span) => success_response_text(alloc, id, &range_of(store, span)),
        None => success_response_text(alloc, id, &()),
    }
}

/// Returns the answer to a references request: the locations of these spans in the document with
/// this uri. If the spans are in text order, their positions are found in one pass over the text.
fn references_answer<T: TextStore>(
    alloc: Global,
    id: &Id,
    store: &T,
    uri: &str,
    spans: &[Span],
) -> Result<Vec<u8>, AllocError>
    ensures { IfOk result (λ bytes. Writes (result_message (json_of_id id.now)
        (array (items_of
        (map (location_value_of_span (T.unit_of store.now) uri.now (T.content store.now)) spans.now))))
        bytes.items) }
{
    let ranges = ranges_of_spans(alloc, store, spans)?;
    let ranges = ranges.as_slice();
    success_response_text(alloc, id, &LocationList { ranges, uri })
}
