//! Answers requests for code actions, which inline a constant at one use or everywhere.
//!
//! `inlining_edits` of `ob0_edits` computes the edits. A range may end before its start, so actions
//! apply at its start or its end, whichever has the smaller byte offset (`first_position_in_range`,
//! `first_offset_in_range`). Because offsets are compared, no law about the order of positions is
//! needed. An action's title and edits depend on its `InliningKind` (`OneUse` or `Everywhere`). To
//! add an action, add a variant of `InliningKind` and its title (`inlining_title`, here and in
//! `specs/Actions.antt`).

ghost use Rattle.std.specs.Prelude.{◌≡◌, IfOk, map, string_bytes};
ghost use Rattle.std.specs.List.{list_any};
ghost use Rattle.serde_json.specs.Data.{array, item, no_items};
ghost use Rattle.ob0_rpc.specs.MessageViews.{json_of_id, action_kinds_view};
ghost use Rattle.ob0_rpc.specs.JsonShapes.{result_message};
ghost use Rattle.ob0_rpc.specs.WrittenMessages.{Writes};
ghost use Rattle.ob0_text.specs.Texts.{offset_of};
ghost use Rattle.ob0_text.specs.Units.{width_of};
ghost use Rattle.ob0_session_answers.specs.Actions.{WritesAnswerToActionsRequest, inlining_action_value, actions_request_view, actions_array, requested_kinds_include_inlining as allows, kind_includes_inlining as of_kind, first_offset_in_range as place_in, inlining_title, client_wants_inlining as wants};
ghost use Rattle.ob0_session_json.specs.JsonViews.{code_action_view};

use ob0_analysis::Analysis;
use ob0_edits::{InliningEdits, InliningKind, inlining_edits};
use ob0_rpc::{ClientFeatures, Id, success_response_text};
use ob0_session_documents::DocumentRequest;
use ob0_session_json::edits::{CodeAction, WorkspaceEdit};
use ob0_text::{Edit, Position, Range, TextStore};
use std::alloc::{AllocError, Global};

/// Returns the position at which actions apply: the start or the end of the range, whichever has
/// the smaller byte offset.
fn first_position_in_range<T: TextStore>(store: &T, range: Range) -> Position
    ensures { offset_of (width_of (T.unit_of store.now)) (T.content store.now) result
        ≡ place_in (T.unit_of store.now) (T.content store.now) range }
{
    if store.offset(range.start) <= store.offset(range.end) {
        range.start
    } else {
        range.end
    }
}

/// A request for the code actions in a range of a document.
#[derive(Drop)]
pub struct ActionsRequest<'a> {
    pub id: &'a Id,
    pub client: ClientFeatures,
    pub uri: &'a str,
    pub range: Range,
    /// The requested kinds of actions, or None if all kinds are requested.
    pub only: &'a Option<Vec<String>>,
}

impl<'a, T: TextStore> DocumentRequest<T> for ActionsRequest<'a> {
    ghost answers = { λ r version unit text content.
        WritesAnswerToActionsRequest unit (actions_request_view r version) text content };

    fn answer(
        &self,
        alloc: Global,
        version: i64,
        text: &T,
        analysis: &Analysis,
    ) -> Result<Vec<u8>, AllocError> {
        if !self.wants_inlining() {
            return answer_without_actions(alloc, self.id);
        }
        let place = first_position_in_range(text, self.range);
        match inlining_edits(alloc, text, analysis, place)? {
            Some(found) => self.answer_with_actions(alloc, version, &found),
            None => answer_without_actions(alloc, self.id),
        }
    }
}

impl<'a> ActionsRequest<'a> {
    /// Returns whether the client accepts literal code actions (which contain their edits) and the
    /// requested kinds include inlining. If `only` is None, all kinds are requested.
    fn wants_inlining(&self) -> bool
        ensures { result ≡ wants self.now.client (action_kinds_view self.now.only.now) }
    {
        self.client.accepts_literal_actions && requested_kinds_include_inlining(self.only)
    }

    /// Returns the answer that lists the offered actions: first to inline a constant at this use,
    /// then to inline it everywhere. `found` has the edits of both actions. The edits of an action
    /// that isn't offered are None.
    fn answer_with_actions(
        &self,
        alloc: Global,
        version: i64,
        found: &InliningEdits,
    ) -> Result<Vec<u8>, AllocError>
        ensures { IfOk result (λ bytes. Writes (result_message (json_of_id self.now.id.now)
            (actions_array (actions_request_view self.now version)
            found.now.here found.now.everywhere)) bytes.items) }
    {
        match (&found.here, &found.everywhere) {
            (Some(here), Some(everywhere)) => {
                let actions = [
                    self.inlining_action(version, InliningKind::OneUse, here.as_slice()),
                    self.inlining_action(version, InliningKind::Everywhere, everywhere.as_slice()),
                ];
                success_response_text(alloc, self.id, &actions.as_slice())
            }
            (Some(here), None) => self.answer_with_one_action(
                alloc,
                version,
                InliningKind::OneUse,
                here.as_slice(),
            ),
            (None, Some(everywhere)) => self.answer_with_one_action(
                alloc,
                version,
                InliningKind::Everywhere,
                everywhere.as_slice(),
            ),
            (None, None) => answer_without_actions(alloc, self.id),
        }
    }

    /// Returns the answer that lists one action, which applies these edits.
    fn answer_with_one_action(
        &self,
        alloc: Global,
        version: i64,
        how: InliningKind,
        edits: &[Edit],
    ) -> Result<Vec<u8>, AllocError>
        ensures { IfOk result (λ bytes. Writes (result_message (json_of_id self.now.id.now)
            (array (item (inlining_action_value (actions_request_view self.now version) how edits.now) no_items)))
            bytes.items) }
    {
        let actions = [self.inlining_action(version, how, edits)];
        success_response_text(alloc, self.id, &actions.as_slice())
    }

    /// Returns the code action that applies these edits to this version of the document. The
    /// action's title depends on `how`.
    fn inlining_action<'b>(
        &'b self,
        version: i64,
        how: InliningKind,
        edits: &'b [Edit],
    ) -> CodeAction<'b>
        ensures { code_action_view result ≡ inlining_action_value
            (actions_request_view self.now version) how edits.now }
    {
        let edit = WorkspaceEdit {
            client: self.client,
            uri: self.uri,
            version,
            edits,
        };
        let title = inlining_title(how);
        CodeAction { edit, title }
    }
}

/// Returns the answer with an empty list of actions.
fn answer_without_actions(alloc: Global, id: &Id) -> Result<Vec<u8>, AllocError>
    ensures { IfOk result
        (λ bytes. Writes (result_message (json_of_id id.now) (array no_items)) bytes.items) }
{
    let none: [CodeAction<'_>; 0] = [];
    success_response_text(alloc, id, &none.as_slice())
}

/// Returns whether the requested kinds of actions include inlining. If `only` is None, all kinds
/// are requested.
fn requested_kinds_include_inlining(only: &Option<Vec<String>>) -> bool
    ensures { result ≡ allows (action_kinds_view only.now) }
{
    match only {
        Some(kinds) => any_kind_includes_inlining(kinds.as_slice()),
        None => true,
    }
}

/// Returns whether at least one of these kinds of actions includes inlining.
fn any_kind_includes_inlining(kinds: &[String]) -> bool
    ensures { result ≡ list_any of_kind (map string_bytes kinds.now) }
{
    for kind in kinds {
        if kind_includes_inlining(kind.as_str()) {
            return true;
        }
    }
    false
}

/// Returns whether this kind of code actions includes inlining: `refactor.inline`, `refactor` or
/// the empty text.
fn kind_includes_inlining(kind: &str) -> bool
    ensures { result ≡ of_kind kind.now }
{
    kind == "" || kind == "refactor" || kind == "refactor.inline"
}

/// Returns the title of the action that inlines a constant at one use (`OneUse`) or at every use
/// (`Everywhere`).
fn inlining_title(how: InliningKind) -> &'static str
    ensures { result.now ≡ inlining_title how }
{
    match how {
        InliningKind::OneUse => "Inline here",
        InliningKind::Everywhere => "Inline everywhere",
    }
}
