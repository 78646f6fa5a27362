//! Models an editor that talks to a server: its documents, its requests for edits, and its unused
//! answers.
//!
//! If a call other than `apply_answer` returns an error, the editor is unchanged. To ensure this, a
//! call first makes all contents and copies. The last step that can fail is an insertion into the
//! map of documents or into a list. Other fields are changed only after that step. `apply_answer`
//! removes the answer first, so if it returns an error, the editor has lost the answer.
//!
//! A document's text is stored as a `String`. A text store exists only while changes or edits are
//! applied. So the editor needs no invariant about the units of text stores.
ghost use Rattle.std.specs.Prelude.{◌≡◌, IfOk, OnOk, OnErr, map, option_map, is_some, ◌<◌, ◌-◌, ◌^◌, pos, string_bytes};
ghost use Rattle.std.specs.Str.{chars};
ghost use Rattle.ob0_text.specs.OpenDocuments.{text_change_of};
ghost use Rattle.ob0_world_rules.specs.ClientAndServer.{answers, new_editor};
ghost use Rattle.ob0_world_rules.specs.EditorActs as acts;
ghost use Rattle.ob0_world_rules.specs.EditorActs.{change_document, close_document, request_edits, apply, result_of_applying_answer, act_result, edits_of_answer_to_request, editor_after_message, editor_without_answer};
ghost use Rattle.ob0_world_editor.specs.ModelValues.{model_ask_of, model_message_of, model_sent_ask_of};
ghost use Rattle.ob0_world_editor.specs.StoredDocuments.{model_document_of};
ghost use Rattle.ob0_world_rules.specs.TextEdits.{text_after_edits, replacements_of_edits};
ghost use Rattle.ob0_world_editor.specs.EditorCalls.{CountsCanGrow, PerformsAct, IsApplyOutcome, has_edits, result_of_changing_text_if_edited, RewritesDocumentUnlessBothNone, IsRewriteOutcome, StoresNewText, IsIndexOfAnswer};
ghost use Rattle.ob0_world_editor.specs.MessagesToEditor.{message_to_editor_in_content};

use crate::applied_edits::{Applied, ApplyOutcome, applied_edit};
use crate::asks::{Ask, copy_of_ask};
use crate::documents::{OpenDocument, OpenDocuments};
use crate::edited_texts::{apply_changes, apply_edits};
use crate::message_reader::{ServerMessage, read_message, sent_ask_with_number};
use crate::message_writer::{
    did_change_notification, did_close_notification, did_open_notification, request_for_edits,
    whole_text_notification,
};
use ob0_text::{Change, Edit, Unit, Whole};
use std::alloc::{AllocError, Global};
use std::marker::Model;

/// A request for edits that was sent, with its document's uri. The text, the opening number
/// (`OpenDocument.opening`) and the version are the document's at the time of sending.
#[derive(Drop)]
pub struct SentAsk {
    pub ask: Ask,
    pub uri: String,
    pub text: String,
    pub opening: u64,
    pub version: u64,
}

/// An answer that the editor has received and not used yet, with the number of its request.
#[derive(Drop)]
pub struct ReceivedAnswer {
    pub number: u64,
    pub edits: Vec<Edit>,
}

/// The result of making an answer's edits in a document. It has the applied edit (`applied.after`
/// is the new text), the document's next version, and its opening number.
#[derive(Drop)]
struct RewrittenDocument {
    applied: Applied,
    version: u64,
    opening: u64,
}

/// An editor: its open documents, the requests for edits that it has sent, and the answers that it
/// has not used yet. It counts positions in `unit`. `openings` is the number of times that it has
/// opened a document.
#[derive(Drop)]
pub struct Editor {
    alloc: Global,
    unit: Unit,
    documents: OpenDocuments,
    openings: u64,
    requested: Vec<SentAsk>,
    answers: Vec<ReceivedAnswer>,
}

impl Model for Editor {
    ghost use Rattle.std.specs.Prelude.{map};
    ghost use Rattle.std.specs.Coded.{codes};
    ghost use Rattle.ob0_world_rules.specs.ClientAndServer.{Editor};
    ghost use Rattle.ob0_world_editor.specs.ModelValues.{model_sent_ask_of, model_answer_of};
    ghost use Rattle.ob0_world_editor.specs.StoredDocuments.{coded_editor_documents};

    ghost Value = { Editor };

    ghost coded = { Prim.hlevel (codes, coded_editor_documents) };

    ghost view = { λ e. record {
      unit = e.unit;
      documents = e.documents;
      openings = e.openings;
      requested = map model_sent_ask_of e.requested.items;
      answers = map model_answer_of e.answers.items;
    } };
}

impl Editor {
    /// Returns an editor without documents that counts positions in this unit.
    pub fn new(alloc: Global, unit: Unit) -> Editor
        ensures { result ≡ new_editor unit }
    {
        Editor {
            alloc,
            unit,
            documents: OpenDocuments::new(alloc),
            openings: 0,
            requested: Vec::new(alloc),
            answers: Vec::new(alloc),
        }
    }

    /// Opens a document, and returns the content of the notification for the server. Returns None
    /// if the document is open already. If an allocation fails, the editor is unchanged.
    pub fn open(&mut self, uri: &str, text: &str) -> Result<Option<Vec<u8>>, AllocError>
        requires { CountsCanGrow self.old }
        ensures ok { IfOk result (λ content. PerformsAct
            (act_result self.old (acts.open_document uri.now (chars text.now))) content self.new) }
        ensures err { OnErr result (self.new ≡ self.old) }
    {
        if self.documents.get(uri).is_some() {
            return Ok(None);
        }
        let opening = self.openings + 1;
        let content = did_open_notification(self.alloc, uri, 1, text)?;
        let document = OpenDocument::with_text(self.alloc, 1, text, opening)?;
        self.documents.open_or_replace(self.alloc, uri, document)?;
        self.openings = opening;
        Ok(Some(content))
    }

    /// Changes a document, and returns the content of the notification for the server. Returns None
    /// if the document isn't open. If an allocation fails, the editor is unchanged.
    pub fn change(&mut self, uri: &str, changes: &[Change]) -> Result<Option<Vec<u8>>, AllocError>
        requires { CountsCanGrow self.old }
        ensures ok { IfOk result (λ content. PerformsAct
            (act_result self.old (change_document uri.now (map text_change_of changes.now))) content
            self.new) }
        ensures err { OnErr result (self.new ≡ self.old) }
    {
        let Some(open) = self.documents.get(uri) else {
            return Ok(None);
        };
        let version = open.version + 1;
        let opening = open.opening;
        let text = apply_changes::<Whole>(self.alloc, self.unit, open.text.as_str(), changes)?;
        let content = did_change_notification(self.alloc, uri, version, changes)?;
        let document = OpenDocument {
            version,
            text,
            opening,
        };
        self.documents.open_or_replace(self.alloc, uri, document)?;
        Ok(Some(content))
    }

    /// Closes a document, and returns the content of the notification for the server. Returns None
    /// if the document isn't open. If an allocation fails, the editor is unchanged.
    pub fn close(&mut self, uri: &str) -> Result<Option<Vec<u8>>, AllocError>
        ensures ok { IfOk result
            (λ content. PerformsAct (act_result self.old (close_document uri.now)) content self.new) }
        ensures err { OnErr result (self.new ≡ self.old) }
    {
        if self.documents.get(uri).is_none() {
            return Ok(None);
        }
        let content = did_close_notification(self.alloc, uri)?;
        self.documents.close(uri);
        Ok(Some(content))
    }

    /// Requests edits of a document, and returns the content of the request for the server. Returns
    /// None if the document isn't open. If an allocation fails, the editor is unchanged.
    pub fn ask(&mut self, uri: &str, ask: &Ask) -> Result<Option<Vec<u8>>, AllocError>
        requires { CountsCanGrow self.old }
        ensures ok { IfOk result (λ content. PerformsAct
            (act_result self.old (request_edits uri.now (model_ask_of ask.now))) content self.new) }
        ensures err { OnErr result (self.new ≡ self.old) }
    {
        let Some(open) = self.documents.get(uri) else {
            return Ok(None);
        };
        let number = self.requested.len() as u64 + 1;
        let content = request_for_edits(self.alloc, number, uri, ask)?;
        let sent = sent_ask_for_document(self.alloc, ask, uri, open)?;
        self.requested.push(sent)?;
        Ok(Some(content))
    }

    /// Reads the message in a content that the server has sent. Returns None if the content is
    /// neither a publication nor an answer to one of the editor's requests for edits.
    pub fn read(&self, content: &[u8]) -> Result<Option<ServerMessage>, AllocError>
        ensures { IfOk result
            (λ found. option_map model_message_of found ≡ message_to_editor_in_content self.now.requested content.now) }
    {
        read_message(self.alloc, self.requested.as_slice(), content)
    }

    /// Stores the answer to the request with this number if the answer has edits. Returns whether
    /// the answer has edits. If an allocation fails, the editor is unchanged.
    pub fn keep_answer(&mut self, number: u64, edits: Vec<Edit>) -> Result<bool, AllocError>
        ensures kept { OnOk result
            (self.new ≡ editor_after_message self.old (answers number (replacements_of_edits edits.items))) }
        ensures some { IfOk result (λ kept. kept ≡ has_edits (replacements_of_edits edits.items)) }
        ensures err { OnErr result (self.new ≡ self.old) }
    {
        if edits.is_empty() {
            return Ok(false);
        }
        self.answers.push(ReceivedAnswer { number, edits })?;
        Ok(true)
    }

    /// Makes the edits of the answer to request `k`, and returns the outcome. No edit is made if
    /// the editor doesn't have the answer, if the document has been changed, closed or reopened
    /// since the request, or if two edits share a character. The answer is always removed, even if
    /// an allocation fails.
    pub fn apply_answer(&mut self, k: u64) -> Result<ApplyOutcome, AllocError>
        requires { CountsCanGrow self.old }
        ensures ok { IfOk result (λ applying. IsApplyOutcome (act_result self.old (apply k))
            (is_some (edits_of_answer_to_request k self.old.answers)) applying self.new) }
        ensures err { OnErr result (self.new ≡ editor_without_answer self.old k) }
    {
        let Some(edits) = self.take_answer(k) else {
            return Ok(ApplyOutcome::NoSuchAnswer);
        };
        let rewritten = self.asked_document_with_edits(k, edits.as_slice());
        drop(edits);
        match rewritten? {
            Some(rewritten) => self.store_rewritten_document(rewritten),
            None => Ok(ApplyOutcome::Dropped),
        }
    }

    /// Discards the answer to request `k`, and returns whether the editor had this answer.
    pub fn discard_answer(&mut self, k: u64) -> bool
        ensures held { result ≡ is_some (edits_of_answer_to_request k self.old.answers) }
        ensures after { self.new ≡ editor_without_answer self.old k }
    {
        self.take_answer(k).is_some()
    }

    fn take_answer(&mut self, k: u64) -> Option<Vec<Edit>>
        ensures edits { option_map (λ v. replacements_of_edits v.items) result
            ≡ edits_of_answer_to_request k self.old.answers }
        ensures after { self.new ≡ editor_without_answer self.old k }
    {
        let place = index_of_answer(self.answers.as_slice(), k)?;
        let answer = self.answers.remove(place);
        Some(answer.edits)
    }

    /// Returns the document of request `k` with these edits made. Returns None if there is no such
    /// request, or if its document isn't open. Also returns None if the document's opening number
    /// or version has changed since the request, or if two edits share a character.
    fn asked_document_with_edits(
        &self,
        k: u64,
        edits: &[Edit],
    ) -> Result<Option<RewrittenDocument>, AllocError>
        requires { CountsCanGrow self.now }
        ensures { IfOk result (λ rewritten.
            RewritesDocumentUnlessBothNone self.now (result_of_applying_answer self.now k (replacements_of_edits edits.now)) rewritten) }
    {
        let Some(requested) = sent_ask_with_number(self.requested.as_slice(), k) else {
            return Ok(None);
        };
        let Some(document) = self.documents.get(requested.uri.as_str()) else {
            return Ok(None);
        };
        if document.opening != requested.opening || document.version != requested.version {
            return Ok(None);
        }
        self.document_with_edits(requested.uri.as_str(), document, edits)
    }

    /// Returns this document with these edits made, or None if two edits share a character.
    fn document_with_edits(
        &self,
        uri: &str,
        document: &OpenDocument,
        edits: &[Edit],
    ) -> Result<Option<RewrittenDocument>, AllocError>
        requires { document.now.version < 2 ^ 63 - 1 }
        ensures { IfOk result (λ rewritten. RewritesDocumentUnlessBothNone self.now
            (result_of_changing_text_if_edited self.now uri.now (model_document_of document.now)
            (text_after_edits self.now.unit (chars (string_bytes document.now.text))
            (replacements_of_edits edits.now)))
            rewritten) }
    {
        let before = document.text.as_str();
        let Some(after) = apply_edits::<Whole>(self.alloc, self.unit, before, edits)? else {
            return Ok(None);
        };
        let applied = applied_edit(self.alloc, uri, before, after)?;
        Ok(Some(RewrittenDocument {
            applied,
            version: document.version + 1,
            opening: document.opening,
        }))
    }

    /// Gives the document of `rewritten` its new text. Returns the applied edit, and the content of
    /// the notification that gives the server this text. If an allocation fails, the editor is
    /// unchanged.
    fn store_rewritten_document(
        &mut self,
        rewritten: RewrittenDocument,
    ) -> Result<ApplyOutcome, AllocError>
        requires { rewritten.version < 2 ^ 63 }
        ensures ok { IfOk result (λ applying. IsRewriteOutcome self.old rewritten applying
            self.new) }
        ensures err { OnErr result (self.new ≡ self.old) }
    {
        let content = self.store_new_text(&rewritten)?;
        Ok(ApplyOutcome::EditsMade {
            applied: rewritten.applied,
            content,
        })
    }

    /// Gives the document of `rewritten` a copy of its new text. Returns the content of the
    /// notification that gives the server this text. If an allocation fails, the editor is
    /// unchanged.
    fn store_new_text(&mut self, rewritten: &RewrittenDocument) -> Result<Vec<u8>, AllocError>
        requires { rewritten.now.version < 2 ^ 63 }
        ensures ok { IfOk result
            (λ content. StoresNewText self.old rewritten.now content self.new) }
        ensures err { OnErr result (self.new ≡ self.old) }
    {
        let uri = rewritten.applied.uri.as_str();
        let text = rewritten.applied.after.as_str();
        let version = rewritten.version;
        let content = whole_text_notification(self.alloc, uri, version, text)?;
        let document = OpenDocument::with_text(self.alloc, version, text, rewritten.opening)?;
        self.documents.open_or_replace(self.alloc, uri, document)?;
        Ok(content)
    }
}

/// Returns the record of the request for edits `ask`. The record has copies of the request, of the
/// uri and of the document's text, and the document's present opening number and version.
fn sent_ask_for_document(
    alloc: Global,
    ask: &Ask,
    uri: &str,
    document: &OpenDocument,
) -> Result<SentAsk, AllocError>
    ensures { IfOk result (λ sent. model_sent_ask_of sent ≡ record {
      ask = model_ask_of ask.now;
      uri = uri.now;
      text = chars (string_bytes document.now.text);
      opening = document.now.opening;
      version = pos document.now.version;
    }) }
{
    let uri = String::from_str(alloc, uri)?;
    let text = String::from_str(alloc, document.text.as_str())?;
    let ask = copy_of_ask(alloc, ask)?;
    Ok(SentAsk {
        ask,
        uri,
        text,
        opening: document.opening,
        version: document.version,
    })
}

/// Returns the index of the first answer to request `k` in this list, counted from 0, or None if
/// there is no such answer.
fn index_of_answer(answers: &[ReceivedAnswer], k: u64) -> Option<usize>
    ensures { IsIndexOfAnswer answers.now k result }
{
    for place in 0..answers.len() {
        if answers[place].number == k {
            return Some(place);
        }
    }
    None
}
