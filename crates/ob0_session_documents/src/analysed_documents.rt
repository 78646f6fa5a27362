//! Keeps the open documents, and analyses of the documents that were opened, changed or asked about
//! most recently.
//!
//! Contracts mention only the documents. So everything that they state, including `ServerState`
//! (the session's state), is the same as without analyses. The invariant states that each kept
//! analysis is the analysis of its document's current text (`AnalysesMatchTexts` of
//! `specs/KeptAnalyses`). Before a document changes, its analysis is removed (`still_theirs` of
//! `proofs/OtherDocuments`). After the change, the analysis of the resulting text is added. No
//! texts are compared. One notification causes one analysis, however many changes the notification
//! has.

ghost use Rattle.std.specs.Prelude.{◌≡◌, ◌⊎◌, IfSome, IfOk, OnOk, OnErr, is_some, map, string_bytes};
ghost use Rattle.std.specs.Str.{chars};
ghost use Rattle.ob0_text.specs.OpenDocuments.{documents_after_change, documents_after_close, document_at, documents_after_loss, documents_after_open, text_change_of};
ghost use Rattle.ob0_session_documents.specs.DocumentRequests.{IsOutcomeOfRequest};

use crate::analysis_cache::AnalysisCache;
use crate::document_requests::{DocumentRequest, RequestOutcome};
use ob0_analysis::Analysis;
use ob0_text::{Change, Documents, Held, TextStore};
use std::alloc::{AllocError, Global};
use std::marker::Model;

/// The open documents, and analyses of their texts. In contracts, the value consists only of the
/// documents. Each kept analysis is the analysis of its document's current text, because a change
/// first removes the analysis of the previous text.
#[derive(Drop)]
pub struct AnalysedDocuments<T: TextStore> {
    alloc: Global,
    documents: Documents<T>,
    analyses: AnalysisCache,
}

impl<T: TextStore> Model for AnalysedDocuments<T> {
    ghost use Rattle.ob0_text.specs.OpenDocuments.{OpenDocuments, coded_open_documents};
    ghost use Rattle.ob0_session_documents.specs.KeptAnalyses.{AnalysesMatchTexts};

    ghost Value = { OpenDocuments };

    ghost coded = { coded_open_documents };

    ghost view = { λ d. d.documents };

    ghost invariant = { λ d. AnalysesMatchTexts d.documents d.analyses };
}

impl<T: TextStore> AnalysedDocuments<T> {
    /// Returns these documents without any analyses yet.
    pub fn new(alloc: Global, documents: Documents<T>) -> AnalysedDocuments<T>
        ensures { result ≡ documents }
    {
        AnalysedDocuments {
            alloc,
            documents,
            analyses: AnalysisCache::new(alloc),
        }
    }

    /// Returns the documents, without the analyses.
    pub fn documents(&self) -> &Documents<T>
        ensures { result.now ≡ self.now }
    {
        &self.documents
    }

    /// Opens a document and analyses its text. If the document is already open, its version and
    /// text are replaced. The received text is dropped before the analysis. If an allocation fails,
    /// either nothing has changed, or the document has been opened with this text.
    pub fn did_open(&mut self, uri: &str, version: i64, text: String) -> Result<(), AllocError>
        ensures ok { OnOk result
            (self.new ≡ documents_after_open self.old uri.now version (chars (string_bytes text))) }
        ensures err { OnErr result ((self.new ≡ self.old)
            ⊎ (self.new ≡ documents_after_open self.old uri.now version (chars (string_bytes text)))) }
    {
        let before = self.analyses.take(uri);
        self.documents.did_open(uri, version, text.as_str())?;
        drop(text);
        self.analyse_and_keep(uri, before)
    }

    /// Applies the changes to a document in order, and analyses the resulting text. The received
    /// changes are dropped before the analysis. If an allocation fails, either the document is out
    /// of step, or all changes have been applied.
    pub fn did_change(
        &mut self,
        uri: &str,
        version: i64,
        changes: Vec<Change>,
    ) -> Result<(), AllocError>
        ensures ok { OnOk result
            (self.new ≡ documents_after_change self.old uri.now version (map text_change_of changes.items)) }
        ensures err { OnErr result ((self.new ≡ documents_after_loss self.old uri.now)
            ⊎ (self.new ≡ documents_after_change self.old uri.now version (map text_change_of changes.items))) }
    {
        let before = self.analyses.take(uri);
        self.documents.did_change(uri, version, changes.as_slice())?;
        drop(changes);
        self.analyse_and_keep(uri, before)
    }

    /// Marks a document as out of step: the client's text isn't known any more. If the document
    /// isn't open, nothing changes.
    pub fn lose(&mut self, uri: &str)
        ensures { self.new ≡ documents_after_loss self.old uri.now }
    {
        drop(self.analyses.take(uri));
        self.documents.lose(uri);
    }

    /// Closes a document, and returns whether it was open.
    pub fn did_close(&mut self, uri: &str) -> bool
        ensures after { self.new ≡ documents_after_close self.old uri.now }
        ensures was_open { result ≡ is_some (document_at self.old uri.now) }
    {
        drop(self.analyses.take(uri));
        self.documents.did_close(uri)
    }

    /// Answers a request about the document with this uri. Uses the analysis of the document's text
    /// if the cache contains it. Otherwise analyses the text and adds the analysis to the cache.
    /// Returns `Unopened` if the document isn't open, and `OutOfStep` if it is out of step.
    pub fn answer_request<Q: DocumentRequest<T>>(
        &mut self,
        uri: &str,
        request: &Q,
    ) -> Result<RequestOutcome, AllocError>
        ensures same { self.new ≡ self.old }
        ensures outcome { IfOk result (IsOutcomeOfRequest (Q.answers request.now) self.old
            uri.now) }
    {
        match self.documents.get(uri) {
            Some(Held::InStep { version, text }) => {
                self.analyses.promote(uri);
                if let Some(analysis) = self.analyses.get(uri) {
                    let message = request.answer(self.alloc, version, text, analysis)?;
                    return Ok(RequestOutcome::Answered(message));
                }
                let analysis = Analysis::analyse_text(self.alloc, text.as_str())?;
                let answer = request.answer(self.alloc, version, text, &analysis);
                self.analyses.put(uri, analysis)?;
                Ok(RequestOutcome::Answered(answer?))
            }
            Some(Held::OutOfStep) => Ok(RequestOutcome::OutOfStep),
            None => Ok(RequestOutcome::Unopened),
        }
    }

    /// Makes the analysis of a document's text and adds it to the cache. `before` is the analysis
    /// of the document's previous text, or None if that analysis wasn't kept. Parts of `before` are
    /// reused. If the document isn't open or is out of step, does nothing.
    fn analyse_and_keep(&mut self, uri: &str, before: Option<Analysis>) -> Result<(), AllocError>
        ensures { self.new ≡ self.old }
    {
        match self.documents.get(uri) {
            Some(Held::InStep { version: _, text }) => {
                let analysis = analyse_or_reanalyse(self.alloc, before, text.as_str())?;
                self.analyses.put(uri, analysis)
            }
            _ => Ok(()),
        }
    }
}

/// Returns the analysis of a text. `before` is the analysis of an earlier text, and parts of it are
/// reused. If `before` is None, the text is analysed from scratch.
fn analyse_or_reanalyse(
    alloc: Global,
    before: Option<Analysis>,
    text: &str,
) -> Result<Analysis, AllocError>
    ensures { IfOk result (λ a. a ≡ text.now) }
{
    match before {
        None => Analysis::analyse_text(alloc, text),
        Some(before) => before.reanalyse(alloc, text),
    }
}
