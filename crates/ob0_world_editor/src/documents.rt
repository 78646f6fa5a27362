//! Stores the documents that are open in the editor.
ghost use Rattle.std.specs.Prelude.{◌≡◌, pos, IfOk, OnErr, OnOk};
ghost use Rattle.std.specs.Option.{option_map};
ghost use Rattle.std.specs.Str.{chars};
ghost use Rattle.std.specs.FinMap as map_of;
ghost use Rattle.ob0_world_editor.specs.StoredDocuments.{model_document_of};

use std::alloc::{AllocError, Global};
use std::collections::BTreeMap;
use std::marker::Model;

/// A document that is open in the editor: its version, its text and its opening number.
#[derive(Drop)]
pub struct OpenDocument {
    pub version: u64,
    pub text: String,
    /// The opening number. The openings of all documents are numbered together, so a document that
    /// is opened again gets another number.
    pub opening: u64,
}

impl OpenDocument {
    /// Returns a document with this version, a copy of this text, and this opening number.
    pub fn with_text(
        alloc: Global,
        version: u64,
        text: &str,
        opening: u64,
    ) -> Result<OpenDocument, AllocError>
        ensures { IfOk result (λ d. model_document_of d
            ≡ record { version = pos version; text = chars text.now; opening = opening }) }
    {
        let text = String::from_str(alloc, text)?;
        Ok(OpenDocument {
            version,
            text,
            opening,
        })
    }
}

/// The open documents, as a map from their uris.
#[derive(Drop)]
pub struct OpenDocuments {
    by_uri: BTreeMap<String, OpenDocument>,
}

impl Model for OpenDocuments {
    ghost use Rattle.ob0_world_rules.specs.ClientAndServer.{EditorDocuments};
    ghost use Rattle.ob0_world_editor.specs.StoredDocuments.{model_documents_of, coded_editor_documents};

    ghost Value = { EditorDocuments };

    ghost coded = { coded_editor_documents };

    ghost view = { λ documents. model_documents_of documents.by_uri.entries };
}

impl OpenDocuments {
    /// Returns a map without documents.
    pub fn new(alloc: Global) -> OpenDocuments
        ensures { result ≡ map_of.empty }
    {
        OpenDocuments {
            by_uri: BTreeMap::new(alloc),
        }
    }

    /// Returns the open document with this uri, or None if no document with this uri is open.
    pub fn get(&self, uri: &str) -> Option<&OpenDocument>
        ensures { option_map (λ d. model_document_of d.now) result ≡ map_of.get self.now uri.now }
    {
        self.by_uri.get(uri)
    }

    /// Opens a document under this uri, or replaces the document that is open under it. If an
    /// allocation fails, the documents are unchanged.
    pub fn open_or_replace(
        &mut self,
        alloc: Global,
        uri: &str,
        document: OpenDocument,
    ) -> Result<(), AllocError>
        ensures ok { OnOk result
            (self.new ≡ map_of.insert self.old uri.now (model_document_of document)) }
        ensures err { OnErr result (self.new ≡ self.old) }
    {
        let uri = String::from_str(alloc, uri)?;
        self.by_uri.insert(uri, document)?;
        Ok(())
    }

    /// Closes the document with this uri. If no document with this uri is open, nothing happens.
    pub fn close(&mut self, uri: &str)
        ensures { self.new ≡ map_of.remove self.old uri.now }
    {
        self.by_uri.remove(uri);
    }
}
