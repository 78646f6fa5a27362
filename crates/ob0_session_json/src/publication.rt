//! Writes the notification that publishes a document's diagnostics.
ghost use Rattle.std.specs.Prelude.{IfOk, List, map};
ghost use Rattle.ob0_rpc.specs.WrittenMessages.{Writes};
ghost use Rattle.ob0_session_json.specs.JsonShapes.{Diagnostic as Reported, diagnostic_value, publication as publication_message, publication_params};
ghost use Rattle.ob0_session_json.specs.JsonViews.{AreSameDiagnostics, diagnostic_view};

use ob0_rpc::{WriteJson, end_object, notification_text, write_first_member, write_next_member};
use ob0_text::Range;
use std::alloc::{AllocError, Global};

/// A diagnostic: its code, its message and its range in a document.
#[derive(Drop)]
pub struct Diagnostic {
    pub code: &'static str,
    pub message: String,
    pub range: Range,
}

impl WriteJson for Diagnostic {
    ghost value = { λ d. diagnostic_value (diagnostic_view d) };

    fn write(&self, out: &mut Vec<u8>) -> Result<(), AllocError> {
        write_first_member(out, "code", &self.code)?;
        write_next_member(out, "message", &self.message.as_str())?;
        write_next_member(out, "range", &self.range)?;
        write_next_member(out, "severity", &1u64)?;
        end_object(out)
    }
}

/// The params of a publication: the diagnostics of a document, its uri and its version. The version
/// is None if the document was closed.
#[derive(Drop)]
pub struct PublishDiagnosticsParams<'a> {
    pub diagnostics: &'a [Diagnostic],
    pub uri: &'a str,
    pub version: Option<i64>,
}

impl<'a> WriteJson for PublishDiagnosticsParams<'a> {
    ghost value = { λ p.
        publication_params p.uri.now p.version (map diagnostic_view p.diagnostics.now) };

    fn write(&self, out: &mut Vec<u8>) -> Result<(), AllocError> {
        match self.version {
            Some(version) => {
                write_first_member(out, "diagnostics", &self.diagnostics)?;
                write_next_member(out, "uri", &self.uri)?;
                write_next_member(out, "version", &version)?;
                end_object(out)
            }
            None => {
                write_first_member(out, "diagnostics", &self.diagnostics)?;
                write_next_member(out, "uri", &self.uri)?;
                end_object(out)
            }
        }
    }
}

/// Returns the JSON text of the notification that publishes these diagnostics (`list`) of the
/// document with this uri. The version is None if the document was closed.
pub fn publication(
    alloc: Global,
    uri: &str,
    version: Option<i64>,
    list: Vec<Diagnostic>,
) -> Result<Vec<u8>, AllocError>
    ensures { IfOk result (λ bytes. (ds : List Reported) → AreSameDiagnostics ds list.items
        → Writes (publication_message uri.now version ds) bytes.items) }
{
    let params = PublishDiagnosticsParams {
        diagnostics: list.as_slice(),
        uri,
        version,
    };
    notification_text(alloc, "textDocument/publishDiagnostics", &params)
}
