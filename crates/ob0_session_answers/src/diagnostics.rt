//! Computes the diagnostics of a text, and the message that publishes them.
//!
//! The byte offsets at which the diagnostics start and end are sorted. The positions of all these
//! offsets are found in one pass over the text (`TextStore::positions`). The position of each
//! offset is then looked up by binary search. If a search doesn't find the offset, the store
//! computes the position. So no proof is needed that each search succeeds.

ghost use Rattle.std.specs.Prelude.{◌≡◌, List, IfOk, map};
ghost use Rattle.std.specs.Str.{chars};
ghost use Rattle.ob0_analysis.specs.ReportedErrors.{reported_diagnosis_of};
ghost use Rattle.ob0_session_json.specs.JsonViews.{AreSameDiagnostics, diagnostic_view};
ghost use Rattle.ob0_session_answers.specs.Diagnostics.{AreDiagnosticsOf, PublishesDiagnostics, diagnostic_of};
ghost use Rattle.ob0_session_json.specs.JsonShapes.{Diagnostic as Reported};
ghost use Rattle.ob0_text.specs.Texts.{position_of};
ghost use Rattle.ob0_text.specs.Units.{width_of};

use ob0_analysis::{Analysis, Diagnosis};
use ob0_session_documents::DocumentRequest;
use ob0_session_json::publication::{Diagnostic, publication};
use ob0_text::{Position, Range, TextStore};
use std::alloc::{AllocError, Global};

/// A request to publish a document's diagnostics. The server makes this request itself, after a
/// document was opened or changed.
#[derive(Drop)]
pub struct PublishDiagnosticsRequest<'a> {
    pub uri: &'a str,
}

impl<'a, T: TextStore> DocumentRequest<T> for PublishDiagnosticsRequest<'a> {
    ghost answers = { λ r version unit text content.
        PublishesDiagnostics unit r.uri.now version text content };

    fn answer(
        &self,
        alloc: Global,
        version: i64,
        text: &T,
        analysis: &Analysis,
    ) -> Result<Vec<u8>, AllocError> {
        let list = diagnostics(alloc, text, analysis)?;
        publication(alloc, self.uri, Some(version), list)
    }
}

/// Returns the diagnostics of a text. Their positions are counted in the store's unit.
pub fn diagnostics<T: TextStore>(
    alloc: Global,
    store: &T,
    analysis: &Analysis,
) -> Result<Vec<Diagnostic>, AllocError>
    requires { T.content store.now ≡ chars analysis.now }
    ensures { IfOk result (λ list. (ds : List Reported)
        × AreDiagnosticsOf (T.unit_of store.now) (T.content store.now) ds
        × AreSameDiagnostics ds list.items) }
{
    let reported = analysis.diagnoses(alloc)?;
    convert_diagnoses(alloc, store, reported)
}

/// Converts each diagnosis in `reported`, which has byte offsets, to a diagnostic with positions,
/// in the same order. One pass over the text finds the positions of all starts and ends.
fn convert_diagnoses<T: TextStore>(
    alloc: Global,
    store: &T,
    reported: Vec<Diagnosis>,
) -> Result<Vec<Diagnostic>, AllocError>
    ensures { IfOk result (λ list. AreSameDiagnostics (map
        (λ d. diagnostic_of (T.unit_of store.now) (T.content store.now) (reported_diagnosis_of d))
        reported.items) list.items) }
{
    let offsets = sorted_offsets_of(alloc, reported.as_slice())?;
    let positions = store.positions(alloc, offsets.as_slice())?;
    convert_diagnoses_with_positions(
        alloc,
        store,
        offsets.as_slice(),
        positions.as_slice(),
        reported,
    )
}

/// Returns the byte offsets at which the diagnoses start and end, in ascending order.
fn sorted_offsets_of(alloc: Global, reported: &[Diagnosis]) -> Result<Vec<usize>, AllocError> {
    let mut offsets = Vec::new(alloc);
    for diagnosis in reported {
        offsets.push(diagnosis.span.start as usize)?;
        offsets.push(diagnosis.span.end as usize)?;
    }
    offsets.sort_unstable();
    Ok(offsets)
}

/// Converts each diagnosis in `reported`, which has byte offsets, to a diagnostic with positions,
/// in the same order. `offsets` are byte offsets in ascending order. The n-th of the `positions` is
/// the position of the n-th offset.
fn convert_diagnoses_with_positions<T: TextStore>(
    alloc: Global,
    store: &T,
    offsets: &[usize],
    positions: &[Position],
    reported: Vec<Diagnosis>,
) -> Result<Vec<Diagnostic>, AllocError>
    requires { positions.now
        ≡ map (position_of (width_of (T.unit_of store.now)) (T.content store.now)) offsets.now }
    ensures { IfOk result (λ list. AreSameDiagnostics (map
        (λ d. diagnostic_of (T.unit_of store.now) (T.content store.now) (reported_diagnosis_of d))
        reported.items) list.items) }
{
    let mut list = Vec::new(alloc);
    for diagnosis in reported {
        let start = position_at(store, offsets, positions, diagnosis.span.start as usize);
        let end = position_at(store, offsets, positions, diagnosis.span.end as usize);
        list.push(diagnostic_with_range(diagnosis, start, end))?;
    }
    Ok(list)
}

/// Returns the position of a byte offset. The n-th of the `positions` is the position of the n-th
/// of the `offsets`. If a binary search finds the offset in `offsets`, its position is read from
/// `positions`. Otherwise the store computes the position.
fn position_at<T: TextStore>(
    store: &T,
    offsets: &[usize],
    positions: &[Position],
    offset: usize,
) -> Position
    requires { positions.now
        ≡ map (position_of (width_of (T.unit_of store.now)) (T.content store.now)) offsets.now }
    ensures { result ≡ position_of (width_of (T.unit_of store.now)) (T.content store.now) offset }
{
    match offsets.binary_search(&offset) {
        Ok(index) => positions[index],
        Err(_) => store.position(offset),
    }
}

/// Converts a diagnosis to a diagnostic with this start and end. The message is moved, not copied.
fn diagnostic_with_range(diagnosis: Diagnosis, start: Position, end: Position) -> Diagnostic
    ensures { diagnostic_view result ≡ record {
      code = (reported_diagnosis_of diagnosis).code;
      message = (reported_diagnosis_of diagnosis).message;
      start = start;
      end = end;
    } }
{
    let Diagnosis {
        code,
        message,
        span: _,
    } = diagnosis;
    Diagnostic {
        code,
        message,
        range: Range { start, end },
    }
}
