//! Applies several edits to one text together.

ghost use Rattle.std.specs.Prelude.{◌≡◌, Some, None, map, min, max, IfOk, IsErrOf, string_bytes};
ghost use Rattle.std.specs.Str.{chars};
ghost use Rattle.ob0_text.specs.Texts.{offset_of};
ghost use Rattle.ob0_text.specs.Units.{width_of};
ghost use Rattle.ob0_text.specs.Patches.{cuts_of_edits, cuts_in_text_order, patched_text};
ghost use Rattle.ob0_text.specs.StoredCuts.{cut_of_byte_edit, cut_with_byte_offsets};
ghost use Rattle.ob0_text.specs.declared.byte_edits.PatchFault.TheVariants.{Memory};

use crate::edits::Edit;
use crate::position_types::Position;
use crate::stores::TextStore;
use std::alloc::{AllocError, Global};
use thiserror::Error;

/// The reason why several edits can't be applied together: two ranges share a character, or an
/// allocation failed.
#[derive(Clone, Copy, Debug, PartialEq, Eq, Error)]
pub enum PatchFault {
    #[error("two edits touch the same character")]
    Overlap,
    #[error("out of memory")]
    Memory,
}

impl From<AllocError> for PatchFault {
    ghost from_gives = { λ _ fault. fault ≡ Memory };

    fn from(_error: AllocError) -> PatchFault {
        PatchFault::Memory
    }
}

/// An edit with byte offsets. `text` replaces the bytes from `start` (included) to `end`
/// (excluded).
#[derive(Drop)]
struct ByteEdit<'e> {
    start: usize,
    end: usize,
    text: &'e str,
}

/// Returns the store's text with all edits applied. The range of each edit refers to the text
/// before all edits. If two ranges share a character, the fault is `Overlap`. If an allocation
/// fails, the fault is `Memory`.
pub fn patch<T: TextStore>(alloc: Global, store: &T, edits: &[Edit]) -> Result<String, PatchFault>
    ensures ok { IfOk result (λ text. patched_text (width_of (T.unit_of store.now)) (T.content store.now)
        edits.now
        ≡ Some (chars (string_bytes text))) }
    ensures overlap { IsErrOf result PatchFault.Overlap
        → patched_text (width_of (T.unit_of store.now)) (T.content store.now) edits.now ≡ None }
{
    let cuts = sorted_byte_edits(alloc, store, edits)?;
    let text = store.as_str();
    let mut patched_text = String::new(alloc);
    let mut kept = 0;
    for cut in &cuts {
        if cut.start < kept {
            return Err(PatchFault::Overlap);
        }
        patched_text.push_str(&text[kept..cut.start])?;
        patched_text.push_str(cut.text)?;
        kept = cut.end;
    }
    patched_text.push_str(&text[kept..])?;
    Ok(patched_text)
}

/// Returns the edits with byte offsets instead of positions, in text order: by start, then by end.
/// Edits with the same start and end keep their order in `edits`.
fn sorted_byte_edits<'e, T: TextStore>(
    alloc: Global,
    store: &T,
    edits: &'e [Edit],
) -> Result<Vec<ByteEdit<'e>>, AllocError>
    ensures { let text = T.content store.now in
        IfOk result (λ cuts. map cut_of_byte_edit cuts.items
        ≡ map (cut_with_byte_offsets text) (cuts_in_text_order
        (cuts_of_edits (width_of (T.unit_of store.now)) text edits.now))) }
{
    let mut cuts = unsorted_byte_edits(alloc, store, edits)?;
    cuts.sort_by_key(|cut| (cut.start, cut.end))?;
    Ok(cuts)
}

/// Returns the edits with byte offsets instead of positions, in the order of `edits`.
fn unsorted_byte_edits<'e, T: TextStore>(
    alloc: Global,
    store: &T,
    edits: &'e [Edit],
) -> Result<Vec<ByteEdit<'e>>, AllocError>
    ensures { let text = T.content store.now in
        IfOk result (λ cuts. map cut_of_byte_edit cuts.items
        ≡ map (cut_with_byte_offsets text) (cuts_of_edits (width_of (T.unit_of store.now)) text edits.now)) }
{
    let starts = edit_starts(alloc, edits)?;
    let from = offsets_of_positions(alloc, store, starts)?;
    let ends = edit_ends(alloc, edits)?;
    let to = offsets_of_positions(alloc, store, ends)?;
    let mut cuts = Vec::new(alloc);
    for (i, edit) in edits.iter().enumerate() {
        cuts.push(byte_edit_between(from[i], to[i], edit.text.as_str()))?;
    }
    Ok(cuts)
}

/// Returns the byte offset of each position, in the order of `positions`. Takes `positions` by
/// value, so that their memory is released as soon as the offsets are known.
fn offsets_of_positions<T: TextStore>(
    alloc: Global,
    store: &T,
    positions: Vec<Position>,
) -> Result<Vec<usize>, AllocError>
    ensures { IfOk result (λ offsets. offsets.items
        ≡ map (offset_of (width_of (T.unit_of store.now)) (T.content store.now)) positions.items) }
{
    store.offsets(alloc, &positions)
}

/// Returns the start of each edit's range, in the order of the edits.
fn edit_starts(alloc: Global, edits: &[Edit]) -> Result<Vec<Position>, AllocError>
    ensures { IfOk result
        (λ positions. positions.items ≡ map (λ edit. edit.range.start) edits.now) }
{
    edits.iter().map(|edit| edit.range.start).collect(alloc)
}

/// Returns the end of each edit's range, in the order of the edits.
fn edit_ends(alloc: Global, edits: &[Edit]) -> Result<Vec<Position>, AllocError>
    ensures { IfOk result (λ positions. positions.items ≡ map (λ edit. edit.range.end) edits.now) }
{
    edits.iter().map(|edit| edit.range.end).collect(alloc)
}

/// Returns the edit that replaces the bytes between two offsets by `text`. The offsets are swapped
/// if the first is greater.
fn byte_edit_between(start: usize, end: usize, text: &str) -> ByteEdit<'_>
    ensures { cut_of_byte_edit result
        ≡ record { from = min start end; to = max start end; new = chars text.now } }
{
    ByteEdit {
        start: start.min(end),
        end: start.max(end),
        text,
    }
}
