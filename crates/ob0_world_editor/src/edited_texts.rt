//! Applies changes and edits to a text. Changes are made one after another. The ranges of edits all
//! refer to the same text.
ghost use Rattle.std.specs.Prelude.{◌≡◌, Some, map, IfOk, OnOk, string_bytes};
ghost use Rattle.std.specs.Option.{option_map};
ghost use Rattle.std.specs.Str.{chars};
ghost use Rattle.ob0_text.specs.OpenDocuments.{text_change_of, changed_text};
ghost use Rattle.ob0_world_rules.specs.TextEdits.{text_after_edits, text_after_changes};
ghost use Rattle.ob0_world_rules.specs.TextEdits.{replacements_of_edits};

use ob0_text::{Change, Edit, PatchFault, TextStore, Unit, patch};
use std::alloc::{AllocError, Global};

/// Returns the text after these changes, each made in the text that results from the previous
/// change. Positions are counted in `unit`.
pub fn apply_changes<T: TextStore>(
    alloc: Global,
    unit: Unit,
    text: &str,
    changes: &[Change],
) -> Result<String, AllocError>
    ensures { IfOk result (λ new. text_after_changes unit (Some (chars text.now))
        (map text_change_of changes.now)
        ≡ Some (chars (string_bytes new))) }
{
    let mut store = T::from_str_in(alloc, text, unit)?;
    for change in changes {
        apply_change_to_store(alloc, unit, &mut store, change)?;
    }
    store.to_string(alloc)
}

fn apply_change_to_store<T: TextStore>(
    alloc: Global,
    unit: Unit,
    store: &mut T,
    change: &Change,
) -> Result<(), AllocError>
    requires { T.unit_of store.old ≡ unit }
    ensures unit { OnOk result (T.unit_of store.new ≡ unit) }
    ensures ok { OnOk result (changed_text unit (Some (T.content store.old))
        (text_change_of change.now)
        ≡ Some (T.content store.new)) }
{
    match change.range {
        None => *store = T::from_str_in(alloc, change.text.as_str(), unit)?,
        Some(range) => store.replace(range, change.text.as_str())?,
    }
    Ok(())
}

/// Returns the text after all these edits, whose ranges all refer to the given text. Positions are
/// counted in `unit`. Returns None if two edits share a character.
pub fn apply_edits<T: TextStore>(
    alloc: Global,
    unit: Unit,
    text: &str,
    edits: &[Edit],
) -> Result<Option<String>, AllocError>
    ensures { IfOk result (λ new. text_after_edits unit (chars text.now) (replacements_of_edits edits.now)
        ≡ option_map (λ s. chars (string_bytes s)) new) }
{
    let store = T::from_str_in(alloc, text, unit)?;
    let patched_text = patch(alloc, &store, edits);
    drop(store);
    match patched_text {
        Ok(new) => Ok(Some(new)),
        Err(fault) => match fault {
            PatchFault::Overlap => Ok(None),
            PatchFault::Memory => Err(AllocError),
        },
    }
}
