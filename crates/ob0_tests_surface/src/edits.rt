//! The names of `ob0_rename`, `ob0_inline` and `ob0_layout`.

ghost use Rattle.std.specs.Prelude.{◌≡◌};
ghost use Rattle.std.specs.Str.{chars};

use ob0_inline::{inline_all, inline_here};
use ob0_layout::format;
use ob0_rename::rename;
use ob0_text::{Edit, EditRefusal, Indent, Position, TextStore, Whole};
use ob0_types::WellTyped;
use std::alloc::{AllocError, Global};

/// Returns whether each call makes as many edits as expected.
pub fn edits_are_as_expected(alloc: Global, module: &WellTyped<'_>) -> bool {
    match Whole::from_str(alloc, module.resolved().tokens().text()) {
        Ok(store) => makes_edits(alloc, &store, module),
        Err(AllocError) => false,
    }
}

/// Returns whether each call makes as many edits as expected, of the module that `store` has.
fn makes_edits<T: TextStore>(alloc: Global, store: &T, module: &WellTyped<'_>) -> bool
    requires { T.content store.now ≡ chars «module».now.module_read.source.text }
{
    let place: Position = Position {
        line: 0,
        character: 78,
    };
    let renamed: Result<Vec<Edit>, EditRefusal> = rename(alloc, store, module, place, "d");
    if !has_length(&renamed, 2) {
        return false;
    }
    let here: Result<Vec<Edit>, EditRefusal> = inline_here(alloc, store, module, place);
    if !has_length(&here, 1) {
        return false;
    }
    inlines_and_formats(alloc, store, module, place)
}

/// Returns whether inlining everywhere and formatting make as many edits as expected.
fn inlines_and_formats<T: TextStore>(
    alloc: Global,
    store: &T,
    module: &WellTyped<'_>,
    place: Position,
) -> bool
    requires { T.content store.now ≡ chars «module».now.module_read.source.text }
{
    let everywhere: Result<Vec<Edit>, EditRefusal> = inline_all(alloc, store, module, place);
    if !has_length(&everywhere, 2) {
        return false;
    }
    let tree = module.resolved().module();
    let formatted: Result<Vec<Edit>, EditRefusal> = format(alloc, store, tree, Indent::Tab);
    has_length(&formatted, 11)
}

/// Returns whether there are so many edits.
fn has_length(edits: &Result<Vec<Edit>, EditRefusal>, count: usize) -> bool {
    match edits {
        Ok(edits) => edits.len() == count,
        Err(_refusal) => false,
    }
}
