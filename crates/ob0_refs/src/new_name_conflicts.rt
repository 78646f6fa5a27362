//! Finds the first conflict of a new name for a declaration.

ghost use Rattle.std.specs.Prelude.{◌≡◌, ◌↔◌, None, IfOk, option_map};
ghost use Rattle.ob0_tree.specs.ParsedModule.{named_tree_of};
ghost use Rattle.ob0_language_names.specs.Occurrences.{IsFreeName};
ghost use Rattle.ob0_refs.specs.AnswerViews.{span_of_capture};
ghost use Rattle.ob0_refs.specs.ConflictSpans.{first_conflict_span};

use crate::answer_types::Capture;
use crate::conflict_spans::conflict_span;
use ob0_scope::captures as first_capture;
use ob0_scope_table::Resolved;
use std::alloc::{AllocError, Global};

/// Returns the first conflict of a renaming of the declaration with the ordinal `declaration` to
/// `new`, or None if `new` is free. If another declaration of the same block has the name `new`,
/// the conflict is at the identifier that declares `declaration`. Otherwise the conflict is at the
/// first looked-up name, in text order, whose binding the renaming would change.
pub fn captures(
    alloc: Global,
    names: &Resolved,
    declaration: usize,
    new: &str,
) -> Result<Option<Capture>, AllocError>
    ensures span { IfOk result (λ found. option_map span_of_capture found
        ≡ first_conflict_span names.now.module_read declaration new.now) }
    ensures free { IfOk result
        (λ found. found ≡ None ↔ IsFreeName (named_tree_of names.now.module_read) declaration new.now) }
{
    match first_capture(alloc, names, declaration, new)? {
        None => Ok(None),
        Some(capture) => Ok(Some(Capture {
            span: conflict_span(names, declaration, capture),
        })),
    }
}
