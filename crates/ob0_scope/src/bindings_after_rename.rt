//! Finds the bindings of a module's names after a declaration is renamed.

ghost use Rattle.std.specs.Prelude.{◌≡◌, IfOk, map};
ghost use Rattle.ob0_tree.specs.ParsedModule.{named_tree_of};
ghost use Rattle.ob0_language_names.specs.Occurrences.{labels_of_occurrences, label_ordinal};
ghost use Rattle.ob0_language_names.specs.Scopes.{renamed};
ghost use Rattle.ob0_scope.specs.Renames.{AreOrdinalsAfterRename};
ghost use Rattle.ob0_scope_table.specs.Resolution.{IsResolution, ordinal_in};

use ob0_scope_numbering::{Spellings, number_identifiers};
use ob0_scope_table::{OrdinalEntry, Resolved, ordinal_at};
use std::alloc::{AllocError, Global};

/// Returns an entry for each occurrence of a name in the module, in text order. The entry is the
/// ordinal to which the occurrence would be bound after a renaming, or None if it would be unbound.
/// The renaming gives the name `new` to the declaration with the ordinal `declaration` and to all
/// names that are bound to it.
pub fn resolve_renamed(
    alloc: Global,
    names: &Resolved,
    declaration: usize,
    new: &str,
) -> Result<Vec<Option<usize>>, AllocError>
    ensures { IfOk result (λ bound. bound.items
        ≡ map label_ordinal
        (labels_of_occurrences (renamed (named_tree_of names.now.module_read) declaration new.now))) }
{
    let ordinals = ordinals_after_rename(alloc, names, declaration, new)?;
    ordinals_at_tokens(alloc, &ordinals, names.occurrences())
}

/// Returns the table of ordinals of the module after the declaration with the ordinal `declaration`
/// is renamed to `new`. For each token, the table has the ordinal to which the token is bound, or
/// None.
pub(crate) fn ordinals_after_rename(
    alloc: Global,
    names: &Resolved,
    declaration: usize,
    new: &str,
) -> Result<Vec<OrdinalEntry>, AllocError>
    ensures renumbered { IfOk result
        (λ ordinals. AreOrdinalsAfterRename names.now declaration new.now ordinals.items) }
    ensures resolved { IsResolution names.now }
{
    let spellings = Spellings {
        tokens: names.tokens(),
        ordinals: names.ordinals(),
        declaration: Some(declaration),
        new,
    };
    let numbering = number_identifiers(alloc, names.module(), spellings)?;
    let (_declarations, _occurrences, ordinals) = numbering.into_tokens_and_ordinals();
    Ok(ordinals)
}

/// Returns, for each token in the list `tokens`, the ordinal that the table `ordinals` has for it.
/// The entry is None if the table has no ordinal at the token.
pub(crate) fn ordinals_at_tokens(
    alloc: Global,
    ordinals: &[OrdinalEntry],
    tokens: &[usize],
) -> Result<Vec<Option<usize>>, AllocError>
    ensures { IfOk result (λ found. found.items ≡ map (ordinal_in ordinals.now) tokens.now) }
{
    let mut found = Vec::new(alloc);
    for token in tokens {
        found.push(ordinal_at(ordinals, *token))?;
    }
    Ok(found)
}
