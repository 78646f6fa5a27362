//! Finds, for each occurrence of a name in a module, the declaration to which a given name would be
//! bound in its place.

ghost use Rattle.std.specs.Prelude.{◌≡◌, IfOk, map, length, replicate, None};
ghost use Rattle.ob0_tree.specs.ParsedModule.{named_tree_of};
ghost use Rattle.ob0_scope_table.specs.Resolution.{ordinal_in};
ghost use Rattle.ob0_language_names.specs.OccurrenceLookup.{resolve_name_at_each_occurrence};
ghost use Rattle.ob0_scope_numbering.specs.OrdinalMarks.{zero_mark_at_token};
ghost use Rattle.ob0_scope_numbering.specs.OrdinalMarks.{table_with_marks};

use crate::bindings_after_rename::ordinals_at_tokens;
use ob0_scope_numbering::{Spellings, number_identifiers};
use ob0_scope_table::{OrdinalEntry, Resolved};
use std::alloc::{AllocError, Global};

/// Returns an entry for each occurrence of a module, in text order. The entry is the ordinal to
/// which `name` would be bound if it replaced the occurrence. The entry is None if `name` would be
/// unbound there.
pub fn resolve_name_at_each_occurrence(
    alloc: Global,
    names: &Resolved,
    name: &str,
) -> Result<Vec<Option<usize>>, AllocError>
    ensures { IfOk result
        (λ found. found.items ≡ resolve_name_at_each_occurrence (named_tree_of names.now.module_read) name.now) }
{
    let ordinals = ordinals_with_replacement(alloc, names, name)?;
    ordinals_at_tokens(alloc, &ordinals, names.occurrences())
}

/// Returns the table of ordinals of a changed module, in which `name` replaces each occurrence. At
/// the token of each occurrence, the table has the ordinal to which `name` is bound there, or None.
fn ordinals_with_replacement(
    alloc: Global,
    names: &Resolved,
    name: &str,
) -> Result<Vec<OrdinalEntry>, AllocError>
    ensures { IfOk result (λ ordinals. map (ordinal_in ordinals.items) names.now.uses
        ≡ resolve_name_at_each_occurrence (named_tree_of names.now.module_read) name.now) }
{
    let sought = table_marking_occurrences(alloc, names)?;
    let spellings = Spellings {
        tokens: names.tokens(),
        ordinals: sought.as_slice(),
        declaration: Some(0),
        new: name,
    };
    let numbering = number_identifiers(alloc, names.module(), spellings)?;
    let (_declarations, _occurrences, ordinals) = numbering.into_tokens_and_ordinals();
    Ok(ordinals)
}

/// Returns a table that has ordinal 0 at each occurrence and None at every other token. With this
/// table, a renaming of the declaration with ordinal 0 renames exactly the occurrences.
fn table_marking_occurrences(
    alloc: Global,
    names: &Resolved,
) -> Result<Vec<OrdinalEntry>, AllocError>
    ensures { IfOk result (λ t. t.items
        ≡ table_with_marks (replicate (length names.now.module_read.source.tokens) None)
        (map zero_mark_at_token names.now.uses)) }
{
    let mut table = vec![in alloc; OrdinalEntry::new(None); names.tokens().tokens().len()]?;
    for token in names.occurrences() {
        if *token < table.len() {
            table[*token] = OrdinalEntry::new(Some(0));
        }
    }
    Ok(table)
}
