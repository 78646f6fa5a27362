//! Makes the edits that format a module's text.

ghost use Rattle.std.specs.Prelude.{◌≡◌, ◌≤◌, ◌<◌, ◌⊎◌, ◌↔◌, IsTrue, Some, IfOk, IfErr, IsErrOf, map, length};
ghost use Rattle.std.specs.List.{All};
ghost use Rattle.std.specs.Str.{chars};
ghost use Rattle.ob0_scan.specs.TextWithTokens.{IsScan, max_text_length};
ghost use Rattle.ob0_text.specs.Patches.{patched_text};
ghost use Rattle.ob0_text.specs.Units.{width_of};
ghost use Rattle.ob0_text.specs.declared.refusals.EditRefusal.TheVariants.{TooLong, Memory};
ghost use Rattle.ob0_tree.specs.ParsedModule.{named_tree_of};
ghost use Rattle.ob0_edits_tokens.specs.ByteCuts.{edit_of_cut, length_after_cuts_from_offset};
ghost use Rattle.ob0_edits_tokens.specs.Replacements.{range_and_text};
ghost use Rattle.ob0_layout.specs.Layout.{formatted_text};
ghost use Rattle.ob0_layout.specs.LineRoles.{line_roles};
ghost use Rattle.ob0_layout.specs.Cuts.{gap_cut, GapLiesInText};
ghost use Rattle.ob0_layout.specs.Gaps.{all_gaps, changed_gaps};

use crate::gap_sites::{GapSite, gap_sites_to_change};
use crate::token_line_roles::line_roles;
use ob0_scan::MAX_TEXT_LENGTH;
use ob0_text::{Edit, EditRefusal, Indent, Range, TextStore};
use ob0_tree::Module;
use std::alloc::{AllocError, Global};

/// Returns the edits that format a module: one for each gap that formatting changes, in text order.
/// A gap is the white space between two neighbouring tokens or comments, or at the start or end of
/// the text. Each edit replaces a whole gap. If `store` holds the module's text, applying all the
/// edits to that text gives the formatted text. Fails with `TooLong` if the formatted text would
/// have more than `MAX_TEXT_LENGTH` bytes, and with `Memory` if an allocation fails.
pub fn format<T: TextStore>(
    alloc: Global,
    store: &T,
    module: &Module,
    indent: Indent,
) -> Result<Vec<Edit>, EditRefusal>
    ensures edits { (scan : IsScan module.now.source)
        → IfOk result (λ edits. map range_and_text edits.items ≡
        map (edit_of_cut (T.unit_of store.now) (T.content store.now))
        (changed_gaps module.now.source.text (all_gaps indent module.now.source.text
        (line_roles 0 (named_tree_of module.now)) scan.lexemes))) }
    ensures fits { (scan : IsScan module.now.source)
        → IfOk result
        (λ _. length (formatted_text indent (named_tree_of module.now) scan.lexemes) ≤ max_text_length) }
    ensures too_long { (scan : IsScan module.now.source)
        → IsErrOf result TooLong
        → max_text_length < length (formatted_text indent (named_tree_of module.now) scan.lexemes) }
    ensures patched_text { (scan : IsScan module.now.source)
        → T.content store.now ≡ chars module.now.source.text → IfOk result (λ edits.
        patched_text (width_of (T.unit_of store.now)) (T.content store.now) edits.items
        ≡ Some (chars (formatted_text indent (named_tree_of module.now) scan.lexemes))) }
    ensures refusals { IfErr result (λ refusal. (refusal ≡ TooLong) ⊎ (refusal ≡ Memory)) }
{
    let tokens = module.tokens();
    let roles = line_roles(alloc, module)?;
    let gap_sites = gap_sites_to_change(alloc, tokens, &roles, indent)?;
    if !is_formatted_text_within_limit(&gap_sites, tokens.text().len(), indent) {
        return Err(EditRefusal::TooLong);
    }
    Ok(gap_edits(alloc, store, &gap_sites, indent)?)
}

/// Returns whether a text of `len` bytes has at most `MAX_TEXT_LENGTH` bytes after formatting.
/// `gap_sites` are the gaps that formatting changes.
fn is_formatted_text_within_limit(gap_sites: &[GapSite], len: usize, indent: Indent) -> bool
    requires length { len ≤ max_text_length }
    requires within { All (GapLiesInText len) gap_sites.now }
    ensures { IsTrue result
        ↔ length_after_cuts_from_offset len 0 (map (gap_cut indent) gap_sites.now) ≤ max_text_length }
{
    let mut made = 0;
    let mut at = 0;
    for site in gap_sites {
        made += site.start.saturating_sub(at) + site.gap.len(indent);
        if made > MAX_TEXT_LENGTH {
            return false;
        }
        at = site.end;
    }
    made + len.saturating_sub(at) <= MAX_TEXT_LENGTH
}

/// Returns the edits that replace the gaps `gap_sites` by their formatted texts, in the same order.
fn gap_edits<T: TextStore>(
    alloc: Global,
    store: &T,
    gap_sites: &[GapSite],
    indent: Indent,
) -> Result<Vec<Edit>, AllocError>
    ensures { IfOk result (λ edits. map range_and_text edits.items
        ≡ map (λ site. edit_of_cut (T.unit_of store.now) (T.content store.now)
        (gap_cut indent site)) gap_sites.now) }
{
    let gap_starts = gap_starts(alloc, gap_sites)?;
    let gap_ends = gap_ends(alloc, gap_sites)?;
    let from = store.positions(alloc, &gap_starts)?;
    let to = store.positions(alloc, &gap_ends)?;
    let mut edits = Vec::with_capacity(alloc, gap_sites.len())?;
    for (i, site) in gap_sites.iter().enumerate() {
        let range = Range {
            start: from[i],
            end: to[i],
        };
        let text = site.gap.text(alloc, indent)?;
        edits.push(Edit { range, text })?;
    }
    Ok(edits)
}

/// Returns the byte offsets in the text at which the gaps `gap_sites` start, in the same order.
fn gap_starts(alloc: Global, gap_sites: &[GapSite]) -> Result<Vec<usize>, AllocError>
    ensures { IfOk result (λ offsets. offsets.items ≡ map (λ site. site.start) gap_sites.now) }
{
    gap_sites.iter().map(|site| site.start).collect(alloc)
}

/// Returns the byte offsets in the text at which the gaps `gap_sites` end, in the same order.
fn gap_ends(alloc: Global, gap_sites: &[GapSite]) -> Result<Vec<usize>, AllocError>
    ensures { IfOk result (λ offsets. offsets.items ≡ map (λ site. site.end) gap_sites.now) }
{
    gap_sites.iter().map(|site| site.end).collect(alloc)
}
