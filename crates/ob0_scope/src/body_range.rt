//! Finds the body (the statements of a block) that changed, and the names that are visible in it.
//! After a body is replaced, moves the bindings of all tokens outside it to the tokens' new
//! indexes.

ghost use Rattle.std.specs.Prelude.{◌≡◌, ◌≤◌, ◌++◌, IfOk, OnOk, drop, false, length, map, nat_lt, take, true};
ghost use Rattle.std.specs.List.Sorted.{IsNonDecreasing, IsPartitionPoint};
ghost use Rattle.ob0_tree.specs.View.{block_of, body_of, procedure_of};
ghost use Rattle.ob0_scope_table.specs.BodyReplacement.{body_at_path_in_block, body_at_path_in_procedure, closing_name_at_path_in_block, closing_name_at_path_in_procedure, path_to_body_in_block, path_to_body_in_procedure};
ghost use Rattle.ob0_scope.specs.NamesVisibleInBody.{names_visible_at_path_in_block, names_visible_at_path_in_procedure};
ghost use Rattle.ob0_scope.specs.BindingsOutsideBody.{tokens_in_changed_text, ordinals_in_changed_text, old_closing_token, shifted_token};

use crate::declaration_checks::{
    append_constant_names, append_formal_parameter_names, append_type_names, append_variable_names,
};
use ob0_scan::CommonPrefixAndSuffix;
use ob0_scope_table::OrdinalEntry;
use ob0_tree::{Block, Procedure, Statement};
use std::alloc::{AllocError, Global};

/// The range of tokens from a body's first identifier up to, but not including, the closing name of
/// its block. `old_closing` is the index that the closing name had before the statements were
/// replaced.
#[derive(Clone, Copy)]
pub(crate) struct BodyRange {
    pub(crate) first: usize,
    pub(crate) old_closing: usize,
    pub(crate) closing: usize,
}

/// The statements of a block, with the token of the block's closing name.
#[derive(Clone, Copy)]
pub(crate) struct BodyWithClosingName<'t> {
    pub(crate) statements: &'t Option<Vec<Statement>>,
    pub(crate) closing: usize,
}

/// Returns the body that contains the token `low`: the body of this block or of a procedure inside
/// it. If no body contains `low`, the result may be any of these bodies. The search continues in
/// the block's first procedure whose closing name is at or after `low`. If there is no such
/// procedure, the result is the block's own body. `own` is the token of the block's closing name.
/// Also appends to `names` the tokens of all names declared in this block and in the procedures
/// around the body, before the body and in text order. These names are visible in the body, except
/// those that an inner declaration hides.
#[cycle(blocks)]
pub(crate) fn find_body_in_block<'t>(
    inner: &'t Block,
    own: usize,
    low: usize,
    names: &mut Vec<usize>,
) -> Result<BodyWithClosingName<'t>, AllocError>
    ensures statements { IfOk result (λ found. body_of found.statements.now
        ≡ body_at_path_in_block (path_to_body_in_block low (block_of inner.now)) (block_of inner.now)) }
    ensures closing { IfOk result (λ found. found.closing
        ≡ closing_name_at_path_in_block (path_to_body_in_block low (block_of inner.now)) own (block_of inner.now)) }
    ensures names { OnOk result (names.new.items ≡ names.old.items
        ++ names_visible_at_path_in_block (path_to_body_in_block low (block_of inner.now)) (block_of inner.now)) }
{
    append_constant_names(names, &inner.constants)?;
    append_type_names(names, &inner.types)?;
    append_variable_names(names, &inner.variables)?;
    for p in &inner.procedures {
        names.push(p.name)?;
        if p.closing >= low {
            return find_body_in_procedure(p, low, names);
        }
    }
    Ok(BodyWithClosingName {
        statements: &inner.body,
        closing: own,
    })
}

/// Returns the body that contains the token `low`: the body of this procedure or of a procedure
/// inside it. If no body contains `low`, the result may be any of these bodies. Also appends to
/// `names` the tokens of all names declared in this procedure and in the procedures around the
/// body, before the body and in text order. The procedure's own name isn't appended here.
#[cycle(blocks)]
fn find_body_in_procedure<'t>(
    p: &'t Procedure,
    low: usize,
    names: &mut Vec<usize>,
) -> Result<BodyWithClosingName<'t>, AllocError>
    ensures statements { IfOk result (λ found. body_of found.statements.now
        ≡ body_at_path_in_procedure (path_to_body_in_procedure low (procedure_of p.now)) (procedure_of p.now)) }
    ensures closing { IfOk result (λ found. found.closing
        ≡ closing_name_at_path_in_procedure (path_to_body_in_procedure low (procedure_of p.now)) (procedure_of p.now)) }
    ensures names { OnOk result (names.new.items ≡ names.old.items
        ++ names_visible_at_path_in_procedure (path_to_body_in_procedure low (procedure_of p.now)) (procedure_of p.now)) }
{
    append_formal_parameter_names(names, &p.formals)?;
    find_body_in_block(&p.block, p.closing, low, names)
}

/// Converts the old module's table of ordinals, `old`, to a table for the changed text: each entry
/// outside the changed tokens moves to its token's new index. The entries of the changed tokens are
/// None. `same` says which tokens at the start and at the end of the text are unchanged.
pub(crate) fn ordinals_in_changed_text(
    alloc: Global,
    old: &[OrdinalEntry],
    same: CommonPrefixAndSuffix,
) -> Result<Vec<OrdinalEntry>, AllocError>
    ensures { IfOk result (λ table. table.items ≡ ordinals_in_changed_text same old.now) }
{
    let following = old.len().saturating_sub(same.old_suffix);
    let mut table = Vec::with_capacity(alloc, same.new_suffix.saturating_add(following))?;
    table.extend_from_slice(&old[..same.prefix.min(old.len())])?;
    table.resize(same.new_suffix, OrdinalEntry::new(None))?;
    table.extend_from_slice(&old[same.old_suffix.min(old.len())..])?;
    Ok(table)
}

/// Returns the old token index of the closing name that follows the replaced statements. `closing`
/// is the closing name's index in the changed text. `same` says which tokens at the start and at
/// the end of the text are unchanged. A result over 2^64 - 1 becomes 2^64 - 1.
pub(crate) fn old_closing_token(same: CommonPrefixAndSuffix, closing: usize) -> usize
    ensures { result ≡ old_closing_token same closing }
{
    closing
        .saturating_sub(same.new_suffix)
        .saturating_add(same.old_suffix)
}

impl BodyRange {
    /// Returns the index in the changed text of a token that follows the body, given its old index.
    /// A result over 2^64 - 1 becomes 2^64 - 1.
    fn shifted_token(self, token: usize) -> usize
        ensures { result ≡ shifted_token self token }
    {
        token
            .saturating_sub(self.old_closing)
            .saturating_add(self.closing)
    }

    /// Moves the token at the position `start` of the list `tokens`, and all tokens after it in the
    /// list, to their indexes in the changed text.
    fn shift_tokens(self, tokens: &mut Vec<usize>, start: usize)
        requires { start ≤ length tokens.old.items }
        ensures { tokens.new.items
            ≡ take start tokens.old.items ++ map (shifted_token self) (drop start tokens.old.items) }
    {
        for position in start..tokens.len() {
            tokens[position] = self.shifted_token(tokens[position]);
        }
    }

    /// Converts the ascending list `tokens` of token indexes of the old text to indexes in the
    /// changed text. The tokens of the old body are replaced by `own`, the tokens of the new body.
    /// The tokens before the body aren't visited.
    pub(crate) fn replace_tokens(
        self,
        tokens: &mut Vec<usize>,
        own: &[usize],
    ) -> Result<(), AllocError>
        requires ordered { self.first ≤ self.old_closing }
        requires ascending { IsNonDecreasing tokens.old.items }
        ensures { OnOk result (tokens.new.items
            ≡ tokens_in_changed_text self tokens.old.items own.now) }
    {
        let start = count_tokens_before(tokens, self.first);
        let end = count_tokens_before(tokens, self.old_closing);
        self.shift_tokens(tokens, end);
        tokens.splice(start..end, own.iter().copied())?;
        Ok(())
    }
}

/// Returns the number of tokens in the ascending list `tokens` that are before the token `limit`.
/// Finds it by binary search.
fn count_tokens_before(tokens: &[usize], limit: usize) -> usize
    requires { IsNonDecreasing tokens.now }
    ensures bound { result ≤ length tokens.now }
    ensures point { IsPartitionPoint (λ token. nat_lt token limit ≡ true)
        (λ token. nat_lt token limit ≡ false) tokens.now result }
{
    tokens.partition_point(|token| *token < limit)
}
