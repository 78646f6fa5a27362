//! Finds the body of a module that contains a token. A body is the statements of a block. Also finds
//! the new indexes of tokens after the tokens of one body were replaced.

ghost use Rattle.std.specs.Prelude.{◌≡◌, IfOk, IfSome, map};
ghost use Rattle.ob0_tree.specs.View.{block_of, body_of, procedure_of};
ghost use Rattle.ob0_scope_table.specs.BodyReplacement.{shifted_token_index};
ghost use Rattle.ob0_types.specs.OneBody.{body_with_token_in_block, body_with_token_in_procedure};

use ob0_scan::CommonPrefixAndSuffix;
use ob0_tree::{Block, Procedure, Statement};
use std::alloc::{AllocError, Global};

/// Returns the body that contains the token with this index: the body of this block or of a
/// procedure in the block. If no body contains the token, the result may be any of these bodies.
#[cycle(blocks)]
pub(crate) fn body_with_token_in_block(b: &Block, token: usize) -> &Option<Vec<Statement>>
    ensures { body_of result.now ≡ body_with_token_in_block token (block_of b.now) }
{
    for p in &b.procedures {
        if p.closing >= token {
            return body_with_token_in_procedure(p, token);
        }
    }
    &b.body
}

/// Returns the body that contains the token with this index: the body of this procedure or of a
/// procedure in it. If no body contains the token, the result may be any of these bodies.
#[cycle(blocks)]
fn body_with_token_in_procedure(p: &Procedure, token: usize) -> &Option<Vec<Statement>>
    ensures { body_of result.now ≡ body_with_token_in_procedure token (procedure_of p.now) }
{
    body_with_token_in_block(&p.block, token)
}

/// Returns the index in the changed text of a token outside the replaced tokens, given its old
/// index. `same` says which tokens at the start and at the end of the text are unchanged. Returns
/// None if the new index doesn't fit in 64 bits.
fn shifted_token_index(token: usize, same: CommonPrefixAndSuffix) -> Option<usize>
    ensures { IfSome result (λ moved. moved ≡ shifted_token_index same token) }
{
    if token < same.prefix {
        return Some(token);
    }
    let following = token.saturating_sub(same.old_suffix);
    same.new_suffix.checked_add(following)
}

/// Returns the indexes in the changed text of tokens outside the replaced tokens, given their old
/// indexes. `same` says which tokens at the start and at the end of the text are unchanged. Returns
/// None if a new index doesn't fit in 64 bits.
pub(crate) fn shifted_token_indexes(
    alloc: Global,
    tokens: &[usize],
    same: CommonPrefixAndSuffix,
) -> Result<Option<Vec<usize>>, AllocError>
    ensures { IfOk result (λ found. IfSome found (λ moved. moved.items
        ≡ map (shifted_token_index same) tokens.now)) }
{
    let mut moved = Vec::new(alloc);
    for token in tokens {
        let Some(index) = shifted_token_index(*token, same) else {
            return Ok(None);
        };
        moved.push(index)?;
    }
    Ok(Some(moved))
}
