//! Finds the body (the statements of one block) that contains a range of tokens, if there is one. A
//! range has the tokens from `low` up to, but not including, `high`. A body contains the range if
//! `low` is at or after its first identifier, and `high` is at or before its block's closing name.

ghost use Rattle.std.specs.Prelude.{◌≡◌};
ghost use Rattle.ob0_tree.specs.View.{block_of, body_of, procedure_of};
ghost use Rattle.ob0_tree.specs.Tree.{identifiers};
ghost use Rattle.ob0_tree.specs.declared.tree.Role.TheVariants as roles;
ghost use Rattle.ob0_scope_table.specs.BoundsOfBodies.{body_bounds_of_range, body_bounds_of_statements_if, body_bounds_in_block, body_bounds_in_procedure, module_tree_of};
ghost use Rattle.ob0_scope_table.specs.SpellingChangesInOneBody.{first_identifier_is_at_or_before_token};

use ob0_tree::{Block, ModuleTree, Procedure, Statement, first_identifier};

/// The bounds of a body: the token index of its first identifier, and the token index of its
/// block's closing name.
#[derive(Clone, Copy)]
pub struct BodyBounds {
    pub first: usize,
    pub closing: usize,
}

/// Returns the bounds of the body that contains the tokens from `low` up to, but not including,
/// `high` in a tree. Returns None if no body contains them.
pub fn body_bounds_in_tree(tree: &ModuleTree, low: usize, high: usize) -> Option<BodyBounds>
    ensures { result ≡ body_bounds_of_range low high (module_tree_of tree.now) }
{
    if high > tree.closing {
        return None;
    }
    body_bounds_in_block(&tree.block, tree.closing, low, high)
}

/// Returns the bounds of the body that contains the tokens from `low` up to, but not including,
/// `high`: the body of this block or of a procedure inside it. `closing` is the token of the
/// block's closing name. The caller checks that `high` is at or before `closing`. Returns None if
/// no body contains the tokens.
#[cycle(places)]
fn body_bounds_in_block(b: &Block, closing: usize, low: usize, high: usize) -> Option<BodyBounds>
    ensures { result ≡ body_bounds_in_block low high closing (block_of b.now) }
{
    for p in &b.procedures {
        if p.closing >= low {
            if high > p.closing {
                return None;
            }
            return body_bounds_in_procedure(p, low, high);
        }
    }
    body_bounds_of_statements(&b.body, closing, low)
}

/// Returns the bounds of the body that contains the tokens from `low` up to, but not including,
/// `high`: the body of this procedure or of one inside it. The caller checks that `high` is at or
/// before the procedure's closing name. Returns None if no body contains the tokens.
#[cycle(places)]
fn body_bounds_in_procedure(p: &Procedure, low: usize, high: usize) -> Option<BodyBounds>
    ensures { result ≡ body_bounds_in_procedure low high (procedure_of p.now) }
{
    body_bounds_in_block(&p.block, p.closing, low, high)
}

/// Returns the bounds of the body with these statements. `closing` is the token of its block's
/// closing name. Returns None if the statements have no identifier, or if their first identifier is
/// after the token `low`.
fn body_bounds_of_statements(
    statements: &Option<Vec<Statement>>,
    closing: usize,
    low: usize,
) -> Option<BodyBounds>
    ensures { result
        ≡ body_bounds_of_statements_if (first_identifier_is_at_or_before_token low (identifiers roles.DeclaringName (body_of statements.now)))
        (body_of statements.now) closing }
{
    let first = first_identifier(statements)?;
    if first > low {
        return None;
    }
    Some(BodyBounds { first, closing })
}
