//! Binds names and checks types of a module that differs from an earlier module only in the
//! statements of one body. Outside this body, the names and types of the earlier module are reused.

ghost use Rattle.std.specs.Prelude.{◌≡◌, IfOk, IfSome};
ghost use Rattle.ob0_tree.specs.ParsedModule.{TreeMatchesText, parsed_module};
ghost use Rattle.ob0_scope_table.specs.BoundsOfBodies.{module_tree_of};
ghost use Rattle.ob0_analysis.specs.LastModule.{IsLastModuleOf};
ghost use Rattle.ob0_analysis.specs.BodyAfterFirstIdentifier.{IsBodyAfterFirstIdentifier};

use crate::last_module::LastModule;
use crate::module_parts::ModuleParts;
use ob0_scan::Tokens;
use ob0_scope::rebind_replaced_body;
use ob0_scope_table::{BodyBounds, Resolved, body_bounds_in_tree};
use ob0_tree::{Module, ModuleTree};
use ob0_types::check_result_after_body_replacement;
use std::alloc::{AllocError, Global};

/// Analyses a module, given its tokens and tree, and reuses names and types of an earlier module
/// (`last`) if possible. If the tokens that may differ are all tokens of one body after its first
/// identifier, in this module as in the earlier one, only names and types in that body are bound
/// and checked. Otherwise all names are bound and all types are checked.
pub(crate) fn reuse_last_module(
    alloc: Global,
    tokens: Tokens,
    tree: ModuleTree,
    last: LastModule,
) -> Result<ModuleParts, AllocError>
    requires parsed { TreeMatchesText (parsed_module tokens tree) }
    requires before { IsLastModuleOf tokens last }
    ensures { IfOk result (λ m. m.module_read ≡ parsed_module tokens tree) }
{
    let LastModule {
        bindings,
        types,
        same,
    } = last;
    let Some(body) = body_after_first_identifier(&tree, same.prefix, same.new_suffix) else {
        return ModuleParts::bind_and_check(alloc, tokens, tree);
    };
    let names = rebind_replaced_body(alloc, &Module::from_parts(&tokens, &tree), bindings, same)?;
    let types = check_result_after_body_replacement(
        alloc,
        &Resolved::from_parts(&Module::from_parts(&tokens, &tree), &names),
        types,
        same,
        body.closing,
    )?;
    Ok(ModuleParts::from_parts(tokens, tree, names, types))
}

/// Returns the bounds of the body whose tokens after its first identifier are those from `low` up
/// to, but not including, `high`. Returns None if there is no such body.
fn body_after_first_identifier(tree: &ModuleTree, low: usize, high: usize) -> Option<BodyBounds>
    ensures { IfSome result (IsBodyAfterFirstIdentifier (module_tree_of tree.now) low high) }
{
    let body = body_bounds_in_tree(tree, low, high)?;
    if body.first.checked_add(1)? != low {
        return None;
    }
    if high.checked_add(1)? != body.closing {
        return None;
    }
    Some(body)
}
