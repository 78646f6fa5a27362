//! Parses the tokens of a text as a module: the parser's public functions.

ghost use Rattle.std.specs.Prelude.{◌≡◌, IfOk, IfErr};
ghost use Rattle.ob0_tree.specs.TokenIndexLeaves.{indexed_terminals};
ghost use Rattle.ob0_tree.specs.ParsedModule.{TreeMatchesText, parsed_module};
ghost use Rattle.ob0_parse_descent.specs.Descent.{TextDescentEndsWith, Done};
ghost use Rattle.ob0_parse.specs.IsRightParseRefusal.{IsRightParseRefusal};
ghost use Rattle.ob0_parse.specs.KeptTreeTokens.{KeptTreesMatchTokens};

use crate::KeptTrees;
use crate::kept_trees::keep_procedures;
use crate::module_block::parse_module;
use ob0_parse_descent::{ParseRefusal, Parser};
use ob0_scan::Tokens;
use ob0_tree::{Module, ModuleTree};
use std::alloc::Global;

/// Returns the module that the tokens form. Returns a refusal if the tokens form no module or an
/// allocation fails.
pub fn parse<'t>(alloc: Global, tokens: &'t Tokens) -> Result<Module<'t>, ParseRefusal>
    ensures found { IfOk result (λ m. (m.source ≡ tokens.now) × TreeMatchesText m) }
    ensures read { IfOk result (λ _. TextDescentEndsWith (indexed_terminals tokens.now.tokens)
        Done) }
    ensures refused { IfErr result (IsRightParseRefusal tokens.now) }
{
    let tree = parse_tree(alloc, tokens)?;
    Ok(Module::new(tokens, tree))
}

/// Returns the tree of the module that the tokens form. Returns a refusal if the tokens form no
/// module or an allocation fails. The tree borrows nothing, so it can be kept next to the tokens.
pub fn parse_tree(alloc: Global, tokens: &Tokens) -> Result<ModuleTree, ParseRefusal>
    ensures found { IfOk result (λ tree. TreeMatchesText (parsed_module tokens.now tree)) }
    ensures read { IfOk result (λ _. TextDescentEndsWith (indexed_terminals tokens.now.tokens)
        Done) }
    ensures refused { IfErr result (IsRightParseRefusal tokens.now) }
{
    let mut none = KeptTrees::empty(alloc);
    reparse_tree(alloc, tokens, &mut none)
}

/// Returns the tree of the module that the tokens form. Returns a refusal if the tokens form no
/// module or an allocation fails. Reuses the procedures and the body that `kept` has from earlier
/// parses. The tokens in the range of each kept tree must have the kinds that the tree spells
/// (`KeptTreesMatchTokens`). If the result is a refusal, `kept` may then also have procedures that
/// this parse made or reused.
pub fn reparse_tree(
    alloc: Global,
    tokens: &Tokens,
    kept: &mut KeptTrees,
) -> Result<ModuleTree, ParseRefusal>
    requires { KeptTreesMatchTokens tokens.now.tokens kept.old }
    ensures found { IfOk result (λ tree. TreeMatchesText (parsed_module tokens.now tree)) }
    ensures read { IfOk result (λ _. TextDescentEndsWith (indexed_terminals tokens.now.tokens)
        Done) }
    ensures refused { IfErr result (IsRightParseRefusal tokens.now) }
    ensures stay { KeptTreesMatchTokens tokens.now.tokens kept.new }
{
    // The contract of `text` states the invariant of the tokens, and the proof uses this invariant.
    let _scanned = tokens.text();
    let parser = Parser {
        alloc,
        tokens: tokens.tokens(),
    };
    let mut procedures = Vec::new(alloc);
    match parse_module(&parser, &mut kept.trees, &mut procedures) {
        Ok((name, parts, closing)) => Ok(ModuleTree {
            name,
            block: parts.into_block_with_procedures(procedures),
            closing,
        }),
        Err(refusal) => {
            keep_procedures(&mut kept.trees, procedures)?;
            Err(refusal)
        }
    }
}
