//! Parses a module: its name, its block and its closing name. If procedures or a body from earlier
//! parses are kept, the parser reuses them.

ghost use Rattle.std.specs.Prelude.{◌≡◌, ◌≤◌, All, length};
ghost use Rattle.ob0_tree.specs.View.{block_of, body_of, procedure_of};
ghost use Rattle.ob0_tree.specs.Module.{max_nesting};
ghost use Rattle.ob0_parse_descent.specs.ParserPromises.{Reads, ReadsItem};
ghost use Rattle.ob0_parse.specs.KeptTreeTokens.{TokensContainProcedures, KeptTreeMatchesTokens};
ghost use Rattle.ob0_parse.specs.ModuleBlock.{block_with_procedures, ReadsModule, ReadsModuleProcedures};

use crate::kept_trees::{has_reserved_word_at, take_tree_at};
use crate::{KeptTree, ReusableConstruct};
use ob0_parse_descent::{
    ConstructResult, ExpectedSyntax, ItemResult, ParseRefusal, Parser, push_with_doubling,
    syntax_error,
};
use ob0_scan::{ReservedWord, Symbol};
use ob0_tree::{
    Block, ConstantDeclaration, MAX_NESTING, Procedure, Statement, TypeDeclaration,
    VariableDeclaration,
};

/// Parses the block of a module (its declarations and its body), beginning at the token `at`.
/// Stores the procedures in `procedures`. Returns the other parts of the block, and the index of
/// the token after the block. Reused trees are removed from `kept`.
fn parse_module_block(
    parser: &Parser<'_>,
    at: usize,
    kept: &mut Vec<KeptTree>,
    procedures: &mut Vec<Procedure>,
) -> ConstructResult<ModuleBlockWithoutProcedures>
    requires at { at ≤ length parser.now.tokens.now }
    requires kept { All (KeptTreeMatchesTokens parser.now.tokens.now) kept.old.items }
    requires procedures { TokensContainProcedures parser.now.tokens.now procedures.old.items }
    ensures read { Reads (block_with_procedures procedures.new.items) max_nesting parser.now.tokens.now
        at result }
    ensures kept { All (KeptTreeMatchesTokens parser.now.tokens.now) kept.new.items }
    ensures procedures { TokensContainProcedures parser.now.tokens.now procedures.new.items }
{
    let (constants, next) = parser.parse_constant_section(at, MAX_NESTING)?;
    let (types, next) = parser.parse_type_section(next, MAX_NESTING)?;
    let (variables, next) = parser.parse_variable_section(next, MAX_NESTING)?;
    let next = parse_module_procedures(parser, next, kept, procedures)?;
    let (body, next) = parse_module_body(parser, next, kept)?;
    Ok((
        ModuleBlockWithoutProcedures {
            constants,
            types,
            variables,
            body,
        },
        next,
    ))
}

/// Parses the procedures that are declared directly in a module, `{procedure ";"}`, beginning at
/// the token `at`. Stores them in `procedures`, and returns the index of the token after them. If
/// the result is a refusal, `procedures` has the procedures before the refused token.
fn parse_module_procedures(
    parser: &Parser<'_>,
    at: usize,
    kept: &mut Vec<KeptTree>,
    procedures: &mut Vec<Procedure>,
) -> Result<usize, ParseRefusal>
    requires at { at ≤ length parser.now.tokens.now }
    requires kept { All (KeptTreeMatchesTokens parser.now.tokens.now) kept.old.items }
    ensures read { ReadsModuleProcedures procedures.new.items parser.now.tokens.now at result }
    ensures kept { All (KeptTreeMatchesTokens parser.now.tokens.now) kept.new.items }
    ensures procedures { TokensContainProcedures parser.now.tokens.now procedures.new.items }
{
    procedures.clear();
    let mut next = at;
    while let Some((procedure, end)) = parse_or_reuse_module_procedure(parser, next, kept)? {
        push_with_doubling(procedures, procedure)?;
        next = end;
    }
    Ok(next)
}

/// Returns the procedure that begins at the token `at`, and the index of the token after it. If the
/// procedure is in `kept`, it is reused, otherwise it is parsed. Returns None if the token at `at`
/// isn't PROCEDURE.
fn parse_or_reuse_module_procedure(
    parser: &Parser<'_>,
    at: usize,
    kept: &mut Vec<KeptTree>,
) -> ItemResult<Procedure>
    requires at { at ≤ length parser.now.tokens.now }
    requires kept { All (KeptTreeMatchesTokens parser.now.tokens.now) kept.old.items }
    ensures read { ReadsItem procedure_of max_nesting parser.now.tokens.now at result }
    ensures kept { All (KeptTreeMatchesTokens parser.now.tokens.now) kept.new.items }
{
    if !has_reserved_word_at(parser, at, ReservedWord::Procedure) {
        return Ok(None);
    }
    let Some((construct, next)) = take_tree_at(parser, kept, at) else {
        return parser.parse_procedure(at, MAX_NESTING);
    };
    match construct {
        ReusableConstruct::Procedure(procedure) => Ok(Some((procedure, next))),
        ReusableConstruct::Body(_statements) => parser.parse_procedure(at, MAX_NESTING),
    }
}

/// Returns the body that begins at the token `at`, and the index of the token after it. If the body
/// is in `kept`, it is reused, otherwise it is parsed. The returned body is None if the token isn't
/// BEGIN.
fn parse_module_body(
    parser: &Parser<'_>,
    at: usize,
    kept: &mut Vec<KeptTree>,
) -> ConstructResult<Option<Vec<Statement>>>
    requires at { at ≤ length parser.now.tokens.now }
    requires kept { All (KeptTreeMatchesTokens parser.now.tokens.now) kept.old.items }
    ensures read { Reads body_of max_nesting parser.now.tokens.now at result }
    ensures kept { All (KeptTreeMatchesTokens parser.now.tokens.now) kept.new.items }
{
    let Some((construct, next)) = take_tree_at(parser, kept, at) else {
        return parser.parse_body(at, MAX_NESTING);
    };
    match construct {
        ReusableConstruct::Body(statements) => Ok((Some(statements), next)),
        ReusableConstruct::Procedure(_procedure) => parser.parse_body(at, MAX_NESTING),
    }
}

/// Parses all tokens as a module, reusing trees that are in `kept`. Stores the procedures in
/// `procedures`. Returns the token index of the module's name, the other parts of the module's
/// block, and the token index of the closing name.
pub(crate) fn parse_module(
    parser: &Parser<'_>,
    kept: &mut Vec<KeptTree>,
    procedures: &mut Vec<Procedure>,
) -> Result<(usize, ModuleBlockWithoutProcedures, usize), ParseRefusal>
    requires kept { All (KeptTreeMatchesTokens parser.now.tokens.now) kept.old.items }
    requires procedures { TokensContainProcedures parser.now.tokens.now procedures.old.items }
    ensures read { ReadsModule procedures.new.items parser.now.tokens.now result }
    ensures kept { All (KeptTreeMatchesTokens parser.now.tokens.now) kept.new.items }
    ensures procedures { TokensContainProcedures parser.now.tokens.now procedures.new.items }
{
    let start = parser.expect_reserved_word(0, ReservedWord::Module)?;
    let (name, next) = parser.expect_identifier(start)?;
    let inside = parser.expect_symbol(next, Symbol::Semicolon)?;
    let (parts, next) = parse_module_block(parser, inside, kept, procedures)?;
    let last = parser.expect_reserved_word(next, ReservedWord::End)?;
    let (closing, next) = parser.expect_identifier(last)?;
    let end = parser.expect_symbol(next, Symbol::Dot)?;
    match parser.kind(end) {
        Some(_) => syntax_error(end, ExpectedSyntax::EndOfText),
        None => Ok((name, parts, closing)),
    }
}

/// The parts of a module's block except its procedures.
#[derive(Drop)]
pub(crate) struct ModuleBlockWithoutProcedures {
    constants: Option<Vec<ConstantDeclaration>>,
    types: Option<Vec<TypeDeclaration>>,
    variables: Option<Vec<VariableDeclaration>>,
    body: Option<Vec<Statement>>,
}

impl ModuleBlockWithoutProcedures {
    /// Returns the block with these parts and the given procedures.
    pub(crate) fn into_block_with_procedures(self, procedures: Vec<Procedure>) -> Block
        ensures { block_of result ≡ block_with_procedures procedures.items self }
    {
        Block {
            constants: self.constants,
            types: self.types,
            variables: self.variables,
            procedures,
            body: self.body,
        }
    }
}
