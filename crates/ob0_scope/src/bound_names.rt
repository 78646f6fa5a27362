//! Finds the name at an offset of a module's text, and the tokens that are bound to a declaration.
//!
//! The definitions and the code find these tokens in different ways. The definitions list the
//! identifiers of the tree, each with a role, a token and a label. The label is the ordinal to
//! which the identifier is bound, or its spelling if it is unbound. The code doesn't walk the tree.
//! It searches the table of ordinals, starting at the declaring token.

ghost use Rattle.std.specs.Prelude.{◌≡◌, ◌≤◌, IfOk, false, length, nat_lt, true};
ghost use Rattle.std.specs.List.{position_from};
ghost use Rattle.std.specs.List.Sorted.{IsNonDecreasingBy, IsPartitionPoint};
ghost use Rattle.ob0_scan.specs.declared.lexeme.Token as token;
ghost use Rattle.ob0_tree.specs.IdentifierIndexes.{AreIdentifierTokens, AreAscendingWithin};
ghost use Rattle.ob0_scope_table.specs.Spans.{TokensAreDisjoint};
ghost use Rattle.ob0_scope.specs.BoundTokens.{first_bound_token, is_identifier, is_identifier_at_offset, omitted_token, tokens_bound_in_table};
ghost use Rattle.ob0_scope.specs.NamesAtPlaces.{RenamingChangesExactlyTokens, name_at_offset, tokens_bound_to_declaration};

use ob0_scan::{Token, TokenKind};
use ob0_scope_table::{OrdinalEntry, Resolved, same_ordinal};
use std::alloc::{AllocError, Global};

/// An identifier that is bound to a declaration: its token index, and the declaration's ordinal.
#[derive(Clone, Copy, PartialEq, Eq)]
pub struct BoundName {
    pub token: usize,
    pub ordinal: usize,
}

/// Returns the name that contains the byte offset `offset` or ends there. The name may be
/// predeclared. A closing name of a procedure counts as the procedure's name. Returns None if there
/// is no identifier at `offset`, or if the identifier is a field, the module's name or an unbound
/// name.
pub fn name_at_offset(names: &Resolved, offset: usize) -> Option<BoundName>
    ensures { result ≡ name_at_offset names.now.module_read offset }
{
    let tokens = names.module().tokens();
    // The proof needs the contract of this call.
    let _scanned = tokens.text();
    match first_identifier_at_offset(tokens.tokens(), offset) {
        Some(token) => match names.ordinal_at(token) {
            Some(ordinal) => Some(BoundName { token, ordinal }),
            None => None,
        },
        None => None,
    }
}

/// Returns the tokens that are bound to the declaration with the ordinal `declaration`, in text
/// order, including a procedure's closing name. The declaring token is included only if `include`
/// is true.
pub fn tokens_bound_to_declaration(
    alloc: Global,
    names: &Resolved,
    declaration: usize,
    include: bool,
) -> Result<Vec<usize>, AllocError>
    ensures { IfOk result
        (λ found. found.items ≡ tokens_bound_to_declaration names.now.module_read declaration include) }
{
    // The proof needs the contract of this call.
    let _ = names.module();
    let declaring = names.declaring_token(declaration);
    tokens_bound_in_table(
        alloc,
        names.ordinals(),
        first_bound_token(declaring),
        declaration,
        omitted_token(include, declaring),
    )
}

/// Returns the token to omit from the tokens bound to a declaration: the declaring token
/// `declaring`. If `include` is true, returns None, because no token is omitted.
fn omitted_token(include: bool, declaring: Option<usize>) -> Option<usize>
    ensures { result ≡ omitted_token include declaring }
{
    if include { None } else { declaring }
}

/// Returns the first token that can be bound to a declaration: the declaring token, or token 0 if
/// the name is predeclared (`declaring` is None).
fn first_bound_token(declaring: Option<usize>) -> usize
    ensures { result ≡ first_bound_token declaring }
{
    match declaring {
        Some(token) => token,
        None => 0,
    }
}

/// Returns the tokens that the table `ordinals` binds to the declaration with the ordinal
/// `declaration`, in text order. Tokens before `first` and the token `omitted` are left out.
fn tokens_bound_in_table(
    alloc: Global,
    ordinals: &[OrdinalEntry],
    first: usize,
    declaration: usize,
    omitted: Option<usize>,
) -> Result<Vec<usize>, AllocError>
    ensures { IfOk result
        (λ found. found.items ≡ tokens_bound_in_table omitted declaration first ordinals.now) }
{
    let mut found = Vec::new(alloc);
    for token in first..ordinals.len() {
        if same_ordinal(ordinals[token].ordinal(), declaration) && !same_ordinal(omitted, token) {
            found.push(token)?;
        }
    }
    Ok(found)
}

/// Returns the tokens at which renaming a declaration changes the text: the declaring token, a
/// procedure's closing name, and the occurrences bound to the declaration.
pub fn tokens_changed_by_rename(
    alloc: Global,
    names: &Resolved,
    declaration: usize,
) -> Result<Vec<usize>, AllocError>
    ensures bound { IfOk result
        (λ found. found.items ≡ tokens_bound_to_declaration names.now.module_read declaration true) }
    ensures ascend { IfOk result
        (λ found. AreAscendingWithin 0 found.items (length names.now.module_read.source.tokens)) }
    ensures are_identifiers { IfOk result
        (λ found. AreIdentifierTokens names.now.module_read.source.tokens found.items) }
    ensures renamed { IfOk result
        (λ found. RenamingChangesExactlyTokens names.now.module_read declaration found.items) }
{
    // The proof needs the contract of this call.
    let _ = names.module();
    tokens_bound_to_declaration(alloc, names, declaration, true)
}

/// Returns the token index of the first identifier that contains the byte offset `offset` or ends
/// there, found by binary search. The tokens must be in text order and must not overlap. So only
/// the first token that doesn't end before `offset`, and the token after it, can be that
/// identifier. Returns None if neither token is.
fn first_identifier_at_offset(tokens: &[Token], offset: usize) -> Option<usize>
    ensures { TokensAreDisjoint 0 tokens.now
        → result ≡ position_from (is_identifier_at_offset offset) 0 tokens.now }
{
    let place = count_tokens_before_offset(tokens, offset);
    if place >= tokens.len() {
        return None;
    }
    if is_identifier_at_offset(&tokens[place], offset) {
        return Some(place);
    }
    let next = place + 1;
    if next >= tokens.len() {
        return None;
    }
    if is_identifier_at_offset(&tokens[next], offset) {
        return Some(next);
    }
    None
}

/// Returns the number of tokens that end before the byte offset `offset`. The tokens must be in the
/// order of their ends.
pub fn count_tokens_before_offset(tokens: &[Token], offset: usize) -> usize
    ensures bound { result ≤ length tokens.now }
    ensures point { IsNonDecreasingBy (λ (t : token.Token). t.span.end) tokens.now
        → IsPartitionPoint (λ (t : token.Token). nat_lt t.span.end offset ≡ true)
        (λ (t : token.Token). nat_lt t.span.end offset ≡ false) tokens.now result }
{
    tokens.partition_point(|token| (token.span.end as usize) < offset)
}

/// Returns whether the token is an identifier that contains the byte offset `offset` or ends there.
pub fn is_identifier_at_offset(token: &Token, offset: usize) -> bool
    ensures { result ≡ is_identifier_at_offset offset token.now }
{
    is_identifier(token.kind)
        && token.span.start as usize <= offset
        && offset <= token.span.end as usize
}

/// Returns whether `kind` is the kind of an identifier.
fn is_identifier(kind: TokenKind) -> bool
    ensures { result ≡ is_identifier kind }
{
    match kind {
        TokenKind::Identifier => true,
        TokenKind::ReservedWord(_) => false,
        TokenKind::Integer(_) => false,
        TokenKind::Symbol(_) => false,
    }
}
