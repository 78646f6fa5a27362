//! Finds the constant whose name is at a byte offset in the text, and the first and last token of
//! its declaration.

ghost use Rattle.std.specs.Prelude.{◌≡◌, drop, IsSomeAnd, MatchOption, Some};
ghost use Rattle.std.specs.List.{position_from};
ghost use Rattle.ob0_tree.specs.ParsedModule.{named_tree_of};
ghost use Rattle.ob0_language_types.specs.ConstantValues.{constant_value_in_module};
ghost use Rattle.ob0_language_values.specs.Scalars.{scalar_value};
ghost use Rattle.ob0_inline.specs.Declarations.{is_semicolon};
ghost use Rattle.ob0_inline.specs.Everywhere.{IsDeclaredConstant, IsConstantAtOffset, HasNoConstantAtOffset};

use ob0_language_values::Scalar;
use ob0_scan::{Symbol, Token, TokenKind};
use ob0_scope::name_at_offset;
use ob0_scope_table::Resolved;
use ob0_types::WellTyped;

/// A constant of a CONST section, with its value. `ordinal` is the number of its declaration. The
/// predeclared names are numbered first, from 0, and then all declarations of the module in text
/// order. `first` is the index of the token that declares the name, and `last` is the index of the
/// declaration's `;`.
#[derive(Clone, Copy)]
pub struct DeclaredConstant {
    pub ordinal: usize,
    pub value: Scalar,
    pub first: usize,
    pub last: usize,
}

/// Returns the constant whose name is at a byte offset, in its declaration or at a use. Returns
/// None if the offset isn't on the name of a constant.
pub(crate) fn constant_at(module: &WellTyped, offset: usize) -> Option<DeclaredConstant>
    ensures { MatchOption result (HasNoConstantAtOffset «module».now.module_read offset)
        (λ c. IsConstantAtOffset «module».now.module_read offset c) }
{
    let names = module.resolved();
    match name_at_offset(names, offset) {
        Some(found) => match module.constant(found.ordinal) {
            Some(value) => constant_with_declaration_tokens(names, found.ordinal, value),
            None => None,
        },
        None => None,
    }
}

/// Returns the constant with this ordinal and value, together with the token indexes of its name
/// and of its declaration's `;`. The contract promises that the result isn't None.
fn constant_with_declaration_tokens(
    names: &Resolved,
    ordinal: usize,
    value: Scalar,
) -> Option<DeclaredConstant>
    requires has_value { constant_value_in_module (named_tree_of names.now.module_read) ordinal
        ≡ Some (scalar_value value) }
    ensures { IsSomeAnd result (λ c. (c.ordinal ≡ ordinal)
        × IsDeclaredConstant names.now.module_read c) }
{
    // The proof needs `IsResolution` of the names, which the contract of this call states.
    let _module = names.module();
    match names.declaring_token(ordinal) {
        Some(first) => match end_of_declaration(names.tokens().tokens(), first) {
            Some(last) => Some(DeclaredConstant {
                ordinal,
                value,
                first,
                last,
            }),
            None => None,
        },
        None => None,
    }
}

/// Returns the index of the first `;` at or after the token with the index `first`. Returns None if
/// there is no such `;`.
fn end_of_declaration(tokens: &[Token], first: usize) -> Option<usize>
    ensures { result ≡ position_from (λ t. is_semicolon t.kind) first (drop first tokens.now) }
{
    for index in first..tokens.len() {
        if is_semicolon(tokens[index].kind) {
            return Some(index);
        }
    }
    None
}

/// Returns whether a token of this kind is the symbol `;`.
fn is_semicolon(kind: TokenKind) -> bool
    ensures { result ≡ is_semicolon kind }
{
    match kind {
        TokenKind::Symbol(symbol) => symbol == Symbol::Semicolon,
        TokenKind::Identifier => false,
        TokenKind::ReservedWord(_) => false,
        TokenKind::Integer(_) => false,
    }
}
