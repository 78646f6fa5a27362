//! Finds the first conflict that arises if a declaration is renamed to a given new name.
//!
//! If no token of the text has the new name, and the declaration isn't predeclared, the name is
//! free and the module isn't walked. Otherwise the module is walked at most twice. The first walk
//! searches the block of the declaration for another declaration with the new name, and examines
//! each declared name once. If it finds none, the second walk finds the first occurrence whose
//! binding would change. The second walk takes O(n log n) time for n names.

ghost use Rattle.std.specs.Prelude.{◌≡◌, ◌↔◌, IfOk, None, not, option_map, true};
ghost use Rattle.std.specs.List.{position_from};
ghost use Rattle.ob0_tree.specs.ParsedModule.{named_tree_of};
ghost use Rattle.ob0_tree.specs.View.{block_of, procedure_of};
ghost use Rattle.ob0_language_names.specs.Occurrences.{IsFreeName, labels_of_occurrences, first_name_conflict, first_binding_difference};
ghost use Rattle.ob0_scope.specs.declared.name_conflicts.FirstConflict.TheVariants.{Occurrence};
ghost use Rattle.ob0_scope.specs.Renames.{OccursNowhere, have_same_binding, namesake_ordinal, other_declaration_in_conflict, conflict_of};
ghost use Rattle.ob0_scope_table.specs.Resolution.{ordinal_in};
ghost use Rattle.ob0_language_names.specs.Scopes.{renamed};
ghost use Rattle.ob0_scope.specs.NamesakeSearches.{namesake_in_block, namesake_in_procedure, is_namesake_token, is_bound_to_declaration, namesake_among};

use crate::bindings_after_rename::ordinals_after_rename;
use crate::declaration_checks::{append_block_names, append_formal_parameter_names};
use ob0_scan::Tokens;
use ob0_scope_table::{OrdinalEntry, PREDECLARED_COUNT, Resolved, ordinal_at};
use ob0_tree::{Block, Procedure, token_text_at};
use std::alloc::{AllocError, Global};
use std::marker::Model;

/// The first conflict that arises if a declaration is renamed to a new name. A conflict with
/// another declaration precedes all conflicts at occurrences, which are in text order.
#[derive(Clone, Copy, Debug, PartialEq, Eq)]
pub enum FirstConflict {
    /// Another declaration of the same block already has the new name. The number is that
    /// declaration's ordinal.
    Duplicate(usize),
    /// The binding of an occurrence would change. The number is the occurrence's index in the list
    /// of all occurrences in text order, from 0.
    Occurrence(usize),
}

/// Returns the first conflict that arises if the declaration with the ordinal `declaration` is
/// renamed to `new`. Either another declaration of the same block has this name, or the binding of
/// an occurrence would change. Returns None if the name is free.
pub fn captures(
    alloc: Global,
    names: &Resolved,
    declaration: usize,
    new: &str,
) -> Result<Option<FirstConflict>, AllocError>
    ensures first { IfOk result (λ found. option_map conflict_of found
        ≡ first_name_conflict (named_tree_of names.now.module_read) declaration new.now) }
    ensures other { IfOk result (λ found. other_declaration_in_conflict found
        ≡ namesake_ordinal (named_tree_of names.now.module_read) declaration new.now) }
    ensures free { IfOk result
        (λ found. found ≡ None ↔ IsFreeName (named_tree_of names.now.module_read) declaration new.now) }
{
    if declaration >= PREDECLARED_COUNT && occurs_nowhere(names.tokens(), new) {
        return Ok(None);
    }
    match namesake_ordinal(alloc, names, declaration, new)? {
        Some(other) => Ok(Some(FirstConflict::Duplicate(other))),
        None => first_occurrence_conflict(alloc, names, declaration, new),
    }
}

/// Returns true only if no token of the text has the spelling `name`. If `name` is empty, the
/// result is false.
fn occurs_nowhere(tokens: &Tokens, name: &str) -> bool
    ensures { result ≡ true → OccursNowhere tokens.now name.now }
{
    if name.is_empty() {
        return false;
    }
    for index in 0..tokens.tokens().len() {
        if token_text_at(tokens, index) == name {
            return false;
        }
    }
    true
}

/// Returns the conflict at the first occurrence whose binding would change if the declaration with
/// the ordinal `declaration` were renamed to `new`. Returns None if there is no such occurrence.
fn first_occurrence_conflict(
    alloc: Global,
    names: &Resolved,
    declaration: usize,
    new: &str,
) -> Result<Option<FirstConflict>, AllocError>
    ensures { IfOk result (λ found. found
        ≡ option_map Occurrence (first_binding_difference
        (labels_of_occurrences (renamed (named_tree_of names.now.module_read) declaration new.now))
        (labels_of_occurrences (named_tree_of names.now.module_read)))) }
{
    let ordinals = ordinals_after_rename(alloc, names, declaration, new)?;
    match first_rebound_occurrence(names, &ordinals) {
        Some(occurrence) => Ok(Some(FirstConflict::Occurrence(occurrence))),
        None => Ok(None),
    }
}

/// Returns the index of the first occurrence whose entry in the table `ordinals` differs from its
/// entry in the module's own table. The index is the occurrence's position among all occurrences in
/// text order, from 0. Returns None if there is no such occurrence.
fn first_rebound_occurrence(names: &Resolved, ordinals: &[OrdinalEntry]) -> Option<usize>
    ensures { result
        ≡ position_from (λ token. not
        (have_same_binding (ordinal_in ordinals.now token) (ordinal_in names.now.ordinals token))) 0
        names.now.uses }
{
    names.occurrences().iter().position(|token| !have_same_binding(
        ordinal_at(ordinals, *token),
        names.ordinal_at(*token),
    ))
}

/// Returns whether two names are bound to the same declaration, or both are unbound (None).
fn have_same_binding(a: Option<usize>, b: Option<usize>) -> bool
    ensures { result ≡ have_same_binding a b }
{
    match a {
        None => b.is_none(),
        Some(x) => match b {
            None => false,
            Some(y) => x == y,
        },
    }
}

/// Returns the ordinal of another declaration with the name `new` in the block of the declaration
/// with the ordinal `declaration`. If there are several such declarations, returns the ordinal of
/// the last. Returns None if there is no such declaration.
fn namesake_ordinal(
    alloc: Global,
    names: &Resolved,
    declaration: usize,
    new: &str,
) -> Result<Option<usize>, AllocError>
    ensures { IfOk result
        (λ other. other ≡ namesake_ordinal (named_tree_of names.now.module_read) declaration new.now) }
{
    let sought = NamesakeSearch {
        tokens: names.tokens(),
        ordinals: names.ordinals(),
        declaration,
        new,
    };
    sought.find_namesake_in_block(alloc, Vec::new(alloc), names.module().block())
}

/// A search for another declaration with the name `new`, in the block of the declaration with the
/// ordinal `declaration`. `ordinals` has the ordinal to which each token is bound.
#[derive(Drop)]
struct NamesakeSearch<'t> {
    tokens: &'t Tokens,
    ordinals: &'t [OrdinalEntry],
    declaration: usize,
    new: &'t str,
}

impl<'t> Model for NamesakeSearch<'t> {
    ghost use Rattle.ob0_scope.specs.NamesakeSearches as searching;

    ghost Value = { searching.NamesakeSearchView };

    ghost view = { λ s. record {
      source = s.tokens.now;
      ordinals = s.ordinals.now;
      declaration = s.declaration;
      new = s.new.now;
    } };
}

impl<'t> NamesakeSearch<'t> {
    /// Returns whether the token is bound to the declaration whose block is searched.
    fn is_bound_to_declaration(&self, token: usize) -> bool
        ensures { result ≡ is_bound_to_declaration self.now token }
    {
        match ordinal_at(self.ordinals, token) {
            Some(ordinal) => ordinal == self.declaration,
            None => false,
        }
    }

    /// Returns whether a token has the sought name and isn't bound to the declaration whose block
    /// is searched.
    fn is_namesake_token(&self, token: usize) -> bool
        ensures { result ≡ is_namesake_token self.now token }
    {
        token_text_at(self.tokens, token) == self.new && !self.is_bound_to_declaration(token)
    }

    /// Finds the last token in `tokens` that has the sought name and isn't bound to the declaration
    /// whose block is searched. Returns the ordinal to which this token is bound. Returns None if
    /// there is no such token, or if no token in `tokens` is bound to that declaration.
    fn find_namesake_among(&self, tokens: &[usize]) -> Option<usize>
        ensures { result ≡ namesake_among self.now tokens.now }
    {
        let mut is_here = false;
        let mut found = None;
        for token in tokens {
            is_here = is_here || self.is_bound_to_declaration(*token);
            if self.is_namesake_token(*token) {
                found = ordinal_at(self.ordinals, *token);
            }
        }
        if is_here { found } else { None }
    }

    /// Searches a block and then the blocks inside it. In the block that declares
    /// `self.declaration`, finds another declaration with the sought name and returns its ordinal.
    /// Returns None if there is no such declaration. `own` has the tokens of the parameters of the
    /// block's procedure, which count as declared in the block.
    #[cycle(blocks)]
    fn find_namesake_in_block(
        &self,
        alloc: Global,
        own: Vec<usize>,
        b: &Block,
    ) -> Result<Option<usize>, AllocError>
        ensures { IfOk result
            (λ other. other ≡ namesake_in_block self.now own.items (block_of b.now)) }
    {
        let mut tokens = own;
        append_block_names(&mut tokens, b)?;
        let mut found = self.find_namesake_among(&tokens);
        for p in &b.procedures {
            found = found.or(self.find_namesake_in_procedure(alloc, p)?);
        }
        Ok(found)
    }

    /// Searches the block of a procedure in the same way as `find_namesake_in_block`, including the
    /// blocks inside it. Returns the ordinal of the declaration found, or None. The procedure's
    /// parameters count as declared in the block.
    #[cycle(blocks)]
    fn find_namesake_in_procedure(
        &self,
        alloc: Global,
        p: &Procedure,
    ) -> Result<Option<usize>, AllocError>
        ensures { IfOk result (λ other. other ≡ namesake_in_procedure self.now
            (procedure_of p.now)) }
    {
        let mut own = Vec::new(alloc);
        append_formal_parameter_names(&mut own, &p.formals)?;
        self.find_namesake_in_block(alloc, own, &p.block)
    }
}
