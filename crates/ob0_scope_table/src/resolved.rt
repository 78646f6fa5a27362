//! Defines a resolved module: a module with the bindings of its names to declarations.

ghost use Rattle.std.specs.Prelude.{◌≡◌, ◌-◌, ◌<◌, slice_get, Some, None};
ghost use Rattle.ob0_tree.specs.ParsedModule.{named_tree_of};
ghost use Rattle.ob0_language_names.specs.Occurrences.{ordinal_bound_at_occurrence};
ghost use Rattle.ob0_scope_table.specs.Resolution.{IsResolution, ordinal_in, declaration_token};

use crate::faults::FaultAtTokens;
use crate::ordinal_entry::OrdinalEntry;
use crate::predeclared_names::PREDECLARED_COUNT;
use crate::token_lookups::ordinal_at;
use ob0_scan::Tokens;
use ob0_tree::Module;
use std::borrow::Cow;
use std::marker::Model;

/// The bindings of a module's names, as token indexes and ordinals (the numbers of declarations).
/// `ordinals` has an entry for each token: the ordinal of the identifier's declaration, or None.
/// `declaration_tokens` has the tokens of the declaring names, and `occurrences` has the tokens of
/// the looked-up names, both in text order. `faults` has the faults of names: duplicate
/// declarations and fields, wrong closing names and undeclared names. All places are token indexes,
/// so the bindings stay right if only white space or comments change. Bindings borrow nothing.
#[derive(Drop)]
pub struct Bindings {
    pub ordinals: Vec<OrdinalEntry>,
    pub declaration_tokens: Vec<usize>,
    pub occurrences: Vec<usize>,
    pub faults: Vec<FaultAtTokens>,
}

/// A module in which each name is bound to its declaration. Declarations are identified by
/// ordinals. The predeclared names have the ordinals 0 to 6. The declarations of the text have the
/// ordinals from 7 upwards, in text order. The invariant `IsResolution` states that all parts are
/// correct for the text. The contract of the method `module` states this invariant.
#[derive(Drop)]
pub struct Resolved<'t> {
    module: &'t Module<'t>,
    bindings: Cow<'t, Bindings>,
}

impl<'t> Model for Resolved<'t> {
    ghost use Rattle.std.specs.Cow.{cow_value};
    ghost use Rattle.ob0_scope_table.specs.Resolution.{Resolution, IsResolution};
    ghost use Rattle.ob0_scope_table.specs.Bindings.{resolution_with_bindings};

    ghost Value = { Resolution };

    ghost use Rattle.std.specs.Coded.{codes};
    ghost use Rattle.ob0_tree.specs.contracts.tree.Block as block_contract;

    ghost coded = { Prim.hlevel (codes, block_contract.the_row.coded) };

    ghost view = { λ r. resolution_with_bindings r.module.now (cow_value r.bindings) };

    ghost invariant = { λ r. IsResolution (resolution_with_bindings r.module.now (cow_value r.bindings)) };
}

impl<'t> Resolved<'t> {
    ghost use Rattle.ob0_scope_table.specs.Bindings.{resolution_with_bindings};

    /// Joins a module and its bindings. The bindings must be correct for the module
    /// (`IsResolution`). The result owns the bindings.
    pub fn new(module: &'t Module<'t>, bindings: Bindings) -> Resolved<'t>
        requires { IsResolution (resolution_with_bindings «module».now bindings) }
        ensures { result ≡ resolution_with_bindings «module».now bindings }
    {
        Resolved {
            module,
            bindings: Cow::Owned(bindings),
        }
    }

    /// Joins a module and its bindings. The bindings must be correct for the module
    /// (`IsResolution`). The result borrows the bindings.
    pub fn from_parts(module: &'t Module<'t>, bindings: &'t Bindings) -> Resolved<'t>
        requires { IsResolution (resolution_with_bindings «module».now bindings.now) }
        ensures { result ≡ resolution_with_bindings «module».now bindings.now }
    {
        Resolved {
            module,
            bindings: Cow::Borrowed(bindings),
        }
    }

    /// Returns the bindings, without the module.
    fn bindings(&self) -> &Bindings
        ensures { resolution_with_bindings self.now.module_read result.now ≡ self.now }
    {
        match &self.bindings {
            Cow::Borrowed(bindings) => bindings,
            Cow::Owned(bindings) => bindings,
        }
    }

    /// Returns the module.
    pub fn module(&self) -> &'t Module<'t>
        ensures value { result.now ≡ self.now.module_read }
        ensures resolved { IsResolution self.now }
    {
        self.module
    }

    /// Returns the tokens of the module's text.
    pub fn tokens(&self) -> &'t Tokens
        ensures { result.now ≡ self.now.module_read.source }
    {
        self.module.tokens()
    }

    /// Returns the ordinal of the declaration to which the looked-up name with the number
    /// `occurrence` is bound. Looked-up names are numbered from 0 in text order. Returns None if
    /// the name is unbound or there is no such name.
    pub fn declaration_of(&self, occurrence: usize) -> Option<usize>
        ensures { result ≡ ordinal_bound_at_occurrence (named_tree_of self.now.module_read)
            occurrence }
    {
        // The proof needs the invariant of this value.
        let _ = &self.bindings;
        match self.occurrence_token(occurrence) {
            Some(token) => self.ordinal_at(token),
            None => None,
        }
    }

    /// Returns the token index of the looked-up name with the number `occurrence`. Looked-up names
    /// are numbered from 0 in text order. Returns None if there is no such name.
    pub fn occurrence_token(&self, occurrence: usize) -> Option<usize>
        ensures { result ≡ slice_get self.now.uses occurrence }
    {
        self.bindings().occurrences.get(occurrence).copied()
    }

    /// Returns the ordinal of the declaration to which the identifier at a token refers. At a
    /// declaring name, this is the ordinal of the name that is declared there. At a procedure's
    /// closing name, it is the procedure's ordinal. Returns None at a field, at the module's name,
    /// at an unbound name and at a token that isn't an identifier.
    pub fn ordinal_at(&self, token: usize) -> Option<usize>
        ensures { result ≡ ordinal_in self.now.ordinals token }
    {
        ordinal_at(&self.bindings().ordinals, token)
    }

    /// Returns the table of ordinals. The entry at a token's index is the ordinal that `ordinal_at`
    /// returns for the token.
    pub fn ordinals(&self) -> &[OrdinalEntry]
        ensures { result.now ≡ self.now.ordinals }
    {
        self.bindings().ordinals.as_slice()
    }

    /// Returns the token indexes of the declaring names, in text order. The first of these names
    /// has the ordinal 7.
    pub fn declaration_tokens(&self) -> &[usize]
        ensures { result.now ≡ self.now.declaration_tokens }
    {
        self.bindings().declaration_tokens.as_slice()
    }

    /// Returns the index of the token at which the name with this ordinal is declared. Returns None
    /// for a predeclared name, and if no declaration has this ordinal.
    pub fn declaring_token(&self, ordinal: usize) -> Option<usize>
        ensures { result ≡ declaration_token self.now.declaration_tokens ordinal }
    {
        if ordinal < PREDECLARED_COUNT {
            return None;
        }
        self.bindings()
            .declaration_tokens
            .get(ordinal - PREDECLARED_COUNT)
            .copied()
    }

    /// Returns the token indexes of the looked-up names, in text order.
    pub fn occurrences(&self) -> &[usize]
        ensures { result.now ≡ self.now.uses }
    {
        self.bindings().occurrences.as_slice()
    }

    /// Returns the faults of names. The faults for duplicate declarations in a block or record and
    /// for wrong closing names come first. The faults for undeclared names follow, in text order.
    pub fn faults(&self) -> &[FaultAtTokens]
        ensures { result.now ≡ self.now.faults }
    {
        self.bindings().faults.as_slice()
    }
}
