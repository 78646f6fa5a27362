//! Visits the declarations of a module in text order, and assigns to each identifier the ordinal of
//! its declaration. An ordinal is a declaration's number in text order, after the predeclared
//! names.
//!
//! Expressions, types and statements declare nothing. The walk of `ob0_tree` visits them, with
//! `NumberingWalk` as its `Visitor`. The contract of each function that visits a declaration is an
//! equation between whole states, for example `self.new ≡ visit_constant c self.old`. With such
//! contracts, most of these functions need no proof file.
//!
//! `make_names_visible_from_index` makes declared names visible, in the order of their
//! ordinals. It is called after each constant, each type, and each group of variables or
//! parameters. It is also called after a procedure's heading, once the bindings of the parameters
//! are removed. There it binds the procedure's name first, and then the parameters again. So a
//! parameter with the procedure's name hides the procedure.
//!
//! Each identifier's ordinal is written into the table, at the index of the identifier's token, as
//! soon as the ordinal is known. The entries of fields and of the module's name are None. The
//! definition of the walk (`IdentifierWalk`) leaves open how ordinals are kept. `TableWalk` keeps
//! them in a table, like the code, and `MarkWalk` in a list of marks (token, ordinal). The contract
//! of `number_identifiers` says that the table results from entering the marks into an empty table.
//! So all other proofs are about the marks, which are in the order of their tokens.
//!
//! `renumber_body` visits the statements of one body only. It makes their scope from the table,
//! which has the ordinals of the names that are declared around the body.
//!
//! An entry of the table has 32 bits (`OrdinalEntry`). An ordinal that is too large for an entry is
//! stored as the greatest ordinal that fits. So no function of the walk requires that ordinals are
//! small. A text has at most 2^20 bytes and no more tokens than bytes, and each declaration has a
//! different token. So entries can hold the ordinals of all marks.

ghost use Rattle.std.specs.Prelude.{◌≡◌, ◌+◌, ◌<◌, ◌^◌, [], OnOk, IfOk, length, map, Some, None};
ghost use Rattle.ob0_tree.specs.declared.tree.Role.TheVariants as roles;
ghost use Rattle.ob0_tree.specs.ParsedModule.{tree_of};
ghost use Rattle.ob0_tree.specs.TokenIndexLeaves.{token_text_at};
ghost use Rattle.ob0_tree.specs.View.{names_of, body_of, constant_declaration_of, constant_section_of, type_declaration_of, type_section_of, variable_declaration_of, variable_section_of, parameter_section_of, formals_of, procedure_of, block_of};
ghost use Rattle.ob0_language_names.specs.Names.{naming_by_spelling};
ghost use Rattle.ob0_language_names.specs.BlockParts.{names_in_list};
ghost use Rattle.ob0_scope_table.specs.Resolution.{ordinal_and_spelling_at_token, ordinal_in};
ghost use Rattle.ob0_language_names.specs.Scopes.{ordinal_in_scope, predeclared_count, predeclared_scope};
ghost use Rattle.ob0_scope_numbering.specs.StoredScopes.{with_scope};
ghost use Rattle.ob0_scope_numbering.specs.IdentifierSpellings.{is_bound_to_renamed_declaration, spelling_at_token};
ghost use Rattle.ob0_scope_numbering.specs.TableWalk.{initial_walk_state, number_module};
ghost use Rattle.ob0_scope_numbering.specs.IdentifierWalk.{with_mark, number_declaration, number_declarations, with_visible_name, with_names_visible_from_index, with_oldest_bindings, visit_identifier, visit_nondeclaring_tree, visit_constant, visit_constant_section, visit_type, visit_type_section, visit_variable, visit_variable_section, visit_parameter_section, visit_formals, visit_procedure, visit_block, visit_module};
ghost use Rattle.ob0_scope_numbering.specs.BodyScope.{declare_name_if_bound, declare_names_with_ordinals, scope_from_table, state_before_body};

use crate::scope_bindings::ScopeBindings;
use crate::spellings::{Spellings, is_bound_to_renamed_declaration};
use ob0_scan::Tokens;
use ob0_scope_table::{OrdinalEntry, PREDECLARED_COUNT, ordinal_at};
use ob0_tree::identifier_walk::{Visitor, walk_body, walk_expression, walk_type};
use ob0_tree::{
    Block, ConstantDeclaration, IdentifierList, Module, ParameterSection, Procedure, Role,
    Statement, TypeDeclaration, VariableDeclaration, token_text_at,
};
use std::alloc::{AllocError, Global};
use std::marker::Model;

/// The state of the walk over a module's identifiers. `table` has the ordinal of each identifier
/// visited so far, at the index of its token. `visible` has the names that are visible at the next
/// identifier. `declaration_tokens` has the tokens of the declaring names so far, and `occurrences`
/// the tokens of the looked-up names so far. `declaration` is the ordinal of a renamed declaration,
/// or None if nothing is renamed. `ordinals` has each token's ordinal before the renaming: an
/// identifier whose ordinal in this list is `declaration` gets the name that the renaming
/// introduces.
#[derive(Drop)]
pub struct NumberingWalk<'t> {
    tokens: &'t Tokens,
    ordinals: &'t [OrdinalEntry],
    declaration: Option<usize>,
    visible: ScopeBindings<'t>,
    declaration_tokens: Vec<usize>,
    occurrences: Vec<usize>,
    table: Vec<OrdinalEntry>,
}

impl<'t> Model for NumberingWalk<'t> {
    ghost use Rattle.ob0_scope_numbering.specs.TableWalk.{WalkState};

    ghost Value = { WalkState };

    ghost view = { λ n. record {
      spellings = record {
        source = n.tokens.now;
        ordinals = n.ordinals.now;
        declaration = n.declaration;
        new = n.visible.new_name;
      };
      scope = n.visible.scope;
      declaration_tokens = n.declaration_tokens.items;
      uses = n.occurrences.items;
      marks = n.table.items;
    } };
}

/// Visits the identifiers in expressions, types and statements, which declare nothing.
impl<'t> Visitor for NumberingWalk<'t> {
    ghost use Rattle.ob0_scope_numbering.specs.IdentifierWalk.{visit_identifier};

    ghost state_after_one_identifier = { visit_identifier };

    #[inline(always)]
    fn visit_one_identifier(&mut self, role: Role, token: usize) -> Result<(), AllocError> {
        match role {
            Role::LookedUpName => self.mark_looked_up_name(token),
            Role::DeclaringName => self.mark_no_ordinal(token),
            Role::ClosingName => self.mark_no_ordinal(token),
            Role::FieldName => self.mark_no_ordinal(token),
            Role::ModuleName => self.mark_no_ordinal(token),
        }
    }
}

/// Returns the ordinal of the declaration with the index `index` among the declarations of the
/// text, counted from 0.
fn ordinal_at_index(index: usize) -> usize
    requires { index < 2 ^ 63 }
    ensures { result ≡ predeclared_count + index }
{
    PREDECLARED_COUNT + index
}

/// Returns a scope in which only the predeclared names are bound, to the ordinals 0 to 6. The scope
/// also stores `new`, the name that a renaming introduces, without binding it to the renamed
/// declaration.
fn scope_with_predeclared_names<'t>(
    alloc: Global,
    new: &'t str,
) -> Result<ScopeBindings<'t>, AllocError>
    ensures { IfOk result
        (λ v. v ≡ record { new_name = new.entry.now; scope = predeclared_scope naming_by_spelling }) }
{
    let mut visible = ScopeBindings::new(alloc, new)?;
    declare_predeclared_names(&mut visible)?;
    Ok(visible)
}

/// Binds the predeclared names in an empty scope, to the ordinals 0 to 6.
fn declare_predeclared_names(visible: &mut ScopeBindings<'_>) -> Result<(), AllocError>
    ensures { OnOk result (visible.old.scope ≡ []
        → visible.new ≡ with_scope visible.old (predeclared_scope naming_by_spelling)) }
{
    visible.declare("INTEGER", 0)?;
    visible.declare("BOOLEAN", 1)?;
    visible.declare("TRUE", 2)?;
    visible.declare("FALSE", 3)?;
    visible.declare("Read", 4)?;
    visible.declare("Write", 5)?;
    visible.declare("WriteLn", 6)?;
    Ok(())
}

/// Visits a module whose identifiers have the spellings `spellings`, and returns the state after
/// the visit.
fn visit_module<'t>(
    alloc: Global,
    read: &'t Module<'t>,
    spellings: Spellings<'t>,
) -> Result<NumberingWalk<'t>, AllocError>
    ensures { IfOk result (λ n. n ≡ visit_module (tree_of read.now)
        (initial_walk_state spellings.entry)) }
{
    let table = vec![in alloc; OrdinalEntry::new(None); spellings.tokens.tokens().len()]?;
    let mut numbering = NumberingWalk {
        tokens: spellings.tokens,
        ordinals: spellings.ordinals,
        declaration: spellings.declaration,
        visible: scope_with_predeclared_names(alloc, spellings.new)?,
        declaration_tokens: Vec::new(alloc),
        occurrences: Vec::new(alloc),
        table,
    };
    numbering.mark_ordinal(read.name(), None);
    numbering.walk_block(read.block())?;
    numbering.mark_ordinal(read.closing_name(), None);
    Ok(numbering)
}

/// Binds the name at a token to the ordinal that the table `ordinals` has for this token. Does
/// nothing if the table has none.
fn declare_name_from_table<'t>(
    visible: &mut ScopeBindings<'t>,
    tokens: &'t Tokens,
    ordinals: &[OrdinalEntry],
    token: usize,
) -> Result<(), AllocError>
    ensures { OnOk result (visible.new ≡ with_scope visible.old (declare_name_if_bound
        (ordinal_in ordinals.now token) (token_text_at tokens.now token) visible.old.scope)) }
{
    match ordinal_at(ordinals, token) {
        Some(ordinal) => visible.declare(token_text_at(tokens, token), ordinal),
        None => Ok(()),
    }
}

/// Binds the names at the tokens `names`, in order. The table `ordinals` has their ordinals.
fn declare_names_from_table<'t>(
    visible: &mut ScopeBindings<'t>,
    tokens: &'t Tokens,
    ordinals: &[OrdinalEntry],
    names: &[usize],
) -> Result<(), AllocError>
    ensures { OnOk result (visible.new ≡ with_scope visible.old (declare_names_with_ordinals
        (map (ordinal_and_spelling_at_token tokens.now ordinals.now) names.now) visible.old.scope)) }
{
    for name in names {
        declare_name_from_table(visible, tokens, ordinals, *name)?;
    }
    Ok(())
}

/// Looks up the names in the statements of one block, and returns the state after the visit.
/// `table` has the ordinals of the identifiers outside these statements. `names` has the tokens of
/// the declared names that are visible in the statements, in the order of their declarations.
pub fn renumber_body<'t>(
    alloc: Global,
    tokens: &'t Tokens,
    table: Vec<OrdinalEntry>,
    names: &[usize],
    statements: &Option<Vec<Statement>>,
) -> Result<NumberingWalk<'t>, AllocError>
    ensures { IfOk result (λ n. n ≡ visit_nondeclaring_tree (body_of statements.now)
        (state_before_body tokens.now (scope_from_table tokens.now table.items names.now) table.items)) }
{
    let mut visible = scope_with_predeclared_names(alloc, "")?;
    declare_names_from_table(&mut visible, tokens, &table, names)?;
    let mut numbering = NumberingWalk {
        tokens,
        ordinals: &[],
        declaration: None,
        visible,
        declaration_tokens: Vec::new(alloc),
        occurrences: Vec::new(alloc),
        table,
    };
    walk_body(&mut numbering, statements)?;
    Ok(numbering)
}

/// Assigns to each identifier of a module, spelled as in `spellings`, the ordinal of its
/// declaration, and returns the state after the visit. An entry of the table can hold every
/// ordinal, because a text has at most 2^20 bytes and no more declarations than bytes.
pub fn number_identifiers<'t>(
    alloc: Global,
    read: &'t Module<'t>,
    spellings: Spellings<'t>,
) -> Result<NumberingWalk<'t>, AllocError>
    ensures { IfOk result (λ n. n ≡ number_module (tree_of read.now) spellings.entry) }
{
    // The proof needs the contracts of these calls.
    let _scanned = read.tokens().text();
    visit_module(alloc, read, spellings)
}

impl<'t> NumberingWalk<'t> {
    /// Returns the tokens of the declaring names, the tokens of the looked-up names, and the table
    /// of ordinals.
    pub fn into_tokens_and_ordinals(self) -> (Vec<usize>, Vec<usize>, Vec<OrdinalEntry>)
        ensures declaration_tokens { result.0.items ≡ self.entry.declaration_tokens }
        ensures uses { result.1.items ≡ self.entry.uses }
        ensures table { result.2.items ≡ self.entry.marks }
    {
        let NumberingWalk {
            tokens: _,
            ordinals: _,
            declaration: _,
            visible: _,
            declaration_tokens,
            occurrences,
            table,
        } = self;
        (declaration_tokens, occurrences, table)
    }

    /// Returns the number of declarations so far, without the predeclared ones.
    fn declaration_count(&self) -> usize
        ensures { result ≡ length self.now.declaration_tokens }
    {
        self.declaration_tokens.len()
    }

    /// Returns the number of bindings in the scope, including the hidden ones.
    fn binding_count(&self) -> usize
        ensures { result ≡ length self.now.scope }
    {
        self.visible.len()
    }

    /// Writes an ordinal, or None, into the table at the index of a token.
    fn mark_ordinal(&mut self, token: usize, ordinal: Option<usize>)
        ensures { self.new ≡ with_mark token ordinal self.old }
    {
        if token < self.table.len() {
            self.table[token] = OrdinalEntry::new(ordinal);
        }
    }

    /// Assigns the next ordinal to the declaring name at a token, and returns this ordinal. Does
    /// not make the name visible.
    fn number_declaration(&mut self, token: usize) -> Result<usize, AllocError>
        ensures next { IfOk result (λ ordinal. ordinal ≡ predeclared_count + length
            self.old.declaration_tokens) }
        ensures numbered { OnOk result (self.new ≡ number_declaration token self.old) }
    {
        let ordinal = ordinal_at_index(self.declaration_tokens.len());
        self.declaration_tokens.push(token)?;
        self.mark_ordinal(token, Some(ordinal));
        Ok(ordinal)
    }

    /// Makes the name at a token visible, bound to the declaration with this ordinal.
    fn make_name_visible(&mut self, token: usize, ordinal: usize) -> Result<(), AllocError>
        ensures { OnOk result (self.new ≡ with_visible_name token ordinal self.old) }
    {
        if self.is_bound_to_renamed_declaration(token) {
            self.visible.declare_new_name(ordinal)
        } else {
            self.visible
                .declare(token_text_at(self.tokens, token), ordinal)
        }
    }

    /// Makes the names of the declarations so far visible, in order, but skips the first `first`
    /// declarations.
    fn make_names_visible_from_index(&mut self, first: usize) -> Result<(), AllocError>
        ensures { OnOk result (self.new ≡ with_names_visible_from_index first self.old) }
    {
        for index in first..self.declaration_tokens.len() {
            let token = self.declaration_tokens[index];
            self.make_name_visible(token, ordinal_at_index(index))?;
        }
        Ok(())
    }

    /// Removes the newest bindings from the scope until at most `len` bindings are left.
    fn truncate_bindings(&mut self, len: usize)
        ensures { self.new ≡ with_oldest_bindings len self.old }
    {
        self.visible.truncate_bindings(len);
    }

    /// Returns whether the identifier at a token is bound to the renamed declaration. If it is, it
    /// has the new name instead of its spelling in the text.
    fn is_bound_to_renamed_declaration(&self, token: usize) -> bool
        ensures { result
            ≡ is_bound_to_renamed_declaration self.now.spellings.declaration (ordinal_in self.now.spellings.ordinals token) }
    {
        is_bound_to_renamed_declaration(self.declaration, ordinal_at(self.ordinals, token))
    }

    /// Returns the ordinal of the declaration to which the name at a token is bound. Returns None
    /// if the name is unbound.
    fn bound_ordinal(&mut self, token: usize) -> Option<usize>
        ensures bound { result
            ≡ ordinal_in_scope naming_by_spelling self.old.scope (spelling_at_token self.old.spellings token) }
        ensures same { self.new ≡ self.old }
    {
        if self.is_bound_to_renamed_declaration(token) {
            self.visible.look_up_new_name()
        } else {
            self.visible.look_up(token_text_at(self.tokens, token))
        }
    }

    /// Writes None into the table at the token of an identifier that has no ordinal.
    #[inline(always)]
    fn mark_no_ordinal(&mut self, token: usize) -> Result<(), AllocError>
        ensures { OnOk result (self.new ≡ with_mark token None self.old) }
    {
        self.mark_ordinal(token, None);
        Ok(())
    }

    /// Looks up the name at a token, and records the token as an occurrence. Writes the ordinal of
    /// the name's declaration into the table, or None if the name is unbound.
    #[inline(always)]
    fn mark_looked_up_name(&mut self, token: usize) -> Result<(), AllocError>
        ensures { OnOk result (self.new ≡ visit_identifier roles.LookedUpName token self.old) }
    {
        let ordinal = self.bound_ordinal(token);
        self.occurrences.push(token)?;
        self.mark_ordinal(token, ordinal);
        Ok(())
    }

    /// Assigns the next ordinals to the names in a declaration's name list, in order. Does not make
    /// the names visible.
    fn number_declarations(&mut self, ns: &IdentifierList) -> Result<(), AllocError>
        ensures { OnOk result (self.new ≡ number_declarations (names_in_list (names_of ns.now))
            self.old) }
    {
        self.number_declaration(ns.first)?;
        for name in &ns.more {
            self.number_declaration(*name)?;
        }
        Ok(())
    }

    fn walk_constant(&mut self, c: &ConstantDeclaration) -> Result<(), AllocError>
        ensures { OnOk result (self.new ≡ visit_constant (constant_declaration_of c.now) self.old) }
    {
        let first = self.declaration_count();
        self.number_declaration(c.name)?;
        walk_expression(self, &c.value)?;
        self.make_names_visible_from_index(first)
    }

    fn walk_type_declaration(&mut self, t: &TypeDeclaration) -> Result<(), AllocError>
        ensures { OnOk result (self.new ≡ visit_type (type_declaration_of t.now) self.old) }
    {
        let first = self.declaration_count();
        self.number_declaration(t.name)?;
        walk_type(self, &t.written)?;
        self.make_names_visible_from_index(first)
    }

    fn walk_variable_declaration(&mut self, v: &VariableDeclaration) -> Result<(), AllocError>
        ensures { OnOk result (self.new ≡ visit_variable (variable_declaration_of v.now) self.old) }
    {
        let first = self.declaration_count();
        self.number_declarations(&v.names)?;
        walk_type(self, &v.written)?;
        self.make_names_visible_from_index(first)
    }

    fn walk_parameter_section(&mut self, s: &ParameterSection) -> Result<(), AllocError>
        ensures { OnOk result (self.new ≡ visit_parameter_section (parameter_section_of s.now)
            self.old) }
    {
        let first = self.declaration_count();
        self.number_declarations(&s.names)?;
        walk_type(self, &s.written)?;
        self.make_names_visible_from_index(first)
    }

    fn walk_constant_section(
        &mut self,
        section: &Option<Vec<ConstantDeclaration>>,
    ) -> Result<(), AllocError>
        ensures { OnOk result
            (self.new ≡ visit_constant_section (constant_section_of section.now) self.old) }
    {
        if let Some(constants) = section {
            for c in constants {
                self.walk_constant(c)?;
            }
        }
        Ok(())
    }

    fn walk_type_section(
        &mut self,
        section: &Option<Vec<TypeDeclaration>>,
    ) -> Result<(), AllocError>
        ensures { OnOk result (self.new ≡ visit_type_section (type_section_of section.now)
            self.old) }
    {
        if let Some(types) = section {
            for t in types {
                self.walk_type_declaration(t)?;
            }
        }
        Ok(())
    }

    fn walk_variable_section(
        &mut self,
        section: &Option<Vec<VariableDeclaration>>,
    ) -> Result<(), AllocError>
        ensures { OnOk result
            (self.new ≡ visit_variable_section (variable_section_of section.now) self.old) }
    {
        if let Some(variables) = section {
            for v in variables {
                self.walk_variable_declaration(v)?;
            }
        }
        Ok(())
    }

    /// Visits the parameters of a heading. The parameters of each section are visible in the later
    /// sections.
    fn walk_parameters(&mut self, formals: &Option<Vec<ParameterSection>>) -> Result<(), AllocError>
        ensures { OnOk result (self.new ≡ visit_formals (formals_of formals.now) self.old) }
    {
        if let Some(sections) = formals {
            for s in sections {
                self.walk_parameter_section(s)?;
            }
        }
        Ok(())
    }

    #[cycle(blocks)]
    fn walk_procedure(&mut self, p: &Procedure) -> Result<(), AllocError>
        ensures { OnOk result (self.new ≡ visit_procedure (procedure_of p.now) self.old) }
    {
        let own = self.declaration_count();
        let outside = self.binding_count();
        // The parameters are bound and removed twice. In the heading, the procedure's name isn't
        // visible. In the block it is visible, so for the block the name is bound before the
        // parameters.
        let ordinal = self.number_declaration(p.name)?;
        self.walk_parameters(&p.formals)?;
        self.truncate_bindings(outside);
        self.make_names_visible_from_index(own)?;
        self.walk_block(&p.block)?;
        self.truncate_bindings(outside);
        self.make_name_visible(p.name, ordinal)?;
        self.mark_ordinal(p.closing, Some(ordinal));
        Ok(())
    }

    #[cycle(blocks)]
    fn walk_block(&mut self, b: &Block) -> Result<(), AllocError>
        ensures { OnOk result (self.new ≡ visit_block (block_of b.now) self.old) }
    {
        self.walk_constant_section(&b.constants)?;
        self.walk_type_section(&b.types)?;
        self.walk_variable_section(&b.variables)?;
        for p in &b.procedures {
            self.walk_procedure(p)?;
        }
        walk_body(self, &b.body)
    }
}
