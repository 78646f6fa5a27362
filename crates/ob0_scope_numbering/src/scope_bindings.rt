//! Defines a scope: the names that are visible at a point of a module's text, each with the ordinal
//! of its declaration.

ghost use Rattle.std.specs.Prelude.{◌≡◌, [], ◌∷◌, OnErr, OnOk, IfOk, length, drop, ◌-◌};
ghost use Rattle.ob0_scope_numbering.specs.StoredScopes.{with_scope};
ghost use Rattle.ob0_language_names.specs.Names.{naming_by_spelling};
ghost use Rattle.ob0_language_names.specs.Scopes.{ordinal_in_scope};

use crate::newest_bindings::NewestBindings;
use std::alloc::{AllocError, Global};
use std::marker::Model;

/// A binding of a name to an ordinal. `name_position` is the name's position in the list of names
/// (`NewestBindings`). `hidden_binding_index` is the index of the older binding that this binding
/// hides, or None if this binding hides no other.
#[derive(Drop)]
pub(crate) struct Binding<'t> {
    name: &'t str,
    name_position: usize,
    ordinal: usize,
    hidden_binding_index: Option<usize>,
}

/// The bindings of names at a point of a module's text, oldest first, including hidden bindings.
/// `newest` has the index of the newest binding of each name. `new_name` is the name that a
/// renaming introduces, or the empty name if nothing is renamed. `new_name` may be far longer than
/// the names of the text, so its binding is found without reading the name.
#[derive(Drop)]
pub(crate) struct ScopeBindings<'t> {
    new_name: &'t str,
    newest: NewestBindings<'t>,
    bindings: Vec<Binding<'t>>,
}

impl<'t> Model for ScopeBindings<'t> {
    ghost use Rattle.ob0_scope_numbering.specs.StoredScopes.{VisibleNames, scope_of_bindings, IsConsistentScope};

    ghost Value = { VisibleNames };

    ghost view = { λ v. record { new_name = v.new_name.now; scope = scope_of_bindings v.bindings.items } };

    ghost invariant = { λ v. IsConsistentScope v.new_name.now v.newest v.bindings.items };
}

impl<'t> ScopeBindings<'t> {
    /// Returns an empty scope, for a renaming to `new_name`. No name is bound yet.
    pub(crate) fn new(alloc: Global, new_name: &'t str) -> Result<ScopeBindings<'t>, AllocError>
        ensures { IfOk result (λ v. v ≡ record { new_name = new_name.entry.now; scope = [] }) }
    {
        Ok(ScopeBindings {
            new_name,
            newest: NewestBindings::new(alloc, new_name)?,
            bindings: Vec::new(alloc),
        })
    }

    /// Returns the number of bindings, including the hidden ones.
    pub(crate) fn len(&self) -> usize
        ensures { result ≡ length self.now.scope }
    {
        self.bindings.len()
    }

    /// Returns the ordinal of the declaration to which a name is bound, or None if the name is
    /// unbound.
    pub(crate) fn look_up(&mut self, name: &'t str) -> Option<usize>
        ensures found { result ≡ ordinal_in_scope naming_by_spelling self.old.scope name.now }
        ensures same { self.new ≡ self.old }
    {
        let index = match self.newest.newest_binding_of(name) {
            None => return None,
            Some(index) => index,
        };
        Some(self.bindings[index].ordinal)
    }

    /// Returns the ordinal of the declaration to which `new_name`, the name that the renaming
    /// introduces, is bound. Returns None if `new_name` is unbound.
    pub(crate) fn look_up_new_name(&self) -> Option<usize>
        ensures { result ≡ ordinal_in_scope naming_by_spelling self.now.scope self.now.new_name }
    {
        let index = match self.newest.newest_binding_of_first_name() {
            None => return None,
            Some(index) => index,
        };
        Some(self.bindings[index].ordinal)
    }

    /// Binds `new_name`, the name that the renaming introduces, to an ordinal. Hides the earlier
    /// binding of this name, if there is one. If an allocation fails, the scope is unchanged.
    pub(crate) fn declare_new_name(&mut self, ordinal: usize) -> Result<(), AllocError>
        ensures bound { OnOk result
            (self.new ≡ with_scope self.old ((self.old.new_name, ordinal) ∷ self.old.scope)) }
        ensures err { OnErr result (self.new ≡ self.old) }
    {
        self.declare(self.new_name, ordinal)
    }

    /// Binds a name to an ordinal, and hides the earlier binding of this name, if there is one. If
    /// an allocation fails, the scope is unchanged.
    pub(crate) fn declare(&mut self, name: &'t str, ordinal: usize) -> Result<(), AllocError>
        ensures bound { OnOk result
            (self.new ≡ with_scope self.old ((name.entry.now, ordinal) ∷ self.old.scope)) }
        ensures err { OnErr result (self.new ≡ self.old) }
    {
        self.bindings.reserve(1)?;
        let name_position = self.newest.find_or_add_name(name)?;
        let hidden_binding_index = self.newest.newest_binding_at(name_position, name);
        self.newest
            .set_newest_binding(name_position, name, Some(self.bindings.len()));
        self.bindings.push_reserved(Binding {
            name,
            name_position,
            ordinal,
            hidden_binding_index,
        });
        Ok(())
    }

    /// Removes the newest bindings until at most `len` bindings are left.
    pub(crate) fn truncate_bindings(&mut self, len: usize)
        ensures { self.new
            ≡ with_scope self.old (drop (length self.old.scope - len) self.old.scope) }
    {
        for _left in 0..self.len().saturating_sub(len) {
            self.pop_binding();
        }
    }

    /// Removes the newest binding, so that the binding that it hid is visible again. Does nothing
    /// if there is no binding.
    fn pop_binding(&mut self)
        ensures { self.new ≡ with_scope self.old (drop 1 self.old.scope) }
    {
        let Some(left) = self.bindings.pop() else {
            return;
        };
        self.newest
            .set_newest_binding(left.name_position, left.name, left.hidden_binding_index);
    }
}
