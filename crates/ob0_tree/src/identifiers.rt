//! Lists the identifiers of a module in text order, each with its role and the index of its token.

ghost use Rattle.std.specs.Prelude.{◌≡◌, ◌++◌, ◌∷◌, [], IfOk};
ghost use Rattle.ob0_tree.specs.declared.tree.Role.TheVariants as roles;
ghost use Rattle.ob0_tree.specs.Tree.{identifiers};
ghost use Rattle.ob0_tree.specs.ParsedModule.{tree_of};

use crate::identifier_walk::Visitor;
use crate::tree::{Module, Role};
use std::alloc::{AllocError, Global};
use std::marker::Model;

/// A visitor that collects the identifiers which the walk has visited, in text order. Each
/// identifier is stored with its role and the index of its token.
#[derive(Drop)]
struct IdentifierCollector {
    listed: Vec<(Role, usize)>,
}

impl Model for IdentifierCollector {
    ghost use Rattle.std.specs.Prelude.{ℕ, List};
    ghost use Rattle.ob0_tree.specs.declared.tree.Role.{Role};

    ghost Value = { List (Role × ℕ) };

    ghost view = { λ s. s.listed.items };
}

impl Visitor for IdentifierCollector {
    ghost state_after_one_identifier = { λ role token before. before ++ ((role, token) ∷ []) };

    fn visit_one_identifier(&mut self, role: Role, token: usize) -> Result<(), AllocError> {
        self.listed.push((role, token))?;
        Ok(())
    }
}

impl IdentifierCollector {
    /// Returns the collected identifiers in text order, each with its role and the index of its
    /// token.
    fn into_identifiers(self) -> Vec<(Role, usize)>
        ensures { result.items ≡ self }
    {
        let IdentifierCollector { listed } = self;
        listed
    }
}

impl<'t> Module<'t> {
    #[tactic(auto, using(crate::proofs::Visits::visits_listed))]
    /// Returns all identifiers of the module in text order, each with its role and the index of its
    /// token.
    pub fn identifiers(&self, alloc: Global) -> Result<Vec<(Role, usize)>, AllocError>
        ensures { IfOk result (λ v. v.items ≡ identifiers roles.DeclaringName (tree_of self.now)) }
    {
        let mut seen = IdentifierCollector {
            listed: Vec::new(alloc),
        };
        self.visit_identifiers(&mut seen)?;
        Ok(seen.into_identifiers())
    }
}
