//! Keeps a module with all results of its analysis.
//!
//! A *view* (`Module`, `Resolved`, `Checked`) has one part of the results and a reference to the
//! view of the layer below. The view's invariant says that the part is right for the layer below. A
//! view's constructors require this invariant. `Module` and `Resolved` have a constructor `new`,
//! which takes ownership of the part. Each view has a constructor `from_parts`, which borrows the
//! part. Only `Checked::from_parts` allocates: it makes a list of the faults with their spans. In
//! contracts, a `ModuleParts` has the same value as its `Resolved` view.

ghost use Rattle.std.specs.Prelude.{◌≡◌, IfOk};
ghost use Rattle.ob0_tree.specs.ParsedModule.{TreeMatchesText, parsed_module};
ghost use Rattle.ob0_scope_table.specs.Bindings.{resolution_with_bindings};
ghost use Rattle.ob0_scope_table.specs.Resolution.{IsResolution};
ghost use Rattle.ob0_types.specs.CheckedModules.{IsCheckResultOfModule, IsCorrectlyChecked};

use ob0_scan::Tokens;
use ob0_scope::bindings_of;
use ob0_scope_table::{Bindings, Resolved};
use ob0_tree::{Module, ModuleTree};
use ob0_types::{CheckResult, Checked, check_result_of};
use std::alloc::{AllocError, Global};
use std::marker::Model;

/// A module as separate parts: its tokens, their tree, the bindings of its names, and the results
/// of checking its types. No part borrows another.
#[derive(Drop)]
pub(crate) struct ModuleParts {
    tokens: Tokens,
    tree: ModuleTree,
    bindings: Bindings,
    types: CheckResult,
}

impl Model for ModuleParts {
    ghost use Rattle.ob0_tree.specs.ParsedModule.{TreeMatchesText, parsed_module};
    ghost use Rattle.ob0_scope_table.specs.Bindings.{resolution_with_bindings};
    ghost use Rattle.ob0_scope_table.specs.Resolution.{IsResolution, Resolution};
    ghost use Rattle.ob0_types.specs.CheckedModules.{IsCheckResultOfModule};

    ghost Value = { Resolution };

    ghost use Rattle.std.specs.Coded.{codes};
    ghost use Rattle.ob0_tree.specs.contracts.tree.Block as block_contract;

    ghost coded = { Prim.hlevel (codes, block_contract.the_row.coded) };

    ghost view = { λ m. resolution_with_bindings (parsed_module m.tokens m.tree) m.bindings };

    ghost invariant = { λ m. let r = resolution_with_bindings (parsed_module m.tokens m.tree) m.bindings in
        TreeMatchesText r.module_read × (IsResolution r × IsCheckResultOfModule r m.types) };
}

impl ModuleParts {
    /// Binds the names of a module and checks its types. Fails only if an allocation fails.
    pub(crate) fn bind_and_check(
        alloc: Global,
        tokens: Tokens,
        tree: ModuleTree,
    ) -> Result<ModuleParts, AllocError>
        requires { TreeMatchesText (parsed_module tokens tree) }
        ensures { IfOk result (λ m. m.module_read ≡ parsed_module tokens tree) }
    {
        let bindings = bindings_of(alloc, &Module::from_parts(&tokens, &tree))?;
        let types = check_result_of(
            alloc,
            &Resolved::from_parts(&Module::from_parts(&tokens, &tree), &bindings),
        )?;
        Ok(ModuleParts {
            tokens,
            tree,
            bindings,
            types,
        })
    }

    /// Joins the parts of a module, all of which must belong to the same text.
    pub(crate) fn from_parts(
        tokens: Tokens,
        tree: ModuleTree,
        bindings: Bindings,
        types: CheckResult,
    ) -> ModuleParts
        requires parsed { TreeMatchesText (parsed_module tokens tree) }
        requires resolved { IsResolution (resolution_with_bindings (parsed_module tokens tree)
            bindings) }
        requires types { IsCheckResultOfModule (resolution_with_bindings (parsed_module tokens tree)
            bindings) types }
        ensures { result ≡ resolution_with_bindings (parsed_module tokens tree) bindings }
    {
        ModuleParts {
            tokens,
            tree,
            bindings,
            types,
        }
    }

    /// Returns a view of the module's tokens and tree.
    pub(crate) fn module(&self) -> Module<'_>
        ensures { result ≡ self.now.module_read }
    {
        Module::from_parts(&self.tokens, &self.tree)
    }

    /// Returns a view of the module with its bindings.
    pub(crate) fn resolved_module<'a>(&'a self, module: &'a Module<'a>) -> Resolved<'a>
        requires { «module».now ≡ self.now.module_read }
        ensures { result ≡ self.now }
    {
        Resolved::from_parts(module, &self.bindings)
    }

    /// Returns a view of the module with its types and its faults, including the faults' spans.
    /// Fails only if an allocation fails.
    pub(crate) fn checked_module<'a>(
        &'a self,
        alloc: Global,
        resolved: &'a Resolved<'a>,
    ) -> Result<Checked<'a>, AllocError>
        requires { resolved.now ≡ self.now }
        ensures names { IfOk result (λ c. c.names ≡ self.now) }
        ensures checked { IfOk result IsCorrectlyChecked }
    {
        Checked::from_parts(alloc, resolved, &self.types)
    }

    /// Returns the tokens of the text.
    pub(crate) fn tokens(&self) -> &Tokens
        ensures source { result.now ≡ self.now.module_read.source }
        ensures parsed { TreeMatchesText self.now.module_read }
    {
        &self.tokens
    }

    /// Takes the module apart and returns its parts, so that each part can be reused separately.
    pub(crate) fn into_parts(self) -> (Tokens, ModuleTree, Bindings, CheckResult)
        ensures parsed { TreeMatchesText (parsed_module result.0 result.1) }
        ensures resolved { IsResolution (resolution_with_bindings (parsed_module result.0 result.1)
            result.2) }
        ensures types { IsCheckResultOfModule (resolution_with_bindings
            (parsed_module result.0 result.1) result.2) result.3 }
    {
        let ModuleParts {
            tokens,
            tree,
            bindings,
            types,
        } = self;
        (tokens, tree, bindings, types)
    }
}
