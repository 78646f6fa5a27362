//! Binds the names of a module to their declarations.

ghost use Rattle.std.specs.Prelude.{◌≡◌, IfOk};
ghost use Rattle.ob0_scope_table.specs.Resolution.{IsResolution};
ghost use Rattle.ob0_scope_table.specs.Bindings.{resolution_with_bindings};

use crate::declaration_checks::check_declarations;
use crate::undeclared_names::report_undeclared_names;
use ob0_scope_numbering::{Spellings, number_identifiers};
use ob0_scope_table::{Bindings, Resolved};
use ob0_tree::Module;
use std::alloc::{AllocError, Global};

/// Binds each name of a module to its declaration, according to the scope rules of Wirth's Compiler
/// Construction. A name is visible from its declaration to the end of the declaring block. An inner
/// block may declare the name again.
pub fn resolve<'t>(alloc: Global, module: &'t Module<'t>) -> Result<Resolved<'t>, AllocError>
    ensures { IfOk result (λ r. (r.module_read ≡ «module».now) × IsResolution r) }
{
    let bindings = bindings_of(alloc, module)?;
    Ok(Resolved::new(module, bindings))
}

/// Returns the bindings of a module's names. The bindings borrow nothing, so that they can be kept
/// next to the module's tree.
pub fn bindings_of(alloc: Global, module: &Module<'_>) -> Result<Bindings, AllocError>
    ensures { IfOk result (λ b. IsResolution (resolution_with_bindings «module».now b)) }
{
    let tokens = module.tokens();
    let numbering = number_identifiers(alloc, module, Spellings::original_spellings(tokens))?;
    let (declaration_tokens, occurrences, ordinals) = numbering.into_tokens_and_ordinals();
    let mut faults = check_declarations(alloc, module)?;
    report_undeclared_names(&mut faults, &ordinals, &occurrences)?;
    Ok(Bindings {
        ordinals,
        declaration_tokens,
        occurrences,
        faults,
    })
}
