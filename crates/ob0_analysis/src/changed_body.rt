//! Binds names and checks types of a text that has the same tree as the previous text. If the two
//! texts differ in only one body, the bindings and types outside this body are reused.

ghost use Rattle.std.specs.Prelude.{◌≡◌, [], true, IfOk, IfSome};
ghost use Rattle.ob0_scope.specs.BindingsBeforeBodyChange.{AreBindingsBeforeBodyChange};
ghost use Rattle.ob0_scope_table.specs.Bindings.{resolution_with_bindings};
ghost use Rattle.ob0_scope_table.specs.Resolution.{IsResolution};
ghost use Rattle.ob0_types.specs.CheckedModules.{IsCheckResultOfModule};
ghost use Rattle.ob0_types.specs.OneBody.{IsCheckResultBeforeBodyChange};

use ob0_scan::CommonPrefixAndSuffix;
use ob0_scope::{bindings_of, rebind_changed_body};
use ob0_scope_table::{Bindings, BodyBounds, Resolved};
use ob0_tree::Module;
use ob0_types::{CheckResult, check_result_after_body_change, check_result_of};
use std::alloc::{AllocError, Global};

/// Returns the bindings of a text that has the same tree as the previous text. `bindings` are the
/// bindings of the previous text. If the identifiers have the same spellings as before
/// (`same_names`) and no name has a fault, the bindings are kept. Otherwise names are bound again,
/// because bindings or faults may have changed: only those in the body with the bounds `body` if
/// the texts differ in only this body, and all names if `body` is None.
pub(crate) fn rebind_names(
    alloc: Global,
    read: &Module<'_>,
    bindings: Bindings,
    same: CommonPrefixAndSuffix,
    same_names: bool,
    body: Option<BodyBounds>,
) -> Result<Bindings, AllocError>
    requires resolved { same_names ≡ true
        → bindings.faults.items ≡ []
        → IsResolution (resolution_with_bindings read.now bindings) }
    requires before { IfSome body
        (λ _. AreBindingsBeforeBodyChange read.now bindings same.prefix same.old_suffix) }
    ensures { IfOk result (λ b. IsResolution (resolution_with_bindings read.now b)) }
{
    if same_names && bindings.faults.is_empty() {
        return Ok(bindings);
    }
    match body {
        Some(_body) => rebind_changed_body(alloc, read, bindings, same.prefix, same.old_suffix),
        None => {
            drop(bindings);
            bindings_of(alloc, read)
        }
    }
}

/// Checks the types of a text that has the same tree as the previous text. `types` are the types of
/// the previous text. If the texts differ in only the body with the bounds `body`, the types
/// outside this body are reused. If `body` is None, all types are checked again.
pub(crate) fn recheck_types<'t>(
    alloc: Global,
    resolved: &'t Resolved<'t>,
    types: CheckResult,
    body: Option<BodyBounds>,
) -> Result<CheckResult, AllocError>
    requires { IfSome body
        (λ bounds. IsCheckResultBeforeBodyChange resolved.now types bounds.closing) }
    ensures { IfOk result (IsCheckResultOfModule resolved.now) }
{
    match body {
        Some(body) => check_result_after_body_change(alloc, resolved, types, body.closing),
        None => {
            drop(types);
            check_result_of(alloc, resolved)
        }
    }
}
