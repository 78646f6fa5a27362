//! Binds the names of a module again after the spellings of tokens in one body changed, or after
//! the body's statements were replaced.

ghost use Rattle.std.specs.Prelude.{◌≡◌, ◌≤◌, ◌++◌, IfOk, not};
ghost use Rattle.std.specs.List.{list_any};
ghost use Rattle.std.specs.List.Sorted.{IsNonDecreasing};
ghost use Rattle.ob0_tree.specs.ParsedModule.{named_tree_of};
ghost use Rattle.ob0_tree.specs.View.{body_of};
ghost use Rattle.ob0_language_names.specs.ConsistentNames.{has_consistent_names};
ghost use Rattle.ob0_scope_table.specs.DuplicatesAndEndNames.{declaration_faults};
ghost use Rattle.ob0_scope_table.specs.Resolution.{IsResolution, is_duplicate_or_end_name_fault, undeclared_faults_from_table};
ghost use Rattle.ob0_scope_table.specs.Bindings.{resolution_with_bindings};
ghost use Rattle.ob0_scope.specs.BindingsBeforeBodyChange.{AreBindingsBeforeBodyChange};
ghost use Rattle.ob0_scope.specs.BindingsBeforeBodyReplacement.{AreBindingsBeforeBodyReplacement};
ghost use Rattle.ob0_scope.specs.BindingsOutsideBody.{IsRangeOfNewBody, tokens_in_changed_text, undeclared_tokens};

use crate::body_range::{
    BodyRange, find_body_in_block, old_closing_token, ordinals_in_changed_text,
};
use crate::declaration_checks::recheck_declarations;
use crate::module_resolution::bindings_of;
use crate::undeclared_names::{report_undeclared_names, undeclared_tokens};
use ob0_scan::CommonPrefixAndSuffix;
use ob0_scope_numbering::renumber_body;
use ob0_scope_table::{Bindings, FaultAtTokens, OrdinalEntry};
use ob0_tree::{Module, Statement, first_identifier};
use std::alloc::{AllocError, Global};

/// Returns the bindings of a module after the spellings of tokens in one body changed. `old` has
/// the bindings before the change. The changed tokens have the indexes from `low` up to, but not
/// including, `_changed_end`, which only the contract uses. Only the names in the changed body are
/// bound again. If the body has no identifiers, all names of the module are bound again.
pub fn rebind_changed_body(
    alloc: Global,
    read: &Module<'_>,
    old: Bindings,
    low: usize,
    _changed_end: usize,
) -> Result<Bindings, AllocError>
    requires { AreBindingsBeforeBodyChange read.now old low _changed_end }
    ensures { IfOk result (λ b. IsResolution (resolution_with_bindings read.now b)) }
{
    let tokens = read.tokens();
    if old.ordinals.len() < tokens.tokens().len() {
        return bindings_of(alloc, read);
    }
    let mut names = Vec::new(alloc);
    let found = find_body_in_block(read.block(), read.closing_name(), low, &mut names)?;
    let Some(first) = first_identifier(found.statements) else {
        return bindings_of(alloc, read);
    };
    let range = BodyRange {
        first,
        old_closing: found.closing,
        closing: found.closing,
    };
    let Bindings {
        ordinals,
        declaration_tokens,
        occurrences,
        faults: known,
    } = old;
    let numbering = renumber_body(alloc, tokens, ordinals, &names, found.statements)?;
    let (_declared, own, ordinals) = numbering.into_tokens_and_ordinals();
    let faults = recheck_names(alloc, read, &known, range, &ordinals, &own)?;
    Ok(Bindings {
        ordinals,
        declaration_tokens,
        occurrences,
        faults,
    })
}

/// Returns the bindings of a module after the statements of one body were replaced. `old` has the
/// bindings before the replacement. `same` says which tokens at the start and at the end of the
/// text are unchanged. Only the names in the new body are bound again. If the new body has no
/// identifiers, all names of the module are bound again.
pub fn rebind_replaced_body(
    alloc: Global,
    read: &Module<'_>,
    old: Bindings,
    same: CommonPrefixAndSuffix,
) -> Result<Bindings, AllocError>
    requires { AreBindingsBeforeBodyReplacement read.now old same }
    ensures { IfOk result (λ b. IsResolution (resolution_with_bindings read.now b)) }
{
    let mut names = Vec::new(alloc);
    let found = find_body_in_block(read.block(), read.closing_name(), same.prefix, &mut names)?;
    let Some(first) = first_identifier(found.statements) else {
        return bindings_of(alloc, read);
    };
    let range = BodyRange {
        first,
        old_closing: old_closing_token(same, found.closing),
        closing: found.closing,
    };
    let table = ordinals_in_changed_text(alloc, &old.ordinals, same)?;
    rebind_body_range(alloc, read, old, table, range, &names, found.statements)
}

/// Returns the bindings of a module after the statements of one body were replaced. `old` has the
/// bindings before the replacement, and `table` has the ordinals of all unchanged tokens. `range`
/// is the token range of the new statements, `statements`. `names` has the tokens of the names that
/// are visible in these statements. Only the names in the statements are bound again.
fn rebind_body_range(
    alloc: Global,
    read: &Module<'_>,
    old: Bindings,
    table: Vec<OrdinalEntry>,
    range: BodyRange,
    names: &[usize],
    statements: &Option<Vec<Statement>>,
) -> Result<Bindings, AllocError>
    requires { IsRangeOfNewBody read.now old table.items range names.now (body_of statements.now) }
    ensures { IfOk result (λ b. IsResolution (resolution_with_bindings read.now b)) }
{
    let tokens = read.tokens();
    if table.len() < tokens.tokens().len() {
        return bindings_of(alloc, read);
    }
    let numbering = renumber_body(alloc, tokens, table, names, statements)?;
    let (_declared, own, ordinals) = numbering.into_tokens_and_ordinals();
    let faults = recheck_names(alloc, read, &old.faults, range, &ordinals, &own)?;
    let Bindings {
        ordinals: _replaced,
        mut declaration_tokens,
        mut occurrences,
        faults: _known,
    } = old;
    range.replace_tokens(&mut declaration_tokens, &[])?;
    range.replace_tokens(&mut occurrences, &own)?;
    Ok(Bindings {
        ordinals,
        declaration_tokens,
        occurrences,
        faults,
    })
}

/// Returns the faults of a module's names after the names of one body were looked up again. `known`
/// has the faults from before the change, and `ordinals` is the table of the changed module.
/// `range` is the body's token range, and `own` has the tokens of the names that are looked up in
/// it. Outside the body, only the names that were undeclared before are checked.
fn recheck_names<'t>(
    alloc: Global,
    read: &'t Module<'t>,
    known: &[FaultAtTokens],
    range: BodyRange,
    ordinals: &[OrdinalEntry],
    own: &[usize],
) -> Result<Vec<FaultAtTokens>, AllocError>
    requires known { list_any is_duplicate_or_end_name_fault known.now
        ≡ not (has_consistent_names (named_tree_of read.now)) }
    requires ordered { range.first ≤ range.old_closing }
    requires ascending { IsNonDecreasing (undeclared_tokens known.now) }
    ensures { IfOk result (λ faults. faults.items ≡ declaration_faults read.now
        ++ undeclared_faults_from_table ordinals.now
        (tokens_in_changed_text range (undeclared_tokens known.now) own.now)) }
{
    let mut checked = undeclared_tokens(alloc, known)?;
    range.replace_tokens(&mut checked, own)?;
    let mut faults = recheck_declarations(alloc, read, known)?;
    report_undeclared_names(&mut faults, ordinals, &checked)?;
    Ok(faults)
}
