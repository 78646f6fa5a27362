//! Reports the undeclared names.

ghost use Rattle.std.specs.Prelude.{◌≡◌, ◌++◌, IfOk, OnOk};
ghost use Rattle.ob0_scope_table.specs.Resolution.{undeclared_faults_from_table};
ghost use Rattle.ob0_scope.specs.BindingsOutsideBody.{undeclared_tokens};

use ob0_scan::FaultCode;
use ob0_scope_table::{FaultAtTokens, OrdinalEntry, fault_at_token, ordinal_at};
use std::alloc::{AllocError, Global};

/// Appends a fault `Undeclared` for each token in `occurrences` that has no ordinal in the table
/// `ordinals`.
pub(crate) fn report_undeclared_names(
    faults: &mut Vec<FaultAtTokens>,
    ordinals: &[OrdinalEntry],
    occurrences: &[usize],
) -> Result<(), AllocError>
    ensures { OnOk result (faults.new.items
        ≡ faults.old.items ++ undeclared_faults_from_table ordinals.now occurrences.now) }
{
    for token in occurrences {
        if ordinal_at(ordinals, *token).is_none() {
            faults.push(fault_at_token(FaultCode::Undeclared, *token))?;
        }
    }
    Ok(())
}

/// Returns the tokens of the undeclared names that `faults` reports, in the same order.
pub(crate) fn undeclared_tokens(
    alloc: Global,
    faults: &[FaultAtTokens],
) -> Result<Vec<usize>, AllocError>
    ensures { IfOk result (λ tokens. tokens.items ≡ undeclared_tokens faults.now) }
{
    let mut tokens = Vec::new(alloc);
    for fault in faults {
        if fault.code == FaultCode::Undeclared {
            tokens.push(fault.first)?;
        }
    }
    Ok(tokens)
}
