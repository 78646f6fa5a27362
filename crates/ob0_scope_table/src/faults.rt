//! Defines faults whose places are token indexes, and gives such faults their spans in a text. If
//! only white space or comments of a text change, all token indexes stay the same, and so do these
//! faults.

ghost use Rattle.std.specs.Prelude.{◌≡◌, IfOk, map};
ghost use Rattle.ob0_scope_table.specs.FaultsAtTokens.{fault_at_token, fault_with_span};
ghost use Rattle.ob0_scope_table.specs.Resolution.{is_duplicate_or_end_name_fault};

use crate::token_lookups::token_span;
use ob0_scan::{Fault, FaultCode, Span, Tokens};
use std::alloc::{AllocError, Global};

/// A fault of names or types, with the indexes of the first and the last token of its place.
#[derive(Clone, Copy)]
pub struct FaultAtTokens {
    pub code: FaultCode,
    pub first: usize,
    pub last: usize,
}

/// Returns the fault with this code at one token.
pub fn fault_at_token(code: FaultCode, token: usize) -> FaultAtTokens
    ensures { result ≡ fault_at_token code token }
{
    FaultAtTokens {
        code,
        first: token,
        last: token,
    }
}

/// Returns whether the fault is a duplicate declaration or field, or a wrong closing name.
pub fn is_duplicate_or_end_name_fault(fault: &FaultAtTokens) -> bool
    ensures { result ≡ is_duplicate_or_end_name_fault fault.now }
{
    fault.code == FaultCode::Duplicate || fault.code == FaultCode::EndName
}

/// Returns these faults with their spans in the text that has the tokens `tokens`, in the same
/// order.
pub fn collect_faults_with_spans(
    alloc: Global,
    tokens: &Tokens,
    faults: &[FaultAtTokens],
) -> Result<Vec<Fault>, AllocError>
    ensures { IfOk result (λ list. list.items ≡ map (fault_with_span tokens.now) faults.now) }
{
    faults
        .iter()
        .map(|fault| fault_with_span(tokens, *fault))
        .collect(alloc)
}

/// Returns a fault with its span, from the start of its first token to the end of its last token. A
/// token that doesn't exist counts as the last token.
fn fault_with_span(tokens: &Tokens, fault: FaultAtTokens) -> Fault
    ensures { result ≡ fault_with_span tokens.now fault }
{
    let last_token = tokens.tokens().len().saturating_sub(1);
    let first = token_span(tokens, fault.first.min(last_token));
    let last = token_span(tokens, fault.last.min(last_token));
    Fault {
        code: fault.code,
        span: Span {
            start: first.start,
            end: last.end,
        },
    }
}
