//! Makes the diagnoses of a text, each with a code, a message and a range of bytes. A text that the
//! parser refuses has one diagnosis, for the refusal. Any other text has a diagnosis for each
//! reported fault.

ghost use Rattle.std.specs.Prelude.{◌≡◌, IfOk, map};
ghost use Rattle.ob0_analysis.specs.ReportedErrors.{IsDiagnosisOfRefusal, reported_diagnosis_of, reported_diagnosis_of_fault, syntax_error_diagnosis as expected_at, depth_error_diagnosis as too_deep_at, token_span_or_end as span_or_end};

use ob0_parse_descent::ParseRefusal;
use ob0_scan::{Fault, Span, Tokens};
use std::alloc::{AllocError, Global};

/// An error of a text: the name of its code, a message, and the range of bytes at which it is
/// reported.
#[derive(Drop)]
pub struct Diagnosis {
    pub code: &'static str,
    pub message: String,
    pub span: Span,
}

/// Returns a diagnosis for each of `faults` (faults of lexemes, or of names and types), in the same
/// order.
pub fn diagnoses_of_faults(alloc: Global, faults: &[Fault]) -> Result<Vec<Diagnosis>, AllocError>
    ensures { IfOk result (λ list. map reported_diagnosis_of list.items
        ≡ map reported_diagnosis_of_fault faults.now) }
{
    let mut list = Vec::new(alloc);
    for fault in faults {
        list.push(diagnosis_of_fault(alloc, fault)?)?;
    }
    Ok(list)
}

/// Returns the diagnosis of one fault, with its code's name and message.
fn diagnosis_of_fault(alloc: Global, fault: &Fault) -> Result<Diagnosis, AllocError>
    ensures { IfOk result (λ d. reported_diagnosis_of d ≡ reported_diagnosis_of_fault fault.now) }
{
    Ok(Diagnosis {
        code: fault.code.name(),
        message: String::from_str(alloc, fault.code.message())?,
        span: fault.span,
    })
}

/// Returns the diagnosis of the parser's refusal, at the token that was refused. Returns an error
/// if the refusal is `Memory` or an allocation fails.
pub fn diagnosis_of_refusal(
    alloc: Global,
    tokens: &Tokens,
    refusal: &ParseRefusal,
) -> Result<Diagnosis, AllocError>
    ensures { IfOk result (λ d. IsDiagnosisOfRefusal tokens.now refusal.now
        (reported_diagnosis_of d)) }
{
    match refusal {
        ParseRefusal::Syntax { token, expected } => syntax_error_diagnosis(
            alloc,
            expected.text(),
            token_span_or_end(tokens, *token),
        ),
        ParseRefusal::TooDeep { token } => {
            depth_error_diagnosis(alloc, token_span_or_end(tokens, *token))
        }
        ParseRefusal::Memory => Err(AllocError),
    }
}

/// Returns the diagnosis of a syntax error at this span. The message is the word *expected*,
/// followed by `word`.
fn syntax_error_diagnosis(alloc: Global, word: &str, span: Span) -> Result<Diagnosis, AllocError>
    ensures { IfOk result (λ d. reported_diagnosis_of d ≡ expected_at word.now span) }
{
    Ok(Diagnosis {
        code: "Syntax",
        message: format!(in alloc; "expected {word}")?,
        span,
    })
}

/// Returns the diagnosis of a construct at this span that is nested too deep.
fn depth_error_diagnosis(alloc: Global, span: Span) -> Result<Diagnosis, AllocError>
    ensures { IfOk result (λ d. reported_diagnosis_of d ≡ too_deep_at span) }
{
    Ok(Diagnosis {
        code: "TooDeep",
        message: String::from_str(alloc, "nested too deep")?,
        span,
    })
}

/// Returns the span of the token with this index. If there is no such token, the span is empty and
/// lies at the end of the text.
fn token_span_or_end(tokens: &Tokens, token: usize) -> Span
    ensures { result ≡ span_or_end tokens.now token }
{
    match tokens.tokens().get(token) {
        Some(token) => token.span,
        None => {
            let end = tokens.text().len() as u32;
            Span { start: end, end }
        }
    }
}
