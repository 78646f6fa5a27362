//! The names of `ob0_scan`, `ob0_tree` and `ob0_parse`.

ghost use Rattle.std.specs.Prelude.{◌≡◌, ◌++◌, IfOk, string_bytes};
ghost use Rattle.ob0_scan.specs.ReusedLexemes.{ReplacesRange};

use ob0_parse::{ExpectedSyntax, ParseRefusal, parse};
use ob0_scan::laws::new_middle_replaces_range;
use ob0_scan::{
    Fault, FaultCode, Rescan, ScanRefusal, Span, Token, Tokens, is_identifier, rescan, scan,
};
use ob0_tree::{Module, Role};
use std::alloc::{AllocError, Global};
use std::process::Abort;

/// Returns the two ends of a span.
fn ends_of_span(span: Span) -> (u32, u32) {
    let Span { start, end } = span;
    (start, end)
}

/// Returns the code and the ends of the first fault. Returns None if there is none.
fn first_fault(faults: &[Fault]) -> Option<(FaultCode, (u32, u32))> {
    match faults.first() {
        Some(fault) => {
            let Fault { code, span } = *fault;
            Some((code, ends_of_span(span)))
        }
        None => None,
    }
}

/// Returns the first fault of scanning a text. Returns None if it has tokens or an allocation
/// fails.
fn first_fault_of_text(alloc: Global, text: &str) -> Option<(FaultCode, (u32, u32))> {
    let scanned: Result<Tokens, ScanRefusal> = scan(alloc, text);
    match scanned {
        Ok(_tokens) => None,
        Err(ScanRefusal::Faults(faults)) => first_fault(faults.as_slice()),
        Err(ScanRefusal::Memory) => None,
    }
}

/// Returns whether the second token is at these bytes.
fn has_second_token_at(tokens: &Tokens, ends: (u32, u32)) -> bool {
    let all: &[Token] = Tokens::tokens(tokens);
    all.len() > 1 && ends_of_span(all[1].span) == ends
}

/// Returns the three texts joined.
fn joined_texts(alloc: Global, front: &str, middle: &str, rest: &str) -> Result<String, AllocError>
    ensures { IfOk result (λ text. string_bytes text ≡ front.now ++ (middle.now ++ rest.now)) }
{
    let mut text = String::from_str(alloc, front)?;
    text.push_str(middle)?;
    text.push_str(rest)?;
    Ok(text)
}

/// Returns how many lexemes of a text are read again after a change. Returns None if the text has
/// faults or an allocation fails.
fn lexemes_read_again(
    alloc: Global,
    old: &Tokens,
    text: &str,
    from: usize,
    removed: usize,
    added: usize,
) -> Option<usize>
    requires { ReplacesRange old.now.text text.now from removed added }
{
    let again: Result<Rescan, ScanRefusal> = rescan(alloc, old, text, from, removed, added);
    match again {
        Ok(Rescan { tokens, read }) => if Tokens::text(&tokens) == text {
            Some(read)
        } else {
            None
        },
        Err(_refusal) => None,
    }
}

/// Replaces `middle` by `other` in the text of `front`, `middle` and `rest`. Returns how many
/// lexemes are read again.
fn lexemes_read_again_after_change(
    alloc: Global,
    front: &str,
    middle: &str,
    other: &str,
    rest: &str,
) -> Result<Option<usize>, AllocError> {
    new_middle_replaces_range();
    let old_text = joined_texts(alloc, front, middle, rest)?;
    let text = joined_texts(alloc, front, other, rest)?;
    let (from, removed, added) = (front.len(), middle.len(), other.len());
    match scan(alloc, old_text.as_str()) {
        Ok(old) => Ok(lexemes_read_again(alloc, &old, text.as_str(), from, removed, added)),
        Err(_refusal) => Ok(None),
    }
}

/// Returns the depth of nesting of a module, and the number of its identifiers.
fn nesting_and_identifiers(alloc: Global, module: &Module<'_>) -> Result<(u32, usize), AllocError> {
    let nesting: u32 = Module::nesting(module);
    let identifiers: Result<Vec<(Role, usize)>, AllocError> = Module::identifiers(module, alloc);
    Ok((nesting, identifiers?.len()))
}

/// Returns the index of the token at which the parser refuses, and what it expects there.
fn place_of_refusal(refusal: ParseRefusal) -> Option<(usize, Option<ExpectedSyntax>)> {
    match refusal {
        ParseRefusal::Syntax { token, expected } => Some((token, Some(expected))),
        ParseRefusal::TooDeep { token } => Some((token, None)),
        ParseRefusal::Memory => None,
    }
}

/// Returns whether tokens form a module that has this nesting and so many identifiers, and lends
/// these tokens.
fn parses_with(alloc: Global, tokens: &Tokens, expected: (u32, usize)) -> bool {
    let parsed: Result<Module<'_>, ParseRefusal> = parse(alloc, tokens);
    match parsed {
        Ok(module) => {
            let lent: &Tokens = Module::tokens(&module);
            lent.text() == tokens.text() && nesting_and_identifiers(alloc, &module) == Ok(expected)
        }
        Err(_refusal) => false,
    }
}

/// Returns the place at which the parser refuses tokens. Returns None if it accepts them, or if an allocation fails.
fn refusal_of(alloc: Global, tokens: &Tokens) -> Option<(usize, Option<ExpectedSyntax>)> {
    let parsed: Result<Module<'_>, ParseRefusal> = parse(alloc, tokens);
    match parsed {
        Ok(_module) => None,
        Err(refusal) => place_of_refusal(refusal),
    }
}

/// Returns whether a text has tokens, of which the second is at these bytes, and is a module with
/// this nesting and so many identifiers.
fn is_module_with(alloc: Global, text: &str, second: (u32, u32), expected: (u32, usize)) -> bool {
    match scan(alloc, text) {
        Ok(tokens) => {
            has_second_token_at(&tokens, second) && parses_with(alloc, &tokens, expected)
        }
        Err(_refusal) => false,
    }
}

/// Returns the place at which the parser refuses a text. Returns None if it accepts it.
fn refusal_of_text(alloc: Global, text: &str) -> Option<(usize, Option<ExpectedSyntax>)> {
    match scan(alloc, text) {
        Ok(tokens) => refusal_of(alloc, &tokens),
        Err(_refusal) => None,
    }
}

/// Returns whether names, faults and changes of texts are found.
fn texts_are_as_expected(alloc: Global) -> bool {
    let identifiers: (bool, bool) = (is_identifier("x1"), is_identifier("END"));
    identifiers == (true, false)
        && first_fault_of_text(alloc, "x $") == Some((FaultCode::BadChar, (2, 3)))
        && lexemes_read_again_after_change(alloc, "x := ", "1", "2", " + y") == Ok(Some(1))
}

#[test]
fn texts_are_scanned(rt: HostRuntime) {
    assert!(rt; texts_are_as_expected(rt.alloc()));
}

/// Returns whether a module and a refusal are found.
fn trees_are_as_expected(alloc: Global) -> bool {
    let text = "MODULE M; VAR x: ARRAY 1 OF INTEGER; END M.";
    is_module_with(alloc, text, (7, 8), (1, 4))
        && refusal_of_text(alloc, "MODULE 1") == Some((1, Some(ExpectedSyntax::Identifier)))
}

#[test]
fn tokens_are_parsed(rt: HostRuntime) {
    assert!(rt; trees_are_as_expected(rt.alloc()));
}
