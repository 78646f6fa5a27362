//! Tests scanning a text again after one change. This must give the tokens, comments and faults of
//! a scan from scratch.

ghost use Rattle.std.specs.Prelude.{◌≡◌, ◌++◌, IfOk, string_bytes};
ghost use Rattle.ob0_scan.specs.ReusedLexemes.{ReplacesRange};

use crate::cases::{TestCase, first_failing_row};
use crate::rescan::RescanCase::{ChangeInLongText, ChangeInShortText};
use crate::rescan::RescanOutcome::{Different, Refused, SameTokens, Unscanned};
use ob0_scan::laws::new_middle_replaces_range;
use ob0_scan::{
    Rescan, RescanFailure, RescanWithComparison, ScanRefusal, Tokens, rescan, rescan_in_place, scan,
};
use std::alloc::{AllocError, Global};
use std::process::Abort;

/// The outcome of scanning a changed text again, compared with a scan from scratch.
#[derive(Clone, Copy, PartialEq, Eq)]
enum RescanOutcome {
    /// Both scans give the same tokens and comments. The number counts the tokens and comments that
    /// were read again. The Bool says whether all tokens keep their kinds, as `rescan_in_place`
    /// reports.
    SameTokens(usize, bool),
    /// Both scans refuse the text with the same faults.
    Refused,
    /// The old text can't be scanned.
    Unscanned,
    Different,
}

/// A change of a text, as four texts: the unchanged front, the replaced text, the new text, and the
/// unchanged rest.
type ChangeInContext = (&'static str, &'static str, &'static str, &'static str);

enum RescanCase {
    ChangeInShortText(ChangeInContext, RescanOutcome),
    /// A change that has 5,000 more statements before it and 5,000 more after it.
    ChangeInLongText(ChangeInContext, RescanOutcome),
}

/// Returns the three texts joined.
fn join_texts(
    alloc: Global,
    front: &str,
    middle: &str,
    following: &str,
) -> Result<String, AllocError>
    ensures { IfOk result (λ text. string_bytes text ≡ front.now ++ (middle.now ++ following.now)) }
{
    let mut text = String::from_str(alloc, front)?;
    text.push_str(middle)?;
    text.push_str(following)?;
    Ok(text)
}

/// Returns whether both scans have the same text, tokens and comments.
fn are_same_scans(a: &Tokens, b: &Tokens) -> bool {
    a.text() == b.text() && a.tokens() == b.tokens() && a.comments() == b.comments()
}

/// Returns the outcome of `rescan_in_place`, given its result (`placed`) and the result of a scan
/// from scratch (`scanned`). If the new text has faults, `rescan_in_place` must return tokens of
/// the old text (`old_text`).
fn outcome_of_rescan_in_place(
    placed: &Result<RescanWithComparison, RescanFailure>,
    scanned: &Result<Tokens, ScanRefusal>,
    old_text: &str,
) -> RescanOutcome {
    match (placed, scanned) {
        (Ok(found), Ok(tokens)) if are_same_scans(&found.rescan.tokens, tokens) => {
            SameTokens(found.rescan.read, found.same_kinds)
        }
        (Err(RescanFailure::Faults(faults, old)), Err(ScanRefusal::Faults(others)))
            if old.text() == old_text && faults.as_slice() == others.as_slice() => { Refused }
        _ => Different,
    }
}

/// Returns whether a rescan that keeps the old tokens has this outcome. `found` is the rescan's
/// result, and `scanned` is the result of a scan from scratch. The Bool of `SameTokens` is ignored.
fn rescan_has_outcome(
    found: &Result<Rescan, ScanRefusal>,
    scanned: &Result<Tokens, ScanRefusal>,
    outcome: RescanOutcome,
) -> bool {
    match (found, scanned, outcome) {
        (Ok(found), Ok(tokens), SameTokens(count, _)) => {
            count == found.read && are_same_scans(&found.tokens, tokens)
        }
        (Err(ScanRefusal::Faults(faults)), Err(ScanRefusal::Faults(others)), Refused) => {
            faults.as_slice() == others.as_slice()
        }
        _ => false,
    }
}

/// A change, in bytes: the offset at which it begins, and the numbers of bytes that it removes and
/// adds.
#[derive(Clone, Copy)]
struct ChangedRange {
    from: usize,
    removed: usize,
    added: usize,
}

/// Scans a changed text again in two ways: with the old tokens kept (`rescan`), and with the old
/// tokens replaced in place (`rescan_in_place`). Returns the outcome of both, or `Different` if the
/// two outcomes differ.
fn rescan_both_ways(
    alloc: Global,
    old: Tokens,
    old_text: &str,
    text: &str,
    range: ChangedRange,
) -> RescanOutcome
    requires { ReplacesRange old.text text.now range.from range.removed range.added }
{
    let (from, removed, added) = (range.from, range.removed, range.added);
    let beside = rescan(alloc, &old, text, from, removed, added);
    let placed = rescan_in_place(alloc, old, text, from, removed, added);
    common_outcome_of_rescans(&beside, &placed, &scan(alloc, text), old_text)
}

/// Returns the outcome of both rescans of a changed text, or `Different` if the two outcomes
/// differ. `beside` is the result of `rescan`, and `placed` is the result of `rescan_in_place`.
/// `scanned` is the result of a scan from scratch.
fn common_outcome_of_rescans(
    beside: &Result<Rescan, ScanRefusal>,
    placed: &Result<RescanWithComparison, RescanFailure>,
    scanned: &Result<Tokens, ScanRefusal>,
    old_text: &str,
) -> RescanOutcome {
    let outcome = outcome_of_rescan_in_place(placed, scanned, old_text);
    if rescan_has_outcome(beside, scanned, outcome) {
        outcome
    } else {
        Different
    }
}

/// Replaces `middle` by `other` in the text that consists of `front`, `middle` and `following`.
/// Scans the new text again in both ways (`rescan_both_ways`), and returns the outcome.
fn outcome_of_change(
    alloc: Global,
    front: &str,
    middle: &str,
    other: &str,
    following: &str,
) -> Result<RescanOutcome, AllocError> {
    new_middle_replaces_range();
    let old_text = join_texts(alloc, front, middle, following)?;
    let text = join_texts(alloc, front, other, following)?;
    let range = ChangedRange {
        from: front.len(),
        removed: middle.len(),
        added: other.len(),
    };
    match scan(alloc, old_text.as_str()) {
        Ok(old) => Ok(rescan_both_ways(alloc, old, old_text.as_str(), text.as_str(), range)),
        Err(_refusal) => Ok(Unscanned),
    }
}

/// Appends 5,000 statements.
fn push_5000_statements(text: &mut String) -> Result<(), AllocError> {
    for _i in 0..5000 {
        text.push_str("x := 1;\n  ")?;
    }
    Ok(())
}

/// Returns the outcome of a change in a module that has these statements before the change and
/// again after it.
fn change_outcome_between_statements(
    alloc: Global,
    statements: &str,
    parts: &ChangeInContext,
) -> Result<RescanOutcome, AllocError> {
    let (front, middle, other, following) = *parts;
    let front = join_texts(alloc, "MODULE M; VAR x: INTEGER; BEGIN ", statements, front)?;
    let following = join_texts(alloc, following, statements, "END M.")?;
    outcome_of_change(alloc, front.as_str(), middle, other, following.as_str())
}

/// Returns the outcome of a change in a module that has 5,000 statements before the change and
/// 5,000 after it.
fn change_outcome_in_long_text(
    alloc: Global,
    parts: &ChangeInContext,
) -> Result<RescanOutcome, AllocError> {
    let mut statements = String::new(alloc);
    push_5000_statements(&mut statements)?;
    change_outcome_between_statements(alloc, statements.as_str(), parts)
}

/// Changes of long texts. After each, few tokens are read again.
static CHANGES_OF_LONG_TEXTS: &[RescanCase] = rows![
    ChangeInLongText(("x := ", "1", "2", "; "), SameTokens(1, true));
    ChangeInLongText(("x := ", "1", "(* one *) 1", "; "), SameTokens(2, true));
    ChangeInLongText(("x := ", "1", "1 + 1", "; "), SameTokens(3, false));
    ChangeInLongText(("x := ", "1", "", "; "), SameTokens(0, false));
];

static CHANGES_OF_SHORT_TEXTS: &[RescanCase] = rows![
    // A comment is opened at the beginning of the text.
    ChangeInShortText(("", "", "(*", "MODULE M; END M."), Refused);
    ChangeInShortText(("", "", "(*", "x *)"), SameTokens(1, false));
    ChangeInShortText(("", "", "(*", "$"), Unscanned);
    // In some of these changes, all tokens keep their kinds.
    ChangeInShortText(("x := ", "1", "21", " + y"), SameTokens(1, true));
    ChangeInShortText(("x := ", "1", "(* one *) 1", " + y"), SameTokens(2, true));
    ChangeInShortText(("x := ", "1", "z", " + y"), SameTokens(1, false));
    ChangeInShortText(("x := ", "1", "1 + 1", " + y"), SameTokens(3, false));
    ChangeInShortText(("x := ", "1", "", " + y"), SameTokens(0, false));
];

impl TestCase for RescanCase {
    fn has_expected_outcome(&self, alloc: Global) -> Result<bool, AllocError> {
        match self {
            ChangeInLongText(parts, outcome) => Ok(
                change_outcome_in_long_text(alloc, parts)? == *outcome,
            ),
            ChangeInShortText((front, middle, other, following), outcome) => {
                Ok(outcome_of_change(alloc, front, middle, other, following)? == *outcome)
            }
        }
    }
}

#[test]
fn few_tokens_are_scanned_again_in_long_texts(rt: HostRuntime) {
    let wrong = first_failing_row(rt.alloc(), CHANGES_OF_LONG_TEXTS);
    assert!(rt; wrong.is_none(), "row {wrong:?}");
}

#[test]
fn changed_texts_are_scanned_as_from_scratch(rt: HostRuntime) {
    let wrong = first_failing_row(rt.alloc(), CHANGES_OF_SHORT_TEXTS);
    assert!(rt; wrong.is_none(), "row {wrong:?}");
}

/// A generator of pseudorandom numbers.
#[derive(Drop)]
struct RandomNumbers {
    seed: u64,
}

impl RandomNumbers {
    /// Returns the next pseudorandom number. It is less than `most`, or 0 if `most` is 0.
    fn next_number_below(&mut self, most: usize) -> usize {
        self.seed = self
            .seed
            .wrapping_mul(6364136223846793005)
            .wrapping_add(1442695040888963407);
        ((self.seed >> 33) as usize) % most.max(1)
    }
}

static PIECES_OF_RANDOM_TEXTS: &[&str] = &[
    "", "x", "END", "12", " ", "\n", "(*", "*)", "(", "*", ")", ":", "=", "<", ":=", "<=",
    "(* a *)", "(**)", "1a", "$", "  ", "7", "é", "a1", ".",
];

/// Appends random pieces (`PIECES_OF_RANDOM_TEXTS`) to a text. Their number is also random: less
/// than `most`, or 0 if `most` is 0.
fn push_random_pieces(
    text: &mut String,
    numbers: &mut RandomNumbers,
    most: usize,
) -> Result<(), AllocError> {
    for _i in 0..numbers.next_number_below(most) {
        if let Some(piece) = PIECES_OF_RANDOM_TEXTS.get(numbers.next_number_below(25)) {
            text.push_str(piece)?;
        }
    }
    Ok(())
}

/// Returns a random text of fewer than `most` pieces, or an empty text if `most` is 0.
fn random_text(
    alloc: Global,
    numbers: &mut RandomNumbers,
    most: usize,
) -> Result<String, AllocError> {
    let mut text = String::new(alloc);
    push_random_pieces(&mut text, numbers, most)?;
    Ok(text)
}

/// Returns one random text for each number in `most`, as `random_text` does.
fn random_text_for_each_limit(
    alloc: Global,
    numbers: &mut RandomNumbers,
    most: &[usize],
) -> Result<Vec<String>, AllocError> {
    let mut texts = Vec::new(alloc);
    for count in most {
        texts.push(random_text(alloc, numbers, *count)?)?;
    }
    Ok(texts)
}

/// Returns the outcome of a random change of a random text.
fn outcome_of_random_change(
    alloc: Global,
    numbers: &mut RandomNumbers,
) -> Result<RescanOutcome, AllocError> {
    let texts = random_text_for_each_limit(alloc, numbers, &[6, 3, 3, 6])?;
    match texts.as_slice() {
        [front, middle, other, following] => outcome_of_change(
            alloc,
            front.as_str(),
            middle.as_str(),
            other.as_str(),
            following.as_str(),
        ),
        _ => Ok(Different),
    }
}

/// Makes 10,000 random changes of random texts. Returns whether each rescan agrees with a scan from
/// scratch. At least 3,000 of the changed texts must be accepted and at least 500 refused. A change
/// of a text that can't be scanned is skipped.
fn scans_random_changes_as_from_scratch(alloc: Global) -> bool {
    let mut numbers = RandomNumbers { seed: 1 };
    let mut read: usize = 0;
    let mut refused: usize = 0;
    for _i in 0..10000 {
        match outcome_of_random_change(alloc, &mut numbers) {
            Ok(SameTokens(_count, _alike)) => read = read.saturating_add(1),
            Ok(Refused) => refused = refused.saturating_add(1),
            Ok(Unscanned) => {}
            _ => return false,
        }
    }
    read >= 3000 && refused >= 500
}

#[test]
fn random_changes_are_scanned_as_from_scratch(rt: HostRuntime) {
    assert!(rt; scans_random_changes_as_from_scratch(rt.alloc()));
}
