//! Scans a text that was changed at one place. Reuses the tokens and comments that an older scan
//! found before and after the change.
//!
//! `rescan_in_place` takes the tokens of the old text and turns them into the tokens of the new
//! text. If the new text has faults, the function returns the faults and the old tokens. `rescan`
//! does the same with a copy of the old tokens, which it never returns. Both functions return the
//! tokens and comments that `scan` of the new text returns. `ReusesOldLexemes`
//! (`specs/ReusedLexemes`) says which of these are reused from the old scan:
//! - Before the change: each token and comment that ends before it. (A token that ends right at the
//!   change may continue with the inserted text.)
//! - After the change, shifted by `added - removed` bytes: each token and comment that begins at a
//!   certain place or later. This is the first place after the change at which a token or comment
//!   begins in both texts (`MatchesNoOldLexemeAfterChange`).
//!
//! If `same_kinds` is true in the result, the new tokens have the same kinds as the old tokens,
//! except that the values of integers may differ. If `same_names` is true, the identifiers have the
//! same spellings. If `same_words` is true, all tokens have the same kinds and spellings.
//!
//! Binary search finds the old tokens and comments before the change
//! (`LexemeSlices::lexemes_ending_before`). A scanner continues at the end of the last of them.
//! White space isn't kept, so the white space there is read again. After the change, the scanner
//! tests before each step whether it can stop. It stops if an old token or comment begins at the
//! corresponding place in the old text. Binary search also finds the first old tokens and comments
//! after the change (`lexemes_beginning_at_or_after`). Before each test, `skip_lexemes_before`
//! skips the old ones that begin before the corresponding place. So all these tests together visit
//! each old token at most once. The spans of a scan are in order (`SpansAreInOrder`), so a binary
//! search gives the same count as a linear search (`proofs/Halved`).
//!
//! The newly read tokens and comments are placed between the two reused parts
//! (`IsRescannedMiddle`). When reading is complete, the second reused part is moved within its
//! list, and the newly read tokens are inserted before it (`splice_tokens`, `splice_comments`). So
//! memory holds the tokens of only one text at a time, and the heap isn't fragmented by a second
//! list. Only the changed bytes of the text are replaced, and the bytes after them are moved
//! (`ReplacedRange::replace`). If a change begins or ends inside a character, the whole new text is
//! copied instead.
//!
//! The change may begin or end inside a character. The scan begins and stops at character borders
//! anyway, because a lexeme's last byte is ASCII. After a fault, the scanner doesn't look for
//! reusable tokens but reads to the end. So the faults are the same as the faults that `scan`
//! reports, each once. Spans fit in 32 bits, because a text has at most 1,048,576 bytes (the field
//! `short` of `IsScannedUpToOffset`, and `IsShiftable` for shifted spans). Callers have to prove
//! `ReplacesRange`: the two texts are equal before and after the change. The law
//! `new_middle_replaces_range` proves it for texts joined from parts, and `TextDifference::between`
//! of `ob0_analysis` ensures it for any two texts.
//!
//! In the proof, `proofs/AtLexemes` gives the places of the tokens and comments in a list of
//! lexemes. `Fronts` splits off the old lexemes before the change. `Reusing` joins old and new
//! lexemes at both borders of the reread part: a lexeme depends only on its bytes and the next
//! byte, so two texts with the same ending have the same lexemes there. `RescannedMiddle` collects
//! the newly read tokens, and `Kept` is about the reused old tokens. `Named` shows that reused
//! tokens have the same spelling in both texts. No contract counts steps. So it isn't proved that
//! reused tokens aren't also scanned again.

ghost use Rattle.std.specs.Prelude.{◌≡◌, ℕ, List, [], false, ◌+◌, ◌-◌, ◌<◌, ◌≤◌, true, IfOk, IfErr, OnOk, length, take, drop};
ghost use Rattle.ob0_scan.specs.declared.lexeme.TokenKind.TheVariants.{Identifier, Integer};
ghost use Rattle.ob0_scan.specs.declared.incremental_scan.RescanFailure.TheVariants as rescanned;
ghost use Rattle.ob0_scan.specs.TextWithTokens.{IsScanOf, word_of_token, text_in_span};
ghost use Rattle.ob0_scan.specs.ScanRefusals.{IsRightScanRefusal, IsRightRescanFailure};
ghost use Rattle.ob0_scan.specs.ScannerState.{IsConsistentScanner};
ghost use Rattle.ob0_scan.specs.ReusedLexemes.{ReplacesRange, ReusesOldLexemes, token_kinds_without_values, kind_without_value, spelling_if_identifier, spellings_of_identifiers_in, words_of_tokens};
ghost use Rattle.ob0_scan.specs.SamePrefixAndSuffix.{PrefixAndSuffixHaveSameKinds, PrefixAndSuffixHaveSameWords};
ghost use Rattle.ob0_scan.specs.RescanResult.{IsRescanOf};
ghost use Rattle.ob0_scan.specs.RescanState.{AddsNewLexemes, RescanCanStopAt, IsRescannedMiddle};

use crate::fault::{Fault, ScanRefusal};
use crate::lexeme::{Span, Token, TokenKind};
use crate::old_lexemes::{LexemeSlices, ReplacedRange};
use crate::scanner::{MAX_TEXT_LENGTH, Scanner, faults_of_too_long_text};
use crate::tokens::{CommonPrefixAndSuffix, Rescan, RescanWithComparison, Tokens};
use std::alloc::{AllocError, Global};
use thiserror::Error;

/// The number of tokens and the number of comments before a place in a scanned text.
#[derive(Clone, Copy)]
pub(crate) struct LexemeCounts {
    pub(crate) tokens: usize,
    pub(crate) comments: usize,
}

/// The newly scanned tokens and comments, and the index ranges of the old ones that they replace.
/// `tokens` replaces the old tokens `old_start.tokens..old_end.tokens`, and `comments` replaces the
/// old comments `old_start.comments..old_end.comments`.
#[derive(Drop)]
pub(crate) struct RescannedMiddle {
    pub(crate) old_start: LexemeCounts,
    pub(crate) old_end: LexemeCounts,
    pub(crate) tokens: Vec<Token>,
    pub(crate) comments: Vec<Span>,
}

impl RescannedMiddle {
    /// Returns whether the new tokens have the same kinds as the old tokens that they replace: both
    /// lists are equally long and have the same kinds at the same indexes. The values of integers
    /// may differ.
    fn has_same_kinds_as_replaced_tokens(&self, old: &[Token]) -> bool
        requires ordered { self.now.old_start.tokens ≤ self.now.old_end.tokens }
        requires inside { self.now.old_end.tokens ≤ length old.now }
        ensures { result ≡ true → token_kinds_without_values self.now.tokens.items
            ≡ token_kinds_without_values (take (self.now.old_end.tokens - self.now.old_start.tokens)
            (drop self.now.old_start.tokens old.now)) }
    {
        have_same_kinds(
            &self.tokens,
            &old[self.old_start.tokens..self.old_end.tokens],
        )
    }

    /// Returns whether the new tokens have the same names as the old tokens that they replace: both
    /// lists are equally long and have identifiers with the same spellings at the same indexes.
    fn has_same_names_as_replaced_tokens(&self, new_text: &str, old: &Tokens) -> bool
        requires ordered { self.now.old_start.tokens ≤ self.now.old_end.tokens }
        requires inside { self.now.old_end.tokens ≤ length old.now.tokens }
        ensures { result ≡ true → spellings_of_identifiers_in new_text.now self.now.tokens.items
            ≡ spellings_of_identifiers_in old.now.text (take (self.now.old_end.tokens - self.now.old_start.tokens)
            (drop self.now.old_start.tokens old.now.tokens)) }
    {
        let replaced = &old.tokens()[self.old_start.tokens..self.old_end.tokens];
        have_same_names(
            new_text.as_bytes(),
            &self.tokens,
            old.text().as_bytes(),
            replaced,
        )
    }

    /// Returns whether the new tokens have the same kinds and spellings as the old tokens that they
    /// replace.
    fn has_same_words_as_replaced_tokens(&self, new_text: &str, old: &Tokens) -> bool
        requires ordered { self.now.old_start.tokens ≤ self.now.old_end.tokens }
        requires inside { self.now.old_end.tokens ≤ length old.now.tokens }
        ensures { result ≡ true → words_of_tokens new_text.now self.now.tokens.items
            ≡ words_of_tokens old.now.text (take (self.now.old_end.tokens - self.now.old_start.tokens)
            (drop self.now.old_start.tokens old.now.tokens)) }
    {
        let replaced = &old.tokens()[self.old_start.tokens..self.old_end.tokens];
        have_same_words(
            new_text.as_bytes(),
            &self.tokens,
            old.text().as_bytes(),
            replaced,
        )
    }
}

/// Returns whether two lists of tokens of two texts are equally long and have the same kinds and
/// spellings at the same indexes.
fn have_same_words(new_text: &[u8], new: &[Token], old_text: &[u8], old: &[Token]) -> bool
    ensures { result ≡ true → words_of_tokens new_text.now new.now
        ≡ words_of_tokens old_text.now old.now }
{
    if new.len() != old.len() {
        return false;
    }
    for index in 0..new.len() {
        if !is_same_word(new_text, new[index], old_text, old[index]) {
            return false;
        }
    }
    true
}

/// Returns whether the token `new` of one text and the token `old` of another text have the same
/// kind and spelling.
fn is_same_word(new_text: &[u8], new: Token, old_text: &[u8], old: Token) -> bool
    ensures { result ≡ true → word_of_token new_text.now new ≡ word_of_token old_text.now old }
{
    new.kind == old.kind && is_same_spelling(new_text, new.span, old_text, old.span)
}

/// Returns whether two lists of tokens of two texts are equally long and have identifiers with the
/// same spellings at the same indexes.
fn have_same_names(new_text: &[u8], new: &[Token], old_text: &[u8], old: &[Token]) -> bool
    ensures { result ≡ true → spellings_of_identifiers_in new_text.now new.now
        ≡ spellings_of_identifiers_in old_text.now old.now }
{
    if new.len() != old.len() {
        return false;
    }
    for index in 0..new.len() {
        if !is_same_name(new_text, new[index], old_text, old[index]) {
            return false;
        }
    }
    true
}

/// Returns whether the tokens `new` and `old` of two texts are identifiers with the same spelling.
/// Also returns true if neither token is an identifier.
fn is_same_name(new_text: &[u8], new: Token, old_text: &[u8], old: Token) -> bool
    ensures { result ≡ true → spelling_if_identifier new.kind (text_in_span new_text.now new.span)
        ≡ spelling_if_identifier old.kind (text_in_span old_text.now old.span) }
{
    if is_identifier_kind(new.kind) {
        is_identifier_kind(old.kind) && is_same_spelling(new_text, new.span, old_text, old.span)
    } else {
        !is_identifier_kind(old.kind)
    }
}

/// Returns whether a token of this kind is an identifier.
fn is_identifier_kind(kind: TokenKind) -> bool
    ensures yes { result ≡ true → kind ≡ Identifier }
    ensures no { result ≡ false → (text : List ℕ) → spelling_if_identifier kind text ≡ [] }
{
    match kind {
        TokenKind::Identifier => true,
        TokenKind::Integer(_) => false,
        TokenKind::ReservedWord(_) => false,
        TokenKind::Symbol(_) => false,
    }
}

/// Returns whether two spans, each in its own text, contain the same bytes. If a span isn't within
/// its text, returns false.
fn is_same_spelling(a: &[u8], in_a: Span, b: &[u8], in_b: Span) -> bool
    ensures { result ≡ true → text_in_span a.now in_a ≡ text_in_span b.now in_b }
{
    in_a.start <= in_a.end
        && in_a.end as usize <= a.len()
        && in_b.start <= in_b.end
        && in_b.end as usize <= b.len()
        && a[in_a.start as usize..in_a.end as usize] == b[in_b.start as usize..in_b.end as usize]
}

/// Returns whether two lists of tokens are equally long and have the same kinds at the same
/// indexes. The values of integers may differ.
fn have_same_kinds(new: &[Token], old: &[Token]) -> bool
    ensures { result ≡ true → token_kinds_without_values new.now
        ≡ token_kinds_without_values old.now }
{
    if new.len() != old.len() {
        return false;
    }
    for index in 0..new.len() {
        if !is_same_kind(new[index].kind, old[index].kind) {
            return false;
        }
    }
    true
}

/// Returns whether two kinds of tokens are the same, except that the values of integers may differ.
fn is_same_kind(a: TokenKind, b: TokenKind) -> bool
    ensures { result ≡ true → kind_without_value a ≡ kind_without_value b }
{
    if a == b {
        return true;
    }
    match a {
        TokenKind::Integer(_) => is_integer_kind(b),
        TokenKind::Identifier => false,
        TokenKind::ReservedWord(_) => false,
        TokenKind::Symbol(_) => false,
    }
}

/// Returns whether a token of this kind is an integer.
fn is_integer_kind(kind: TokenKind) -> bool
    ensures { result ≡ true → kind_without_value kind ≡ Integer 0 }
{
    match kind {
        TokenKind::Integer(_) => true,
        TokenKind::Identifier => false,
        TokenKind::ReservedWord(_) => false,
        TokenKind::Symbol(_) => false,
    }
}

/// The reason why a changed text wasn't scanned: the text's faults, returned with the old tokens,
/// or a failed allocation.
#[derive(Debug, Drop, Error)]
pub enum RescanFailure {
    #[error("faults in the text")]
    Faults(Vec<Fault>, Tokens),
    #[error("out of memory")]
    Memory,
}

impl From<AllocError> for RescanFailure {
    ghost from_gives = { λ _ e. e ≡ rescanned.Memory };

    fn from(_error: AllocError) -> RescanFailure {
        RescanFailure::Memory
    }
}

/// Returns the tokens and comments of `new_text`, or the faults of `new_text` if there are any.
/// `new_text` is the text of `old` with the `removed` bytes that start at the byte offset `from`
/// replaced by `added` bytes. The old tokens and comments that end before the change are reused.
/// The scan ends at the first place after the change at which a token or comment begins in both
/// texts. The old tokens and comments that begin there or later are also reused.
pub fn rescan(
    alloc: Global,
    old: &Tokens,
    new_text: &str,
    from: usize,
    removed: usize,
    added: usize,
) -> Result<Rescan, ScanRefusal>
    requires { ReplacesRange old.now.text new_text.now from removed added }
    ensures ok { IfOk result (λ r. IsScanOf new_text.now r.tokens) }
    ensures err { IfErr result (IsRightScanRefusal new_text.now) }
    ensures reused { IfOk result (λ r. ReusesOldLexemes old.now r.tokens from removed added
        r.read) }
{
    match rescan_in_place(alloc, old.copy(alloc)?, new_text, from, removed, added) {
        Ok(found) => Ok(found.rescan),
        Err(refusal) => match refusal {
            RescanFailure::Faults(faults, _) => Err(ScanRefusal::Faults(faults)),
            RescanFailure::Memory => Err(ScanRefusal::Memory),
        },
    }
}

/// Returns the tokens and comments of `new_text`, made from `old`, the tokens and comments of the
/// old text. `from`, `removed` and `added` describe the change, as in `rescan`. In contrast to
/// `rescan`, this function works in place: the old tokens before the change aren't copied. The
/// result also compares the new tokens with the old tokens. If the new text has faults, the faults
/// are returned with the old tokens. If an allocation fails, the old tokens are lost.
pub fn rescan_in_place(
    alloc: Global,
    old: Tokens,
    new_text: &str,
    from: usize,
    removed: usize,
    added: usize,
) -> Result<RescanWithComparison, RescanFailure>
    requires { ReplacesRange old.text new_text.now from removed added }
    ensures ok { IfOk result (λ r. IsScanOf new_text.now r.rescan.tokens) }
    ensures err { IfErr result (IsRightRescanFailure old new_text.now) }
    ensures reused { IfOk result
        (λ r. ReusesOldLexemes old r.rescan.tokens from removed added r.rescan.read) }
    ensures alike { IfOk result
        (λ r. r.same_kinds ≡ true → token_kinds_without_values r.rescan.tokens.tokens ≡ token_kinds_without_values old.tokens) }
    ensures same_names { IfOk result
        (λ r. r.same_names ≡ true → spellings_of_identifiers_in r.rescan.tokens.text r.rescan.tokens.tokens
        ≡ spellings_of_identifiers_in old.text old.tokens) }
    ensures same_words { IfOk result
        (λ r. r.same_words ≡ true → words_of_tokens r.rescan.tokens.text r.rescan.tokens.tokens
        ≡ words_of_tokens old.text old.tokens) }
    ensures same { IfOk result
        (λ r. PrefixAndSuffixHaveSameKinds r.same old.tokens r.rescan.tokens.tokens) }
    ensures written { IfOk result (λ r. PrefixAndSuffixHaveSameWords r.same old r.rescan.tokens) }
{
    let change = ReplacedRange {
        from,
        removed,
        added,
    };
    match rescan_middle(alloc, &old, new_text, change) {
        Ok(between) => {
            let read = between.tokens.len() + between.comments.len();
            let same_kinds = between.has_same_kinds_as_replaced_tokens(old.tokens());
            let same_names = between.has_same_names_as_replaced_tokens(new_text, &old);
            let same_words = between.has_same_words_as_replaced_tokens(new_text, &old);
            let (prefix, old_suffix) = (between.old_start.tokens, between.old_end.tokens);
            let suffix_len = old.tokens().len() - old_suffix;
            let tokens = old.replace_middle(new_text, between, change)?;
            let same = CommonPrefixAndSuffix {
                prefix,
                old_suffix,
                new_suffix: tokens.tokens().len() - suffix_len,
            };
            Ok(RescanWithComparison {
                rescan: Rescan { tokens, read },
                same,
                same_kinds,
                same_names,
                same_words,
            })
        }
        Err(refusal) => rescan_refusal(old, new_text, change, refusal),
    }
}

/// Returns the error for `refusal`, the reason why a changed text wasn't scanned. If the text has
/// faults, the error also contains the old tokens.
fn rescan_refusal(
    old: Tokens,
    new_text: &str,
    change: ReplacedRange,
    refusal: ScanRefusal,
) -> Result<RescanWithComparison, RescanFailure>
    requires { IsRightScanRefusal new_text.now refusal }
    ensures ok { IfOk result
        (IsRescanOf old new_text.now change.from change.removed change.added) }
    ensures err { IfErr result (IsRightRescanFailure old new_text.now) }
{
    match refusal {
        ScanRefusal::Faults(faults) => Err(RescanFailure::Faults(faults, old)),
        ScanRefusal::Memory => Err(RescanFailure::Memory),
    }
}

/// Scans the part of a changed text that has to be read again. Returns the tokens and comments
/// found there, with the indexes of the old tokens and comments that they replace.
fn rescan_middle(
    alloc: Global,
    old: &Tokens,
    new_text: &str,
    change: ReplacedRange,
) -> Result<RescannedMiddle, ScanRefusal>
    requires { ReplacesRange old.now.text new_text.now change.from change.removed change.added }
    ensures ok { IfOk result
        (IsRescannedMiddle old.now new_text.now change.from change.removed change.added) }
    ensures err { IfErr result (IsRightScanRefusal new_text.now) }
{
    if new_text.len() > MAX_TEXT_LENGTH {
        return Err(ScanRefusal::Faults(faults_of_too_long_text(alloc)?));
    }
    let all = old.lexeme_slices();
    let front = all.lexemes_ending_before(change.from);
    let mut scanner = Scanner::scanner_after_known_lexemes(alloc, new_text, front);
    let rest = scan_until_old_lexeme(&mut scanner, old, change)?;
    let Scanner {
        text: _,
        at: _,
        front: _,
        tokens,
        comments,
        faults,
    } = scanner;
    if !faults.is_empty() {
        return Err(ScanRefusal::Faults(faults));
    }
    Ok(RescannedMiddle {
        old_start: LexemeCounts {
            tokens: front.tokens.len(),
            comments: front.comments.len(),
        },
        old_end: LexemeCounts {
            tokens: all.tokens.len() - rest.tokens.len(),
            comments: all.comments.len() - rest.comments.len(),
        },
        tokens,
        comments,
    })
}

/// Moves the scanner, one lexeme at a time, until it is after the change and can stop. It can stop
/// if an old token or comment begins at the corresponding place in the old text. Returns the old
/// tokens and comments that begin there or later. If there is no such place or a fault is found,
/// moves the scanner to the end of the text and returns empty lists.
fn scan_until_old_lexeme<'o>(
    scanner: &mut Scanner,
    old: &'o Tokens,
    change: ReplacedRange,
) -> Result<LexemeSlices<'o>, AllocError>
    requires replaced { ReplacesRange old.now.text scanner.old.text.now change.from change.removed
        change.added }
    requires consistent_scanner { IsConsistentScanner scanner.old }
    ensures consistent_scanner { OnOk result (IsConsistentScanner scanner.new) }
    ensures text { scanner.new.text ≡ scanner.old.text }
    ensures front { scanner.new.front ≡ scanner.old.front }
    ensures reads { OnOk result (length scanner.new.faults.items ≡ 0
        → AddsNewLexemes old.now change.from change.removed change.added scanner.old scanner.new) }
    ensures met { IfOk result (λ rest. length scanner.new.faults.items ≡ 0
        → RescanCanStopAt old.now (length scanner.new.text.now) change.from change.removed change.added
        scanner.new.at rest.tokens.now rest.comments.now) }
    ensures end { OnOk result
        (0 < length scanner.new.faults.items → length scanner.new.text.now ≤ scanner.new.at) }
{
    let mut rest = old
        .lexeme_slices()
        .lexemes_beginning_at_or_after(change.from + change.removed);
    while scanner.at < scanner.text.len() {
        if scanner.faults.is_empty() && scanner.at >= change.from + change.added {
            let place = change.offset_in_old_text(scanner.at);
            rest = rest.skip_lexemes_before(place);
            if rest.first_lexeme_begins_at(place) {
                return Ok(rest);
            }
        }
        scanner.read_next_lexeme()?;
    }
    Ok(LexemeSlices {
        tokens: &[],
        comments: &[],
    })
}
