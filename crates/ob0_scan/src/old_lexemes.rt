//! Finds the tokens and comments of an older scan that are before a change of the text, and the
//! tokens and comments that are after the change. Replaces the tokens and comments between these
//! two parts, and shifts the spans of the part after the change.
//!
//! The two parts are found by binary search. The spans of a scan are in order (`SpansAreInOrder`),
//! so a binary search gives the same count as a linear search (`proofs/Halved`).
//!
//! Spans are shifted by a loop over indexes (`for index in first..tokens.len()`). The loop's
//! invariant is `ChangedTo`: the items from `first` up to the current index are changed, and the
//! other items aren't. A call with `&mut items[first..]` isn't used, because a proof about such a
//! call would have no name for the whole list after it.

ghost use Rattle.std.specs.Prelude.{◌≡◌, ◌+◌, ◌-◌, ◌<◌, ◌≤◌, ◌^◌, ◌||◌, ◌++◌, OnOk, length, map, take, drop, nat_lt, option_copied, string_bytes};
ghost use Rattle.std.specs.List.{All, prefix_len};
ghost use Rattle.std.specs.List.Sorted.{IsNonDecreasingBy};
ghost use Rattle.ob0_scan.specs.declared.lexeme.Span.{Span};
ghost use Rattle.ob0_scan.specs.declared.lexeme.Token.{Token};
ghost use Rattle.ob0_scan.specs.ReusedLexemes.{ReplacesRange, span_after_shift, token_after_shift, tokens_ending_before, comments_ending_before, tokens_beginning_at_or_after, comments_beginning_at_or_after};
ghost use Rattle.ob0_scan.specs.RescanState.{token_end_or_zero, comment_end_or_zero, end_of_last_lexeme, first_token_begins_at, first_comment_begins_at, SpansAreInOrder, IsShiftable};

use crate::lexeme::{Span, Token};
use std::alloc::AllocError;

/// A change of a text: the `removed` bytes that start at the byte offset `from` were replaced by
/// `added` bytes.
#[derive(Clone, Copy)]
pub(crate) struct ReplacedRange {
    pub(crate) from: usize,
    pub(crate) removed: usize,
    pub(crate) added: usize,
}

impl ReplacedRange {
    /// Returns the byte offset in the old text that corresponds to the byte offset `offset` in the
    /// new text. The result is useful only if `offset` is at or after the end of the changed bytes.
    pub(crate) fn offset_in_old_text(self, offset: usize) -> usize
        requires following { self.added ≤ offset }
        requires small { offset + self.removed < 2 ^ 64 }
        ensures { result + self.added ≡ offset + self.removed }
    {
        offset - self.added + self.removed
    }

    /// Replaces the old text `old` by the new text `new`. Only the changed bytes are written, and
    /// the bytes after them are moved. If the change begins or ends inside a character, the whole
    /// new text is copied. If an allocation fails, nothing is promised about `old`.
    pub(crate) fn replace(self, old: &mut String, new: &str) -> Result<(), AllocError>
        requires { ReplacesRange (string_bytes old.old) new.now self.from self.removed self.added }
        ensures { OnOk result (string_bytes old.new ≡ new.now) }
    {
        let (end, new_end) = (self.from + self.removed, self.from + self.added);
        let is_between = old.is_char_boundary(self.from)
            && old.is_char_boundary(end)
            && new.is_char_boundary(self.from)
            && new.is_char_boundary(new_end);
        if is_between {
            return old.replace_range(self.from..end, &new[self.from..new_end]);
        }
        old.clear();
        old.push_str(new)
    }

    /// Returns the span in the new text that corresponds to `span`, a span of the old text after
    /// the change.
    fn span_after_shift(self, span: Span) -> Span
        requires { IsShiftable self.removed self.added span }
        ensures { result ≡ span_after_shift self.removed self.added span }
    {
        Span {
            start: (span.start as usize + self.added - self.removed) as u32,
            end: (span.end as usize + self.added - self.removed) as u32,
        }
    }
}

/// Consecutive tokens of a text, and consecutive comments of the same text, each in text order.
#[derive(Clone, Copy)]
pub(crate) struct LexemeSlices<'t> {
    pub(crate) tokens: &'t [Token],
    pub(crate) comments: &'t [Span],
}

impl<'t> LexemeSlices<'t> {
    /// Returns the leading tokens and comments that end before the byte offset `offset`, by binary
    /// search. A token or comment that ends at `offset` isn't included.
    pub(crate) fn lexemes_ending_before(self, offset: usize) -> LexemeSlices<'t>
        requires { SpansAreInOrder self.tokens.now self.comments.now }
        ensures tokens { result.tokens.now ≡ tokens_ending_before offset self.entry.tokens.now }
        ensures comments { result.comments.now
            ≡ comments_ending_before offset self.entry.comments.now }
    {
        let tokens = count_tokens_ending_before(self.tokens, offset);
        let comments = count_comments_ending_before(self.comments, offset);
        LexemeSlices {
            tokens: &self.tokens[..tokens],
            comments: &self.comments[..comments],
        }
    }

    /// Returns the tokens and comments without the leading tokens and comments that begin before
    /// the byte offset `offset`. Finds these by binary search.
    pub(crate) fn lexemes_beginning_at_or_after(self, offset: usize) -> LexemeSlices<'t>
        requires { SpansAreInOrder self.tokens.now self.comments.now }
        ensures tokens { result.tokens.now ≡ tokens_beginning_at_or_after offset
            self.entry.tokens.now }
        ensures comments { result.comments.now ≡ comments_beginning_at_or_after offset
            self.entry.comments.now }
    {
        let tokens = count_tokens_beginning_before(self.tokens, offset);
        let comments = count_comments_beginning_before(self.comments, offset);
        LexemeSlices {
            tokens: &self.tokens[tokens..],
            comments: &self.comments[comments..],
        }
    }

    /// Returns the tokens and comments without the leading tokens and comments that begin before
    /// the byte offset `offset`. Visits these one by one, so the function is fast only if they are
    /// few.
    pub(crate) fn skip_lexemes_before(self, offset: usize) -> LexemeSlices<'t>
        ensures tokens { result.tokens.now ≡ tokens_beginning_at_or_after offset
            self.entry.tokens.now }
        ensures comments { result.comments.now ≡ comments_beginning_at_or_after offset
            self.entry.comments.now }
    {
        let tokens = count_tokens_beginning_before_linearly(self.tokens, offset);
        let comments = count_comments_beginning_before_linearly(self.comments, offset);
        LexemeSlices {
            tokens: &self.tokens[tokens..],
            comments: &self.comments[comments..],
        }
    }

    /// Returns whether the first token or the first comment begins at the byte offset `offset`.
    pub(crate) fn first_lexeme_begins_at(self, offset: usize) -> bool
        ensures { result
            ≡ first_token_begins_at offset self.entry.tokens.now
            || first_comment_begins_at offset self.entry.comments.now }
    {
        first_token_begins_at(self.tokens, offset) || first_comment_begins_at(self.comments, offset)
    }

    /// Returns the byte offset at which the last token ends or the last comment ends, whichever is
    /// greater. Returns 0 if there are neither tokens nor comments.
    pub(crate) fn end_of_last_lexeme(self) -> usize
        ensures { result ≡ end_of_last_lexeme self.entry.tokens.now self.entry.comments.now }
    {
        token_end_or_zero(self.tokens.last()).max(comment_end_or_zero(self.comments.last()))
    }
}

/// Returns whether the first token begins at the byte offset `offset`. Returns false if there is no
/// token.
fn first_token_begins_at(tokens: &[Token], offset: usize) -> bool
    ensures { result ≡ first_token_begins_at offset tokens.now }
{
    match tokens {
        [token, ..] => token.span.start as usize == offset,
        [] => false,
    }
}

/// Returns whether the first comment begins at the byte offset `offset`. Returns false if there is
/// no comment.
fn first_comment_begins_at(comments: &[Span], offset: usize) -> bool
    ensures { result ≡ first_comment_begins_at offset comments.now }
{
    match comments {
        [comment, ..] => comment.start as usize == offset,
        [] => false,
    }
}

/// Returns the byte offset at which the token ends, or 0 for None.
fn token_end_or_zero(token: Option<&Token>) -> usize
    ensures { result ≡ token_end_or_zero (option_copied token.entry) }
{
    match token {
        Some(token) => token.span.end as usize,
        None => 0,
    }
}

/// Returns the byte offset at which the comment ends, or 0 for None.
fn comment_end_or_zero(comment: Option<&Span>) -> usize
    ensures { result ≡ comment_end_or_zero (option_copied comment.entry) }
{
    match comment {
        Some(comment) => comment.end as usize,
        None => 0,
    }
}

/// Returns the number of leading tokens that end before the byte offset `offset`. Finds it by
/// binary search.
fn count_tokens_ending_before(tokens: &[Token], offset: usize) -> usize
    requires { IsNonDecreasingBy (λ (t : Token). t.span.end) tokens.now }
    ensures bound { result ≤ length tokens.now }
    ensures count { result ≡ prefix_len (λ (t : Token). nat_lt t.span.end offset) tokens.now }
{
    tokens.partition_point(|token| (token.span.end as usize) < offset)
}

/// Returns the number of leading comments that end before the byte offset `offset`. Finds it by
/// binary search.
fn count_comments_ending_before(comments: &[Span], offset: usize) -> usize
    requires { IsNonDecreasingBy (λ (c : Span). c.end) comments.now }
    ensures bound { result ≤ length comments.now }
    ensures count { result ≡ prefix_len (λ (c : Span). nat_lt c.end offset) comments.now }
{
    comments.partition_point(|comment| (comment.end as usize) < offset)
}

/// Returns the number of leading tokens that begin before the byte offset `offset`. Finds it by
/// binary search.
fn count_tokens_beginning_before(tokens: &[Token], offset: usize) -> usize
    requires { IsNonDecreasingBy (λ (t : Token). t.span.start) tokens.now }
    ensures bound { result ≤ length tokens.now }
    ensures count { result ≡ prefix_len (λ (t : Token). nat_lt t.span.start offset) tokens.now }
{
    tokens.partition_point(|token| (token.span.start as usize) < offset)
}

/// Returns the number of leading comments that begin before the byte offset `offset`. Finds it by
/// binary search.
fn count_comments_beginning_before(comments: &[Span], offset: usize) -> usize
    requires { IsNonDecreasingBy (λ (c : Span). c.start) comments.now }
    ensures bound { result ≤ length comments.now }
    ensures count { result ≡ prefix_len (λ (c : Span). nat_lt c.start offset) comments.now }
{
    comments.partition_point(|comment| (comment.start as usize) < offset)
}

/// Returns the number of leading tokens that begin before the byte offset `offset`. Visits the
/// tokens one by one.
fn count_tokens_beginning_before_linearly(tokens: &[Token], offset: usize) -> usize
    ensures bound { result ≤ length tokens.now }
    ensures count { result ≡ prefix_len (λ (t : Token). nat_lt t.span.start offset) tokens.now }
{
    tokens
        .iter()
        .take_while(|token| (token.span.start as usize) < offset)
        .count()
}

/// Returns the number of leading comments that begin before the byte offset `offset`. Visits the
/// comments one by one.
fn count_comments_beginning_before_linearly(comments: &[Span], offset: usize) -> usize
    ensures bound { result ≤ length comments.now }
    ensures count { result ≡ prefix_len (λ (c : Span). nat_lt c.start offset) comments.now }
{
    comments
        .iter()
        .take_while(|comment| (comment.start as usize) < offset)
        .count()
}

/// Replaces the tokens with the indexes `old_start..old_end` by the tokens in `between`. Shifts the
/// spans of all later tokens to their places in the changed text.
pub(crate) fn splice_tokens(
    tokens: &mut Vec<Token>,
    old_start: usize,
    old_end: usize,
    between: Vec<Token>,
    change: ReplacedRange,
) -> Result<(), AllocError>
    requires ordered { old_start ≤ old_end }
    requires inside { old_end ≤ length tokens.old.items }
    requires movable { All (λ (t : Token). IsShiftable change.removed change.added t.span)
        (drop old_end tokens.old.items) }
    ensures { OnOk result (tokens.new.items
        ≡ take old_start tokens.old.items
        ++ (between.items
        ++ map (token_after_shift change.removed change.added) (drop old_end tokens.old.items))) }
{
    shift_tokens(&mut tokens[old_end..], change);
    tokens.splice(old_start..old_end, between)?;
    Ok(())
}

/// Replaces the comments with the indexes `old_start..old_end` by the comments in `between`. Shifts
/// the spans of all later comments to their places in the changed text.
pub(crate) fn splice_comments(
    comments: &mut Vec<Span>,
    old_start: usize,
    old_end: usize,
    between: Vec<Span>,
    change: ReplacedRange,
) -> Result<(), AllocError>
    requires ordered { old_start ≤ old_end }
    requires inside { old_end ≤ length comments.old.items }
    requires movable { All (λ (c : Span). IsShiftable change.removed change.added c)
        (drop old_end comments.old.items) }
    ensures { OnOk result (comments.new.items
        ≡ take old_start comments.old.items
        ++ (between.items
        ++ map (span_after_shift change.removed change.added) (drop old_end comments.old.items))) }
{
    shift_comments(&mut comments[old_end..], change);
    comments.splice(old_start..old_end, between)?;
    Ok(())
}

/// Shifts the spans of the tokens to their places in the changed text.
fn shift_tokens(tokens: &mut [Token], change: ReplacedRange)
    requires { All (λ (t : Token). IsShiftable change.removed change.added t.span) tokens.old }
    ensures { tokens.new ≡ map (token_after_shift change.removed change.added) tokens.old }
{
    for token in tokens.iter_mut() {
        token.span = change.span_after_shift(token.span);
    }
}

/// Shifts the spans of the comments to their places in the changed text.
fn shift_comments(comments: &mut [Span], change: ReplacedRange)
    requires { All (λ (c : Span). IsShiftable change.removed change.added c) comments.old }
    ensures { comments.new ≡ map (span_after_shift change.removed change.added) comments.old }
{
    for comment in comments.iter_mut() {
        *comment = change.span_after_shift(*comment);
    }
}
