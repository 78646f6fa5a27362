//! Finds the spans of tokens, and converts spans to ranges of positions.

ghost use Rattle.std.specs.Prelude.{◌≡◌, ◌++◌, IfOk, OnOk, map};
ghost use Rattle.ob0_edits_tokens.specs.Replacements.{token_span_or_empty};
ghost use Rattle.ob0_text.specs.Units.{width_of};
ghost use Rattle.ob0_edits_tokens.specs.Ranges.{span_bounds, range_of};

use ob0_scan::{Span, Token};
use ob0_text::{Range, TextStore};
use std::alloc::{AllocError, Global};

/// The greatest number of spans that are converted to ranges in one step. This limit keeps the
/// buffers small.
const MAX_SPANS_PER_PASS: usize = 16_384;

/// Returns the range of positions of each span, in the same order. If the spans are in text order,
/// one pass over the text finds the ranges of up to `MAX_SPANS_PER_PASS` spans.
pub fn ranges_of_spans<T: TextStore>(
    alloc: Global,
    store: &T,
    spans: &[Span],
) -> Result<Vec<Range>, AllocError>
    ensures { IfOk result (λ ranges. ranges.items
        ≡ map (range_of (width_of (T.unit_of store.now)) (T.content store.now)) spans.now) }
{
    let mut ranges = Vec::with_capacity(alloc, spans.len())?;
    while ranges.len() < spans.len() {
        let from = ranges.len();
        let part = &spans[from..spans.len().min(from + MAX_SPANS_PER_PASS)];
        add_ranges(alloc, store, part, &mut ranges)?;
    }
    Ok(ranges)
}

/// Appends the range of positions of each span to `ranges`, in the same order.
fn add_ranges<T: TextStore>(
    alloc: Global,
    store: &T,
    spans: &[Span],
    ranges: &mut Vec<Range>,
) -> Result<(), AllocError>
    ensures { OnOk result (ranges.new.items ≡ ranges.old.items
        ++ map (range_of (width_of (T.unit_of store.now)) (T.content store.now)) spans.now) }
{
    let span_bounds = span_bounds(alloc, spans)?;
    let positions = store.positions(alloc, &span_bounds)?;
    for i in 0..spans.len() {
        ranges.push(Range {
            start: positions[2 * i],
            end: positions[2 * i + 1],
        })?;
    }
    Ok(())
}

/// Returns a list with two byte offsets for each span: its start and its end. The spans keep their
/// order.
fn span_bounds(alloc: Global, spans: &[Span]) -> Result<Vec<usize>, AllocError>
    ensures { IfOk result (λ offsets. offsets.items ≡ span_bounds spans.now) }
{
    let mut offsets = Vec::new(alloc);
    for span in spans {
        offsets.push(span.start as usize)?;
        offsets.push(span.end as usize)?;
    }
    Ok(offsets)
}

/// Returns the spans of the tokens with the indexes `token_indexes`, in the same order.
pub(crate) fn token_spans(
    alloc: Global,
    tokens: &[Token],
    token_indexes: &[usize],
) -> Result<Vec<Span>, AllocError>
    ensures { IfOk result (λ spans. spans.items ≡ map (token_span_or_empty tokens.now)
        token_indexes.now) }
{
    token_indexes
        .iter()
        .map(|token_index| token_span_or_empty(tokens, *token_index))
        .collect(alloc)
}

/// Returns the span of the token with the index `token_index`, in bytes. If there is no such token,
/// returns an empty span at the text's start.
pub(crate) fn token_span_or_empty(tokens: &[Token], token_index: usize) -> Span
    ensures { result ≡ token_span_or_empty tokens.now token_index }
{
    match tokens.get(token_index) {
        Some(token) => token.span,
        None => Span { start: 0, end: 0 },
    }
}
