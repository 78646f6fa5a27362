//! Finds the byte offsets at which the lines of a text start.

ghost use Rattle.std.specs.Prelude.{◌≡◌, ◌+◌, ◌^◌, ◌<◌, ◌≤◌, ◌∷◌, ◌++◌, IfOk, OnOk, drop, length, option_to_list, slice_index};
ghost use Rattle.std.specs.Str.{chars};
ghost use Rattle.ob0_text.specs.Texts.{LF, ends_line};
ghost use Rattle.ob0_text.specs.LineStarts.{line_starts, line_starts_after_bytes};

use std::alloc::{AllocError, Global};

/// Returns the byte offsets at which the lines of a text start.
pub fn line_starts_of(alloc: Global, text: &str) -> Result<Vec<usize>, AllocError>
    ensures { IfOk result (λ starts. starts.items ≡ line_starts (chars text.now)) }
{
    let mut starts = Vec::new(alloc);
    add_line_starts(&mut starts, 0, b'\n', text.as_bytes(), &[])?;
    Ok(starts)
}

/// Returns the line starts that a change adds. The change replaces the bytes `from..to` of `text`
/// by `new`. The result has the byte offsets at which a line starts in the changed text, from the
/// start of `new` to the end of `new`, both included. These starts also depend on the byte before
/// `from` and on the unchanged bytes after `to`.
pub fn line_starts_added_by_change(
    alloc: Global,
    text: &str,
    from: usize,
    to: usize,
    new: &str,
) -> Result<Vec<usize>, AllocError>
    requires from { from ≤ length text.now }
    requires to { to ≤ length text.now }
    ensures { IfOk result (λ starts. starts.items
        ≡ line_starts_after_bytes from (slice_index (LF ∷ text.now) from ∷ new.now) (drop to text.now)) }
{
    let bytes = text.as_bytes();
    let mut starts = Vec::new(alloc);
    add_line_starts(
        &mut starts,
        from,
        byte_before_or_lf(bytes, from),
        new.as_bytes(),
        &bytes[to..],
    )?;
    Ok(starts)
}

/// Returns the byte before a byte offset. At offset 0 the result is an LF, because the first line
/// starts like a line after an LF.
fn byte_before_or_lf(bytes: &[u8], offset: usize) -> u8
    requires { offset ≤ length bytes.now }
    ensures { result ≡ slice_index (LF ∷ bytes.now) offset }
{
    if offset == 0 {
        b'\n'
    } else {
        bytes[offset - 1]
    }
}

/// Appends to `starts` the byte offsets at which a line starts, from the start of `bytes` to the
/// end of `bytes`, both included. `bytes` is the part of the text that begins at the offset `from`.
/// In the text, the byte `before` comes directly before `bytes`, and the bytes `following` directly
/// after.
fn add_line_starts(
    starts: &mut Vec<usize>,
    from: usize,
    before: u8,
    bytes: &[u8],
    following: &[u8],
) -> Result<(), AllocError>
    requires { from + length bytes.now < 2 ^ 64 }
    ensures { OnOk result
        (starts.new.items ≡ starts.old.items
        ++ line_starts_after_bytes from (before ∷ bytes.now) following.now) }
{
    let mut last = before;
    let mut at = from;
    for byte in bytes {
        if is_line_start_between(last, Some(*byte)) {
            starts.push(at)?;
        }
        last = *byte;
        at += 1;
    }
    if is_line_start_between(last, following.first().copied()) {
        starts.push(at)?;
    }
    Ok(())
}

/// Returns whether a line starts between the byte `last` and the byte `next`. At the end of the
/// text, `next` is None. No line starts between CR and LF.
#[tactic(auto, unfolding(crate::specs::Texts::ends_line, crate::specs::Texts::starts_with_lf))]
#[inline(always)]
fn is_line_start_between(last: u8, next: Option<u8>) -> bool
    ensures { result ≡ ends_line last (option_to_list next) }
{
    // Most bytes of a text are greater than CR, so for them this comparison is enough.
    if b'\r' < last {
        return false;
    }
    match next {
        Some(next) => last == b'\n' || (last == b'\r' && next != b'\n'),
        None => last == b'\n' || last == b'\r',
    }
}
