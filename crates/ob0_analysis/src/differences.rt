//! Finds the range of bytes in which two texts differ, between their common beginning and their
//! common end.

ghost use Rattle.std.specs.Prelude.{◌≡◌, ◌+◌, ◌-◌, ◌<◌, ◌≤◌, true, length, take, drop};
ghost use Rattle.ob0_scan.specs.ReusedLexemes.{ReplacesRange};

/// A difference between two texts. The second text has `added` bytes in place of the `removed`
/// bytes at the byte offset `start` of the first text.
#[derive(Clone, Copy, Debug, Drop, PartialEq, Eq)]
pub(crate) struct TextDifference {
    pub(crate) start: usize,
    pub(crate) removed: usize,
    pub(crate) added: usize,
}

impl TextDifference {
    /// Returns the difference between two texts. The difference contains neither their common
    /// prefix nor the common suffix of the remaining bytes.
    pub(crate) fn between(old: &str, new: &str) -> TextDifference
        ensures { ReplacesRange old.now new.now result.start result.removed result.added }
    {
        let (old, new) = (old.as_bytes(), new.as_bytes());
        let known = extend_common_prefix(old, new, 0, COMPARISON_BLOCK_BYTES);
        let start = extend_common_prefix(old, new, known, 1);
        let most = (old.len() - start).min(new.len() - start);
        let known = extend_common_suffix(old, new, most, 0, COMPARISON_BLOCK_BYTES);
        let following = extend_common_suffix(old, new, most, known, 1);
        TextDifference {
            start,
            removed: old.len() - start - following,
            added: new.len() - start - following,
        }
    }
}

/// The size, in bytes, of the pieces in which two texts are compared. The first piece that differs
/// or isn't full is compared byte by byte.
const COMPARISON_BLOCK_BYTES: usize = 256;

/// Extends a common prefix of two texts, which has `known` bytes, by as many equal pieces of `size`
/// bytes as possible. Returns the length of the extended prefix, in bytes.
fn extend_common_prefix(a: &[u8], b: &[u8], known: usize, size: usize) -> usize
    requires some { 0 < size }
    requires in_a { known ≤ length a.now }
    requires in_b { known ≤ length b.now }
    requires same { take known a.now ≡ take known b.now }
    ensures in_a { result ≤ length a.now }
    ensures in_b { result ≤ length b.now }
    ensures same { take result a.now ≡ take result b.now }
{
    let mut count = known;
    while have_equal_bytes_at(a, b, count, count, size) {
        count += size;
    }
    count
}

/// Extends a common suffix of two texts, which has `known` bytes, by as many equal pieces of `size`
/// bytes as possible. Returns the length of the extended suffix, which has at most `most` bytes.
fn extend_common_suffix(a: &[u8], b: &[u8], most: usize, known: usize, size: usize) -> usize
    requires some { 0 < size }
    requires in_a { most ≤ length a.now }
    requires in_b { most ≤ length b.now }
    requires within { known ≤ most }
    requires same { drop (length a.now - known) a.now ≡ drop (length b.now - known) b.now }
    ensures within { result ≤ most }
    ensures same { drop (length a.now - result) a.now ≡ drop (length b.now - result) b.now }
{
    let mut count = known;
    while most - count >= size
        && have_equal_bytes_at(a, b, a.len() - count - size, b.len() - count - size, size)
    {
        count += size;
    }
    count
}

/// Returns whether the `size` bytes of `a` at the byte offset `in_a` exist, and equal the `size`
/// bytes of `b` at the byte offset `in_b`.
fn have_equal_bytes_at(a: &[u8], b: &[u8], in_a: usize, in_b: usize, size: usize) -> bool
    ensures inside_a { result ≡ true → in_a + size ≤ length a.now }
    ensures inside_b { result ≡ true → in_b + size ≤ length b.now }
    ensures same { result ≡ true → take size (drop in_a a.now) ≡ take size (drop in_b b.now) }
{
    in_a <= a.len()
        && in_b <= b.len()
        && a.len() - in_a >= size
        && b.len() - in_b >= size
        && a[in_a..in_a + size] == b[in_b..in_b + size]
}
