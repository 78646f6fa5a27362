//! Releases spare memory.
//!
//! A list keeps its capacity when it gets shorter. `release_spare_list_memory` and
//! `release_spare_text_memory` release most of the capacity if the used part and
//! `NEGLIGIBLE_SPARE_CAPACITY` together are less than a quarter of the capacity. So an open
//! document occupies at most a few times its present length, even if it was much longer before.
//! Room for twice the length is kept, so a list can grow by its own length before memory is moved
//! again. No contract bounds the capacity, because std's `shrink_to` leaves the capacity unchanged
//! if it can't allocate a smaller block.

ghost use Rattle.std.specs.Prelude.{◌≡◌, string_bytes};

/// A number of list entries or of text bytes. A list or text is shrunk only if a quarter of its
/// capacity is more than its length plus this number.
const NEGLIGIBLE_SPARE_CAPACITY: usize = 512;

/// Shrinks a list's capacity to twice the list's length if little of the capacity is used
/// (`is_mostly_unused`).
pub(crate) fn release_spare_list_memory(list: &mut Vec<usize>)
    ensures { list.new.items ≡ list.old.items }
{
    if is_mostly_unused(list.capacity(), list.len()) {
        list.shrink_to(list.len().saturating_mul(2));
    }
}

/// Shrinks a text's capacity to twice the text's length if little of the capacity is used
/// (`is_mostly_unused`).
pub(crate) fn release_spare_text_memory(text: &mut String)
    ensures { string_bytes text.new ≡ string_bytes text.old }
{
    if is_mostly_unused(text.capacity(), text.len()) {
        text.shrink_to(text.len().saturating_mul(2));
    }
}

/// Returns whether so little of a capacity is used that memory should be released. This is the case
/// if `used` and `NEGLIGIBLE_SPARE_CAPACITY` together are less than a quarter of `capacity`.
fn is_mostly_unused(capacity: usize, used: usize) -> bool {
    capacity / 4 > used.saturating_add(NEGLIGIBLE_SPARE_CAPACITY)
}
