//! Defines test cases that check themselves, and finds the first case of a table that fails.

use std::alloc::{AllocError, Global};

/// A test case that checks itself: a row of a table.
pub trait TestCase {
    /// Returns whether the outcome is as the row expects.
    fn has_expected_outcome(&self, alloc: Global) -> Result<bool, AllocError>;
}

/// Returns the index, from 0, of the first row whose outcome isn't as expected, or in which an
/// allocation fails. Returns None if there is no such row.
pub fn first_failing_row<C: TestCase>(alloc: Global, rows: &[C]) -> Option<usize> {
    for i in 0..rows.len() {
        if rows[i].has_expected_outcome(alloc) != Ok(true) {
            return Some(i);
        }
    }
    None
}
