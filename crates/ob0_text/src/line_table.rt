//! Keeps the table of a text's lines, in two parts.
//!
//! The table has the start of each line. The starts up to the end of the last change are kept as
//! byte offsets. The starts after that place are kept as distances in bytes from the text's end,
//! last line first. So a change doesn't alter the stored distances of the lines after it (proved as
//! `with_the_end` in `LineTables`). A change visits only the starts that it adds or removes, and
//! the starts between its place and the previous change's place. `move_starts_to_back` and
//! `move_starts_to_front` move the starts between these two places from one part to the other.
//! Their contracts say that the list of all starts is unchanged. If changes alternate between two
//! distant places, each change moves all starts between these places.
//!
//! `replace_keeping_spare_memory` allocates all memory first: for the new starts, for both parts of
//! the table, then for the text. After that no allocation can fail, as the contracts of `reserve`
//! and `extend_from_slice` say. If an allocation fails while starts are moved, the two parts may
//! divide the table at another line, but the table still matches the text. At the end `replace`
//! releases spare memory (`spare_memory.rt`).

ghost use Rattle.std.specs.Prelude.{◌≡◌, ◌+◌, ◌<◌, ◌≤◌, ◌++◌, IfOk, OnOk, OnErr, drop, length, min, slice_index, string_bytes, take};
ghost use Rattle.std.specs.Str.{IsCharBoundary};
ghost use Rattle.ob0_text.specs.LineStarts.{AreAllBelow, IsLineTableOf, IsCountOfStartsBefore, starts_in_front_and_back};

use crate::line_starts::{line_starts_added_by_change, line_starts_of};
use crate::spare_memory::{release_spare_list_memory, release_spare_text_memory};
use std::alloc::{AllocError, Global};
use std::marker::Model;

/// The byte offsets at which a text's lines start, in text order. `front` has the starts up to the
/// end of the last change, as byte offsets. `back` has the starts after that place, last line
/// first, as distances in bytes from the text's end. Each change moves the starts between its place
/// and the previous change's place from one list to the other. `len` is the text's length in bytes.
#[derive(Drop)]
pub struct LineTable {
    front: Vec<usize>,
    back: Vec<usize>,
    len: usize,
}

impl Model for LineTable {
    ghost use Rattle.ob0_text.specs.LineStarts.{LineStartTable, starts_in_front_and_back};

    ghost Value = { LineStartTable };

    ghost view = { λ t. record {
      starts = starts_in_front_and_back t.len t.front.items t.back.items;
      len = t.len;
    } };
}

impl LineTable {
    /// Returns the table of a text: the starts of its lines, and its length in bytes.
    pub fn of_text(alloc: Global, text: &str) -> Result<LineTable, AllocError>
        ensures { IfOk result (IsLineTableOf text.now) }
    {
        let front = line_starts_of(alloc, text)?;
        Ok(LineTable {
            front,
            back: Vec::new(alloc),
            len: text.len(),
        })
    }

    /// Returns the number of lines in the text.
    pub fn count(&self) -> usize
        ensures { result ≡ length self.now.starts }
    {
        self.front.len() + self.back.len()
    }

    /// Returns the byte offset at which a line starts. Lines are counted from 0.
    pub fn line_start(&self, line: usize) -> usize
        requires { line < length self.now.starts }
        ensures { result ≡ slice_index self.now.starts line }
    {
        if line < self.front.len() {
            return self.front[line];
        }
        let later = line - self.front.len();
        self.len
            .saturating_sub(self.back[self.back.len() - 1 - later])
    }

    /// Returns the number of lines that start before the byte offset `offset`, found by binary
    /// search.
    pub fn count_starts_before(&self, offset: usize) -> usize
        ensures bound { result ≤ length self.now.starts }
        ensures count { IsCountOfStartsBefore self.now.starts offset result }
    {
        let mut low = 0;
        let mut high = self.count();
        while low < high {
            let middle = low + (high - low) / 2;
            if self.line_start(middle) < offset {
                low = middle + 1;
            } else {
                high = middle;
            }
        }
        low
    }

    /// Replaces the bytes `from..to` of the text by `new`, updates this table to match the text,
    /// and releases memory that a shorter text doesn't need. If an allocation fails, the text is
    /// unchanged, and the table still matches it.
    pub fn replace(
        &mut self,
        text: &mut String,
        from: usize,
        to: usize,
        new: &str,
    ) -> Result<(), AllocError>
        requires table { IsLineTableOf (string_bytes text.old) self.old }
        requires order { from ≤ to }
        requires start { IsCharBoundary (string_bytes text.old) from }
        requires end { IsCharBoundary (string_bytes text.old) to }
        ensures table { IsLineTableOf (string_bytes text.new) self.new }
        ensures ok { OnOk result (string_bytes text.new
            ≡ (take from (string_bytes text.old) ++ new.now) ++ drop to (string_bytes text.old)) }
        ensures err { OnErr result (string_bytes text.new ≡ string_bytes text.old) }
    {
        self.replace_keeping_spare_memory(text, from, to, new)?;
        release_spare_text_memory(text);
        self.release_spare_memory();
        Ok(())
    }

    /// Shrinks the capacity of each list of which little is used (`is_mostly_unused`). The line
    /// starts don't change.
    fn release_spare_memory(&mut self)
        ensures { self.new ≡ self.old }
    {
        release_spare_list_memory(&mut self.front);
        release_spare_list_memory(&mut self.back);
    }

    /// Replaces the bytes `from..to` of the text by `new`, and updates this table to match the
    /// text. Spare memory isn't released. If an allocation fails, the text is unchanged, and the
    /// table still matches it.
    fn replace_keeping_spare_memory(
        &mut self,
        text: &mut String,
        from: usize,
        to: usize,
        new: &str,
    ) -> Result<(), AllocError>
        requires table { IsLineTableOf (string_bytes text.old) self.old }
        requires order { from ≤ to }
        requires start { IsCharBoundary (string_bytes text.old) from }
        requires end { IsCharBoundary (string_bytes text.old) to }
        ensures table { IsLineTableOf (string_bytes text.new) self.new }
        ensures ok { OnOk result (string_bytes text.new
            ≡ (take from (string_bytes text.old) ++ new.now) ++ drop to (string_bytes text.old)) }
        ensures err { OnErr result (string_bytes text.new ≡ string_bytes text.old) }
    {
        let kept = self.count_starts_before(from);
        let moved = self.count_starts_before(to + 1);
        let alloc = *self.front.allocator();
        let added = line_starts_added_by_change(alloc, text.as_str(), from, to, new)?;
        move_starts_to_back(&mut self.front, &mut self.back, self.len, kept)?;
        move_starts_to_front(&mut self.front, &mut self.back, self.len, kept)?;
        self.front.reserve(added.len())?;
        text.replace_range(from..to, new)?;
        let gone = moved.saturating_sub(kept);
        self.back.truncate(self.back.len().saturating_sub(gone));
        self.len = text.len();
        self.front.extend_from_slice(&added)
    }
}

/// Moves line starts from the end of `front` to `back`, until at most `count` starts are left in
/// `front`. The two lists together have the same line starts as before, even if an allocation
/// fails. `len` is the text's length in bytes.
fn move_starts_to_back(
    front: &mut Vec<usize>,
    back: &mut Vec<usize>,
    len: usize,
    count: usize,
) -> Result<(), AllocError>
    requires { AreAllBelow (len + 1) (starts_in_front_and_back len front.old.items back.old.items) }
    ensures same { starts_in_front_and_back len front.new.items back.new.items
        ≡ starts_in_front_and_back len front.old.items back.old.items }
    ensures left { OnOk result (length front.new.items ≡ min count (length front.old.items)) }
{
    let gone = front.len().saturating_sub(count);
    back.reserve(gone)?;
    while front.len() > count {
        let Some(start) = front.pop() else {
            return Ok(());
        };
        back.push_reserved(len.saturating_sub(start));
    }
    Ok(())
}

/// Moves line starts from `back` to the end of `front`, until `front` has at least `count` starts
/// or `back` is empty. The two lists together have the same line starts as before, even if an
/// allocation fails. `len` is the text's length in bytes.
fn move_starts_to_front(
    front: &mut Vec<usize>,
    back: &mut Vec<usize>,
    len: usize,
    count: usize,
) -> Result<(), AllocError>
    ensures same { starts_in_front_and_back len front.new.items back.new.items
        ≡ starts_in_front_and_back len front.old.items back.old.items }
    ensures left { OnOk result (length front.old.items ≤ count
        → count ≤ length (starts_in_front_and_back len front.old.items back.old.items)
        → length front.new.items ≡ count) }
{
    let added = count.saturating_sub(front.len());
    front.reserve(added)?;
    while front.len() < count {
        let Some(distance) = back.pop() else {
            return Ok(());
        };
        front.push_reserved(len.saturating_sub(distance));
    }
    Ok(())
}
