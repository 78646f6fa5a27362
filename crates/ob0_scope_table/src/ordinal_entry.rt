//! Defines an entry of a table of ordinals, which is stored in 32 bits. An ordinal is a
//! declaration's number.

ghost use Rattle.std.specs.Prelude.{◌≡◌};
ghost use Rattle.ob0_scope_table.specs.OrdinalEntries.{stored_ordinal};

use std::marker::Model;

/// The greatest ordinal that an entry can have: 2^32 - 2.
const MAX_ENTRY_ORDINAL: usize = 4294967294;

/// An optional ordinal (a declaration's number) in 32 bits: the ordinal plus 1, or 0 for None. A
/// text has far fewer than 2^32 declarations, so an entry can hold every ordinal of a text.
#[derive(Clone, Copy)]
pub struct OrdinalEntry {
    number: u32,
}

impl Model for OrdinalEntry {
    ghost use Rattle.std.specs.Prelude.{ℕ, Option};
    ghost use Rattle.ob0_scope_table.specs.OrdinalEntries.{ordinal_from_entry_number, entry_number_of_ordinal};

    ghost Value = { Option ℕ };

    ghost view = { λ e. ordinal_from_entry_number e.number };

    ghost inverse = { λ ordinal. record { number = entry_number_of_ordinal ordinal } };
}

impl OrdinalEntry {
    /// Returns the entry for an optional ordinal. An ordinal above `MAX_ENTRY_ORDINAL` is stored as
    /// `MAX_ENTRY_ORDINAL`.
    pub fn new(ordinal: Option<usize>) -> OrdinalEntry
        ensures { result ≡ stored_ordinal ordinal }
    {
        match ordinal {
            Some(ordinal) => OrdinalEntry {
                number: ordinal.min(MAX_ENTRY_ORDINAL) as u32 + 1,
            },
            None => OrdinalEntry { number: 0 },
        }
    }

    /// Returns the ordinal of an entry, or None if the entry has no ordinal.
    pub fn ordinal(self) -> Option<usize>
        ensures { result ≡ self }
    {
        match self.number {
            0 => None,
            number => Some(number as usize - 1),
        }
    }
}
