//! Defines field identifiers: identifiers that declare or select a field of a record.

/// A field identifier: an identifier that declares or selects a field of a record.
#[derive(Clone, Copy)]
pub struct FieldIdentifier {
    /// The index of the identifier among the tokens of the text, from 0.
    pub token: usize,
    /// The ordinal of the field's record: the number of words ARRAY and RECORD that precede the
    /// record's word RECORD in the text.
    pub owner: usize,
}
