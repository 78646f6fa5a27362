//! Defines the answers to questions about an identifier. `At` and `Of` say which declaration or
//! field the identifier refers to. `Hover` has the identifier's hover text. `Capture` has the
//! span at which a new name for a declaration has a conflict.

use ob0_scan::Span;

/// The thing that an identifier refers to: a declaration of the text, a predeclared name, or a
/// field.
#[derive(Clone, Copy, PartialEq, Eq)]
pub enum Of {
    /// The ordinal of a declaration of the text.
    Declared(usize),
    Predeclared,
    /// The field with the index `index`, counted from 0, of the record with the ordinal `ordinal`.
    /// Array and record types share one numbering: their ordinals count the words ARRAY and RECORD
    /// of the text from 0.
    Field { ordinal: usize, index: usize },
}

/// The answer of `at`, the lookup at a byte offset. It has the identifier's span in bytes, and the
/// declaration or field that the identifier refers to.
#[derive(Clone, Copy, PartialEq, Eq)]
pub struct At {
    pub span: Span,
    pub of: Of,
}

/// The hover text of an identifier, and the identifier's span in bytes.
#[derive(Drop)]
pub struct Hover {
    pub span: Span,
    /// Plain text of one line.
    pub text: String,
}

/// The first conflict of a new name for a declaration. If another declaration of the same block has
/// the new name, `span` is the span of the identifier that declares the old name. Otherwise `span`
/// is the span of the first looked-up name whose binding would change. Spans are in bytes.
#[derive(Clone, Copy, PartialEq, Eq)]
pub struct Capture {
    pub span: Span,
}
