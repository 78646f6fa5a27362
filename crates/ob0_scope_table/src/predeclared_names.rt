//! Defines the ordinals of the predeclared names (docs/LANGUAGE.md, Scopes 1).

/// The number of predeclared names: INTEGER, BOOLEAN, TRUE, FALSE, Read, Write and WriteLn, with
/// the ordinals 0 to 6.
pub const PREDECLARED_COUNT: usize = 7;

/// The ordinal of TRUE.
pub const TRUE_ORDINAL: usize = 2;

/// The ordinal of FALSE.
pub const FALSE_ORDINAL: usize = 3;

/// The ordinal of Read.
pub const READ_ORDINAL: usize = 4;

/// The ordinal of Write.
pub const WRITE_ORDINAL: usize = 5;

/// The ordinal of WriteLn.
pub const WRITE_LN_ORDINAL: usize = 6;
