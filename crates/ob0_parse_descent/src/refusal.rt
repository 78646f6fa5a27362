//! Defines the reasons why the parser refuses a text.

ghost use Rattle.std.specs.Prelude.{◌≡◌};
ghost use Rattle.ob0_parse_descent.specs.declared.refusal.ParseRefusal.TheVariants.{Memory};

use ob0_scan::{ReservedWord, Symbol};
use std::alloc::{AllocError, AllocFailed};
use thiserror::Error;

/// The token or construct that a syntax error reports as expected.
#[derive(Clone, Copy, PartialEq, Eq, Debug)]
pub enum ExpectedSyntax {
    Type,
    Expression,
    Identifier,
    EndOfText,
    Word(ReservedWord),
    Symbol(Symbol),
}

impl ExpectedSyntax {
    ghost use Rattle.ob0_parse_descent.specs.ExpectedText.{expected_text};

    /// Returns the text that follows `expected` in the message of a syntax error.
    pub fn text(self) -> &'static str
        ensures { result.now ≡ expected_text self }
    {
        match self {
            ExpectedSyntax::Type => "type",
            ExpectedSyntax::Expression => "expression",
            ExpectedSyntax::Identifier => "identifier",
            ExpectedSyntax::EndOfText => "end of text",
            ExpectedSyntax::Word(word) => word.text(),
            ExpectedSyntax::Symbol(symbol) => symbol.text(),
        }
    }
}

/// The reason why a text wasn't parsed: a syntax error, too deep nesting or a failed allocation.
/// `token` is the index of the token at which parsing stopped. The end of the text counts as the
/// token after the last one.
#[derive(Debug, Drop, Error)]
pub enum ParseRefusal {
    #[error("token {token}: expected {}", .expected.text())]
    Syntax {
        token: usize,
        expected: ExpectedSyntax,
    },
    #[error("token {token}: nested too deep")]
    TooDeep {
        token: usize,
    },
    #[error("out of memory")]
    Memory,
}

impl From<AllocError> for ParseRefusal {
    ghost from_gives = { λ _ e. e ≡ Memory };

    fn from(_e: AllocError) -> Self {
        ParseRefusal::Memory
    }
}

impl<T: Drop> From<AllocFailed<T>> for ParseRefusal {
    ghost from_gives = { λ _ e. e ≡ Memory };

    fn from(_e: AllocFailed<T>) -> Self {
        ParseRefusal::Memory
    }
}
