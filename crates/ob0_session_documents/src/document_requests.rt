//! Defines requests about a document, and their outcomes.

ghost use Rattle.std.specs.Prelude.{◌≡◌, ℕ, ℤ, List, IfOk};
ghost use Rattle.std.specs.Str.{chars};
ghost use Rattle.ob0_text.specs.declared.position_types.Unit.{Unit};

use ob0_analysis::Analysis;
use ob0_text::TextStore;
use std::alloc::{AllocError, Global};

/// A request about an open document that is in step: the server knows the document's text.
pub trait DocumentRequest<T: TextStore> {
    /// States that the last argument, a list of bytes, answers the request. The other arguments are
    /// the document's version, the unit in which positions are counted, and the characters of the
    /// document's text.
    ghost answers: { Self → ℤ → Unit → List ℕ → List ℕ → Type 0 };

    /// Answers the request from the document's version, its text and the analysis of this text.
    /// Fails only if an allocation fails.
    fn answer(
        &self,
        alloc: Global,
        version: i64,
        text: &T,
        analysis: &Analysis,
    ) -> Result<Vec<u8>, AllocError>
        requires { T.content text.now ≡ chars analysis.now }
        ensures { IfOk result (λ message. answers self.now version (T.unit_of text.now)
            (T.content text.now) message.items) };
}

/// The outcome of a request about a document: the message that answers it, or the reason why no
/// message answers it.
#[derive(Drop)]
pub enum RequestOutcome {
    Answered(Vec<u8>),
    OutOfStep,
    Unopened,
}
