//! Looks up the text of a token by the token's index.

ghost use Rattle.std.specs.Prelude.{◌≡◌};
ghost use Rattle.ob0_tree.specs.TokenIndexLeaves.{token_text_at};

use ob0_scan::Tokens;

/// Returns the text of the token with the index `token`, or the empty text if there is no such
/// token.
pub fn token_text_at(tokens: &Tokens, token: usize) -> &str
    ensures { result.now ≡ token_text_at tokens.now token }
{
    if token < tokens.tokens().len() {
        tokens.token_text(token)
    } else {
        ""
    }
}
