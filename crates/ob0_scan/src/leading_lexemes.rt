//! Reads the first lexeme of a text, or the fault that the text begins with.

ghost use Rattle.std.specs.Prelude.{◌≡◌, ◌≢◌, ◌<◌, ◌≤◌, ◌++◌, ◌∷◌, [], List, ℕ, length, take, IsTrue, IfSome, IfNone, SomeIff, slice_index, codes};
ghost use Rattle.std.specs.List.{AllPass, prefix_len};
ghost use Rattle.std.specs.Char.{is_ascii_alphabetic, is_ascii_alphanumeric, is_ascii_digit};
ghost use Rattle.std.specs.Str.{IsCharBoundary};
ghost use Rattle.ob0_scan.specs.Comments.{IsComment};
ghost use Rattle.ob0_scan.specs.LexemeClasses.{is_white_space, max_integer, symbol_text, IsIdentifierOrReservedWord, IsLexemeOfKind, decimal_value};
ghost use Rattle.ob0_scan.specs.LeadingLexemes.{IsLongestSymbol, StartsWithNoSymbol};
ghost use Rattle.ob0_scan.specs.LeadingLexemeOrFault.{StartsWithLexemeOrFault};
ghost use Rattle.ob0_scan.specs.Faults.{IsFirstCharLength};

use crate::fault::FaultCode;
use crate::lexeme::{LexemeKind, ReservedWord, Symbol, TokenKind};

/// The largest integer that a text may contain.
const MAX_INTEGER: u64 = 2147483647;

/// The beginning of a non-empty text: a lexeme or a fault.
pub enum LeadingLexemeOrFault {
    /// A lexeme, and its length in bytes.
    Lexeme(LexemeKind, usize),
    /// A fault, and its length in bytes.
    Fault(FaultCode, usize),
}

/// Returns whether a byte is white space: a space, a tab, CR or LF.
pub fn is_white_space(byte: u8) -> bool
    ensures { result ≡ is_white_space byte }
{
    byte == b' ' || byte == b'\t' || byte == b'\n' || byte == b'\r'
}

/// Returns the number of leading bytes that are white space.
fn leading_white_space_len(bytes: &[u8]) -> usize
    ensures { result ≡ prefix_len is_white_space bytes.now }
{
    bytes
        .iter()
        .take_while(|byte| is_white_space(**byte))
        .count()
}

/// Returns the number of leading bytes that are digits.
fn leading_digits_len(bytes: &[u8]) -> usize
    ensures { result ≡ prefix_len is_ascii_digit bytes.now }
{
    bytes
        .iter()
        .take_while(|byte| byte.is_ascii_digit())
        .count()
}

/// Returns the number of leading bytes that are letters or digits.
fn leading_alphanumeric_len(bytes: &[u8]) -> usize
    ensures { result ≡ prefix_len is_ascii_alphanumeric bytes.now }
{
    bytes
        .iter()
        .take_while(|byte| byte.is_ascii_alphanumeric())
        .count()
}

/// Returns the value of a sequence of digits, or None if the value is over 2147483647.
fn integer_value(digits: &[u8]) -> Option<u32>
    requires { AllPass is_ascii_digit digits.now }
    ensures { SomeIff result (decimal_value digits.now ≤ max_integer) (decimal_value digits.now) }
{
    let mut value: u64 = 0;
    for digit in digits {
        value = 10 * value + u64::from(*digit - b'0');
        if value > MAX_INTEGER {
            return None;
        }
    }
    Some(value as u32)
}

/// Returns the length in bytes of the comment at the beginning of the bytes, or None if that
/// comment isn't closed.
fn leading_comment_len(bytes: &[u8]) -> Option<usize>
    requires { take 2 bytes.now ≡ codes "(*" }
    ensures in_range { IfSome result (λ len. len ≤ length bytes.now) }
    ensures closed { IfSome result (λ len. IsComment (take len bytes.now)) }
    ensures unclosed { IfNone result
        ((prefix rest_of_text : List ℕ) → IsComment prefix → prefix ++ rest_of_text ≢ bytes.now) }
{
    let mut depth: usize = 1;
    let mut len = 2;
    while len + 1 < bytes.len() {
        if bytes[len] == b'(' && bytes[len + 1] == b'*' {
            depth += 1;
            len += 2;
        } else if bytes[len] == b'*' && bytes[len + 1] == b')' {
            depth -= 1;
            len += 2;
            if depth == 0 {
                return Some(len);
            }
        } else {
            len += 1;
        }
    }
    None
}

/// Returns the longest symbol at the beginning of the bytes, with its length in bytes. Returns None
/// if the bytes begin with no symbol.
fn leading_symbol(bytes: &[u8]) -> Option<(Symbol, usize)>
    ensures found { IfSome result (λ found. IsLongestSymbol bytes.now found.0 found.1) }
    ensures none { IfNone result (StartsWithNoSymbol bytes.now) }
{
    match bytes {
        [b'<', b'=', ..] => Some((Symbol::LessEqual, 2)),
        [b'>', b'=', ..] => Some((Symbol::GreaterEqual, 2)),
        [b':', b'=', ..] => Some((Symbol::Becomes, 2)),
        [byte, ..] => one_byte_symbol(*byte).map(|symbol| (symbol, 1)),
        [] => None,
    }
}

/// Returns the symbol that consists of this byte only, or None if no symbol begins with this byte.
fn one_byte_symbol(byte: u8) -> Option<Symbol>
    ensures found { IfSome result (λ symbol. symbol_text symbol ≡ byte ∷ []) }
    ensures none { IfNone result ((symbol : Symbol) → slice_index (symbol_text symbol) 0 ≢ byte) }
{
    match byte {
        b'&' => Some(Symbol::And),
        b'*' => Some(Symbol::Times),
        b'+' => Some(Symbol::Plus),
        b'-' => Some(Symbol::Minus),
        b'=' => Some(Symbol::Equal),
        b'#' => Some(Symbol::NotEqual),
        b'<' => Some(Symbol::Less),
        b'>' => Some(Symbol::Greater),
        b'~' => Some(Symbol::Not),
        b'.' => Some(Symbol::Dot),
        b',' => Some(Symbol::Comma),
        b';' => Some(Symbol::Semicolon),
        b':' => Some(Symbol::Colon),
        b'(' => Some(Symbol::LeftParen),
        b')' => Some(Symbol::RightParen),
        b'[' => Some(Symbol::LeftBracket),
        b']' => Some(Symbol::RightBracket),
        _ => None,
    }
}

/// Returns the kind of a word: the kind of the reserved word that it spells, or `Identifier` if it
/// spells none.
#[inline(always)]
fn word_kind(word: &[u8]) -> TokenKind
    requires { IsIdentifierOrReservedWord word.now }
    ensures { IsLexemeOfKind (LexemeKind.Token result) word.now }
{
    match ReservedWord::from_bytes(word) {
        Some(reserved) => TokenKind::ReservedWord(reserved),
        None => TokenKind::Identifier,
    }
}

/// Returns the identifier or reserved word at the beginning of a text that begins with a letter.
#[inline(always)]
fn leading_word(text: &str) -> LeadingLexemeOrFault
    requires { IsTrue (is_ascii_alphabetic (slice_index text.now 0)) }
    ensures { StartsWithLexemeOrFault text.now result }
{
    let bytes = text.as_bytes();
    let len = leading_alphanumeric_len(bytes);
    LeadingLexemeOrFault::Lexeme(LexemeKind::Token(word_kind(&bytes[..len])), len)
}

/// Returns the integer at the beginning of a text that begins with a digit. If a letter directly
/// follows the digits, or the value is too large, returns the fault instead.
#[inline(always)]
fn leading_integer(text: &str) -> LeadingLexemeOrFault
    requires { IsTrue (is_ascii_digit (slice_index text.now 0)) }
    ensures { StartsWithLexemeOrFault text.now result }
{
    let bytes = text.as_bytes();
    let len = leading_digits_len(bytes);
    if len < bytes.len() && bytes[len].is_ascii_alphabetic() {
        return LeadingLexemeOrFault::Fault(
            FaultCode::NumberJoinsLetter,
            leading_alphanumeric_len(bytes),
        );
    }
    match integer_value(&bytes[..len]) {
        Some(value) => LeadingLexemeOrFault::Lexeme(
            LexemeKind::Token(TokenKind::Integer(value)),
            len,
        ),
        None => LeadingLexemeOrFault::Fault(FaultCode::NumberTooLarge, len),
    }
}

/// Returns the comment at the beginning of a text that begins with `(*`. If the comment isn't
/// closed, returns the fault instead.
fn leading_comment(text: &str) -> LeadingLexemeOrFault
    requires { take 2 text.now ≡ codes "(*" }
    ensures { StartsWithLexemeOrFault text.now result }
{
    match leading_comment_len(text.as_bytes()) {
        Some(len) => LeadingLexemeOrFault::Lexeme(LexemeKind::Comment, len),
        None => LeadingLexemeOrFault::Fault(FaultCode::OpenComment, 2),
    }
}

/// Returns the lexeme or the fault at the beginning of a non-empty text.
#[inline(always)]
pub fn leading_lexeme(text: &str) -> LeadingLexemeOrFault
    requires { 0 < length text.now }
    ensures { StartsWithLexemeOrFault text.now result }
{
    let bytes = text.as_bytes();
    let byte = bytes[0];
    if is_white_space(byte) {
        LeadingLexemeOrFault::Lexeme(LexemeKind::WhiteSpace, leading_white_space_len(bytes))
    } else if byte.is_ascii_alphabetic() {
        leading_word(text)
    } else if byte.is_ascii_digit() {
        leading_integer(text)
    } else if bytes.starts_with(b"(*") {
        leading_comment(text)
    } else if let Some((symbol, len)) = leading_symbol(bytes) {
        LeadingLexemeOrFault::Lexeme(LexemeKind::Token(TokenKind::Symbol(symbol)), len)
    } else {
        LeadingLexemeOrFault::Fault(FaultCode::BadChar, first_char_len(text))
    }
}

/// Returns the length in bytes of the first character of a non-empty text.
fn first_char_len(text: &str) -> usize
    requires { 0 < length text.now }
    ensures nonempty { 0 < result }
    ensures boundary { IsCharBoundary text.now result }
    ensures character { IsFirstCharLength result text.now }
{
    match text.chars().next() {
        Some(c) => c.len_utf8(),
        None => unreachable!(),
    }
}
