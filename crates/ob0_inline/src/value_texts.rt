//! Computes the text that an inlining writes for a constant's value.

ghost use Rattle.std.specs.Prelude.{◌≡◌, IfOk, IsTrue, string_bytes};
ghost use Rattle.ob0_edits_tokens.specs.Replacements.{MayReplaceIdentifier};
ghost use Rattle.ob0_edits_tokens.specs.Written.{number_text, number_words};
ghost use Rattle.ob0_language_types.specs.EditLaws.{Is32BitScalar};
ghost use Rattle.ob0_language_values.specs.Scalars.{scalar_value};
ghost use Rattle.ob0_language_values.specs.Values.{fits_in_32_bits};
ghost use Rattle.ob0_inline.specs.Values.{value_text, value_words};

use ob0_language_values::Scalar;
use std::alloc::{AllocError, Global};

/// Returns the text that an inlining writes for a value: a number, TRUE or FALSE. A negative number
/// is in parentheses. The least 32-bit number is written as a difference, because 2147483648 is too
/// large for an integer literal.
pub(crate) fn value_text(alloc: Global, value: Scalar) -> Result<String, AllocError>
    ensures text { IfOk result (λ text. string_bytes text ≡ value_text value) }
    ensures can_replace { MayReplaceIdentifier (value_text value) (value_words value) }
{
    match value {
        Scalar::Number(number) => {
            number_text_may_replace_identifier(number);
            number_text(alloc, number)
        }
        Scalar::Truth(true) => String::from_str(alloc, "TRUE"),
        Scalar::Truth(false) => String::from_str(alloc, "FALSE"),
    }
}

/// Returns the text of a number, in parentheses if the number is negative. The least 32-bit number
/// is written as a difference, because 2147483648 is too large for an integer literal.
fn number_text(alloc: Global, number: i32) -> Result<String, AllocError>
    ensures { IfOk result (λ text. string_bytes text ≡ number_text number) }
{
    if number == i32::MIN {
        return String::from_str(alloc, "(-2147483647 - 1)");
    }
    if number < 0 {
        return format!(in alloc; "({number})");
    }
    format!(in alloc; "{number}")
}

/// Proves that the text of the 32-bit number `number` may replace any identifier
/// (`MayReplaceIdentifier`). The function has no effect.
fn number_text_may_replace_identifier(number: i32)
    ensures { MayReplaceIdentifier (number_text number) (number_words number) }
{}

/// Proves that the scalar `value` is a 32-bit number or a truth value. The function has no effect.
pub(crate) fn scalar_fits_in_32_bits(value: Scalar)
    ensures { Is32BitScalar (scalar_value value) }
{
    if let Scalar::Number(number) = value {
        number_fits_in_32_bits(number);
    }
}

/// Proves that the value of `number` fits in 32 bits. The function has no effect.
fn number_fits_in_32_bits(number: i32)
    ensures { IsTrue (fits_in_32_bits number) }
{
    // The proof needs the fact that `number` is in the range of `i32`.
    let _ = number;
}
