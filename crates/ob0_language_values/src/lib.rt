//! Defines the values of Oberon-0: 32-bit numbers, truth values, arrays and records. The operators
//! on scalars, including DIV and MOD, also exist in code (docs/LANGUAGE.md, Runs).
#![tactic(auto)]

ghost use Rattle.std.specs.Prelude.{◌≡◌};
ghost use Rattle.ob0_language_values.specs.Division.{checked_division, quotient, remainder};

pub mod scalar;

pub use scalar::{OperatorFault, Scalar};

/// Returns the quotient `left DIV right`, rounded down. Returns None if the divisor `right` is
/// below 1.
#[inline(always)]
pub fn divide(left: i32, right: i32) -> Option<i32>
    ensures { result ≡ checked_division quotient left right }
{
    if right < 1 {
        return None;
    }
    Some(left.div_euclid(right))
}

/// Returns the remainder `left MOD right`, which is never negative. Returns None if the divisor
/// `right` is below 1.
#[inline(always)]
pub fn modulo(left: i32, right: i32) -> Option<i32>
    ensures { result ≡ checked_division remainder left right }
{
    if right < 1 {
        return None;
    }
    Some(left.rem_euclid(right))
}
