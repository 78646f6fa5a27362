//! Computes the values that constants give to operations. An operand has no value (None) if
//! constants don't determine it or its evaluation failed. If the left operand of OR or `&` already
//! decides the result, the right operand needs no value.

ghost use Rattle.std.specs.Prelude.{◌≡◌, Some, option_and_then, option_map};
ghost use Rattle.ob0_language_values.specs.Scalars.{scalar_value};
ghost use Rattle.ob0_language_values.specs.Values as values;
ghost use Rattle.ob0_types_table.specs.Operators.{product_value, sum_value};
ghost use Rattle.ob0_language_types.specs.DesignatorSelectors.{apply_to_both_options};
ghost use Rattle.ob0_language_types.specs.Typing.{outcome_value};

use ob0_language_values::Scalar;
use ob0_language_values::scalar::{
    add_operator_short_circuits, apply_add_operator, apply_multiply_operator, apply_not,
    apply_relation, apply_sign, multiply_operator_short_circuits,
};
use ob0_tree::{AddOperator, MultiplyOperator, Relation, Sign};

/// Returns the truth value of a relation. Returns None if an operand has no value or the relation
/// doesn't apply to the operands.
pub fn value_of_relation(
    relation: Relation,
    left: Option<Scalar>,
    right: Option<Scalar>,
) -> Option<Scalar>
    ensures { option_map scalar_value result
        ≡ apply_to_both_options (λ x y. outcome_value (values.apply_relation relation x y)) (option_map scalar_value left)
        (option_map scalar_value right) }
{
    match left {
        None => None,
        Some(left) => match right {
            None => None,
            Some(right) => apply_relation(relation, left, right).ok(),
        },
    }
}

/// Returns the value of an operand with an optional sign before it. Returns None if the operand has
/// no value or the sign can't be applied, for example because of an overflow.
pub fn signed_value(sign: Option<Sign>, operand: Option<Scalar>) -> Option<Scalar>
    ensures { option_map scalar_value result
        ≡ option_and_then (λ x. outcome_value (values.apply_sign sign x))
        (option_map scalar_value operand) }
{
    match operand {
        None => None,
        Some(operand) => apply_sign(sign, operand).ok(),
    }
}

/// Returns the value of `~` applied to an operand. Returns None if the operand has no value or
/// isn't a truth value.
pub fn value_of_negation(operand: Option<Scalar>) -> Option<Scalar>
    ensures { option_map scalar_value result
        ≡ option_and_then (λ x. outcome_value (values.apply_not x)) (option_map scalar_value operand) }
{
    match operand {
        None => None,
        Some(operand) => apply_not(operand).ok(),
    }
}

/// Returns the value of a sum, a difference or an OR. If `left` already decides an OR, `right`
/// needs no value. Returns None if a needed operand has no value, or if the operation has no
/// result, for example because it overflows.
pub fn value_of_sum(
    operator: AddOperator,
    left: Option<Scalar>,
    right: Option<Scalar>,
) -> Option<Scalar>
    ensures { option_map scalar_value result
        ≡ option_and_then (sum_value operator (option_map scalar_value right))
        (option_map scalar_value left) }
{
    match left {
        None => None,
        Some(left) => {
            if add_operator_short_circuits(operator, left) {
                return Some(left);
            }
            match right {
                None => None,
                Some(right) => apply_add_operator(operator, left, right).ok(),
            }
        }
    }
}

/// Returns the value of a product, a quotient, a remainder or an `&`. If `left` already decides an
/// `&`, `right` needs no value. Returns None if a needed operand has no value, or if the operation
/// has no result, for example because it overflows.
pub fn value_of_product(
    operator: MultiplyOperator,
    left: Option<Scalar>,
    right: Option<Scalar>,
) -> Option<Scalar>
    ensures { option_map scalar_value result
        ≡ option_and_then (product_value operator (option_map scalar_value right))
        (option_map scalar_value left) }
{
    match left {
        None => None,
        Some(left) => {
            if multiply_operator_short_circuits(operator, left) {
                return Some(left);
            }
            match right {
                None => None,
                Some(right) => apply_multiply_operator(operator, left, right).ok(),
            }
        }
    }
}
