//! Recognizes expressions that consist of only a designator, which is a name with selectors. No
//! other expression can be a VAR argument.

ghost use Rattle.std.specs.Prelude.{◌≡◌, option_map};
ghost use Rattle.ob0_tree.specs.View.{compound_expression_of, expression_of, factor_of, simple_expression_of, term_of};
ghost use Rattle.ob0_types_table.specs.Designators.{designator_of_factor, designator_of_simple_expression, designator_of_term, designator_parts};
ghost use Rattle.ob0_language_types.specs.Typing.{lone_designator};

use ob0_tree::{CompoundExpression, Designator, Expression, Factor, SimpleExpression, Term};

/// Returns the designator of an expression that is only a designator, without sign, operators or
/// parentheses. Returns None for any other expression.
pub fn lone_designator(e: &Expression) -> Option<&Designator>
    ensures { option_map (λ d. designator_parts d.now) result
        ≡ lone_designator (expression_of e.now) }
{
    match e {
        Expression::Factor(f) => designator_of_factor(f),
        Expression::CompoundExpression(c) => designator_of_compound_expression(c),
    }
}

/// Returns the designator of a compound expression that is only a designator. Returns None for any
/// other expression.
fn designator_of_compound_expression(c: &CompoundExpression) -> Option<&Designator>
    ensures { option_map (λ d. designator_parts d.now) result
        ≡ lone_designator (compound_expression_of c.now) }
{
    match &c.compared {
        None => designator_of_simple_expression(&c.left),
        Some(_) => None,
    }
}

/// Returns the designator of a simple expression that is only a designator. Returns None for any
/// other expression.
fn designator_of_simple_expression(s: &SimpleExpression) -> Option<&Designator>
    ensures { option_map (λ d. designator_parts d.now) result
        ≡ designator_of_simple_expression (simple_expression_of s.now) }
{
    match s.sign {
        None => {
            if s.more.is_empty() {
                designator_of_term(&s.first)
            } else {
                None
            }
        }
        Some(_sign) => None,
    }
}

fn designator_of_term(t: &Term) -> Option<&Designator>
    ensures { option_map (λ d. designator_parts d.now) result ≡ designator_of_term (term_of t.now) }
{
    if !t.more.is_empty() {
        return None;
    }
    designator_of_factor(&t.first)
}

fn designator_of_factor(f: &Factor) -> Option<&Designator>
    ensures { option_map (λ d. designator_parts d.now) result
        ≡ designator_of_factor (factor_of f.now) }
{
    match f {
        Factor::Designator(d) => Some(d),
        Factor::Integer(_) => None,
        Factor::Parenthesised(_) => None,
        Factor::Not(_) => None,
    }
}
