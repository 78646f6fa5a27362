//! Finds the first identifier in a block's statements. The search stops at that identifier and
//! allocates nothing.

ghost use Rattle.std.specs.Prelude.{◌≡◌};
ghost use Rattle.ob0_tree.specs.FirstIdentifier.{first_identifier};
ghost use Rattle.ob0_tree.specs.View.{expression_of, compound_expression_of, simple_expression_of, term_of, factor_of, statement_of, if_of, elsifs_of_vec, sequence_of_vec, body_of};

use crate::tree::{
    CompoundExpression, Elsif, Expression, Factor, If, SimpleExpression, Statement, Term,
};

/// Returns the token index of the first identifier in a block's statements, or None if they have no
/// identifier.
pub fn first_identifier(statements: &Option<Vec<Statement>>) -> Option<usize>
    ensures { result ≡ first_identifier (body_of statements.now) }
{
    match statements {
        Some(statements) => first_identifier_in_sequence(statements),
        None => None,
    }
}

/// Returns the token index of the first identifier in a sequence of statements, or None if there is
/// none.
#[cycle(statements)]
fn first_identifier_in_sequence(statements: &Vec<Statement>) -> Option<usize>
    ensures { result ≡ first_identifier (sequence_of_vec statements.now) }
{
    for s in statements {
        let found = first_identifier_in_statement(s);
        if found.is_some() {
            return found;
        }
    }
    None
}

/// Returns the token index of the first identifier in a statement, or None if there is none.
#[cycle(statements)]
fn first_identifier_in_statement(s: &Statement) -> Option<usize>
    ensures { result ≡ first_identifier (statement_of s.now) }
{
    match s {
        Statement::Empty => None,
        Statement::Assign(a) => Some(a.target.name),
        Statement::Call(c) => Some(c.procedure),
        Statement::If(i) => first_identifier_in_if(i),
        Statement::While(w) => {
            let found = first_identifier_in_expression(&w.condition);
            if found.is_some() {
                return found;
            }
            first_identifier_in_sequence(&w.body)
        }
        Statement::Repeat(r) => {
            let found = first_identifier_in_sequence(&r.body);
            if found.is_some() {
                return found;
            }
            first_identifier_in_expression(&r.condition)
        }
    }
}

/// Returns the token index of the first identifier in an IF statement, or None if there is none.
#[cycle(statements)]
fn first_identifier_in_if(i: &If) -> Option<usize>
    ensures { result ≡ first_identifier (if_of i.now) }
{
    let found = first_identifier_in_expression(&i.condition);
    if found.is_some() {
        return found;
    }
    let found = first_identifier_in_sequence(&i.then);
    if found.is_some() {
        return found;
    }
    let found = first_identifier_in_elsifs(&i.elsifs);
    if found.is_some() {
        return found;
    }
    match &i.otherwise {
        Some(statements) => first_identifier_in_sequence(statements),
        None => None,
    }
}

/// Returns the token index of the first identifier in the ELSIF parts of an IF statement, or None
/// if there is none.
#[cycle(statements)]
fn first_identifier_in_elsifs(parts: &Vec<Elsif>) -> Option<usize>
    ensures { result ≡ first_identifier (elsifs_of_vec parts.now) }
{
    for e in parts {
        let found = first_identifier_in_expression(&e.condition);
        if found.is_some() {
            return found;
        }
        let found = first_identifier_in_sequence(&e.then);
        if found.is_some() {
            return found;
        }
    }
    None
}

/// Returns the token index of the first identifier in an expression, or None if there is none.
#[cycle(expressions)]
fn first_identifier_in_expression(e: &Expression) -> Option<usize>
    ensures { result ≡ first_identifier (expression_of e.now) }
{
    match e {
        Expression::Factor(f) => first_identifier_in_factor(f),
        Expression::CompoundExpression(c) => first_identifier_in_compound_expression(c),
    }
}

/// Returns the token index of the first identifier in an expression that isn't a single factor, or
/// None if there is none.
#[cycle(expressions)]
fn first_identifier_in_compound_expression(c: &CompoundExpression) -> Option<usize>
    ensures { result ≡ first_identifier (compound_expression_of c.now) }
{
    let found = first_identifier_in_simple_expression(&c.left);
    if found.is_some() {
        return found;
    }
    match &c.compared {
        Some(compared) => first_identifier_in_simple_expression(&compared.right),
        None => None,
    }
}

/// Returns the token index of the first identifier in a simple expression, or None if there is
/// none.
#[cycle(expressions)]
fn first_identifier_in_simple_expression(s: &SimpleExpression) -> Option<usize>
    ensures { result ≡ first_identifier (simple_expression_of s.now) }
{
    let found = first_identifier_in_term(&s.first);
    if found.is_some() {
        return found;
    }
    for addend in &s.more {
        let found = first_identifier_in_term(&addend.term);
        if found.is_some() {
            return found;
        }
    }
    None
}

/// Returns the token index of the first identifier in a term, or None if there is none.
#[cycle(expressions)]
fn first_identifier_in_term(t: &Term) -> Option<usize>
    ensures { result ≡ first_identifier (term_of t.now) }
{
    let found = first_identifier_in_factor(&t.first);
    if found.is_some() {
        return found;
    }
    for multiplier in &t.more {
        let found = first_identifier_in_factor(&multiplier.factor);
        if found.is_some() {
            return found;
        }
    }
    None
}

/// Returns the token index of the first identifier in a factor, or None if there is none.
#[cycle(expressions)]
fn first_identifier_in_factor(f: &Factor) -> Option<usize>
    ensures { result ≡ first_identifier (factor_of f.now) }
{
    match f {
        Factor::Designator(d) => Some(d.name),
        Factor::Integer(_) => None,
        Factor::Parenthesised(e) => first_identifier_in_expression(e),
        Factor::Not(f) => first_identifier_in_factor(f),
    }
}
