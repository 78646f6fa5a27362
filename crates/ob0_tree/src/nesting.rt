//! Computes the nesting depth of a module.
//!
//! The private functions add with saturation, so they need no precondition that bounds the depth.
//! Their contracts promise the depth capped at 2^32 - 1 (`capped_to_u32`). `Module::nesting`
//! promises the exact depth, because a module's invariant allows at most 100 levels.

ghost use Rattle.std.specs.Prelude.{◌≡◌, ◌+◌};
ghost use Rattle.ob0_tree.specs.Tree.{nesting};
ghost use Rattle.ob0_tree.specs.ParsedModule.{tree_of};
ghost use Rattle.ob0_tree.specs.CappedDepth.{capped_to_u32};
ghost use Rattle.ob0_tree.specs.View.{expression_of, compound_expression_of, simple_expression_of, term_of, factor_of, designator_of, selector_of, assignment_of, call_of, statement_of, if_of, elsifs_of_vec, sequence_of_vec, type_of, record_type_of, optional_field_group_of, parameter_section_of, formals_of, constant_section_of, type_section_of, variable_section_of, body_of, procedure_of, block_of};

use crate::tree::{
    Assignment, Block, Call, CompoundExpression, ConstantDeclaration, Designator, Elsif,
    Expression, Factor, If, Module, OptionalFieldGroup, ParameterSection, Procedure, RecordType,
    Selector, SimpleExpression, Statement, Term, TypeDeclaration, VariableDeclaration, WrittenType,
};

/// The greatest number of constructs that may be nested in each other in a module.
pub const MAX_NESTING: u32 = 100;

impl<'t> Module<'t> {
    /// Returns the module's nesting depth: the greatest number of constructs that are nested in
    /// each other. The constructs that count are parenthesised and negated factors, indexes, IF,
    /// WHILE and REPEAT statements, array and record types, and procedures. The depth is at most
    /// [`MAX_NESTING`].
    pub fn nesting(&self) -> u32
        ensures { result ≡ nesting (tree_of self.now) }
    {
        // The contract of `tokens` states the module's invariant, and the proof uses this
        // invariant.
        let _parsed = self.tokens();
        block_nesting(self.block())
    }
}

/// Returns `levels` plus 1, capped at 2^32 - 1.
fn capped_increment(levels: u32) -> u32
    ensures { result ≡ capped_to_u32 (levels + 1) }
{
    levels.saturating_add(1)
}

/// Returns the nesting depth of an expression, capped at 2^32 - 1.
#[cycle(expressions)]
fn expression_nesting(e: &Expression) -> u32
    ensures { result ≡ capped_to_u32 (nesting (expression_of e.now)) }
{
    match e {
        Expression::Factor(f) => factor_nesting(f),
        Expression::CompoundExpression(c) => compound_expression_nesting(c),
    }
}

/// Returns the nesting depth of an expression that isn't a single factor, capped at 2^32 - 1.
#[cycle(expressions)]
fn compound_expression_nesting(c: &CompoundExpression) -> u32
    ensures { result ≡ capped_to_u32 (nesting (compound_expression_of c.now)) }
{
    let left = simple_expression_nesting(&c.left);
    match &c.compared {
        Some(compared) => left.max(simple_expression_nesting(&compared.right)),
        None => left,
    }
}

/// Returns the nesting depth of a simple expression, capped at 2^32 - 1.
#[cycle(expressions)]
fn simple_expression_nesting(s: &SimpleExpression) -> u32
    ensures { result ≡ capped_to_u32 (nesting (simple_expression_of s.now)) }
{
    let mut deepest = term_nesting(&s.first);
    for addend in &s.more {
        deepest = deepest.max(term_nesting(&addend.term));
    }
    deepest
}

/// Returns the nesting depth of a term, capped at 2^32 - 1.
#[cycle(expressions)]
fn term_nesting(t: &Term) -> u32
    ensures { result ≡ capped_to_u32 (nesting (term_of t.now)) }
{
    let mut deepest = factor_nesting(&t.first);
    for multiplier in &t.more {
        deepest = deepest.max(factor_nesting(&multiplier.factor));
    }
    deepest
}

/// Returns the nesting depth of a factor, capped at 2^32 - 1.
#[cycle(expressions)]
fn factor_nesting(f: &Factor) -> u32
    ensures { result ≡ capped_to_u32 (nesting (factor_of f.now)) }
{
    match f {
        Factor::Designator(d) => designator_nesting(d),
        Factor::Integer(_) => 0,
        Factor::Parenthesised(e) => capped_increment(expression_nesting(e)),
        Factor::Not(f) => capped_increment(factor_nesting(f)),
    }
}

/// Returns the nesting depth of a designator (a name with its selectors), capped at 2^32 - 1.
#[cycle(expressions)]
fn designator_nesting(d: &Designator) -> u32
    ensures { result ≡ capped_to_u32 (nesting (designator_of d.now)) }
{
    let mut deepest: u32 = 0;
    for s in &d.selectors {
        deepest = deepest.max(selector_nesting(s));
    }
    deepest
}

/// Returns the nesting depth of a selector, capped at 2^32 - 1.
#[cycle(expressions)]
fn selector_nesting(s: &Selector) -> u32
    ensures { result ≡ capped_to_u32 (nesting (selector_of s.now)) }
{
    match s {
        Selector::Field(_) => 0,
        Selector::Index(e) => capped_increment(expression_nesting(e)),
    }
}

/// Returns the nesting depth of an assignment, capped at 2^32 - 1.
fn assignment_nesting(a: &Assignment) -> u32
    ensures { result ≡ capped_to_u32 (nesting (assignment_of a.now)) }
{
    designator_nesting(&a.target).max(expression_nesting(&a.value))
}

/// Returns the nesting depth of a call, capped at 2^32 - 1.
fn call_nesting(c: &Call) -> u32
    ensures { result ≡ capped_to_u32 (nesting (call_of c.now)) }
{
    let Some(arguments) = &c.arguments else {
        return 0;
    };
    let mut deepest: u32 = 0;
    for e in arguments {
        deepest = deepest.max(expression_nesting(e));
    }
    deepest
}

/// Returns the nesting depth of a sequence of statements, capped at 2^32 - 1.
#[cycle(statements)]
fn sequence_nesting(statements: &Vec<Statement>) -> u32
    ensures { result ≡ capped_to_u32 (nesting (sequence_of_vec statements.now)) }
{
    let mut deepest: u32 = 0;
    for s in statements {
        deepest = deepest.max(statement_nesting(s));
    }
    deepest
}

/// Returns the nesting depth of a statement, capped at 2^32 - 1.
#[cycle(statements)]
fn statement_nesting(s: &Statement) -> u32
    ensures { result ≡ capped_to_u32 (nesting (statement_of s.now)) }
{
    match s {
        Statement::Empty => 0,
        Statement::Assign(a) => assignment_nesting(a),
        Statement::Call(c) => call_nesting(c),
        Statement::If(i) => if_nesting(i),
        Statement::While(w) => capped_increment(expression_nesting(&w.condition).max(
            sequence_nesting(&w.body),
        )),
        Statement::Repeat(r) => capped_increment(sequence_nesting(&r.body).max(expression_nesting(
            &r.condition,
        ))),
    }
}

/// Returns the nesting depth of an IF statement, including its own level, capped at 2^32 - 1.
#[cycle(statements)]
fn if_nesting(i: &If) -> u32
    ensures { result ≡ capped_to_u32 (nesting (if_of i.now)) }
{
    let first = expression_nesting(&i.condition).max(sequence_nesting(&i.then));
    let others = elsifs_nesting(&i.elsifs);
    match &i.otherwise {
        Some(statements) => capped_increment(first.max(others.max(sequence_nesting(statements)))),
        None => capped_increment(first.max(others)),
    }
}

/// Returns the nesting depth of an IF statement's ELSIF parts, capped at 2^32 - 1.
#[cycle(statements)]
fn elsifs_nesting(parts: &Vec<Elsif>) -> u32
    ensures { result ≡ capped_to_u32 (nesting (elsifs_of_vec parts.now)) }
{
    let mut deepest: u32 = 0;
    for e in parts {
        deepest = deepest.max(expression_nesting(&e.condition).max(sequence_nesting(&e.then)));
    }
    deepest
}

/// Returns the nesting depth of a written type, capped at 2^32 - 1.
#[cycle(types)]
fn type_nesting(t: &WrittenType) -> u32
    ensures { result ≡ capped_to_u32 (nesting (type_of t.now)) }
{
    match t {
        WrittenType::Named(_) => 0,
        WrittenType::Array(a) => capped_increment(expression_nesting(&a.size).max(type_nesting(
            &a.element,
        ))),
        WrittenType::Record(r) => record_type_nesting(r),
    }
}

/// Returns the nesting depth of a record type, including its own level, capped at 2^32 - 1.
#[cycle(types)]
fn record_type_nesting(r: &RecordType) -> u32
    ensures { result ≡ capped_to_u32 (nesting (record_type_of r.now)) }
{
    let mut deepest: u32 = 0;
    for group in &r.groups {
        deepest = deepest.max(optional_field_group_nesting(group));
    }
    capped_increment(deepest)
}

/// Returns the nesting depth of an optional group of fields, capped at 2^32 - 1.
#[cycle(types)]
fn optional_field_group_nesting(f: &OptionalFieldGroup) -> u32
    ensures { result ≡ capped_to_u32 (nesting (optional_field_group_of f.now)) }
{
    match f {
        OptionalFieldGroup::Empty => 0,
        OptionalFieldGroup::Listed(l) => type_nesting(&l.written),
    }
}

/// Returns the nesting depth of a section of parameters, capped at 2^32 - 1.
fn parameter_section_nesting(s: &ParameterSection) -> u32
    ensures { result ≡ capped_to_u32 (nesting (parameter_section_of s.now)) }
{
    type_nesting(&s.written)
}

/// Returns the nesting depth of a procedure's formal parameters, capped at 2^32 - 1. The result is
/// 0 if the procedure has none.
fn formals_nesting(sections: &Option<Vec<ParameterSection>>) -> u32
    ensures { result ≡ capped_to_u32 (nesting (formals_of sections.now)) }
{
    let Some(sections) = sections else {
        return 0;
    };
    let mut deepest: u32 = 0;
    for s in sections {
        deepest = deepest.max(parameter_section_nesting(s));
    }
    deepest
}

/// Returns the nesting depth of a block's CONST section, capped at 2^32 - 1. The result is 0 if
/// there is no such section.
fn constant_section_nesting(declared: &Option<Vec<ConstantDeclaration>>) -> u32
    ensures { result ≡ capped_to_u32 (nesting (constant_section_of declared.now)) }
{
    let Some(declared) = declared else {
        return 0;
    };
    let mut deepest: u32 = 0;
    for c in declared {
        deepest = deepest.max(expression_nesting(&c.value));
    }
    deepest
}

/// Returns the nesting depth of a block's TYPE section, capped at 2^32 - 1. The result is 0 if
/// there is no such section.
fn type_section_nesting(declared: &Option<Vec<TypeDeclaration>>) -> u32
    ensures { result ≡ capped_to_u32 (nesting (type_section_of declared.now)) }
{
    let Some(declared) = declared else {
        return 0;
    };
    let mut deepest: u32 = 0;
    for d in declared {
        deepest = deepest.max(type_nesting(&d.written));
    }
    deepest
}

/// Returns the nesting depth of a block's VAR section, capped at 2^32 - 1. The result is 0 if there
/// is no such section.
fn variable_section_nesting(declared: &Option<Vec<VariableDeclaration>>) -> u32
    ensures { result ≡ capped_to_u32 (nesting (variable_section_of declared.now)) }
{
    let Some(declared) = declared else {
        return 0;
    };
    let mut deepest: u32 = 0;
    for v in declared {
        deepest = deepest.max(type_nesting(&v.written));
    }
    deepest
}

/// Returns the nesting depth of a block's statements, capped at 2^32 - 1. The result is 0 if the
/// block has no body.
fn body_nesting(statements: &Option<Vec<Statement>>) -> u32
    ensures { result ≡ capped_to_u32 (nesting (body_of statements.now)) }
{
    match statements {
        Some(statements) => sequence_nesting(statements),
        None => 0,
    }
}

/// Returns the nesting depth of a block and its procedures, capped at 2^32 - 1.
#[cycle(blocks)]
fn block_nesting(b: &Block) -> u32
    ensures { result ≡ capped_to_u32 (nesting (block_of b.now)) }
{
    let constants = constant_section_nesting(&b.constants);
    let types = type_section_nesting(&b.types);
    let variables = variable_section_nesting(&b.variables);
    let mut procedures: u32 = 0;
    for p in &b.procedures {
        procedures = procedures.max(procedure_nesting(p));
    }
    let declared = constants.max(types).max(variables.max(procedures));
    declared.max(body_nesting(&b.body))
}

/// Returns the nesting depth of a procedure, including its own level, capped at 2^32 - 1.
#[cycle(blocks)]
fn procedure_nesting(p: &Procedure) -> u32
    ensures { result ≡ capped_to_u32 (nesting (procedure_of p.now)) }
{
    capped_increment(formals_nesting(&p.formals).max(block_nesting(&p.block)))
}
