//! Visits the identifiers of a module in text order, with any `Visitor`.
//!
//! Each `Visitor` defines a ghost function `state_after_one_identifier`, which returns the
//! visitor's state after the visit of one identifier. A walk over a part of the tree applies this
//! function to each identifier of the part, in text order. In proofs the function has the name
//! `g.V.Visitor.state_after_one_identifier`. Here `g` holds the generic parameters, and is the
//! first argument of the invariants of the recursive functions. A visitor that contains a `Vec`
//! needs a model (`Model`). Without a model, an equation between two states of the visitor would
//! also compare the capacities of their `Vec` values.

#![tactic(auto, using(std::proofs::lemmas::Grind::common_steps, crate::proofs::Visits::visited_append))]

ghost use Rattle.std.specs.Prelude.{◌≡◌, ℕ, OnOk};
ghost use Rattle.ob0_tree.specs.declared.tree.Role.{Role};
ghost use Rattle.ob0_tree.specs.declared.tree.Role.TheVariants as roles;
ghost use Rattle.ob0_tree.specs.ParsedModule.{tree_of};
ghost use Rattle.ob0_tree.specs.Tree.{identifiers};
ghost use Rattle.ob0_tree.specs.VisitorStates.{state_after_visit, state_after_identifiers};
ghost use Rattle.ob0_tree.specs.View.{expression_of, compound_expression_of, simple_expression_of, term_of, factor_of, designator_of, selector_of, assignment_of, call_of, arguments_of_vec, statement_of, if_of, elsifs_of_vec, sequence_of_vec, names_of, type_of, record_type_of, optional_field_group_of, parameter_section_of, formals_of, constant_section_of, type_section_of, variable_section_of, body_of, procedure_of, block_of};

use crate::tree::{
    Assignment, Block, Call, CompoundExpression, ConstantDeclaration, Designator, Elsif,
    Expression, Factor, IdentifierList, If, Module, OptionalFieldGroup, ParameterSection,
    Procedure, RecordType, Role, Selector, SimpleExpression, Statement, Term, TypeDeclaration,
    VariableDeclaration, WrittenType,
};
use std::alloc::AllocError;

/// A value that a walk updates at each identifier. The walk visits the identifiers of a module, or
/// of a part of one, in text order.
pub trait Visitor {
    /// Returns the state after the visit of an identifier. The arguments are the identifier's role,
    /// the index of its token and the state before the visit.
    ghost state_after_one_identifier: { Role → ℕ → Self → Self };

    /// Updates the state for one identifier, given its role and the index of its token. On success,
    /// the updated state is the one that `state_after_one_identifier` returns.
    fn visit_one_identifier(&mut self, role: Role, token: usize) -> Result<(), AllocError>
        ensures { OnOk result (self.new ≡ state_after_one_identifier role token self.old) };
}

impl<'t> Module<'t> {
    /// Visits every identifier of the module, in text order. If a visit fails, stops and returns
    /// its error.
    pub fn visit_identifiers<V: Visitor>(&self, visitor: &mut V) -> Result<(), AllocError>
        ensures { OnOk result (visitor.new ≡ state_after_visit V.state_after_one_identifier
            (tree_of self.now) visitor.old) }
    {
        visitor.visit_one_identifier(Role::ModuleName, self.name())?;
        walk_block(visitor, self.block())?;
        visitor.visit_one_identifier(Role::ModuleName, self.closing_name())
    }
}

/// Visits the identifiers of an expression.
#[cycle(expressions)]
pub fn walk_expression<V: Visitor>(visitor: &mut V, e: &Expression) -> Result<(), AllocError>
    ensures { OnOk result (visitor.new ≡ state_after_visit V.state_after_one_identifier
        (expression_of e.now) visitor.old) }
{
    match e {
        Expression::Factor(f) => walk_factor(visitor, f),
        Expression::CompoundExpression(c) => walk_compound_expression(visitor, c),
    }
}

/// Visits the identifiers of an expression that isn't a single factor.
#[cycle(expressions)]
fn walk_compound_expression<V: Visitor>(
    visitor: &mut V,
    c: &CompoundExpression,
) -> Result<(), AllocError>
    ensures { OnOk result (visitor.new ≡ state_after_visit V.state_after_one_identifier
        (compound_expression_of c.now) visitor.old) }
{
    walk_simple_expression(visitor, &c.left)?;
    if let Some(compared) = &c.compared {
        walk_simple_expression(visitor, &compared.right)?;
    }
    Ok(())
}

/// Visits the identifiers of a simple expression.
#[cycle(expressions)]
fn walk_simple_expression<V: Visitor>(
    visitor: &mut V,
    s: &SimpleExpression,
) -> Result<(), AllocError>
    ensures { OnOk result (visitor.new ≡ state_after_visit V.state_after_one_identifier
        (simple_expression_of s.now) visitor.old) }
{
    walk_term(visitor, &s.first)?;
    for addend in &s.more {
        walk_term(visitor, &addend.term)?;
    }
    Ok(())
}

/// Visits the identifiers of a term.
#[cycle(expressions)]
fn walk_term<V: Visitor>(visitor: &mut V, t: &Term) -> Result<(), AllocError>
    ensures { OnOk result (visitor.new ≡ state_after_visit V.state_after_one_identifier
        (term_of t.now) visitor.old) }
{
    walk_factor(visitor, &t.first)?;
    for multiplier in &t.more {
        walk_factor(visitor, &multiplier.factor)?;
    }
    Ok(())
}

/// Visits the identifiers of a factor.
#[cycle(expressions)]
fn walk_factor<V: Visitor>(visitor: &mut V, f: &Factor) -> Result<(), AllocError>
    ensures { OnOk result (visitor.new ≡ state_after_visit V.state_after_one_identifier
        (factor_of f.now) visitor.old) }
{
    match f {
        Factor::Designator(d) => walk_designator(visitor, d),
        Factor::Integer(_) => Ok(()),
        Factor::Parenthesised(e) => walk_expression(visitor, e),
        Factor::Not(f) => walk_factor(visitor, f),
    }
}

/// Visits the identifiers of a designator: its name and the identifiers of its selectors.
#[cycle(expressions)]
fn walk_designator<V: Visitor>(visitor: &mut V, d: &Designator) -> Result<(), AllocError>
    ensures { OnOk result (visitor.new ≡ state_after_visit V.state_after_one_identifier
        (designator_of d.now) visitor.old) }
{
    visitor.visit_one_identifier(Role::LookedUpName, d.name)?;
    for s in &d.selectors {
        walk_selector(visitor, s)?;
    }
    Ok(())
}

/// Visits the identifiers of a selector.
#[cycle(expressions)]
fn walk_selector<V: Visitor>(visitor: &mut V, s: &Selector) -> Result<(), AllocError>
    ensures { OnOk result (visitor.new ≡ state_after_visit V.state_after_one_identifier
        (selector_of s.now) visitor.old) }
{
    match s {
        Selector::Field(name) => {
            visitor.visit_one_identifier(Role::FieldName, *name)?;
            Ok(())
        }
        Selector::Index(e) => walk_expression(visitor, e),
    }
}

/// Visits the identifiers of an assignment.
fn walk_assignment<V: Visitor>(visitor: &mut V, a: &Assignment) -> Result<(), AllocError>
    ensures { OnOk result (visitor.new ≡ state_after_visit V.state_after_one_identifier
        (assignment_of a.now) visitor.old) }
{
    walk_designator(visitor, &a.target)?;
    walk_expression(visitor, &a.value)
}

/// Visits the identifiers of a call.
fn walk_call<V: Visitor>(visitor: &mut V, c: &Call) -> Result<(), AllocError>
    ensures { OnOk result (visitor.new ≡ state_after_visit V.state_after_one_identifier
        (call_of c.now) visitor.old) }
{
    visitor.visit_one_identifier(Role::LookedUpName, c.procedure)?;
    if let Some(given) = &c.arguments {
        walk_arguments(visitor, given)?;
    }
    Ok(())
}

/// Visits the identifiers of the arguments of a call.
fn walk_arguments<V: Visitor>(visitor: &mut V, given: &Vec<Expression>) -> Result<(), AllocError>
    ensures { OnOk result (visitor.new ≡ state_after_visit V.state_after_one_identifier
        (arguments_of_vec given.now) visitor.old) }
{
    for e in given {
        walk_expression(visitor, e)?;
    }
    Ok(())
}

/// Visits the identifiers of a sequence of statements.
#[cycle(statements)]
fn walk_sequence<V: Visitor>(visitor: &mut V, statements: &Vec<Statement>) -> Result<(), AllocError>
    ensures { OnOk result (visitor.new ≡ state_after_visit V.state_after_one_identifier
        (sequence_of_vec statements.now) visitor.old) }
{
    for s in statements {
        walk_statement(visitor, s)?;
    }
    Ok(())
}

/// Visits the identifiers of a statement.
#[cycle(statements)]
fn walk_statement<V: Visitor>(visitor: &mut V, s: &Statement) -> Result<(), AllocError>
    ensures { OnOk result (visitor.new ≡ state_after_visit V.state_after_one_identifier
        (statement_of s.now) visitor.old) }
{
    match s {
        Statement::Empty => Ok(()),
        Statement::Assign(a) => walk_assignment(visitor, a),
        Statement::Call(c) => walk_call(visitor, c),
        Statement::If(i) => walk_if(visitor, i),
        Statement::While(w) => {
            walk_expression(visitor, &w.condition)?;
            walk_sequence(visitor, &w.body)
        }
        Statement::Repeat(r) => {
            walk_sequence(visitor, &r.body)?;
            walk_expression(visitor, &r.condition)
        }
    }
}

/// Visits the identifiers of an IF statement.
#[cycle(statements)]
fn walk_if<V: Visitor>(visitor: &mut V, i: &If) -> Result<(), AllocError>
    ensures { OnOk result (visitor.new ≡ state_after_visit V.state_after_one_identifier
        (if_of i.now) visitor.old) }
{
    walk_expression(visitor, &i.condition)?;
    walk_sequence(visitor, &i.then)?;
    walk_elsifs(visitor, &i.elsifs)?;
    match &i.otherwise {
        Some(statements) => walk_sequence(visitor, statements),
        None => Ok(()),
    }
}

/// Visits the identifiers of the ELSIF parts of an IF statement.
#[cycle(statements)]
fn walk_elsifs<V: Visitor>(visitor: &mut V, parts: &Vec<Elsif>) -> Result<(), AllocError>
    ensures { OnOk result (visitor.new ≡ state_after_visit V.state_after_one_identifier
        (elsifs_of_vec parts.now) visitor.old) }
{
    for e in parts {
        walk_expression(visitor, &e.condition)?;
        walk_sequence(visitor, &e.then)?;
    }
    Ok(())
}

/// Visits each name of the list `ns`, in text order. Each of these names has the role `role`.
fn walk_names<V: Visitor>(
    visitor: &mut V,
    role: Role,
    ns: &IdentifierList,
) -> Result<(), AllocError>
    ensures { OnOk result (visitor.new ≡ state_after_identifiers V.state_after_one_identifier
        (identifiers role (names_of ns.now)) visitor.old) }
{
    visitor.visit_one_identifier(role, ns.first)?;
    for name in &ns.more {
        visitor.visit_one_identifier(role, *name)?;
    }
    Ok(())
}

/// Visits the identifiers of a written type.
#[cycle(types)]
pub fn walk_type<V: Visitor>(visitor: &mut V, t: &WrittenType) -> Result<(), AllocError>
    ensures { OnOk result (visitor.new ≡ state_after_visit V.state_after_one_identifier
        (type_of t.now) visitor.old) }
{
    match t {
        WrittenType::Named(name) => {
            visitor.visit_one_identifier(Role::LookedUpName, *name)?;
            Ok(())
        }
        WrittenType::Array(a) => {
            walk_expression(visitor, &a.size)?;
            walk_type(visitor, &a.element)
        }
        WrittenType::Record(r) => walk_record_type(visitor, r),
    }
}

/// Visits the identifiers of a record type.
#[cycle(types)]
fn walk_record_type<V: Visitor>(visitor: &mut V, r: &RecordType) -> Result<(), AllocError>
    ensures { OnOk result (visitor.new ≡ state_after_visit V.state_after_one_identifier
        (record_type_of r.now) visitor.old) }
{
    for group in &r.groups {
        walk_optional_field_group(visitor, group)?;
    }
    Ok(())
}

/// Visits the identifiers of an optional group of fields.
#[cycle(types)]
fn walk_optional_field_group<V: Visitor>(
    visitor: &mut V,
    f: &OptionalFieldGroup,
) -> Result<(), AllocError>
    ensures { OnOk result (visitor.new ≡ state_after_visit V.state_after_one_identifier
        (optional_field_group_of f.now) visitor.old) }
{
    match f {
        OptionalFieldGroup::Empty => Ok(()),
        OptionalFieldGroup::Listed(l) => {
            walk_names(visitor, Role::FieldName, &l.names)?;
            walk_type(visitor, &l.written)
        }
    }
}

/// Visits the identifiers of a section of parameters.
fn walk_parameter_section<V: Visitor>(
    visitor: &mut V,
    s: &ParameterSection,
) -> Result<(), AllocError>
    ensures { OnOk result (visitor.new ≡ state_after_visit V.state_after_one_identifier
        (parameter_section_of s.now) visitor.old) }
{
    walk_names(visitor, Role::DeclaringName, &s.names)?;
    walk_type(visitor, &s.written)
}

/// Visits the identifiers of a procedure's formal parameters, if it has any.
fn walk_formals<V: Visitor>(
    visitor: &mut V,
    sections: &Option<Vec<ParameterSection>>,
) -> Result<(), AllocError>
    ensures { OnOk result (visitor.new ≡ state_after_visit V.state_after_one_identifier
        (formals_of sections.now) visitor.old) }
{
    let Some(sections) = sections else {
        return Ok(());
    };
    for s in sections {
        walk_parameter_section(visitor, s)?;
    }
    Ok(())
}

/// Visits the identifiers of a CONST section, if there is one.
fn walk_constant_declarations<V: Visitor>(
    visitor: &mut V,
    declared: &Option<Vec<ConstantDeclaration>>,
) -> Result<(), AllocError>
    ensures { OnOk result (visitor.new ≡ state_after_visit V.state_after_one_identifier
        (constant_section_of declared.now) visitor.old) }
{
    let Some(declared) = declared else {
        return Ok(());
    };
    for c in declared {
        visitor.visit_one_identifier(Role::DeclaringName, c.name)?;
        walk_expression(visitor, &c.value)?;
    }
    Ok(())
}

/// Visits the identifiers of a TYPE section, if there is one.
fn walk_type_declarations<V: Visitor>(
    visitor: &mut V,
    declared: &Option<Vec<TypeDeclaration>>,
) -> Result<(), AllocError>
    ensures { OnOk result (visitor.new ≡ state_after_visit V.state_after_one_identifier
        (type_section_of declared.now) visitor.old) }
{
    let Some(declared) = declared else {
        return Ok(());
    };
    for d in declared {
        visitor.visit_one_identifier(Role::DeclaringName, d.name)?;
        walk_type(visitor, &d.written)?;
    }
    Ok(())
}

/// Visits the identifiers of a VAR section, if there is one.
fn walk_variable_declarations<V: Visitor>(
    visitor: &mut V,
    declared: &Option<Vec<VariableDeclaration>>,
) -> Result<(), AllocError>
    ensures { OnOk result (visitor.new ≡ state_after_visit V.state_after_one_identifier
        (variable_section_of declared.now) visitor.old) }
{
    let Some(declared) = declared else {
        return Ok(());
    };
    for v in declared {
        walk_names(visitor, Role::DeclaringName, &v.names)?;
        walk_type(visitor, &v.written)?;
    }
    Ok(())
}

/// Visits the identifiers of a block's statements, if the block has a body.
pub fn walk_body<V: Visitor>(
    visitor: &mut V,
    statements: &Option<Vec<Statement>>,
) -> Result<(), AllocError>
    ensures { OnOk result (visitor.new ≡ state_after_visit V.state_after_one_identifier
        (body_of statements.now) visitor.old) }
{
    match statements {
        Some(statements) => walk_sequence(visitor, statements),
        None => Ok(()),
    }
}

/// Visits the identifiers of a block and its procedures.
#[cycle(blocks)]
fn walk_block<V: Visitor>(visitor: &mut V, b: &Block) -> Result<(), AllocError>
    ensures { OnOk result (visitor.new ≡ state_after_visit V.state_after_one_identifier
        (block_of b.now) visitor.old) }
{
    walk_constant_declarations(visitor, &b.constants)?;
    walk_type_declarations(visitor, &b.types)?;
    walk_variable_declarations(visitor, &b.variables)?;
    for p in &b.procedures {
        walk_procedure(visitor, p)?;
    }
    walk_body(visitor, &b.body)
}

/// Visits the identifiers of a procedure.
#[cycle(blocks)]
fn walk_procedure<V: Visitor>(visitor: &mut V, p: &Procedure) -> Result<(), AllocError>
    ensures { OnOk result (visitor.new ≡ state_after_visit V.state_after_one_identifier
        (procedure_of p.now) visitor.old) }
{
    visitor.visit_one_identifier(Role::DeclaringName, p.name)?;
    walk_formals(visitor, &p.formals)?;
    walk_block(visitor, &p.block)?;
    visitor.visit_one_identifier(Role::ClosingName, p.closing)?;
    Ok(())
}
