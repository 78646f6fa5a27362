//! Computes the role of each token in its line, by visiting the module's tree.

ghost use Rattle.std.specs.Prelude.{◌≡◌, ◌≤◌, ◌+◌, ◌^◌, ◌++◌, ◌∷◌, [], IfOk, MatchResult};
ghost use Rattle.ob0_layout.specs.declared.line_role.LineRole.TheVariants.{BeginsLine, Plain};
ghost use Rattle.ob0_layout.specs.LineRoles.{line_roles, optional_sign_role, separator_role_unless_first};
ghost use Rattle.ob0_tree.specs.ParsedModule.{tree_of};
ghost use Rattle.ob0_tree.specs.Tree.{comma_then_name};
ghost use Rattle.ob0_tree.specs.View.{items_of, expression_of, compound_expression_of, simple_expression_of, term_of, factor_of, selector_of, designator_of, assignment_of, arguments_of_vec, call_of, statement_of, if_of, elsifs_of_vec, sequence_of_vec, type_of, record_type_of, optional_field_group_of, parameter_section_of, formals_of, constant_section_of, type_section_of, variable_section_of, body_of, procedure_of, block_of};

use crate::line_role::LineRole;
use ob0_tree::{
    Assignment, Block, Call, CompoundExpression, ConstantDeclaration, Designator, Elsif,
    Expression, Factor, IdentifierList, If, Module, OptionalFieldGroup, ParameterSection,
    Procedure, RecordType, Selector, Sign, SimpleExpression, Statement, Term, TypeDeclaration,
    VariableDeclaration, WrittenType,
};
use std::alloc::{AllocError, Global};

/// Returns the line role of each token of a module, in text order.
pub(crate) fn line_roles(alloc: Global, module: &Module) -> Result<Vec<LineRole>, AllocError>
    ensures { IfOk result (λ out. out.items ≡ line_roles 0 (tree_of module.now)) }
{
    let mut out = Vec::with_capacity(alloc, module.tokens().tokens().len())?;
    out.push(LineRole::BeginsLine(0))?;
    add_plain_role(&mut out)?;
    add_plain_role(&mut out)?;
    add_block_roles(&mut out, 0, module.block())?;
    out.push(LineRole::BeginsLine(0))?;
    add_plain_role(&mut out)?;
    add_plain_role(&mut out)?;
    Ok(out)
}

/// Returns `level` plus 1. Fails exactly if the sum doesn't fit in 32 bits. No module is nested
/// that deeply.
fn deeper_level(level: u32) -> Result<u32, AllocError>
    ensures { MatchResult result (λ k. k ≡ level + 1) (λ _. 2 ^ 32 ≤ level + 1) }
{
    match level.checked_add(1) {
        None => Err(AllocError),
        Some(deeper) => Ok(deeper),
    }
}

/// Appends the line role `Plain` to `out`, for one token.
fn add_plain_role(out: &mut Vec<LineRole>) -> Result<(), AllocError>
    ensures { IfOk result (λ _. out.new.items ≡ out.old.items ++ (Plain ∷ [])) }
{
    out.push(LineRole::Plain)?;
    Ok(())
}

/// Appends the roles of an expression's tokens.
#[cycle(expressions)]
fn add_expression_roles(out: &mut Vec<LineRole>, e: &Expression) -> Result<(), AllocError>
    ensures { IfOk result
        (λ _. out.new.items ≡ out.old.items ++ line_roles 0 (expression_of e.now)) }
{
    match e {
        Expression::Factor(f) => add_factor_roles(out, f),
        Expression::CompoundExpression(c) => add_compound_expression_roles(out, c),
    }
}

/// Appends the roles of the tokens in an expression that isn't a single factor.
#[cycle(expressions)]
fn add_compound_expression_roles(
    out: &mut Vec<LineRole>,
    c: &CompoundExpression,
) -> Result<(), AllocError>
    ensures { IfOk result (λ _. out.new.items ≡ out.old.items
        ++ line_roles 0 (compound_expression_of c.now)) }
{
    add_simple_expression_roles(out, &c.left)?;
    if let Some(compared) = &c.compared {
        add_plain_role(out)?;
        add_simple_expression_roles(out, &compared.right)?;
    }
    Ok(())
}

/// Appends the line role of a simple expression's sign. If there is no sign (None), appends
/// nothing.
fn add_optional_sign_role(out: &mut Vec<LineRole>, sign: Option<Sign>) -> Result<(), AllocError>
    ensures { IfOk result (λ _. out.new.items ≡ out.old.items ++ optional_sign_role sign) }
{
    if sign.is_some() {
        out.push(LineRole::JoinsNextToken)?;
    }
    Ok(())
}

/// Appends the roles of a simple expression's tokens.
#[cycle(expressions)]
fn add_simple_expression_roles(
    out: &mut Vec<LineRole>,
    s: &SimpleExpression,
) -> Result<(), AllocError>
    ensures { IfOk result (λ _. out.new.items ≡ out.old.items
        ++ line_roles 0 (simple_expression_of s.now)) }
{
    add_optional_sign_role(out, s.sign)?;
    add_term_roles(out, &s.first)?;
    for addend in &s.more {
        add_plain_role(out)?;
        add_term_roles(out, &addend.term)?;
    }
    Ok(())
}

/// Appends the roles of a term's tokens.
#[cycle(expressions)]
fn add_term_roles(out: &mut Vec<LineRole>, t: &Term) -> Result<(), AllocError>
    ensures { IfOk result (λ _. out.new.items ≡ out.old.items ++ line_roles 0 (term_of t.now)) }
{
    add_factor_roles(out, &t.first)?;
    for multiplier in &t.more {
        add_plain_role(out)?;
        add_factor_roles(out, &multiplier.factor)?;
    }
    Ok(())
}

/// Appends the roles of a factor's tokens.
#[cycle(expressions)]
fn add_factor_roles(out: &mut Vec<LineRole>, f: &Factor) -> Result<(), AllocError>
    ensures { IfOk result (λ _. out.new.items ≡ out.old.items ++ line_roles 0 (factor_of f.now)) }
{
    match f {
        Factor::Designator(d) => add_designator_roles(out, d),
        Factor::Integer(_) => add_plain_role(out),
        Factor::Parenthesised(e) => {
            add_plain_role(out)?;
            add_expression_roles(out, e)?;
            add_plain_role(out)
        }
        Factor::Not(f) => {
            add_plain_role(out)?;
            add_factor_roles(out, f)
        }
    }
}

/// Appends the roles of a designator's tokens: its name and its selectors.
#[cycle(expressions)]
fn add_designator_roles(out: &mut Vec<LineRole>, d: &Designator) -> Result<(), AllocError>
    ensures { IfOk result
        (λ _. out.new.items ≡ out.old.items ++ line_roles 0 (designator_of d.now)) }
{
    add_plain_role(out)?;
    for s in &d.selectors {
        add_selector_roles(out, s)?;
    }
    Ok(())
}

/// Appends the roles of a selector's tokens.
#[cycle(expressions)]
fn add_selector_roles(out: &mut Vec<LineRole>, s: &Selector) -> Result<(), AllocError>
    ensures { IfOk result (λ _. out.new.items ≡ out.old.items ++ line_roles 0 (selector_of s.now)) }
{
    match s {
        Selector::Field(_) => {
            out.push(LineRole::JoinsNextToken)?;
            add_plain_role(out)
        }
        Selector::Index(e) => {
            add_plain_role(out)?;
            add_expression_roles(out, e)?;
            add_plain_role(out)
        }
    }
}

/// Appends the role of the separator before an item of a list. If `first` is true, the item is the
/// first one of its list, and nothing is appended.
fn add_separator_role_unless_first(out: &mut Vec<LineRole>, first: bool) -> Result<(), AllocError>
    ensures { IfOk result (λ _. out.new.items ≡ out.old.items
        ++ separator_role_unless_first first) }
{
    if !first {
        add_plain_role(out)?;
    }
    Ok(())
}

/// Appends the roles of the tokens in a sequence of statements, including the `;` between
/// statements. The first token of each statement begins a line of the level `level`.
#[cycle(statements)]
fn add_sequence_roles(
    out: &mut Vec<LineRole>,
    level: u32,
    statements: &Vec<Statement>,
) -> Result<(), AllocError>
    ensures { IfOk result
        (λ _. out.new.items ≡ out.old.items ++ line_roles level (sequence_of_vec statements.now)) }
{
    let mut first = true;
    for s in statements {
        add_separator_role_unless_first(out, first)?;
        add_statement_roles(out, level, s)?;
        first = false;
    }
    Ok(())
}

/// Appends the roles of a statement's tokens. The first token begins a line of the level `level`.
/// An empty statement has no tokens.
#[cycle(statements)]
fn add_statement_roles(out: &mut Vec<LineRole>, level: u32, s: &Statement) -> Result<(), AllocError>
    ensures { IfOk result
        (λ _. out.new.items ≡ out.old.items ++ line_roles level (statement_of s.now)) }
{
    match s {
        Statement::Empty => Ok(()),
        Statement::Assign(a) => add_assignment_roles(out, level, a),
        Statement::Call(c) => add_call_roles(out, level, c),
        Statement::If(i) => add_if_roles(out, level, i),
        Statement::While(w) => {
            out.push(LineRole::BeginsLine(level))?;
            add_expression_roles(out, &w.condition)?;
            add_plain_role(out)?;
            add_sequence_roles(out, deeper_level(level)?, &w.body)?;
            add_line_start_role(out, level)
        }
        Statement::Repeat(r) => {
            out.push(LineRole::BeginsLine(level))?;
            add_sequence_roles(out, deeper_level(level)?, &r.body)?;
            out.push(LineRole::BeginsLine(level))?;
            add_expression_roles(out, &r.condition)
        }
    }
}

/// Appends the line role `BeginsLine(level)` to `out`, for one token that begins a line.
fn add_line_start_role(out: &mut Vec<LineRole>, level: u32) -> Result<(), AllocError>
    ensures { IfOk result (λ _. out.new.items ≡ out.old.items ++ (BeginsLine level ∷ [])) }
{
    out.push(LineRole::BeginsLine(level))?;
    Ok(())
}

/// Appends the roles of an assignment's tokens. The first token begins a line of the level `level`.
fn add_assignment_roles(
    out: &mut Vec<LineRole>,
    level: u32,
    a: &Assignment,
) -> Result<(), AllocError>
    ensures { IfOk result
        (λ _. out.new.items ≡ out.old.items ++ line_roles level (assignment_of a.now)) }
{
    add_line_start_role(out, level)?;
    for s in &a.target.selectors {
        add_selector_roles(out, s)?;
    }
    add_plain_role(out)?;
    add_expression_roles(out, &a.value)
}

/// Appends the roles of a call's tokens. The first token begins a line of the level `level`.
fn add_call_roles(out: &mut Vec<LineRole>, level: u32, c: &Call) -> Result<(), AllocError>
    ensures { IfOk result (λ _. out.new.items ≡ out.old.items ++ line_roles level (call_of c.now)) }
{
    add_line_start_role(out, level)?;
    match &c.arguments {
        Some(given) => add_argument_roles(out, given),
        None => Ok(()),
    }
}

/// Appends the roles of the tokens in a call's arguments, including the parentheses.
fn add_argument_roles(out: &mut Vec<LineRole>, given: &Vec<Expression>) -> Result<(), AllocError>
    ensures { IfOk result
        (λ _. out.new.items ≡ out.old.items ++ line_roles 0 (arguments_of_vec given.now)) }
{
    out.push(LineRole::OpensParameters)?;
    let mut first = true;
    for e in given {
        add_separator_role_unless_first(out, first)?;
        add_expression_roles(out, e)?;
        first = false;
    }
    add_plain_role(out)
}

/// Appends the roles of an IF statement's tokens. IF, ELSIF, ELSE and END begin lines of the level
/// `level`, and the statements inside are one level deeper.
#[cycle(statements)]
fn add_if_roles(out: &mut Vec<LineRole>, level: u32, i: &If) -> Result<(), AllocError>
    ensures { IfOk result (λ _. out.new.items ≡ out.old.items ++ line_roles level (if_of i.now)) }
{
    let inner = deeper_level(level)?;
    add_line_start_role(out, level)?;
    add_expression_roles(out, &i.condition)?;
    add_plain_role(out)?;
    add_sequence_roles(out, inner, &i.then)?;
    add_elsif_roles(out, level, &i.elsifs)?;
    match &i.otherwise {
        Some(statements) => {
            add_line_start_role(out, level)?;
            add_sequence_roles(out, inner, statements)?;
            add_line_start_role(out, level)
        }
        None => add_line_start_role(out, level),
    }
}

/// Appends the roles of the tokens in the ELSIF parts of an IF statement. `level` is the level of
/// the IF statement. The statements inside are one level deeper.
#[cycle(statements)]
fn add_elsif_roles(
    out: &mut Vec<LineRole>,
    level: u32,
    parts: &Vec<Elsif>,
) -> Result<(), AllocError>
    ensures { IfOk result
        (λ _. out.new.items ≡ out.old.items ++ line_roles level (elsifs_of_vec parts.now)) }
{
    for e in parts {
        add_line_start_role(out, level)?;
        add_expression_roles(out, &e.condition)?;
        add_plain_role(out)?;
        add_sequence_roles(out, deeper_level(level)?, &e.then)?;
    }
    Ok(())
}

/// Appends the roles of the tokens in a list of names, including the commas. `first` is the role of
/// the first name.
fn add_name_list_roles(
    out: &mut Vec<LineRole>,
    first: LineRole,
    ns: &IdentifierList,
) -> Result<(), AllocError>
    ensures { IfOk result (λ _. out.new.items
        ≡ out.old.items ++ (first ∷ line_roles 0 (items_of comma_then_name ns.now.more.items))) }
{
    out.push(first)?;
    for _name in &ns.more {
        add_plain_role(out)?;
        add_plain_role(out)?;
    }
    Ok(())
}

/// Appends the roles of the tokens of a written type: a type as it stands in the text.
#[cycle(types)]
fn add_written_type_roles(out: &mut Vec<LineRole>, t: &WrittenType) -> Result<(), AllocError>
    ensures { IfOk result (λ _. out.new.items ≡ out.old.items ++ line_roles 0 (type_of t.now)) }
{
    match t {
        WrittenType::Named(_) => add_plain_role(out),
        WrittenType::Array(a) => {
            add_plain_role(out)?;
            add_expression_roles(out, &a.size)?;
            add_plain_role(out)?;
            add_written_type_roles(out, &a.element)
        }
        WrittenType::Record(r) => add_record_type_roles(out, r),
    }
}

/// Appends the roles of a record type's tokens.
#[cycle(types)]
fn add_record_type_roles(out: &mut Vec<LineRole>, r: &RecordType) -> Result<(), AllocError>
    ensures { IfOk result (λ _. out.new.items ≡ out.old.items
        ++ line_roles 0 (record_type_of r.now)) }
{
    add_plain_role(out)?;
    let mut first = true;
    for group in &r.groups {
        add_separator_role_unless_first(out, first)?;
        add_optional_field_group_roles(out, group)?;
        first = false;
    }
    add_plain_role(out)
}

/// Appends the roles of the tokens in a group of fields. An empty group has no tokens.
#[cycle(types)]
fn add_optional_field_group_roles(
    out: &mut Vec<LineRole>,
    f: &OptionalFieldGroup,
) -> Result<(), AllocError>
    ensures { IfOk result (λ _. out.new.items ≡ out.old.items
        ++ line_roles 0 (optional_field_group_of f.now)) }
{
    match f {
        OptionalFieldGroup::Empty => Ok(()),
        OptionalFieldGroup::Listed(l) => {
            add_name_list_roles(out, LineRole::Plain, &l.names)?;
            add_plain_role(out)?;
            add_written_type_roles(out, &l.written)
        }
    }
}

/// Appends the line roles of the tokens in a procedure's formal parameters, including the
/// parentheses. If the procedure has no parentheses (None), appends nothing.
fn add_formal_parameter_roles(
    out: &mut Vec<LineRole>,
    sections: &Option<Vec<ParameterSection>>,
) -> Result<(), AllocError>
    ensures { IfOk result
        (λ _. out.new.items ≡ out.old.items ++ line_roles 0 (formals_of sections.now)) }
{
    let Some(sections) = sections else {
        return Ok(());
    };
    out.push(LineRole::OpensParameters)?;
    let mut first = true;
    for s in sections {
        add_separator_role_unless_first(out, first)?;
        add_parameter_section_roles(out, s)?;
        first = false;
    }
    add_plain_role(out)
}

/// Appends the roles of the tokens in a section of parameters.
fn add_parameter_section_roles(
    out: &mut Vec<LineRole>,
    s: &ParameterSection,
) -> Result<(), AllocError>
    ensures { IfOk result (λ _. out.new.items ≡ out.old.items
        ++ line_roles 0 (parameter_section_of s.now)) }
{
    if s.by_reference {
        add_plain_role(out)?;
    }
    add_name_list_roles(out, LineRole::Plain, &s.names)?;
    add_plain_role(out)?;
    add_written_type_roles(out, &s.written)
}

/// Appends the roles of the tokens in a block's CONST section, if there is one. `level` is the
/// level of the block. Each declaration begins a line one level deeper.
fn add_constant_section_roles(
    out: &mut Vec<LineRole>,
    level: u32,
    declared: &Option<Vec<ConstantDeclaration>>,
) -> Result<(), AllocError>
    ensures { IfOk result
        (λ _. out.new.items ≡ out.old.items ++ line_roles level (constant_section_of declared.now)) }
{
    let Some(declared) = declared else {
        return Ok(());
    };
    add_line_start_role(out, level)?;
    for c in declared {
        add_line_start_role(out, deeper_level(level)?)?;
        add_plain_role(out)?;
        add_expression_roles(out, &c.value)?;
        add_plain_role(out)?;
    }
    Ok(())
}

/// Appends the roles of the tokens in a block's TYPE section, if there is one. `level` is the level
/// of the block. Each declaration begins a line one level deeper.
fn add_type_section_roles(
    out: &mut Vec<LineRole>,
    level: u32,
    declared: &Option<Vec<TypeDeclaration>>,
) -> Result<(), AllocError>
    ensures { IfOk result
        (λ _. out.new.items ≡ out.old.items ++ line_roles level (type_section_of declared.now)) }
{
    let Some(declared) = declared else {
        return Ok(());
    };
    add_line_start_role(out, level)?;
    for d in declared {
        add_line_start_role(out, deeper_level(level)?)?;
        add_plain_role(out)?;
        add_written_type_roles(out, &d.written)?;
        add_plain_role(out)?;
    }
    Ok(())
}

/// Appends the roles of the tokens in a block's VAR section, if there is one. `level` is the level
/// of the block. Each declaration begins a line one level deeper.
fn add_variable_section_roles(
    out: &mut Vec<LineRole>,
    level: u32,
    declared: &Option<Vec<VariableDeclaration>>,
) -> Result<(), AllocError>
    ensures { IfOk result
        (λ _. out.new.items ≡ out.old.items ++ line_roles level (variable_section_of declared.now)) }
{
    let Some(declared) = declared else {
        return Ok(());
    };
    add_line_start_role(out, level)?;
    for v in declared {
        add_name_list_roles(out, LineRole::BeginsLine(deeper_level(level)?), &v.names)?;
        add_plain_role(out)?;
        add_written_type_roles(out, &v.written)?;
        add_plain_role(out)?;
    }
    Ok(())
}

/// Appends the roles of the tokens in a block's body, if there is one. `level` is the level of the
/// block, and the statements are one level deeper.
fn add_body_roles(
    out: &mut Vec<LineRole>,
    level: u32,
    statements: &Option<Vec<Statement>>,
) -> Result<(), AllocError>
    ensures { IfOk result
        (λ _. out.new.items ≡ out.old.items ++ line_roles level (body_of statements.now)) }
{
    match statements {
        Some(statements) => {
            add_line_start_role(out, level)?;
            add_sequence_roles(out, deeper_level(level)?, statements)
        }
        None => Ok(()),
    }
}

/// Appends the line roles of a block's tokens. `level` is the indentation level of the block.
#[cycle(blocks)]
fn add_block_roles(out: &mut Vec<LineRole>, level: u32, b: &Block) -> Result<(), AllocError>
    ensures { IfOk result
        (λ _. out.new.items ≡ out.old.items ++ line_roles level (block_of b.now)) }
{
    add_constant_section_roles(out, level, &b.constants)?;
    add_type_section_roles(out, level, &b.types)?;
    add_variable_section_roles(out, level, &b.variables)?;
    for p in &b.procedures {
        add_procedure_roles(out, level, p)?;
    }
    add_body_roles(out, level, &b.body)
}

/// Appends the roles of a procedure's tokens. `level` is the level of the block that declares the
/// procedure. The procedure is one level deeper.
#[cycle(blocks)]
fn add_procedure_roles(out: &mut Vec<LineRole>, level: u32, p: &Procedure) -> Result<(), AllocError>
    ensures { IfOk result
        (λ _. out.new.items ≡ out.old.items ++ line_roles level (procedure_of p.now)) }
{
    let inner = deeper_level(level)?;
    add_line_start_role(out, inner)?;
    add_plain_role(out)?;
    add_formal_parameter_roles(out, &p.formals)?;
    add_plain_role(out)?;
    add_block_roles(out, inner, &p.block)?;
    add_line_start_role(out, inner)?;
    add_plain_role(out)?;
    add_plain_role(out)
}
