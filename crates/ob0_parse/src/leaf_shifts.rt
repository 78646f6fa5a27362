//! Adapts the leaves of a procedure or body to a changed text. The leaves are token indexes, so
//! they are shifted if tokens are added or removed before them.

ghost use Rattle.std.specs.Prelude.{◌≡◌};
ghost use Rattle.ob0_tree.specs.Tree.{comma_then_name};
ghost use Rattle.ob0_tree.specs.View.{expression_of, compound_expression_of, maybe_comparison_of, comparison_of, simple_expression_of, addend_of, term_of, multiplier_of, factor_of, designator_of, selector_of, items_of, names_of, assignment_of, call_of, arguments_of_vec, statement_of, if_of, elsif_of, elsifs_of_vec, sequence_of_vec, type_of, record_type_of_list, optional_field_group_of, parameter_section_of, formals_of, formals_of_list, constant_declaration_of, constant_section_of, constant_declarations_of_vec, type_declaration_of, type_section_of, type_declarations_of_vec, variable_declaration_of, variable_section_of, variable_declarations_of_vec, body_of, procedure_of, procedures_of_vec, block_of};
ghost use Rattle.ob0_tree.specs.declared.tree.CompoundExpression.{back-CompoundExpression-compared};
ghost use Rattle.ob0_parse.specs.ShiftedTrees.{tree_with_shifted_leaves, shifted_leaf};

use ob0_tree::{
    Addend, Assignment, Block, Call, Comparison, CompoundExpression, ConstantDeclaration,
    Designator, Elsif, Expression, Factor, FieldGroup, IdentifierList, If, Multiplier,
    OptionalFieldGroup, ParameterSection, Procedure, Repeat, Selector, SimpleExpression, Statement,
    Term, TypeDeclaration, VariableDeclaration, While, WrittenType,
};

/// A shift of a tree's token indexes by a change of the text. The tree's first token has the index
/// `from` in the old text and the index `to` in the changed text. The indexes of the tree's other
/// tokens are shifted by the same distance.
#[derive(Clone, Copy)]
pub(crate) struct TokenIndexShift {
    pub from: usize,
    pub to: usize,
}

impl TokenIndexShift {
    /// Returns the index that a token has after the shift, given its index `leaf` before the shift.
    /// The result is capped at the largest `usize`. An index below `from` counts as `from`.
    fn shifted_leaf(self, leaf: usize) -> usize
        ensures { result ≡ shifted_leaf self leaf }
    {
        leaf.saturating_sub(self.from).saturating_add(self.to)
    }
}

/// Applies the shift `by` to each token index in an expression.
#[cycle(expressions)]
fn shift_indexes_in_expression(e: &mut Expression, by: TokenIndexShift)
    ensures { expression_of e.new ≡ tree_with_shifted_leaves by (expression_of e.old) }
{
    match e {
        Expression::Factor(f) => shift_indexes_in_factor(f, by),
        Expression::CompoundExpression(c) => shift_indexes_in_compound_expression(c, by),
    }
}

/// Applies the shift `by` to each token index in an expression that isn't a single factor.
#[cycle(expressions)]
fn shift_indexes_in_compound_expression(c: &mut CompoundExpression, by: TokenIndexShift)
    ensures { compound_expression_of c.new ≡ tree_with_shifted_leaves by
        (compound_expression_of c.old) }
{
    shift_indexes_in_simple_expression(&mut c.left, by);
    shift_indexes_in_comparison_if_any(&mut c.compared, by);
}

/// Applies the shift `by` to each token index in a comparison, if there is one.
#[cycle(expressions)]
fn shift_indexes_in_comparison_if_any(c: &mut Option<Box<Comparison>>, by: TokenIndexShift)
    ensures { maybe_comparison_of (back-CompoundExpression-compared c.new)
        ≡ tree_with_shifted_leaves by (maybe_comparison_of (back-CompoundExpression-compared c.old)) }
{
    if let Some(c) = c {
        shift_indexes_in_comparison(c, by);
    }
}

/// Applies the shift `by` to each token index in a comparison.
#[cycle(expressions)]
fn shift_indexes_in_comparison(c: &mut Comparison, by: TokenIndexShift)
    ensures { comparison_of c.new ≡ tree_with_shifted_leaves by (comparison_of c.old) }
{
    shift_indexes_in_simple_expression(&mut c.right, by);
}

/// Applies the shift `by` to each token index in a simple expression.
#[cycle(expressions)]
fn shift_indexes_in_simple_expression(s: &mut SimpleExpression, by: TokenIndexShift)
    ensures { simple_expression_of s.new ≡ tree_with_shifted_leaves by
        (simple_expression_of s.old) }
{
    shift_indexes_in_term(&mut s.first, by);
    shift_indexes_in_addends(&mut s.more, by);
}

/// Applies the shift `by` to each token index in a simple expression's terms after the first.
#[cycle(expressions)]
fn shift_indexes_in_addends(parts: &mut Vec<Addend>, by: TokenIndexShift)
    ensures { items_of addend_of parts.new.items
        ≡ tree_with_shifted_leaves by (items_of addend_of parts.old.items) }
{
    for i in 0..parts.len() {
        shift_indexes_in_addend(&mut parts[i], by);
    }
}

/// Applies the shift `by` to each token index in a further term of a simple expression.
#[cycle(expressions)]
fn shift_indexes_in_addend(a: &mut Addend, by: TokenIndexShift)
    ensures { addend_of a.new ≡ tree_with_shifted_leaves by (addend_of a.old) }
{
    shift_indexes_in_term(&mut a.term, by);
}

/// Applies the shift `by` to each token index in a term.
#[cycle(expressions)]
fn shift_indexes_in_term(t: &mut Term, by: TokenIndexShift)
    ensures { term_of t.new ≡ tree_with_shifted_leaves by (term_of t.old) }
{
    shift_indexes_in_factor(&mut t.first, by);
    shift_indexes_in_multipliers(&mut t.more, by);
}

/// Applies the shift `by` to each token index in a term's factors after the first.
#[cycle(expressions)]
fn shift_indexes_in_multipliers(parts: &mut Vec<Multiplier>, by: TokenIndexShift)
    ensures { items_of multiplier_of parts.new.items
        ≡ tree_with_shifted_leaves by (items_of multiplier_of parts.old.items) }
{
    for i in 0..parts.len() {
        shift_indexes_in_multiplier(&mut parts[i], by);
    }
}

/// Applies the shift `by` to each token index in a further factor of a term.
#[cycle(expressions)]
fn shift_indexes_in_multiplier(m: &mut Multiplier, by: TokenIndexShift)
    ensures { multiplier_of m.new ≡ tree_with_shifted_leaves by (multiplier_of m.old) }
{
    shift_indexes_in_factor(&mut m.factor, by);
}

/// Applies the shift `by` to each token index in a factor.
#[cycle(expressions)]
fn shift_indexes_in_factor(f: &mut Factor, by: TokenIndexShift)
    ensures { factor_of f.new ≡ tree_with_shifted_leaves by (factor_of f.old) }
{
    match f {
        Factor::Designator(d) => shift_indexes_in_designator(d, by),
        Factor::Integer(leaf) => *leaf = by.shifted_leaf(*leaf),
        Factor::Parenthesised(e) => shift_indexes_in_expression(e, by),
        Factor::Not(negated) => shift_indexes_in_factor(negated, by),
    }
}

/// Applies the shift `by` to each token index in a designator (a name with its selectors).
#[cycle(expressions)]
fn shift_indexes_in_designator(d: &mut Designator, by: TokenIndexShift)
    ensures { designator_of d.new ≡ tree_with_shifted_leaves by (designator_of d.old) }
{
    d.name = by.shifted_leaf(d.name);
    shift_indexes_in_selectors(&mut d.selectors, by);
}

/// Applies the shift `by` to each token index in a list of selectors.
#[cycle(expressions)]
fn shift_indexes_in_selectors(parts: &mut Vec<Selector>, by: TokenIndexShift)
    ensures { items_of selector_of parts.new.items
        ≡ tree_with_shifted_leaves by (items_of selector_of parts.old.items) }
{
    for i in 0..parts.len() {
        shift_indexes_in_selector(&mut parts[i], by);
    }
}

/// Applies the shift `by` to each token index in a selector.
#[cycle(expressions)]
fn shift_indexes_in_selector(s: &mut Selector, by: TokenIndexShift)
    ensures { selector_of s.new ≡ tree_with_shifted_leaves by (selector_of s.old) }
{
    match s {
        Selector::Field(leaf) => *leaf = by.shifted_leaf(*leaf),
        Selector::Index(e) => shift_indexes_in_expression(e, by),
    }
}

/// Applies the shift `by` to each token index in an assignment.
fn shift_indexes_in_assignment(a: &mut Assignment, by: TokenIndexShift)
    ensures { assignment_of a.new ≡ tree_with_shifted_leaves by (assignment_of a.old) }
{
    shift_indexes_in_designator(&mut a.target, by);
    shift_indexes_in_expression(&mut a.value, by);
}

/// Applies the shift `by` to each token index in a call.
fn shift_indexes_in_call(c: &mut Call, by: TokenIndexShift)
    ensures { call_of c.new ≡ tree_with_shifted_leaves by (call_of c.old) }
{
    c.procedure = by.shifted_leaf(c.procedure);
    if let Some(given) = &mut c.arguments {
        shift_indexes_in_arguments(given, by);
    }
}

/// Applies the shift `by` to each token index in the arguments of a call.
fn shift_indexes_in_arguments(given: &mut Vec<Expression>, by: TokenIndexShift)
    ensures { arguments_of_vec given.new ≡ tree_with_shifted_leaves by
        (arguments_of_vec given.old) }
{
    for i in 0..given.len() {
        shift_indexes_in_expression(&mut given[i], by);
    }
}

/// Applies the shift `by` to each token index in a list of statements.
#[cycle(statements)]
pub(crate) fn shift_indexes_in_sequence(statements: &mut Vec<Statement>, by: TokenIndexShift)
    ensures { sequence_of_vec statements.new ≡ tree_with_shifted_leaves by
        (sequence_of_vec statements.old) }
{
    for i in 0..statements.len() {
        shift_indexes_in_statement(&mut statements[i], by);
    }
}

/// Applies the shift `by` to each token index in a statement.
#[cycle(statements)]
fn shift_indexes_in_statement(s: &mut Statement, by: TokenIndexShift)
    ensures { statement_of s.new ≡ tree_with_shifted_leaves by (statement_of s.old) }
{
    match s {
        Statement::Empty => {}
        Statement::Assign(a) => shift_indexes_in_assignment(a, by),
        Statement::Call(c) => shift_indexes_in_call(c, by),
        Statement::If(i) => shift_indexes_in_if(i, by),
        Statement::While(w) => shift_indexes_in_while(w, by),
        Statement::Repeat(r) => shift_indexes_in_repeat(r, by),
    }
}

/// Applies the shift `by` to each token index in a WHILE statement.
#[cycle(statements)]
fn shift_indexes_in_while(w: &mut While, by: TokenIndexShift)
    ensures condition { expression_of w.new.condition ≡ tree_with_shifted_leaves by
        (expression_of w.old.condition) }
    ensures body { sequence_of_vec w.new.body ≡ tree_with_shifted_leaves by
        (sequence_of_vec w.old.body) }
{
    shift_indexes_in_expression(&mut w.condition, by);
    shift_indexes_in_sequence(&mut w.body, by);
}

/// Applies the shift `by` to each token index in a REPEAT statement.
#[cycle(statements)]
fn shift_indexes_in_repeat(r: &mut Repeat, by: TokenIndexShift)
    ensures body { sequence_of_vec r.new.body ≡ tree_with_shifted_leaves by
        (sequence_of_vec r.old.body) }
    ensures condition { expression_of r.new.condition ≡ tree_with_shifted_leaves by
        (expression_of r.old.condition) }
{
    shift_indexes_in_sequence(&mut r.body, by);
    shift_indexes_in_expression(&mut r.condition, by);
}

/// Applies the shift `by` to each token index in an IF statement.
#[cycle(statements)]
fn shift_indexes_in_if(i: &mut If, by: TokenIndexShift)
    ensures { if_of i.new ≡ tree_with_shifted_leaves by (if_of i.old) }
{
    shift_indexes_in_expression(&mut i.condition, by);
    shift_indexes_in_sequence(&mut i.then, by);
    shift_indexes_in_elsifs(&mut i.elsifs, by);
    match &mut i.otherwise {
        Some(listed) => shift_indexes_in_sequence(listed, by),
        None => {}
    }
}

/// Applies the shift `by` to each token index in the ELSIF parts of an IF statement.
#[cycle(statements)]
fn shift_indexes_in_elsifs(parts: &mut Vec<Elsif>, by: TokenIndexShift)
    ensures { elsifs_of_vec parts.new ≡ tree_with_shifted_leaves by (elsifs_of_vec parts.old) }
{
    for i in 0..parts.len() {
        shift_indexes_in_elsif(&mut parts[i], by);
    }
}

/// Applies the shift `by` to each token index in an ELSIF part.
#[cycle(statements)]
fn shift_indexes_in_elsif(e: &mut Elsif, by: TokenIndexShift)
    ensures { elsif_of e.new ≡ tree_with_shifted_leaves by (elsif_of e.old) }
{
    shift_indexes_in_expression(&mut e.condition, by);
    shift_indexes_in_sequence(&mut e.then, by);
}

/// Applies the shift `by` to each token index in a list of names.
fn shift_indexes_in_names(ns: &mut IdentifierList, by: TokenIndexShift)
    ensures { names_of ns.new ≡ tree_with_shifted_leaves by (names_of ns.old) }
{
    ns.first = by.shifted_leaf(ns.first);
    shift_indexes_in_names_after_first(&mut ns.more, by);
}

/// Applies the shift `by` to the token index of each name after the first in a list of names.
fn shift_indexes_in_names_after_first(leaves: &mut Vec<usize>, by: TokenIndexShift)
    ensures { items_of comma_then_name leaves.new.items
        ≡ tree_with_shifted_leaves by (items_of comma_then_name leaves.old.items) }
{
    for i in 0..leaves.len() {
        let leaf = &mut leaves[i];
        *leaf = by.shifted_leaf(*leaf);
    }
}

/// Applies the shift `by` to each token index in a written type.
#[cycle(types)]
fn shift_indexes_in_type(t: &mut WrittenType, by: TokenIndexShift)
    ensures { type_of t.new ≡ tree_with_shifted_leaves by (type_of t.old) }
{
    match t {
        WrittenType::Named(leaf) => *leaf = by.shifted_leaf(*leaf),
        WrittenType::Array(a) => {
            shift_indexes_in_expression(&mut a.size, by);
            shift_indexes_in_type(&mut a.element, by);
        }
        WrittenType::Record(r) => shift_indexes_in_field_groups(&mut r.groups, by),
    }
}

/// Applies the shift `by` to each token index in the groups of fields of a record.
#[cycle(types)]
fn shift_indexes_in_field_groups(parts: &mut Vec<OptionalFieldGroup>, by: TokenIndexShift)
    ensures { record_type_of_list parts.new.items ≡ tree_with_shifted_leaves by
        (record_type_of_list parts.old.items) }
{
    for i in 0..parts.len() {
        shift_indexes_in_optional_field_group(&mut parts[i], by);
    }
}

/// Applies the shift `by` to each token index in an optional group of fields.
#[cycle(types)]
fn shift_indexes_in_optional_field_group(f: &mut OptionalFieldGroup, by: TokenIndexShift)
    ensures { optional_field_group_of f.new ≡ tree_with_shifted_leaves by
        (optional_field_group_of f.old) }
{
    match f {
        OptionalFieldGroup::Empty => {}
        OptionalFieldGroup::Listed(l) => shift_indexes_in_field_group(l, by),
    }
}

/// Applies the shift `by` to each token index in a group of one or more fields.
#[cycle(types)]
fn shift_indexes_in_field_group(g: &mut FieldGroup, by: TokenIndexShift)
    ensures names { names_of g.new.names ≡ tree_with_shifted_leaves by (names_of g.old.names) }
    ensures written { type_of g.new.written ≡ tree_with_shifted_leaves by (type_of g.old.written) }
{
    shift_indexes_in_names(&mut g.names, by);
    shift_indexes_in_type(&mut g.written, by);
}

/// Applies the shift `by` to each token index in a section of parameters.
fn shift_indexes_in_parameter_section(s: &mut ParameterSection, by: TokenIndexShift)
    ensures { parameter_section_of s.new ≡ tree_with_shifted_leaves by
        (parameter_section_of s.old) }
{
    shift_indexes_in_names(&mut s.names, by);
    shift_indexes_in_type(&mut s.written, by);
}

/// Applies the shift `by` to each token index in formal parameters, if there are any.
fn shift_indexes_in_formals(sections: &mut Option<Vec<ParameterSection>>, by: TokenIndexShift)
    ensures { formals_of sections.new ≡ tree_with_shifted_leaves by (formals_of sections.old) }
{
    if let Some(listed) = sections {
        shift_indexes_in_parameter_sections(listed, by);
    }
}

/// Applies the shift `by` to each token index in a list of parameter sections.
fn shift_indexes_in_parameter_sections(listed: &mut Vec<ParameterSection>, by: TokenIndexShift)
    ensures { formals_of_list listed.new.items ≡ tree_with_shifted_leaves by
        (formals_of_list listed.old.items) }
{
    for i in 0..listed.len() {
        shift_indexes_in_parameter_section(&mut listed[i], by);
    }
}

/// Applies the shift `by` to each token index in a CONST section, if there is one.
fn shift_indexes_in_constant_section(
    declared: &mut Option<Vec<ConstantDeclaration>>,
    by: TokenIndexShift,
)
    ensures { constant_section_of declared.new ≡ tree_with_shifted_leaves by
        (constant_section_of declared.old) }
{
    if let Some(listed) = declared {
        shift_indexes_in_constant_declarations(listed, by);
    }
}

/// Applies the shift `by` to each token index in a list of constant declarations.
fn shift_indexes_in_constant_declarations(
    listed: &mut Vec<ConstantDeclaration>,
    by: TokenIndexShift,
)
    ensures { constant_declarations_of_vec listed.new
        ≡ tree_with_shifted_leaves by (constant_declarations_of_vec listed.old) }
{
    for i in 0..listed.len() {
        shift_indexes_in_constant_declaration(&mut listed[i], by);
    }
}

/// Applies the shift `by` to each token index in the declaration of a constant.
fn shift_indexes_in_constant_declaration(c: &mut ConstantDeclaration, by: TokenIndexShift)
    ensures { constant_declaration_of c.new ≡ tree_with_shifted_leaves by (constant_declaration_of c.old) }
{
    c.name = by.shifted_leaf(c.name);
    shift_indexes_in_expression(&mut c.value, by);
}

/// Applies the shift `by` to each token index in a TYPE section, if there is one.
fn shift_indexes_in_type_section(declared: &mut Option<Vec<TypeDeclaration>>, by: TokenIndexShift)
    ensures { type_section_of declared.new ≡ tree_with_shifted_leaves by
        (type_section_of declared.old) }
{
    if let Some(listed) = declared {
        shift_indexes_in_type_declarations(listed, by);
    }
}

/// Applies the shift `by` to each token index in a list of type declarations.
fn shift_indexes_in_type_declarations(listed: &mut Vec<TypeDeclaration>, by: TokenIndexShift)
    ensures { type_declarations_of_vec listed.new ≡ tree_with_shifted_leaves by
        (type_declarations_of_vec listed.old) }
{
    for i in 0..listed.len() {
        shift_indexes_in_type_declaration(&mut listed[i], by);
    }
}

/// Applies the shift `by` to each token index in the declaration of a type.
fn shift_indexes_in_type_declaration(d: &mut TypeDeclaration, by: TokenIndexShift)
    ensures { type_declaration_of d.new ≡ tree_with_shifted_leaves by (type_declaration_of d.old) }
{
    d.name = by.shifted_leaf(d.name);
    shift_indexes_in_type(&mut d.written, by);
}

/// Applies the shift `by` to each token index in a VAR section, if there is one.
fn shift_indexes_in_variable_section(
    declared: &mut Option<Vec<VariableDeclaration>>,
    by: TokenIndexShift,
)
    ensures { variable_section_of declared.new ≡ tree_with_shifted_leaves by
        (variable_section_of declared.old) }
{
    if let Some(listed) = declared {
        shift_indexes_in_variable_declarations(listed, by);
    }
}

/// Applies the shift `by` to each token index in a list of variable declarations.
fn shift_indexes_in_variable_declarations(
    listed: &mut Vec<VariableDeclaration>,
    by: TokenIndexShift,
)
    ensures { variable_declarations_of_vec listed.new
        ≡ tree_with_shifted_leaves by (variable_declarations_of_vec listed.old) }
{
    for i in 0..listed.len() {
        shift_indexes_in_variable_declaration(&mut listed[i], by);
    }
}

/// Applies the shift `by` to each token index in a declaration of variables of one type.
fn shift_indexes_in_variable_declaration(v: &mut VariableDeclaration, by: TokenIndexShift)
    ensures { variable_declaration_of v.new ≡ tree_with_shifted_leaves by (variable_declaration_of v.old) }
{
    shift_indexes_in_names(&mut v.names, by);
    shift_indexes_in_type(&mut v.written, by);
}

/// Applies the shift `by` to each token index in a block's statements, if the block has a body.
fn shift_indexes_in_body(statements: &mut Option<Vec<Statement>>, by: TokenIndexShift)
    ensures { body_of statements.new ≡ tree_with_shifted_leaves by (body_of statements.old) }
{
    if let Some(listed) = statements {
        shift_indexes_in_sequence(listed, by);
    }
}

/// Applies the shift `by` to each token index in a block.
#[cycle(blocks)]
fn shift_indexes_in_block(b: &mut Block, by: TokenIndexShift)
    ensures { block_of b.new ≡ tree_with_shifted_leaves by (block_of b.old) }
{
    shift_indexes_in_constant_section(&mut b.constants, by);
    shift_indexes_in_type_section(&mut b.types, by);
    shift_indexes_in_variable_section(&mut b.variables, by);
    shift_indexes_in_procedures(&mut b.procedures, by);
    shift_indexes_in_body(&mut b.body, by);
}

/// Applies the shift `by` to each token index in a list of procedures.
#[cycle(blocks)]
fn shift_indexes_in_procedures(ps: &mut Vec<Procedure>, by: TokenIndexShift)
    ensures { procedures_of_vec ps.new ≡ tree_with_shifted_leaves by (procedures_of_vec ps.old) }
{
    for i in 0..ps.len() {
        shift_indexes_in_procedure(&mut ps[i], by);
    }
}

/// Applies the shift `by` to each token index in a procedure.
#[cycle(blocks)]
pub(crate) fn shift_indexes_in_procedure(p: &mut Procedure, by: TokenIndexShift)
    ensures { procedure_of p.new ≡ tree_with_shifted_leaves by (procedure_of p.old) }
{
    p.name = by.shifted_leaf(p.name);
    shift_indexes_in_formals(&mut p.formals, by);
    shift_indexes_in_block(&mut p.block, by);
    p.closing = by.shifted_leaf(p.closing);
}
