//! Walks a module to visit its field identifiers: the identifiers that declare or select a field of
//! a record. A visitor (`FieldVisitor`) says what is done with each of them.
//!
//! One loop visits the selectors of a designator from left to right. The loop carries the type of
//! the part of the designator before the next selector. The expression in an index is visited when
//! its selector is, so fields are found in text order. Constants and array lengths aren't visited,
//! because they select no fields.
//!
//! Little work is done for expressions that select nothing. An expression with a single factor is
//! treated as that factor. The type of a designator without selectors isn't looked up. The name of
//! a selected field is looked up once, which gives the field's type.

#![tactic(auto, using(std::proofs::lemmas::Grind::common_steps, crate::proofs::FieldVisits::visited_append))]

ghost use Rattle.std.specs.Prelude.{◌≡◌, IfOk, OnOk, Some, length, option_and_then, option_map};
ghost use Rattle.ob0_tree.specs.ParsedModule.{tree_of};
ghost use Rattle.ob0_tree.specs.View.{expression_of, compound_expression_of, simple_expression_of, term_of, factor_of, designator_of, selector_of, assignment_of, call_of, arguments_of_vec, statement_of, if_of, elsifs_of_vec, sequence_of_vec, body_of, block_of, procedure_of};
ghost use Rattle.ob0_language_types.specs.Declarations.{block_constructor_count, procedure_constructor_count};
ghost use Rattle.ob0_types_table.specs.DeclarationTables.{shapes_of};
ghost use Rattle.ob0_types_table.specs.DeclarationTableView.{type_shape};
ghost use Rattle.ob0_language_types.specs.Typing.{element_type, field_type, type_of_variable_or_constant};
ghost use Rattle.ob0_language_values.specs.Values.{integer_shape};
ghost use Rattle.ob0_language_fields.specs.MarkedFields.{type_after_selector};
ghost use Rattle.ob0_types_fields.specs.IdentifierOwners.{block_identifiers, module_identifiers, owner, procedure_identifiers, selected_identifiers};
ghost use Rattle.ob0_types_fields.specs.FieldWalks.{VisitsDeclarations, field_walk_meanings, record_shape_in_walk, state_after_identifiers, state_after_owner};

use crate::field_identifier::FieldIdentifier;
use crate::field_visitors::FieldVisitor;
use crate::written_type_fields::{
    visit_parameter_type_fields, visit_type_section_fields, visit_variable_section_fields,
};
use ob0_scope_table::Resolved;
use ob0_tree::{
    Assignment, Block, Call, CompoundExpression, Designator, Elsif, Expression, Factor, If,
    Procedure, Repeat, Selector, SimpleExpression, Statement, Term, While, token_text_at,
};
use ob0_types_table::{DeclarationTable, Object, RecordShape, TypeId, TypeWithParts, scalar_type};

/// Returns the number of a module's tokens. The proof of a caller learns that 64 bits can count them.
pub(crate) fn token_count(resolved: &Resolved<'_>) -> usize
    ensures { result ≡ length resolved.now.module_read.source.tokens }
{
    resolved.tokens().tokens().len()
}

/// The module whose fields are visited, with the table of its declarations.
#[derive(Clone, Copy)]
pub(crate) struct FieldWalk<'a, 't> {
    pub(crate) table: &'a DeclarationTable,
    pub(crate) resolved: &'a Resolved<'t>,
}

impl<'a, 't> FieldWalk<'a, 't> {
    /// Returns the type of the variable, parameter or constant that the name at the token `token`
    /// is bound to. Returns None if the name is unbound, bound to a constant with an error, or
    /// bound to anything else.
    fn value_type(&self, token: usize) -> Option<TypeId>
        ensures { option_map (type_shape (shapes_of self.now.table.now)) result
            ≡ type_of_variable_or_constant ((field_walk_meanings self.now).object_for token) }
    {
        let ordinal = self.resolved.ordinal_at(token)?;
        match self.table.object(ordinal)? {
            Object::Variable(of) => Some(*of),
            Object::Constant(value) => Some(scalar_type(*value)),
            Object::TypeName(_) => None,
            Object::FaultyConstant => None,
            Object::Procedure(_) => None,
            Object::StandardProcedure(_) => None,
        }
    }

    /// Visits the field that the name at token `name` selects from a value of type `base`, and
    /// returns the field's type. If there is no such field or `base` is None (unknown), visits
    /// nothing and returns None.
    fn visit_selected_field<V: FieldVisitor>(
        &self,
        visitor: &mut V,
        base: Option<TypeId>,
        name: usize,
    ) -> Result<Option<TypeId>, V::Error>
        ensures visited { OnOk result (visitor.new ≡ state_after_owner V.state_after_one_field name
            (owner (option_map (type_shape (shapes_of self.now.table.now)) base)
            ((field_walk_meanings self.now).written name)) visitor.old) }
        ensures following { IfOk result (λ t.
            option_map (type_shape (shapes_of self.now.table.now)) t
            ≡ option_and_then (λ z. field_type z ((field_walk_meanings self.now).written name))
            (option_map (type_shape (shapes_of self.now.table.now)) base)) }
    {
        let Some(base) = base else {
            return Ok(None);
        };
        match self.table.parts(base) {
            TypeWithParts::Record(shape) => self.visit_field_selected_in_record(
                visitor, shape, name,
            ),
            TypeWithParts::Integer => Ok(None),
            TypeWithParts::Boolean => Ok(None),
            TypeWithParts::Array(_) => Ok(None),
            TypeWithParts::Faulty => Ok(None),
        }
    }

    /// Visits the field that the name at token `name` selects from the record `shape`, and returns
    /// the field's type. If the record has no such field, visits nothing and returns None.
    fn visit_field_selected_in_record<V: FieldVisitor>(
        &self,
        visitor: &mut V,
        shape: &RecordShape,
        name: usize,
    ) -> Result<Option<TypeId>, V::Error>
        ensures visited { OnOk result (visitor.new ≡ state_after_owner V.state_after_one_field name
            (owner (Some (record_shape_in_walk self.now shape.now))
            ((field_walk_meanings self.now).written name)) visitor.old) }
        ensures following { IfOk result (λ t.
            option_map (type_shape (shapes_of self.now.table.now)) t
            ≡ field_type (record_shape_in_walk self.now shape.now)
            ((field_walk_meanings self.now).written name)) }
    {
        match shape
            .fields
            .type_of_field(token_text_at(self.resolved.tokens(), name))
        {
            None => Ok(None),
            Some(of) => {
                let owner = shape.ordinal;
                visitor.visit_one_field(FieldIdentifier { token: name, owner })?;
                Ok(Some(of))
            }
        }
    }

    /// Returns the element type of the array type `base`. Returns None if `base` is unknown (None)
    /// or isn't an array type.
    fn element_type_of(&self, base: Option<TypeId>) -> Option<TypeId>
        ensures { option_map (type_shape (shapes_of self.now.table.now)) result
            ≡ option_and_then (λ z. element_type z integer_shape)
            (option_map (type_shape (shapes_of self.now.table.now)) base) }
    {
        match base {
            None => None,
            Some(base) => self.table.element_type(base),
        }
    }

    /// Visits the field identifiers in an expression, in text order.
    #[cycle(expressions)]
    fn visit_expression_fields<V: FieldVisitor>(
        &self,
        visitor: &mut V,
        e: &Expression,
    ) -> Result<(), V::Error>
        ensures { OnOk result (visitor.new ≡ state_after_identifiers V.state_after_one_field
            (selected_identifiers (field_walk_meanings self.now) None (expression_of e.now)) visitor.old) }
    {
        match e {
            Expression::Factor(f) => self.visit_factor_fields(visitor, f),
            Expression::CompoundExpression(c) => self.visit_compound_expression_fields(visitor, c),
        }
    }

    #[cycle(expressions)]
    fn visit_compound_expression_fields<V: FieldVisitor>(
        &self,
        visitor: &mut V,
        c: &CompoundExpression,
    ) -> Result<(), V::Error>
        ensures { OnOk result (visitor.new ≡ state_after_identifiers V.state_after_one_field
            (selected_identifiers (field_walk_meanings self.now) None (compound_expression_of c.now)) visitor.old) }
    {
        self.visit_simple_expression_fields(visitor, &c.left)?;
        match &c.compared {
            Some(compared) => self.visit_simple_expression_fields(visitor, &compared.right),
            None => Ok(()),
        }
    }

    #[cycle(expressions)]
    fn visit_simple_expression_fields<V: FieldVisitor>(
        &self,
        visitor: &mut V,
        s: &SimpleExpression,
    ) -> Result<(), V::Error>
        ensures { OnOk result (visitor.new ≡ state_after_identifiers V.state_after_one_field
            (selected_identifiers (field_walk_meanings self.now) None (simple_expression_of s.now)) visitor.old) }
    {
        self.visit_term_fields(visitor, &s.first)?;
        for addend in &s.more {
            self.visit_term_fields(visitor, &addend.term)?;
        }
        Ok(())
    }

    #[cycle(expressions)]
    fn visit_term_fields<V: FieldVisitor>(&self, visitor: &mut V, t: &Term) -> Result<(), V::Error>
        ensures { OnOk result (visitor.new ≡ state_after_identifiers V.state_after_one_field
            (selected_identifiers (field_walk_meanings self.now) None (term_of t.now)) visitor.old) }
    {
        self.visit_factor_fields(visitor, &t.first)?;
        for multiplier in &t.more {
            self.visit_factor_fields(visitor, &multiplier.factor)?;
        }
        Ok(())
    }

    #[cycle(expressions)]
    fn visit_factor_fields<V: FieldVisitor>(
        &self,
        visitor: &mut V,
        f: &Factor,
    ) -> Result<(), V::Error>
        ensures { OnOk result (visitor.new ≡ state_after_identifiers V.state_after_one_field
            (selected_identifiers (field_walk_meanings self.now) None (factor_of f.now)) visitor.old) }
    {
        match f {
            Factor::Designator(d) => self.visit_designator_fields(visitor, d),
            Factor::Integer(_) => Ok(()),
            Factor::Parenthesised(e) => self.visit_expression_fields(visitor, e),
            Factor::Not(f) => self.visit_factor_fields(visitor, f),
        }
    }

    #[cycle(expressions)]
    fn visit_designator_fields<V: FieldVisitor>(
        &self,
        visitor: &mut V,
        d: &Designator,
    ) -> Result<(), V::Error>
        ensures { OnOk result (visitor.new ≡ state_after_identifiers V.state_after_one_field
            (selected_identifiers (field_walk_meanings self.now) None (designator_of d.now)) visitor.old) }
    {
        if d.selectors.is_empty() {
            return Ok(());
        }
        let mut at = self.value_type(d.name);
        for s in &d.selectors {
            at = self.visit_selector_fields(visitor, at, s)?;
        }
        Ok(())
    }

    /// Visits the field identifiers in one selector: the selected field, or the fields in an
    /// index's expression. `base` is the type of the designator before this selector. Returns the
    /// type of the designator including this selector, or None if this type is unknown.
    #[cycle(expressions)]
    fn visit_selector_fields<V: FieldVisitor>(
        &self,
        visitor: &mut V,
        base: Option<TypeId>,
        s: &Selector,
    ) -> Result<Option<TypeId>, V::Error>
        ensures visited { OnOk result (visitor.new ≡ state_after_identifiers V.state_after_one_field
            (selected_identifiers (field_walk_meanings self.now)
            (option_map (type_shape (shapes_of self.now.table.now)) base) (selector_of s.now))
            visitor.old) }
        ensures following { IfOk result (λ t.
            option_map (type_shape (shapes_of self.now.table.now)) t
            ≡ type_after_selector (field_walk_meanings self.now)
            (option_map (type_shape (shapes_of self.now.table.now)) base) (selector_of s.now)) }
    {
        match s {
            Selector::Field(name) => self.visit_selected_field(visitor, base, *name),
            Selector::Index(e) => {
                self.visit_expression_fields(visitor, e)?;
                Ok(self.element_type_of(base))
            }
        }
    }

    fn visit_assignment_fields<V: FieldVisitor>(
        &self,
        visitor: &mut V,
        a: &Assignment,
    ) -> Result<(), V::Error>
        ensures { OnOk result (visitor.new ≡ state_after_identifiers V.state_after_one_field
            (selected_identifiers (field_walk_meanings self.now) None (assignment_of a.now)) visitor.old) }
    {
        self.visit_designator_fields(visitor, &a.target)?;
        self.visit_expression_fields(visitor, &a.value)
    }

    fn visit_call_fields<V: FieldVisitor>(&self, visitor: &mut V, c: &Call) -> Result<(), V::Error>
        ensures { OnOk result (visitor.new ≡ state_after_identifiers V.state_after_one_field
            (selected_identifiers (field_walk_meanings self.now) None (call_of c.now)) visitor.old) }
    {
        if let Some(given) = &c.arguments {
            self.visit_argument_fields(visitor, given)?;
        }
        Ok(())
    }

    fn visit_argument_fields<V: FieldVisitor>(
        &self,
        visitor: &mut V,
        given: &Vec<Expression>,
    ) -> Result<(), V::Error>
        ensures { OnOk result (visitor.new ≡ state_after_identifiers V.state_after_one_field
            (selected_identifiers (field_walk_meanings self.now) None (arguments_of_vec given.now)) visitor.old) }
    {
        for e in given {
            self.visit_expression_fields(visitor, e)?;
        }
        Ok(())
    }

    #[cycle(statements)]
    fn visit_sequence_fields<V: FieldVisitor>(
        &self,
        visitor: &mut V,
        statements: &Vec<Statement>,
    ) -> Result<(), V::Error>
        ensures { OnOk result (visitor.new ≡ state_after_identifiers V.state_after_one_field
            (selected_identifiers (field_walk_meanings self.now) None (sequence_of_vec statements.now)) visitor.old) }
    {
        for s in statements {
            self.visit_statement_fields(visitor, s)?;
        }
        Ok(())
    }

    #[cycle(statements)]
    fn visit_statement_fields<V: FieldVisitor>(
        &self,
        visitor: &mut V,
        s: &Statement,
    ) -> Result<(), V::Error>
        ensures { OnOk result (visitor.new ≡ state_after_identifiers V.state_after_one_field
            (selected_identifiers (field_walk_meanings self.now) None (statement_of s.now)) visitor.old) }
    {
        match s {
            Statement::Empty => Ok(()),
            Statement::Assign(a) => self.visit_assignment_fields(visitor, a),
            Statement::Call(c) => self.visit_call_fields(visitor, c),
            Statement::If(i) => self.visit_if_fields(visitor, i),
            Statement::While(w) => {
                let w: &While = w;
                self.visit_expression_fields(visitor, &w.condition)?;
                self.visit_sequence_fields(visitor, &w.body)
            }
            Statement::Repeat(r) => {
                let r: &Repeat = r;
                self.visit_sequence_fields(visitor, &r.body)?;
                self.visit_expression_fields(visitor, &r.condition)
            }
        }
    }

    #[cycle(statements)]
    fn visit_if_fields<V: FieldVisitor>(&self, visitor: &mut V, i: &If) -> Result<(), V::Error>
        ensures { OnOk result (visitor.new ≡ state_after_identifiers V.state_after_one_field
            (selected_identifiers (field_walk_meanings self.now) None (if_of i.now)) visitor.old) }
    {
        self.visit_expression_fields(visitor, &i.condition)?;
        self.visit_sequence_fields(visitor, &i.then)?;
        self.visit_elsif_fields(visitor, &i.elsifs)?;
        match &i.otherwise {
            Some(statements) => self.visit_sequence_fields(visitor, statements),
            None => Ok(()),
        }
    }

    #[cycle(statements)]
    fn visit_elsif_fields<V: FieldVisitor>(
        &self,
        visitor: &mut V,
        parts: &Vec<Elsif>,
    ) -> Result<(), V::Error>
        ensures { OnOk result (visitor.new ≡ state_after_identifiers V.state_after_one_field
            (selected_identifiers (field_walk_meanings self.now) None (elsifs_of_vec parts.now)) visitor.old) }
    {
        for e in parts {
            self.visit_expression_fields(visitor, &e.condition)?;
            self.visit_sequence_fields(visitor, &e.then)?;
        }
        Ok(())
    }

    /// Visits the fields that the statements of a block select, in text order. Visits nothing if
    /// there are no statements.
    pub(crate) fn visit_body_fields<V: FieldVisitor>(
        &self,
        visitor: &mut V,
        statements: &Option<Vec<Statement>>,
    ) -> Result<(), V::Error>
        ensures { OnOk result (visitor.new ≡ state_after_identifiers V.state_after_one_field
            (selected_identifiers (field_walk_meanings self.now) None (body_of statements.now)) visitor.old) }
    {
        match statements {
            Some(statements) => self.visit_sequence_fields(visitor, statements),
            None => Ok(()),
        }
    }

    /// Visits the field identifiers in a block: first the identifiers in its declarations and
    /// procedures, then the identifiers in its statements. `word_count` counts the words ARRAY and
    /// RECORD that precede the block in the module. This count gives records their ordinals. On
    /// return, `word_count` also counts the words in the block.
    #[cycle(blocks)]
    pub(crate) fn visit_block_fields<V: FieldVisitor>(
        &self,
        visitor: &mut V,
        word_count: &mut usize,
        b: &Block,
    ) -> Result<(), V::Error>
        ensures { OnOk result (VisitsDeclarations V.state_after_one_field
            (block_identifiers (field_walk_meanings self.now) word_count.old (block_of b.now))
            (block_constructor_count (block_of b.now))
            word_count.old word_count.new visitor.old visitor.new) }
    {
        visit_type_section_fields(visitor, word_count, &b.types)?;
        visit_variable_section_fields(visitor, word_count, &b.variables)?;
        for p in &b.procedures {
            self.visit_procedure_fields(visitor, word_count, p)?;
        }
        self.visit_body_fields(visitor, &b.body)
    }

    /// Visits the fields that a procedure declares and selects. `word_count` counts the words
    /// ARRAY and RECORD that precede the procedure in the module. This count gives records their
    /// ordinals. On return, `word_count` also counts the words in the procedure.
    #[cycle(blocks)]
    fn visit_procedure_fields<V: FieldVisitor>(
        &self,
        visitor: &mut V,
        word_count: &mut usize,
        p: &Procedure,
    ) -> Result<(), V::Error>
        ensures { OnOk result (VisitsDeclarations V.state_after_one_field
            (procedure_identifiers (field_walk_meanings self.now) word_count.old (procedure_of p.now))
            (procedure_constructor_count (procedure_of p.now))
            word_count.old word_count.new visitor.old visitor.new) }
    {
        visit_parameter_type_fields(visitor, word_count, &p.formals)?;
        self.visit_block_fields(visitor, word_count, &p.block)
    }

    /// Visits all field identifiers of the module, in text order.
    pub(crate) fn visit_module_fields<V: FieldVisitor>(
        &self,
        visitor: &mut V,
    ) -> Result<(), V::Error>
        ensures { OnOk result (visitor.new ≡ state_after_identifiers V.state_after_one_field
            (module_identifiers (field_walk_meanings self.now)
            (tree_of self.now.resolved.now.module_read)) visitor.old) }
    {
        // The proof needs this call: there are no more words ARRAY and RECORD than tokens.
        let _count = token_count(self.resolved);
        let mut word_count = 0;
        self.visit_block_fields(visitor, &mut word_count, self.resolved.module().block())
    }
}
