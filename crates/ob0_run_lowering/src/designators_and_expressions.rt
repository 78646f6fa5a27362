//! Lowers designators and expressions. Loops visit the operands of a chain of operators and the
//! selectors of a designator. Recursion visits nested expressions.
//!
//! Code and meaning are separate. `specs/OperationCodes` and `specs/TreeCodes` define the code of a
//! tree by functions that compute it (`expression_code`), and each function here returns this code.
//! An induction over trees (`proofs/TreesMean`) shows by the laws of `ob0_run_cells` that this code
//! is correct for the tree. No proof about a function mentions cells, or moments of a run
//! (`Moment`: the store, the names and the activations). The types of places come from the table of
//! declarations. Only the field `bound` of `SceneAgreesWithChecker` relates these types to the
//! types that the checker found. The table also has types of variables that aren't in scope, and
//! nothing is claimed about these types.

ghost use Rattle.std.specs.Prelude.{◌≡◌, IfOk, Some, option_and_then, option_map, pos};
ghost use Rattle.ob0_tree.specs.TokenIndexLeaves.{token_value_at};
ghost use Rattle.ob0_tree.specs.View.{compound_expression_of, designator_of, expression_of, factor_of, selector_of, simple_expression_of, term_of};
ghost use Rattle.ob0_tree.specs.declared.tree.Designator.{out-Designator};
ghost use Rattle.ob0_language_names.specs.Names.{label_text};
ghost use Rattle.ob0_types_table.specs.DeclarationTables.{shapes_of};
ghost use Rattle.ob0_types_table.specs.DeclarationTableView.{type_shape};
ghost use Rattle.ob0_language_types.specs.Bindings.{variable_shape};
ghost use Rattle.ob0_scope_table.specs.LabelledTrees.{tree_with_labels, label_at_token};
ghost use Rattle.ob0_language_types.specs.DesignatorSelectors.{selectors_of_designator};
ghost use Rattle.ob0_language_types.specs.Typing.{value_of_constant_object};
ghost use Rattle.ob0_language_values.specs.Scalars.{scalar_value};
ghost use Rattle.ob0_run_machine.specs.LoweredCodeViews.{number_of};
ghost use Rattle.ob0_run_lowering.specs.TruthDepths.{IsNotNestedOnLeft};
ghost use Rattle.ob0_run_lowering.specs.OperationCodes.{a_number, constant_code, element_place_with_shape, element_of_optional_place, record_field_place, code_of_value_at_place, code_of_value_at_optional_place};
ghost use Rattle.ob0_run_lowering.specs.Scenes.{object_of_label};
ghost use Rattle.ob0_run_lowering.specs.TreeCodes.{variable_place_of_label, expression_code_of, expression_code, factor_code, place_with_shape_of, place_after_selector, selected_place, simple_expression_code, term_code};

use crate::lowered_expression::{LoweredExpression, TypedPlace};
use crate::operators::{
    lower_addition, lower_multiplication, lower_negation, lower_relation, lower_signed_term,
};
use crate::places::{number_at_place, place_of_element, shifted_place};
use crate::scene::Scene;
use ob0_language_values::Scalar;
use ob0_run_machine::code::{Number, Truth};
use ob0_tree::{
    Comparison, CompoundExpression, Designator, Expression, Factor, Selector, SimpleExpression,
    Term, token_text_at,
};
use ob0_types_table::{Object, TypeId, TypeWithParts, integer_value_at_token};
use std::alloc::{AllocError, Global};

fn lower_constant(value: Scalar) -> LoweredExpression
    ensures code { expression_code_of result ≡ constant_code (scalar_value value) }
    ensures flat { IsNotNestedOnLeft result }
{
    match value {
        Scalar::Number(number) => LoweredExpression::Number(Number::Literal(number)),
        Scalar::Truth(truth) => LoweredExpression::Truth(Truth::Constant(truth)),
    }
}

impl<'s, 'k, 't> Scene<'s, 'k, 't> {
    /// Returns the type of the variable that the name at a token refers to, or None if the name
    /// refers to no variable.
    fn variable_type(&self, name: usize) -> Option<TypeId>
        ensures { option_map (type_shape (shapes_of self.now.types.now)) result
            ≡ variable_shape (object_of_label self.now.types.now (label_at_token self.now.resolved.now name)) }
    {
        match self.object_at_token(name)? {
            Object::Variable(of) => Some(*of),
            Object::TypeName(_) => None,
            Object::Constant(_) => None,
            Object::FaultyConstant => None,
            Object::Procedure(_) => None,
            Object::StandardProcedure(_) => None,
        }
    }

    /// Returns the value of the constant that the name at a token refers to, or None if the name
    /// refers to no constant.
    fn constant_at_token(&self, name: usize) -> Option<Scalar>
        ensures { option_map scalar_value result
            ≡ value_of_constant_object (object_of_label self.now.types.now (label_at_token self.now.resolved.now name)) }
    {
        match self.object_at_token(name)? {
            Object::Constant(value) => Some(*value),
            Object::TypeName(_) => None,
            Object::FaultyConstant => None,
            Object::Variable(_) => None,
            Object::Procedure(_) => None,
            Object::StandardProcedure(_) => None,
        }
    }

    /// Returns the text of the field's name at a token. Returns the empty text if the token is
    /// bound to a declaration, because it isn't a field's name then.
    fn field_name(&self, token: usize) -> &'t str
        ensures { result.now ≡ label_text (label_at_token self.now.resolved.now token) }
    {
        match self.resolved.ordinal_at(token) {
            None => token_text_at(self.resolved.tokens(), token),
            Some(_) => "",
        }
    }

    /// Returns the value of the number literal at a token.
    fn literal_at_token(&self, token: usize) -> i32
        ensures { result ≡ pos (token_value_at self.now.resolved.now.module_read.source token) }
    {
        integer_value_at_token(self.resolved.tokens(), token)
    }

    /// Returns the place of the variable that the name at a token refers to, before any selectors.
    /// Returns None if the name refers to no variable.
    fn locate_variable_at_token(
        &self,
        alloc: Global,
        name: usize,
    ) -> Result<Option<TypedPlace>, AllocError>
        ensures { IfOk result (λ o. option_map (place_with_shape_of (shapes_of self.now.types.now)) o
            ≡ variable_place_of_label self.now (label_at_token self.now.resolved.now name)) }
    {
        match self.variable_type(name) {
            None => Ok(None),
            Some(type_id) => {
                let place = self.variable_place_at_token(alloc, name)?;
                Ok(Some(TypedPlace { place, type_id }))
            }
        }
    }

    /// Returns the code of the value at a place: a number, a truth, or the cells of an array or a
    /// record.
    fn code_of_value_at_place(&self, at: TypedPlace) -> LoweredExpression
        ensures code { expression_code_of result
            ≡ code_of_value_at_place (place_with_shape_of (shapes_of self.now.types.now) at).place
            (place_with_shape_of (shapes_of self.now.types.now) at).shape }
        ensures flat { IsNotNestedOnLeft result }
    {
        let TypedPlace { place, type_id } = at;
        match type_id {
            TypeId::Integer => LoweredExpression::Number(number_at_place(place)),
            TypeId::Boolean => LoweredExpression::Truth(Truth::Flag(place)),
            TypeId::Array(_) => LoweredExpression::Block(place, self.types.size(type_id)),
            TypeId::Record(_) => LoweredExpression::Block(place, self.types.size(type_id)),
            TypeId::Unknown => LoweredExpression::Block(place, self.types.size(type_id)),
        }
    }

    fn code_of_value_at_optional_place(&self, at: Option<TypedPlace>) -> LoweredExpression
        ensures code { expression_code_of result
            ≡ code_of_value_at_optional_place (option_map (place_with_shape_of (shapes_of self.now.types.now)) at) }
        ensures flat { IsNotNestedOnLeft result }
    {
        match at {
            None => LoweredExpression::NoCode,
            Some(at) => self.code_of_value_at_place(at),
        }
    }

    /// Returns the place of a field of the record at the place `at`. Returns None if the value
    /// there isn't a record or has no such field.
    fn field_place(
        &self,
        alloc: Global,
        at: TypedPlace,
        name: usize,
    ) -> Result<Option<TypedPlace>, AllocError>
        ensures { IfOk result (λ o. option_map (place_with_shape_of (shapes_of self.now.types.now)) o
            ≡ record_field_place (label_text (label_at_token self.now.resolved.now name))
            (place_with_shape_of (shapes_of self.now.types.now) at)) }
    {
        let TypedPlace { place, type_id } = at;
        let name = self.field_name(name);
        match self.types.declarations().field_type(type_id, name) {
            None => Ok(None),
            Some(field) => {
                let offset = self.types.offset(type_id, name);
                let place = shifted_place(alloc, place, offset)?;
                Ok(Some(TypedPlace {
                    place,
                    type_id: field,
                }))
            }
        }
    }

    /// Returns the place of an element of the array at the place `at`. Returns None if the value
    /// there isn't an array.
    fn element_place(
        &self,
        alloc: Global,
        at: TypedPlace,
        index: Number,
    ) -> Result<Option<TypedPlace>, AllocError>
        ensures { IfOk result (λ o. option_map (place_with_shape_of (shapes_of self.now.types.now)) o
            ≡ element_place_with_shape (a_number (number_of index))
            (place_with_shape_of (shapes_of self.now.types.now) at).place
            (place_with_shape_of (shapes_of self.now.types.now) at).shape) }
    {
        let TypedPlace { place, type_id } = at;
        match self.types.declarations().parts(type_id) {
            TypeWithParts::Array(array) => {
                let stride = self.types.size(array.element);
                let place = place_of_element(alloc, place, index, array.length, stride)?;
                Ok(Some(TypedPlace {
                    place,
                    type_id: array.element,
                }))
            }
            TypeWithParts::Integer => Ok(None),
            TypeWithParts::Boolean => Ok(None),
            TypeWithParts::Record(_) => Ok(None),
            TypeWithParts::Faulty => Ok(None),
        }
    }

    fn element_in_optional_place(
        &self,
        alloc: Global,
        at: Option<TypedPlace>,
        index: LoweredExpression,
    ) -> Result<Option<TypedPlace>, AllocError>
        ensures { IfOk result (λ o. option_map (place_with_shape_of (shapes_of self.now.types.now)) o
            ≡ element_of_optional_place (expression_code_of index)
            (option_map (place_with_shape_of (shapes_of self.now.types.now)) at)) }
    {
        match at {
            None => Ok(None),
            Some(at) => match index {
                LoweredExpression::Number(index) => self.element_place(alloc, at, index),
                LoweredExpression::Truth(_) => Ok(None),
                LoweredExpression::Block(_, _) => Ok(None),
                LoweredExpression::NoCode => Ok(None),
            },
        }
    }

    fn field_in_optional_place(
        &self,
        alloc: Global,
        at: Option<TypedPlace>,
        name: usize,
    ) -> Result<Option<TypedPlace>, AllocError>
        ensures { IfOk result (λ o. option_map (place_with_shape_of (shapes_of self.now.types.now)) o
            ≡ option_and_then (record_field_place (label_text (label_at_token self.now.resolved.now name)))
            (option_map (place_with_shape_of (shapes_of self.now.types.now)) at)) }
    {
        match at {
            None => Ok(None),
            Some(at) => self.field_place(alloc, at, name),
        }
    }

    /// Returns the code of an expression.
    #[cycle(lowering)]
    pub(crate) fn lower_expression(
        &self,
        alloc: Global,
        e: &Expression,
    ) -> Result<LoweredExpression, AllocError>
        ensures code { IfOk result (λ l. expression_code_of l
            ≡ expression_code self.now (tree_with_labels self.now.resolved.now (expression_of e.now))) }
        ensures flat { IfOk result IsNotNestedOnLeft }
    {
        match e {
            Expression::Factor(f) => self.lower_factor(alloc, f),
            Expression::CompoundExpression(c) => self.lower_compound_expression(alloc, c),
        }
    }

    #[cycle(lowering)]
    fn lower_compound_expression(
        &self,
        alloc: Global,
        c: &CompoundExpression,
    ) -> Result<LoweredExpression, AllocError>
        ensures code { IfOk result (λ l. expression_code_of l
            ≡ expression_code self.now (tree_with_labels self.now.resolved.now (compound_expression_of c.now))) }
        ensures flat { IfOk result IsNotNestedOnLeft }
    {
        let left = self.lower_simple_expression(alloc, &c.left)?;
        match &c.compared {
            None => Ok(left),
            Some(compared) => {
                let compared: &Comparison = compared;
                let right = self.lower_simple_expression(alloc, &compared.right)?;
                lower_relation(alloc, compared.relation, left, right)
            }
        }
    }

    #[cycle(lowering)]
    fn lower_simple_expression(
        &self,
        alloc: Global,
        s: &SimpleExpression,
    ) -> Result<LoweredExpression, AllocError>
        ensures code { IfOk result (λ l. expression_code_of l
            ≡ simple_expression_code self.now (tree_with_labels self.now.resolved.now (simple_expression_of s.now))) }
        ensures flat { IfOk result IsNotNestedOnLeft }
    {
        let first = self.lower_term(alloc, &s.first)?;
        let mut so_far = lower_signed_term(alloc, s.sign, first)?;
        for addend in &s.more {
            let term = self.lower_term(alloc, &addend.term)?;
            so_far = lower_addition(alloc, addend.operator, so_far, term)?;
        }
        Ok(so_far)
    }

    #[cycle(lowering)]
    fn lower_term(&self, alloc: Global, t: &Term) -> Result<LoweredExpression, AllocError>
        ensures code { IfOk result (λ l. expression_code_of l
            ≡ term_code self.now (tree_with_labels self.now.resolved.now (term_of t.now))) }
        ensures flat { IfOk result IsNotNestedOnLeft }
    {
        let mut so_far = self.lower_factor(alloc, &t.first)?;
        for multiplier in &t.more {
            let factor = self.lower_factor(alloc, &multiplier.factor)?;
            so_far = lower_multiplication(alloc, multiplier.operator, so_far, factor)?;
        }
        Ok(so_far)
    }

    #[cycle(lowering)]
    fn lower_factor(&self, alloc: Global, f: &Factor) -> Result<LoweredExpression, AllocError>
        ensures code { IfOk result (λ l. expression_code_of l
            ≡ factor_code self.now (tree_with_labels self.now.resolved.now (factor_of f.now))) }
        ensures flat { IfOk result IsNotNestedOnLeft }
    {
        match f {
            Factor::Designator(d) => self.lower_designator(alloc, d),
            Factor::Integer(token) => Ok(LoweredExpression::Number(Number::Literal(
                self.literal_at_token(*token),
            ))),
            Factor::Parenthesised(e) => self.lower_expression(alloc, e),
            Factor::Not(f) => {
                let operand = self.lower_factor(alloc, f)?;
                lower_negation(alloc, operand)
            }
        }
    }

    /// Returns the code of a designator: the value of a constant, or the value at the place of a
    /// variable with its selectors. Returns `NoCode` if the designator is neither.
    #[cycle(lowering)]
    fn lower_designator(
        &self,
        alloc: Global,
        d: &Designator,
    ) -> Result<LoweredExpression, AllocError>
        ensures code { IfOk result (λ l. expression_code_of l
            ≡ factor_code self.now (tree_with_labels self.now.resolved.now (designator_of d.now))) }
        ensures flat { IfOk result IsNotNestedOnLeft }
    {
        match self.constant_at_token(d.name) {
            Some(value) => Ok(lower_constant(value)),
            None => {
                let at = self.locate_designator(alloc, d)?;
                Ok(self.code_of_value_at_optional_place(at))
            }
        }
    }

    /// Returns the place of a designator, which is a variable with its selectors. Returns None if
    /// the designator has no place.
    #[cycle(lowering)]
    pub(crate) fn locate_designator(
        &self,
        alloc: Global,
        d: &Designator,
    ) -> Result<Option<TypedPlace>, AllocError>
        ensures { IfOk result (λ o. option_map (place_with_shape_of (shapes_of self.now.types.now)) o
            ≡ selected_place self.now
            (variable_place_of_label self.now (label_at_token self.now.resolved.now (out-Designator d.now).name))
            (tree_with_labels self.now.resolved.now (selectors_of_designator d.now))) }
    {
        let mut at = self.locate_variable_at_token(alloc, d.name)?;
        for selector in &d.selectors {
            at = self.apply_selector(alloc, at, selector)?;
        }
        Ok(at)
    }

    #[cycle(lowering)]
    fn apply_selector(
        &self,
        alloc: Global,
        at: Option<TypedPlace>,
        s: &Selector,
    ) -> Result<Option<TypedPlace>, AllocError>
        ensures { IfOk result (λ o. option_map (place_with_shape_of (shapes_of self.now.types.now)) o
            ≡ place_after_selector self.now (option_map (place_with_shape_of (shapes_of self.now.types.now)) at)
            (tree_with_labels self.now.resolved.now (selector_of s.now))) }
    {
        match s {
            Selector::Field(name) => self.field_in_optional_place(alloc, at, *name),
            Selector::Index(e) => {
                let index = self.lower_expression(alloc, e)?;
                self.element_in_optional_place(alloc, at, index)
            }
        }
    }
}
