//! Reports the faults of expressions. Finds their types, and their values if constants determine
//! them.

ghost use Rattle.std.specs.Prelude.{◌≡◌, ◌++◌, [], false, true, if◌then◌else◌, IfOk, OnOk, option_map};
ghost use Rattle.ob0_language_values.specs.Scalars.{scalar_value};
ghost use Rattle.ob0_types_table.specs.declared.types.TypeId.TheVariants as type;
ghost use Rattle.ob0_tree.specs.View.{compound_expression_of, expression_of, factor_of, selector_of, simple_expression_of, term_of};
ghost use Rattle.ob0_language_types.specs.DesignatorSelectors.{selectors_of_designator};
ghost use Rattle.ob0_types_check.specs.ExpressionFaults.{report_on_expression, report_on_factor, report_on_selector, report_on_selectors, report_on_simple_expression, report_on_term};
ghost use Rattle.ob0_types_check.specs.OperandFaults.{ReturnsAndReports, constant_name_operand, number_operand, check_sum, require_type, require_type_of_both_operands, fault_at_operand, prefixed_operand, check_negation, element_type_from_form, element_operand, operand_in_parentheses, field_type_from_form, field_operand, may_be_same_type, operand_of_operation, check_product, name_operand, operand_with_selector, check_relation, check_sign, comparison_type, operand_type_of_addition, operand_type_of_equality, operand_type_of_multiplication, operand_type_of_relation, type_of_constant_value};
ghost use Rattle.ob0_types_check.specs.TypeFaults.{require_constant_value, report_on_constant_expression};
ghost use Rattle.ob0_types_check.specs.KnownDeclarations.{is_same_type};
ghost use Rattle.ob0_types_check.specs.CheckerViews.{facts_in, form_of_type_in, operand_of, type_id_representation};

use crate::reporting::checker_state::{
    CheckerState, Meaning, report_fault_at_token, report_fault_at_token_range,
};
use ob0_language_values::Scalar;
use ob0_scan::FaultCode;
use ob0_scope_table::FaultAtTokens;
use ob0_tree::{
    AddOperator, Comparison, CompoundExpression, Designator, Expression, Factor, MultiplyOperator,
    Relation, Selector, Sign, SimpleExpression, Term,
};
use ob0_types_table::{TypeId, integer_value_at_token, operators};
use std::alloc::AllocError;

/// The result of checking an expression: its type (`of`), its value, whether it may be a variable,
/// and its first and last token.
#[derive(Clone, Copy)]
pub(crate) struct Operand {
    pub(crate) of: TypeId,
    /// The value, or None if constants don't determine it. In `FALSE & x` they do, even if `x` is a
    /// variable or has a fault.
    pub(crate) value: Option<Scalar>,
    /// True if the expression is only a name with its selectors, if any, and the name isn't a
    /// constant's.
    pub(crate) may_be_variable: bool,
    /// The index of the expression's first token. `last` is the index of its last token.
    pub(crate) first: usize,
    pub(crate) last: usize,
}

/// Returns the type that `+`, `-` or OR requires of both operands.
fn operand_type_of_addition(operator: AddOperator) -> TypeId
    ensures { result ≡ operand_type_of_addition (type_id_representation []) operator }
{
    match operator {
        AddOperator::Add => TypeId::Integer,
        AddOperator::Subtract => TypeId::Integer,
        AddOperator::Or => TypeId::Boolean,
    }
}

/// Returns the type that `*`, DIV, MOD or `&` requires of both operands.
fn operand_type_of_multiplication(operator: MultiplyOperator) -> TypeId
    ensures { result ≡ operand_type_of_multiplication (type_id_representation []) operator }
{
    match operator {
        MultiplyOperator::And => TypeId::Boolean,
        MultiplyOperator::Multiply => TypeId::Integer,
        MultiplyOperator::Divide => TypeId::Integer,
        MultiplyOperator::Modulo => TypeId::Integer,
    }
}

/// Returns the type that a relation requires of both operands. All relations except `=` and `#`
/// require INTEGER. `=` and `#` require INTEGER or BOOLEAN, depending on the left operand's type
/// `left`. If `left` is unknown, `=` and `#` require nothing, and the result is the unknown type.
fn operand_type_of_relation(relation: Relation, left: TypeId) -> TypeId
    ensures { result ≡ operand_type_of_relation (type_id_representation []) relation left }
{
    match relation {
        Relation::Equal => operand_type_of_equality(left),
        Relation::NotEqual => operand_type_of_equality(left),
        Relation::Less => TypeId::Integer,
        Relation::LessEqual => TypeId::Integer,
        Relation::Greater => TypeId::Integer,
        Relation::GreaterEqual => TypeId::Integer,
    }
}

/// Returns the type that `=` or `#` requires of both operands. The result is the left operand's
/// type if this is INTEGER or unknown, otherwise BOOLEAN.
fn operand_type_of_equality(left: TypeId) -> TypeId
    ensures { result ≡ operand_type_of_equality (type_id_representation []) left }
{
    match left {
        TypeId::Integer => TypeId::Integer,
        TypeId::Boolean => TypeId::Boolean,
        TypeId::Array(_) => TypeId::Boolean,
        TypeId::Record(_) => TypeId::Boolean,
        TypeId::Unknown => TypeId::Unknown,
    }
}

/// Returns the type of a comparison whose operands have this type: BOOLEAN, or unknown if the type
/// of the operands is unknown.
fn type_of_comparison(operands: TypeId) -> TypeId
    ensures { result ≡ comparison_type (type_id_representation []) operands }
{
    match operands {
        TypeId::Integer => TypeId::Boolean,
        TypeId::Boolean => TypeId::Boolean,
        TypeId::Array(_) => TypeId::Boolean,
        TypeId::Record(_) => TypeId::Boolean,
        TypeId::Unknown => TypeId::Unknown,
    }
}

/// Returns whether the types are equal. Two array types, or two record types, are equal if they
/// have the same index in the checker's list of array and record types.
pub(crate) fn is_same_type(a: TypeId, b: TypeId) -> bool
    ensures { result ≡ is_same_type a b }
{
    a == b
}

/// Returns whether the two types are equal or at least one of them is unknown. An expression of the
/// type `of` is accepted as one of the type `wanted` only if this is true.
fn may_be_same_type(of: TypeId, wanted: TypeId) -> bool
    ensures { result ≡ may_be_same_type (type_id_representation []) of wanted }
{
    is_same_type(of, wanted)
        || is_same_type(of, TypeId::Unknown)
        || is_same_type(wanted, TypeId::Unknown)
}

/// Returns `wanted` if `of` is the same type, otherwise the unknown type.
fn required_type_or_unknown(of: TypeId, wanted: TypeId) -> TypeId
    ensures { result ≡ (if is_same_type of wanted then wanted else type.Unknown) }
{
    if is_same_type(of, wanted) {
        wanted
    } else {
        TypeId::Unknown
    }
}

impl Operand {
    /// Returns the operand for the expression that consists of a sign or `~` and this operand. The
    /// result has the type `of` and the value `value`.
    fn prefixed_operand(self, of: TypeId, value: Option<Scalar>) -> Operand
        ensures { operand_of result
            ≡ prefixed_operand of (option_map scalar_value value) (operand_of self) }
    {
        Operand {
            of,
            value,
            may_be_variable: false,
            first: self.first.saturating_sub(1),
            last: self.last,
        }
    }

    /// Returns the operand for the expression that joins this operand and the operand `right` by an
    /// operator. The result has the type `of` and the value `value`.
    fn joined_operand(self, right: Operand, of: TypeId, value: Option<Scalar>) -> Operand
        ensures { operand_of result
            ≡ operand_of_operation of (option_map scalar_value value) (operand_of self)
            (operand_of right) }
    {
        Operand {
            of,
            value,
            may_be_variable: false,
            first: self.first,
            last: right.last,
        }
    }

    /// Returns the operand for a designator with one more selector. `self` is the operand for the
    /// designator without that selector. `last` is the last token of that selector. The result has
    /// the type `of` and no value.
    fn operand_with_selector(self, of: TypeId, last: usize) -> Operand
        ensures { operand_of result ≡ operand_with_selector (operand_of self) of last }
    {
        Operand {
            of,
            value: None,
            may_be_variable: self.may_be_variable,
            first: self.first,
            last,
        }
    }
}

/// Reports a fault with this code at the whole expression of an operand.
pub(crate) fn report_fault_at_operand(
    faults: &mut Vec<FaultAtTokens>,
    code: FaultCode,
    operand: Operand,
) -> Result<(), AllocError>
    ensures { OnOk result
        (faults.new.items ≡ faults.old.items ++ fault_at_operand code (operand_of operand)) }
{
    report_fault_at_token_range(faults, code, operand.first, operand.last)
}

impl<'t> CheckerState<'t> {
    /// Reports `TypeMismatch` at the operand if its type and the required type `wanted` are both
    /// known and differ. Returns `wanted` if the operand has this type, otherwise the unknown type.
    pub(crate) fn require_type(
        &self,
        faults: &mut Vec<FaultAtTokens>,
        wanted: TypeId,
        operand: Operand,
    ) -> Result<TypeId, AllocError>
        ensures { IfOk result (λ t. ReturnsAndReports faults.old.items faults.new.items t
            (require_type (facts_in self.now false) wanted (operand_of operand))) }
    {
        if !may_be_same_type(operand.of, wanted) {
            report_fault_at_operand(faults, FaultCode::TypeMismatch, operand)?;
        }
        Ok(required_type_or_unknown(operand.of, wanted))
    }

    /// Requires the type `wanted` of both operands of an operation. If `wanted` and an operand's
    /// type are both known and differ, reports `TypeMismatch` at that operand; if both operands
    /// differ, only at the left one. Returns `wanted` if both operands have this type, otherwise
    /// the unknown type.
    fn require_type_of_both_operands(
        &self,
        faults: &mut Vec<FaultAtTokens>,
        wanted: TypeId,
        left: Operand,
        right: Operand,
    ) -> Result<TypeId, AllocError>
        ensures { IfOk result (λ t. ReturnsAndReports faults.old.items faults.new.items t
            (require_type_of_both_operands (facts_in self.now false) wanted (operand_of left) (operand_of right))) }
    {
        if !may_be_same_type(left.of, wanted) {
            report_fault_at_operand(faults, FaultCode::TypeMismatch, left)?;
            return Ok(TypeId::Unknown);
        }
        let of = self.require_type(faults, wanted, right)?;
        if is_same_type(left.of, wanted) {
            Ok(of)
        } else {
            Ok(TypeId::Unknown)
        }
    }

    /// Reports the faults of an expression and returns its type, value and tokens as an `Operand`.
    /// If `only_constants` is true, a variable's name is a fault.
    #[cycle(expressions)]
    pub(crate) fn check_expression(
        &self,
        faults: &mut Vec<FaultAtTokens>,
        e: &Expression,
        only_constants: bool,
    ) -> Result<Operand, AllocError>
        ensures { IfOk result (λ o. ReturnsAndReports faults.old.items faults.new.items (operand_of o)
            (report_on_expression (facts_in self.now only_constants) (expression_of e.now))) }
    {
        match e {
            Expression::Factor(f) => self.check_factor(faults, f, only_constants),
            Expression::CompoundExpression(c) => self.check_compound_expression(
                faults,
                c,
                only_constants,
            ),
        }
    }

    #[cycle(expressions)]
    fn check_compound_expression(
        &self,
        faults: &mut Vec<FaultAtTokens>,
        c: &CompoundExpression,
        only_constants: bool,
    ) -> Result<Operand, AllocError>
        ensures { IfOk result (λ o. ReturnsAndReports faults.old.items faults.new.items (operand_of o)
            (report_on_expression (facts_in self.now only_constants) (compound_expression_of c.now))) }
    {
        let left = self.check_simple_expression(faults, &c.left, only_constants)?;
        match &c.compared {
            None => Ok(left),
            Some(compared) => {
                let compared: &Comparison = compared;
                let right = self.check_simple_expression(faults, &compared.right, only_constants)?;
                self.check_relation(faults, compared.relation, left, right)
            }
        }
    }

    /// Returns the operand for the comparison of `left` and `right`. Reports `TypeMismatch` if one
    /// of them has a known type other than the required one.
    fn check_relation(
        &self,
        faults: &mut Vec<FaultAtTokens>,
        relation: Relation,
        left: Operand,
        right: Operand,
    ) -> Result<Operand, AllocError>
        ensures { IfOk result (λ o. ReturnsAndReports faults.old.items faults.new.items (operand_of o)
            (check_relation (facts_in self.now false) relation (operand_of left)
            (operand_of right))) }
    {
        let wanted = operand_type_of_relation(relation, left.of);
        let of = self.require_type_of_both_operands(faults, wanted, left, right)?;
        let value = operators::value_of_relation(relation, left.value, right.value);
        Ok(left.joined_operand(right, type_of_comparison(of), value))
    }

    #[cycle(expressions)]
    fn check_simple_expression(
        &self,
        faults: &mut Vec<FaultAtTokens>,
        s: &SimpleExpression,
        only_constants: bool,
    ) -> Result<Operand, AllocError>
        ensures { IfOk result (λ o. ReturnsAndReports faults.old.items faults.new.items (operand_of o)
            (report_on_simple_expression (facts_in self.now only_constants) (simple_expression_of s.now))) }
    {
        let first = self.check_term(faults, &s.first, only_constants)?;
        let mut so_far = self.check_sign(faults, s.sign, first)?;
        for addend in &s.more {
            let right = self.check_term(faults, &addend.term, only_constants)?;
            so_far = self.check_sum(faults, addend.operator, so_far, right)?;
        }
        Ok(so_far)
    }

    /// Returns the operand for `left` and `right` joined by `+`, `-` or OR. Reports `TypeMismatch`
    /// if one of them has a known type other than the required one.
    fn check_sum(
        &self,
        faults: &mut Vec<FaultAtTokens>,
        operator: AddOperator,
        left: Operand,
        right: Operand,
    ) -> Result<Operand, AllocError>
        ensures { IfOk result (λ o. ReturnsAndReports faults.old.items faults.new.items (operand_of o)
            (check_sum (facts_in self.now false) operator (operand_of left)
            (operand_of right))) }
    {
        let of = self.require_type_of_both_operands(
            faults,
            operand_type_of_addition(operator),
            left,
            right,
        )?;
        let value = operators::value_of_sum(operator, left.value, right.value);
        Ok(left.joined_operand(right, of, value))
    }

    /// Returns the operand for `operand` with the optional sign `sign` before it. If there is a
    /// sign and `operand` has a known type other than INTEGER, reports `TypeMismatch`. Without a
    /// sign (None), returns `operand` unchanged.
    fn check_sign(
        &self,
        faults: &mut Vec<FaultAtTokens>,
        sign: Option<Sign>,
        operand: Operand,
    ) -> Result<Operand, AllocError>
        ensures { IfOk result (λ o. ReturnsAndReports faults.old.items faults.new.items (operand_of o)
            (check_sign (facts_in self.now false) sign (operand_of operand))) }
    {
        match sign {
            None => Ok(operand),
            Some(sign) => {
                let of = self.require_type(faults, TypeId::Integer, operand)?;
                let value = operators::signed_value(Some(sign), operand.value);
                Ok(operand.prefixed_operand(of, value))
            }
        }
    }

    #[cycle(expressions)]
    fn check_term(
        &self,
        faults: &mut Vec<FaultAtTokens>,
        t: &Term,
        only_constants: bool,
    ) -> Result<Operand, AllocError>
        ensures { IfOk result (λ o. ReturnsAndReports faults.old.items faults.new.items (operand_of o)
            (report_on_term (facts_in self.now only_constants) (term_of t.now))) }
    {
        let mut so_far = self.check_factor(faults, &t.first, only_constants)?;
        for multiplier in &t.more {
            let right = self.check_factor(faults, &multiplier.factor, only_constants)?;
            so_far = self.check_product(faults, multiplier.operator, so_far, right)?;
        }
        Ok(so_far)
    }

    /// Returns the operand for `left` and `right` joined by `*`, DIV, MOD or `&`. Reports
    /// `TypeMismatch` if one of them has a known type other than the required one.
    fn check_product(
        &self,
        faults: &mut Vec<FaultAtTokens>,
        operator: MultiplyOperator,
        left: Operand,
        right: Operand,
    ) -> Result<Operand, AllocError>
        ensures { IfOk result (λ o. ReturnsAndReports faults.old.items faults.new.items (operand_of o)
            (check_product (facts_in self.now false) operator (operand_of left)
            (operand_of right))) }
    {
        let of = self.require_type_of_both_operands(
            faults,
            operand_type_of_multiplication(operator),
            left,
            right,
        )?;
        let value = operators::value_of_product(operator, left.value, right.value);
        Ok(left.joined_operand(right, of, value))
    }

    #[cycle(expressions)]
    fn check_factor(
        &self,
        faults: &mut Vec<FaultAtTokens>,
        f: &Factor,
        only_constants: bool,
    ) -> Result<Operand, AllocError>
        ensures { IfOk result (λ o. ReturnsAndReports faults.old.items faults.new.items (operand_of o)
            (report_on_factor (facts_in self.now only_constants) (factor_of f.now))) }
    {
        match f {
            Factor::Designator(d) => {
                let base = self.operand_of_name(faults, d.name, only_constants)?;
                if d.selectors.is_empty() {
                    Ok(base)
                } else {
                    self.check_designator_selectors(faults, base, d, only_constants)
                }
            }
            Factor::Integer(token) => Ok(self.integer_operand(*token)),
            Factor::Parenthesised(e) => {
                let inside = self.check_expression(faults, e, only_constants)?;
                Ok(self.parenthesised_operand(inside))
            }
            Factor::Not(f) => {
                let operand = self.check_factor(faults, f, only_constants)?;
                self.check_negation(faults, operand)
            }
        }
    }

    /// Returns the operand for a number, which is an INTEGER constant at the token `token`.
    fn integer_operand(&self, token: usize) -> Operand
        ensures { operand_of result ≡ number_operand (facts_in self.now false) token }
    {
        let number = integer_value_at_token(self.resolved.tokens(), token);
        Operand {
            of: TypeId::Integer,
            value: Some(Scalar::Number(number)),
            may_be_variable: false,
            first: token,
            last: token,
        }
    }

    /// Returns the operand for an expression in parentheses. `inside` is the operand for the
    /// expression between the parentheses.
    fn parenthesised_operand(&self, inside: Operand) -> Operand
        ensures { operand_of result ≡ operand_in_parentheses (facts_in self.now false)
            (operand_of inside) }
    {
        Operand {
            of: inside.of,
            value: inside.value,
            may_be_variable: false,
            first: inside.first.saturating_sub(1),
            last: self.next_token_index(inside.last),
        }
    }

    /// Returns the operand for the negation `~` of `operand`. Reports `TypeMismatch` if `operand`
    /// has a known type other than BOOLEAN.
    fn check_negation(
        &self,
        faults: &mut Vec<FaultAtTokens>,
        operand: Operand,
    ) -> Result<Operand, AllocError>
        ensures { IfOk result (λ o. ReturnsAndReports faults.old.items faults.new.items (operand_of o)
            (check_negation (facts_in self.now false) (operand_of operand))) }
    {
        let of = self.require_type(faults, TypeId::Boolean, operand)?;
        Ok(operand.prefixed_operand(of, operators::value_of_negation(operand.value)))
    }

    /// Returns the operand for the name at a token. Reports `WrongKind` if the name is a type's or
    /// a procedure's, and `NotConstant` if it is a variable's and `only_constants` is true. In
    /// these cases, and if the name has no known meaning, the operand's type is unknown.
    fn operand_of_name(
        &self,
        faults: &mut Vec<FaultAtTokens>,
        token: usize,
        only_constants: bool,
    ) -> Result<Operand, AllocError>
        ensures { IfOk result (λ o. ReturnsAndReports faults.old.items faults.new.items (operand_of o)
            (name_operand (facts_in self.now only_constants) token)) }
    {
        let unknown = Operand {
            of: TypeId::Unknown,
            value: None,
            may_be_variable: true,
            first: token,
            last: token,
        };
        match self.meaning_of_name(token) {
            None => Ok(unknown),
            Some(meaning) => match meaning {
                Meaning::Constant(value) => Ok(constant_operand(*value, token)),
                Meaning::Variable(of) => {
                    if only_constants {
                        report_fault_at_token(faults, FaultCode::NotConstant, token)?;
                        return Ok(unknown);
                    }
                    Ok(unknown.operand_with_selector(*of, token))
                }
                Meaning::TypeName(_) => {
                    report_fault_at_token(faults, FaultCode::WrongKind, token)?;
                    Ok(unknown)
                }
                Meaning::Procedure(_) => {
                    report_fault_at_token(faults, FaultCode::WrongKind, token)?;
                    Ok(unknown)
                }
            },
        }
    }

    /// Returns the operand for the designator `d`, given the operand `base` for its name. Reports
    /// the faults of the designator's selectors.
    #[cycle(expressions)]
    pub(crate) fn check_designator_selectors(
        &self,
        faults: &mut Vec<FaultAtTokens>,
        base: Operand,
        d: &Designator,
        only_constants: bool,
    ) -> Result<Operand, AllocError>
        ensures { IfOk result (λ o. ReturnsAndReports faults.old.items faults.new.items (operand_of o)
            (report_on_selectors (facts_in self.now only_constants) (operand_of base)
            (selectors_of_designator d.now))) }
    {
        let mut so_far = base;
        for selector in &d.selectors {
            so_far = self.check_selector(faults, so_far, selector, only_constants)?;
        }
        Ok(so_far)
    }

    /// Returns the operand for a designator with one more selector, and reports this selector's
    /// faults. `base` is the operand for the designator without this selector.
    #[cycle(expressions)]
    fn check_selector(
        &self,
        faults: &mut Vec<FaultAtTokens>,
        base: Operand,
        selector: &Selector,
        only_constants: bool,
    ) -> Result<Operand, AllocError>
        ensures { IfOk result (λ o. ReturnsAndReports faults.old.items faults.new.items (operand_of o)
            (report_on_selector (facts_in self.now only_constants) (operand_of base)
            (selector_of selector.now))) }
    {
        match selector {
            Selector::Field(name) => self.select_field(faults, base, *name),
            Selector::Index(e) => {
                let index = self.check_expression(faults, e, only_constants)?;
                self.select_element(faults, base, index)
            }
        }
    }

    /// Returns the operand for the element that `index` selects in the array `base`, and reports
    /// the faults of this selection. The index must be INTEGER even if `base` isn't an array.
    fn select_element(
        &self,
        faults: &mut Vec<FaultAtTokens>,
        base: Operand,
        index: Operand,
    ) -> Result<Operand, AllocError>
        ensures { IfOk result (λ o. ReturnsAndReports faults.old.items faults.new.items (operand_of o)
            (element_operand (facts_in self.now false) (operand_of base) (operand_of index))) }
    {
        let index_type = self.require_type(faults, TypeId::Integer, index)?;
        let of = self.array_element_type(faults, base.of, index, index_type)?;
        Ok(base.operand_with_selector(of, self.next_token_index(index.last)))
    }

    /// Returns the element type of the array type `base`. Reports `NotArray` at the `[` before
    /// `index` if `base` is known and isn't an array type. Returns the unknown type if `base` isn't
    /// an array type or `index_type` isn't INTEGER.
    fn array_element_type(
        &self,
        faults: &mut Vec<FaultAtTokens>,
        base: TypeId,
        index: Operand,
        index_type: TypeId,
    ) -> Result<TypeId, AllocError>
        ensures { IfOk result (λ t. ReturnsAndReports faults.old.items faults.new.items t
            (element_type_from_form (facts_in self.now false) (operand_of index) index_type
            (form_of_type_in self.now.composites.items base))) }
    {
        match base {
            TypeId::Array(place) => {
                if is_same_type(index_type, TypeId::Integer) {
                    Ok(self.composite_element_type(place))
                } else {
                    Ok(TypeId::Unknown)
                }
            }
            TypeId::Unknown => Ok(TypeId::Unknown),
            TypeId::Integer => self.report_not_an_array(faults, index),
            TypeId::Boolean => self.report_not_an_array(faults, index),
            TypeId::Record(_) => self.report_not_an_array(faults, index),
        }
    }

    /// Reports `NotArray` at the `[` before the index, and returns the unknown type.
    fn report_not_an_array(
        &self,
        faults: &mut Vec<FaultAtTokens>,
        index: Operand,
    ) -> Result<TypeId, AllocError>
        ensures { IfOk result (λ t. ReturnsAndReports faults.old.items faults.new.items t
            (element_type_from_form (facts_in self.now false) (operand_of index) type.Integer
            (form_of_type_in [] type.Integer))) }
    {
        report_fault_at_token(faults, FaultCode::NotArray, index.first.saturating_sub(1))?;
        Ok(TypeId::Unknown)
    }

    /// Returns the operand for the field of the record `base` whose name is at the token `name`.
    /// Reports the faults of this selection.
    fn select_field(
        &self,
        faults: &mut Vec<FaultAtTokens>,
        base: Operand,
        name: usize,
    ) -> Result<Operand, AllocError>
        ensures { IfOk result (λ o. ReturnsAndReports faults.old.items faults.new.items (operand_of o)
            (field_operand (facts_in self.now false) (operand_of base) name)) }
    {
        let of = self.field_type(faults, base.of, name)?;
        Ok(base.operand_with_selector(of, name))
    }

    /// Returns the type of the field of the type `base` whose name is at the token `name`. Reports
    /// `NotRecord` if `base` is known and isn't a record, and `NoField` if the record has no such
    /// field. In both cases, and if `base` is unknown, the result is the unknown type.
    fn field_type(
        &self,
        faults: &mut Vec<FaultAtTokens>,
        base: TypeId,
        name: usize,
    ) -> Result<TypeId, AllocError>
        ensures { IfOk result (λ t. ReturnsAndReports faults.old.items faults.new.items t
            (field_type_from_form (facts_in self.now false) name (form_of_type_in self.now.composites.items base))) }
    {
        match base {
            TypeId::Record(place) => match self.composite_field_type(place, self.token_text(name)) {
                Some(of) => Ok(of),
                None => {
                    report_fault_at_token(faults, FaultCode::NoField, name)?;
                    Ok(TypeId::Unknown)
                }
            },
            TypeId::Unknown => Ok(TypeId::Unknown),
            TypeId::Integer => self.report_not_a_record(faults, name),
            TypeId::Boolean => self.report_not_a_record(faults, name),
            TypeId::Array(_) => self.report_not_a_record(faults, name),
        }
    }

    /// Reports `NotRecord` at the `.` before the field's name, and returns the unknown type.
    fn report_not_a_record(
        &self,
        faults: &mut Vec<FaultAtTokens>,
        name: usize,
    ) -> Result<TypeId, AllocError>
        ensures { IfOk result (λ t. ReturnsAndReports faults.old.items faults.new.items t
            (field_type_from_form (facts_in self.now false) name (form_of_type_in [] type.Integer))) }
    {
        report_fault_at_token(faults, FaultCode::NotRecord, name.saturating_sub(1))?;
        Ok(TypeId::Unknown)
    }

    /// Reports the faults of the right side of a constant's declaration. Returns its value, or None
    /// if its type is unknown or its evaluation fails.
    pub(crate) fn check_constant_expression(
        &self,
        faults: &mut Vec<FaultAtTokens>,
        e: &Expression,
    ) -> Result<Option<Scalar>, AllocError>
        ensures { IfOk result (λ v. ReturnsAndReports faults.old.items faults.new.items
            (option_map scalar_value v)
            (report_on_constant_expression (facts_in self.now true) (expression_of e.now))) }
    {
        let constant_operand = self.check_expression(faults, e, true)?;
        self.require_constant_value(faults, constant_operand)
    }

    /// Returns the value of a constant expression, given its operand. If the operand's type is
    /// unknown, returns None and reports nothing. If the type is known and there is no value, the
    /// evaluation failed: returns None and reports `ConstFault`.
    fn require_constant_value(
        &self,
        faults: &mut Vec<FaultAtTokens>,
        constant_operand: Operand,
    ) -> Result<Option<Scalar>, AllocError>
        ensures { IfOk result (λ v. ReturnsAndReports faults.old.items faults.new.items
            (option_map scalar_value v)
            (require_constant_value (facts_in self.now false) (operand_of constant_operand))) }
    {
        if is_same_type(constant_operand.of, TypeId::Unknown) {
            return Ok(None);
        }
        if constant_operand.value.is_none() {
            report_fault_at_operand(faults, FaultCode::ConstFault, constant_operand)?;
        }
        Ok(constant_operand.value)
    }
}

/// Returns the operand for a constant's name at a token. `value` is the constant's value, or None
/// if the constant's declaration has a fault.
fn constant_operand(value: Option<Scalar>, token: usize) -> Operand
    ensures { operand_of result
        ≡ constant_name_operand (type_id_representation []) (option_map scalar_value value) token }
{
    Operand {
        of: type_of_constant_value(value),
        value,
        may_be_variable: false,
        first: token,
        last: token,
    }
}

/// Returns the type of a constant with this value, or the unknown type for None.
fn type_of_constant_value(value: Option<Scalar>) -> TypeId
    ensures { result ≡ type_of_constant_value (type_id_representation []) (option_map scalar_value value) }
{
    match value {
        None => TypeId::Unknown,
        Some(value) => match value {
            Scalar::Number(_) => TypeId::Integer,
            Scalar::Truth(_) => TypeId::Boolean,
        },
    }
}
