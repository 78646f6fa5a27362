//! Reports the faults of statements.

ghost use Rattle.std.specs.Prelude.{◌≡◌, ◌++◌, false, map, IfOk, OnOk, Some};
ghost use Rattle.ob0_scan.specs.declared.fault.FaultCode.TheVariants as code;
ghost use Rattle.ob0_tree.specs.View.{assignment_of, call_of, elsifs_of_vec, expression_of, if_of, sequence_of_vec, statement_of};
ghost use Rattle.ob0_types_check.specs.TypesAndMeanings.{a_procedure};
ghost use Rattle.ob0_types_check.specs.OperandFaults.{ReturnsAndReports, fault_at_token};
ghost use Rattle.ob0_types_check.specs.StatementFaults.{check_assigned_name, call_faults_from_meaning, require_type_of_argument, faults_of_argument, faults_of_expression_of_type, call_faults, condition_faults, elsif_faults, untyped_argument_faults, sequence_faults, statement_faults};
ghost use Rattle.ob0_types_check.specs.CheckerViews.{facts_in, known_parameter_of, operand_of};

use crate::reporting::checker_state::{CheckerState, Meaning, report_fault_at_token};
use crate::reporting::expressions::{Operand, report_fault_at_operand};
use ob0_scan::FaultCode;
use ob0_scope_table::FaultAtTokens;
use ob0_tree::{Assignment, Call, Elsif, Expression, If, Repeat, Statement, While};
use ob0_types_table::{FormalParameter, TypeId};
use std::alloc::AllocError;

impl<'t> CheckerState<'t> {
    /// Reports the faults of a sequence of statements, one statement after another.
    #[cycle(statements)]
    pub(crate) fn report_sequence(
        &self,
        faults: &mut Vec<FaultAtTokens>,
        statements: &Vec<Statement>,
    ) -> Result<(), AllocError>
        ensures { OnOk result (faults.new.items
            ≡ faults.old.items
            ++ sequence_faults (facts_in self.now false) (sequence_of_vec statements.now)) }
    {
        for s in statements {
            self.report_statement_faults(faults, s)?;
        }
        Ok(())
    }

    /// Reports the faults of a statement, including the statements inside it.
    #[cycle(statements)]
    fn report_statement_faults(
        &self,
        faults: &mut Vec<FaultAtTokens>,
        s: &Statement,
    ) -> Result<(), AllocError>
        ensures { OnOk result (faults.new.items
            ≡ faults.old.items
            ++ statement_faults (facts_in self.now false) (statement_of s.now)) }
    {
        match s {
            Statement::Empty => Ok(()),
            Statement::Assign(a) => self.report_assignment(faults, a),
            Statement::Call(c) => self.report_call_statement(faults, c),
            Statement::If(i) => self.report_if_statement(faults, i),
            Statement::While(w) => {
                let w: &While = w;
                self.report_condition(faults, &w.condition)?;
                self.report_sequence(faults, &w.body)
            }
            Statement::Repeat(r) => {
                let r: &Repeat = r;
                self.report_sequence(faults, &r.body)?;
                self.report_condition(faults, &r.condition)
            }
        }
    }

    /// Reports the faults of an IF statement with its ELSIF and ELSE parts.
    #[cycle(statements)]
    fn report_if_statement(&self, faults: &mut Vec<FaultAtTokens>, i: &If) -> Result<(), AllocError>
        ensures { OnOk result (faults.new.items
            ≡ faults.old.items ++ statement_faults (facts_in self.now false) (if_of i.now)) }
    {
        self.report_condition(faults, &i.condition)?;
        self.report_sequence(faults, &i.then)?;
        self.report_elsifs(faults, &i.elsifs)?;
        match &i.otherwise {
            None => Ok(()),
            Some(statements) => self.report_sequence(faults, statements),
        }
    }

    #[cycle(statements)]
    fn report_elsifs(
        &self,
        faults: &mut Vec<FaultAtTokens>,
        parts: &Vec<Elsif>,
    ) -> Result<(), AllocError>
        ensures { OnOk result (faults.new.items
            ≡ faults.old.items ++ elsif_faults (facts_in self.now false) (elsifs_of_vec parts.now)) }
    {
        for part in parts {
            self.report_condition(faults, &part.condition)?;
            self.report_sequence(faults, &part.then)?;
        }
        Ok(())
    }

    /// Reports the faults of a condition, which must be BOOLEAN.
    fn report_condition(
        &self,
        faults: &mut Vec<FaultAtTokens>,
        e: &Expression,
    ) -> Result<(), AllocError>
        ensures { OnOk result (faults.new.items
            ≡ faults.old.items
            ++ condition_faults (facts_in self.now false) (expression_of e.now)) }
    {
        self.report_expression_of_type(faults, TypeId::Boolean, e)
    }

    /// Reports the faults of an expression that must have the type `wanted`.
    fn report_expression_of_type(
        &self,
        faults: &mut Vec<FaultAtTokens>,
        wanted: TypeId,
        e: &Expression,
    ) -> Result<(), AllocError>
        ensures { OnOk result (faults.new.items
            ≡ faults.old.items
            ++ faults_of_expression_of_type (facts_in self.now false) wanted (expression_of e.now)) }
    {
        let operand = self.check_expression(faults, e, false)?;
        self.require_type(faults, wanted, operand)?;
        Ok(())
    }

    /// Reports the faults of an assignment. If the target has a fault, its type is unknown, so the
    /// right side may have any type.
    fn report_assignment(
        &self,
        faults: &mut Vec<FaultAtTokens>,
        a: &Assignment,
    ) -> Result<(), AllocError>
        ensures { OnOk result (faults.new.items
            ≡ faults.old.items
            ++ statement_faults (facts_in self.now false) (assignment_of a.now)) }
    {
        let token = a.target.name;
        let base = Operand {
            of: self.check_assigned_name(faults, token)?,
            value: None,
            may_be_variable: true,
            first: token,
            last: token,
        };
        let target = self.check_designator_selectors(faults, base, &a.target, false)?;
        self.report_expression_of_type(faults, target.of, &a.value)
    }

    /// Returns the type of the variable or parameter to which the assigned name at `token` refers.
    /// Reports `NotVariable` at a constant's name, and `WrongKind` at a type's or procedure's. In
    /// these cases, and if the name has no known meaning, returns the unknown type.
    fn check_assigned_name(
        &self,
        faults: &mut Vec<FaultAtTokens>,
        token: usize,
    ) -> Result<TypeId, AllocError>
        ensures { IfOk result (λ t. ReturnsAndReports faults.old.items faults.new.items t
            (check_assigned_name (facts_in self.now false) token)) }
    {
        match self.meaning_of_name(token) {
            None => Ok(TypeId::Unknown),
            Some(meaning) => match meaning {
                Meaning::Variable(of) => Ok(*of),
                Meaning::Constant(_) => {
                    report_fault_at_token(faults, FaultCode::NotVariable, token)?;
                    Ok(TypeId::Unknown)
                }
                Meaning::TypeName(_) => {
                    report_fault_at_token(faults, FaultCode::WrongKind, token)?;
                    Ok(TypeId::Unknown)
                }
                Meaning::Procedure(_) => {
                    report_fault_at_token(faults, FaultCode::WrongKind, token)?;
                    Ok(TypeId::Unknown)
                }
            },
        }
    }

    fn report_call_statement(
        &self,
        faults: &mut Vec<FaultAtTokens>,
        call: &Call,
    ) -> Result<(), AllocError>
        ensures { OnOk result (faults.new.items
            ≡ faults.old.items ++ statement_faults (facts_in self.now false) (call_of call.now)) }
    {
        match &call.arguments {
            None => self.report_call(faults, call.procedure, &[]),
            Some(arguments) => self.report_call(faults, call.procedure, arguments.as_slice()),
        }
    }

    /// Reports the faults of a call. The arguments must fit the parameters of the called procedure.
    /// If the called name isn't a procedure's, `WrongKind` is reported at the name. In this case,
    /// and if the name has no known meaning, the arguments may have any type.
    fn report_call(
        &self,
        faults: &mut Vec<FaultAtTokens>,
        procedure: usize,
        arguments: &[Expression],
    ) -> Result<(), AllocError>
        ensures { OnOk result (faults.new.items
            ≡ faults.old.items
            ++ call_faults (facts_in self.now false) procedure
            (map expression_of arguments.now)) }
    {
        match self.meaning_of_name(procedure) {
            None => self.report_untyped_arguments(faults, arguments),
            Some(meaning) => match meaning {
                Meaning::Procedure(formals) => {
                    self.report_arguments(faults, procedure, formals.as_slice(), arguments)
                }
                Meaning::TypeName(_) => self.report_not_a_procedure(faults, procedure, arguments),
                Meaning::Constant(_) => self.report_not_a_procedure(faults, procedure, arguments),
                Meaning::Variable(_) => self.report_not_a_procedure(faults, procedure, arguments),
            },
        }
    }

    /// Reports `WrongKind` at a called name that isn't a procedure's. Then reports the faults of
    /// the arguments, which may have any type.
    fn report_not_a_procedure(
        &self,
        faults: &mut Vec<FaultAtTokens>,
        procedure: usize,
        arguments: &[Expression],
    ) -> Result<(), AllocError>
        ensures { OnOk result (faults.new.items
            ≡ faults.old.items
            ++ (fault_at_token code.WrongKind procedure
            ++ untyped_argument_faults (facts_in self.now false) (map expression_of arguments.now))) }
    {
        report_fault_at_token(faults, FaultCode::WrongKind, procedure)?;
        self.report_untyped_arguments(faults, arguments)
    }

    /// Reports the faults of arguments that may have any type.
    fn report_untyped_arguments(
        &self,
        faults: &mut Vec<FaultAtTokens>,
        arguments: &[Expression],
    ) -> Result<(), AllocError>
        ensures { OnOk result (faults.new.items
            ≡ faults.old.items
            ++ untyped_argument_faults (facts_in self.now false) (map expression_of arguments.now)) }
    {
        for e in arguments {
            self.check_expression(faults, e, false)?;
        }
        Ok(())
    }

    /// Reports the faults of a procedure call's arguments. If the number of arguments is wrong,
    /// reports only `ArgumentCount`, at the token `procedure`.
    fn report_arguments(
        &self,
        faults: &mut Vec<FaultAtTokens>,
        procedure: usize,
        formals: &[FormalParameter],
        arguments: &[Expression],
    ) -> Result<(), AllocError>
        ensures { OnOk result (faults.new.items
            ≡ faults.old.items
            ++ call_faults_from_meaning (facts_in self.now false) procedure
            (Some (a_procedure (map known_parameter_of formals.now))) (map expression_of arguments.now)) }
    {
        if formals.len() != arguments.len() {
            return report_fault_at_token(faults, FaultCode::ArgumentCount, procedure);
        }
        for (formal, e) in formals.iter().zip(arguments.iter()) {
            self.report_argument(faults, formal, e)?;
        }
        Ok(())
    }

    /// Reports the faults of one argument, including a mismatch with its formal parameter.
    fn report_argument(
        &self,
        faults: &mut Vec<FaultAtTokens>,
        formal: &FormalParameter,
        e: &Expression,
    ) -> Result<(), AllocError>
        ensures { OnOk result (faults.new.items
            ≡ faults.old.items
            ++ faults_of_argument (facts_in self.now false) (known_parameter_of formal.now)
            (expression_of e.now)) }
    {
        let operand = self.check_expression(faults, e, false)?;
        self.check_argument_operand(faults, formal, operand)?;
        Ok(())
    }

    /// Reports a fault if an argument, given its operand, doesn't fit its formal parameter. Reports
    /// `NotVariable` if a VAR parameter gets an argument that can't be a variable, otherwise
    /// `TypeMismatch` if both types are known and differ. Returns the parameter's type if the
    /// argument has it and nothing is reported, otherwise the unknown type.
    fn check_argument_operand(
        &self,
        faults: &mut Vec<FaultAtTokens>,
        formal: &FormalParameter,
        operand: Operand,
    ) -> Result<TypeId, AllocError>
        ensures { IfOk result (λ t. ReturnsAndReports faults.old.items faults.new.items t
            (require_type_of_argument (facts_in self.now false) (known_parameter_of formal.now) (operand_of operand))) }
    {
        if formal.by_place && !operand.may_be_variable {
            report_fault_at_operand(faults, FaultCode::NotVariable, operand)?;
            return Ok(TypeId::Unknown);
        }
        self.require_type(faults, formal.of, operand)
    }
}
