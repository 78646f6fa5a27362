//! Walks the declarations in text order and reports their faults. Records the meaning of each
//! declaration, which the check of the later text needs.

ghost use Rattle.std.specs.Prelude.{◌≡◌, ◌∷◌, ◌++◌, [], map, IfOk, OnOk};
ghost use Rattle.ob0_language_names.specs.BlockParts.{formal_parameter_sections, section_constants, section_types, section_variables};
ghost use Rattle.ob0_tree.specs.View.{block_of, body_of, constant_declaration_of, constant_section_of, formals_of, parameter_section_after_semicolon_of, items_of, procedure_of, type_declaration_of, type_section_of, variable_declaration_of, variable_section_of};
ghost use Rattle.ob0_types_check.specs.DeclarationFaults.{body_faults, report_body_if_wanted, report_on_block, report_on_constant_declaration, report_on_constant_declarations, report_on_procedure, report_on_procedures, report_on_parameter_section, report_on_parameter_sections, report_on_type_declaration, report_on_type_declarations, report_on_variable_group, report_on_variable_declarations};
ghost use Rattle.ob0_types_check.specs.TypesAndMeanings.{a_variable};
ghost use Rattle.ob0_types_check.specs.OperandFaults.{ReturnsAndReports};
ghost use Rattle.ob0_types_check.specs.KnownDeclarations.{define_listed_names};
ghost use Rattle.ob0_types_check.specs.WalksOverSomeBodies.{includes_body, walk_progress_of};
ghost use Rattle.ob0_types_check.specs.CheckerViews.{heading_in_state, declarations_in_state};

use crate::reporting::checker_state::{CheckerState, Meaning};
use crate::reporting::{BodiesToWalk, ReportingWalk};
use ob0_scope_table::FaultAtTokens;
use ob0_tree::{
    Block, ConstantDeclaration, IdentifierList, ParameterSection, Procedure, Statement,
    TypeDeclaration, VariableDeclaration,
};
use ob0_types_table::{FormalParameter, TypeId};
use std::alloc::AllocError;

/// Appends the parameter `formal` to `formals`, once for each name in `names`. All these parameters
/// have the same type, and all are VAR or all are value parameters.
fn add_formal_parameters(
    names: &IdentifierList,
    formal: FormalParameter,
    formals: &mut Vec<FormalParameter>,
) -> Result<(), AllocError>
    ensures { OnOk result (formals.new.items
        ≡ formals.old.items ++ map (λ name. formal) (names.now.first ∷ names.now.more.items)) }
{
    formals.push(formal)?;
    for _name in &names.more {
        formals.push(formal)?;
    }
    Ok(())
}

impl<'t> CheckerState<'t> {
    /// Records that each name in `names` is a variable of the type `of`.
    fn define_listed_names(&mut self, names: &IdentifierList, of: TypeId)
        ensures { declarations_in_state self.new
            ≡ define_listed_names (declarations_in_state self.old) (a_variable of)
            (names.now.first ∷ names.now.more.items) }
    {
        self.define_name_at_token(names.first, Meaning::Variable(of));
        for name in &names.more {
            self.define_name_at_token(*name, Meaning::Variable(of));
        }
    }

    /// Reports the faults of a body's statements. A missing body (None) has no faults.
    fn report_body(
        &self,
        faults: &mut Vec<FaultAtTokens>,
        body: &Option<Vec<Statement>>,
    ) -> Result<(), AllocError>
        ensures { OnOk result (faults.new.items
            ≡ faults.old.items
            ++ body_faults (declarations_in_state self.now) (body_of body.now)) }
    {
        match body {
            None => Ok(()),
            Some(statements) => self.report_sequence(faults, statements),
        }
    }
}

impl<'t> ReportingWalk<'t> {
    /// Reports the faults of a block: constants, types, variables, procedures, and then the
    /// statements if `wanted` includes the block's body. `own` is the token of the block's closing
    /// name. Appends to `bodies_with_faults` the closing name of each walked body that has a fault.
    #[cycle(blocks)]
    pub(crate) fn report_block(
        &mut self,
        bodies_with_faults: &mut Vec<usize>,
        wanted: &BodiesToWalk<'_>,
        b: &Block,
        own: usize,
    ) -> Result<(), AllocError>
        ensures { OnOk result (ReturnsAndReports self.old.faults.items self.new.faults.items
            (walk_progress_of self.new.checker_state bodies_with_faults.new.items) (report_on_block (includes_body wanted.now) own
            (walk_progress_of self.old.checker_state bodies_with_faults.old.items) (block_of b.now))) }
    {
        self.report_constant_section(&b.constants)?;
        self.report_type_section(&b.types)?;
        self.report_variable_section(&b.variables)?;
        self.report_procedures(bodies_with_faults, wanted, &b.procedures)?;
        self.report_body_if_wanted(bodies_with_faults, wanted.includes_body(own), own, &b.body)
    }

    #[cycle(blocks)]
    fn report_procedures(
        &mut self,
        bodies_with_faults: &mut Vec<usize>,
        wanted: &BodiesToWalk<'_>,
        procedures: &Vec<Procedure>,
    ) -> Result<(), AllocError>
        ensures { OnOk result (ReturnsAndReports self.old.faults.items self.new.faults.items
            (walk_progress_of self.new.checker_state bodies_with_faults.new.items) (report_on_procedures (includes_body wanted.now)
            (walk_progress_of self.old.checker_state bodies_with_faults.old.items)
            (items_of procedure_of procedures.now.items))) }
    {
        for p in procedures {
            self.report_procedure(bodies_with_faults, wanted, p)?;
        }
        Ok(())
    }

    /// Reports the faults of a procedure. The meaning of the procedure's name is recorded after the
    /// heading and before the block is walked. So the procedure's own body can call the procedure.
    #[cycle(blocks)]
    fn report_procedure(
        &mut self,
        bodies_with_faults: &mut Vec<usize>,
        wanted: &BodiesToWalk<'_>,
        p: &Procedure,
    ) -> Result<(), AllocError>
        ensures { OnOk result (ReturnsAndReports self.old.faults.items self.new.faults.items
            (walk_progress_of self.new.checker_state bodies_with_faults.new.items) (report_on_procedure (includes_body wanted.now)
            (walk_progress_of self.old.checker_state bodies_with_faults.old.items) (procedure_of p.now))) }
    {
        let formals = self.report_heading(&p.formals)?;
        self.checker_state
            .define_name_at_token(p.name, Meaning::Procedure(formals));
        self.report_block(bodies_with_faults, wanted, &p.block, p.closing)
    }

    /// If `wanted` is true, reports the faults of a body. If the body has a fault, also appends
    /// `own`, the closing name of the body's block, to `bodies_with_faults`. If `wanted` is false,
    /// does nothing.
    fn report_body_if_wanted(
        &mut self,
        bodies_with_faults: &mut Vec<usize>,
        wanted: bool,
        own: usize,
        statements: &Option<Vec<Statement>>,
    ) -> Result<(), AllocError>
        ensures { OnOk result (ReturnsAndReports self.old.faults.items self.new.faults.items
            (walk_progress_of self.new.checker_state bodies_with_faults.new.items) (report_body_if_wanted wanted own
            (walk_progress_of self.old.checker_state bodies_with_faults.old.items) (body_of statements.now))) }
    {
        if !wanted {
            return Ok(());
        }
        let before = self.faults.len();
        self.checker_state
            .report_body(&mut self.faults, statements)?;
        if self.faults.len() > before {
            bodies_with_faults.push(own)?;
        }
        Ok(())
    }

    /// Reports the faults of a procedure's heading, declares the parameters as variables, and
    /// returns the parameters.
    fn report_heading(
        &mut self,
        sections: &Option<Vec<ParameterSection>>,
    ) -> Result<Vec<FormalParameter>, AllocError>
        ensures { IfOk result (λ formals. ReturnsAndReports self.old.faults.items self.new.faults.items
            (heading_in_state self.new.checker_state formals.items) (report_on_parameter_sections
            (record { formals = []; following = declarations_in_state self.old.checker_state })
            (formal_parameter_sections (formals_of sections.now)))) }
    {
        let mut formals = Vec::new(self.alloc);
        self.report_parameter_sections_if_any(sections, &mut formals)?;
        Ok(formals)
    }

    /// Reports the faults of a heading's sections and appends their parameters to `formals`. Does
    /// nothing if the heading has no sections (None).
    fn report_parameter_sections_if_any(
        &mut self,
        sections: &Option<Vec<ParameterSection>>,
        formals: &mut Vec<FormalParameter>,
    ) -> Result<(), AllocError>
        ensures { OnOk result (ReturnsAndReports self.old.faults.items self.new.faults.items
            (heading_in_state self.new.checker_state formals.new.items) (report_on_parameter_sections
            (heading_in_state self.old.checker_state formals.old.items)
            (formal_parameter_sections (formals_of sections.now)))) }
    {
        match sections {
            None => Ok(()),
            Some(sections) => self.report_parameter_sections(sections.as_slice(), formals),
        }
    }

    /// Reports the faults of a heading's sections, one after another, and appends their parameters
    /// to `formals`.
    fn report_parameter_sections(
        &mut self,
        sections: &[ParameterSection],
        formals: &mut Vec<FormalParameter>,
    ) -> Result<(), AllocError>
        ensures { OnOk result (ReturnsAndReports self.old.faults.items self.new.faults.items
            (heading_in_state self.new.checker_state formals.new.items) (report_on_parameter_sections
            (heading_in_state self.old.checker_state formals.old.items)
            (items_of parameter_section_after_semicolon_of sections.now))) }
    {
        for s in sections {
            self.report_parameter_section(s, formals)?;
        }
        Ok(())
    }

    /// Reports the faults of the type in one section of a heading. For each name in the section,
    /// appends a parameter of this type to `formals` and declares a variable.
    fn report_parameter_section(
        &mut self,
        s: &ParameterSection,
        formals: &mut Vec<FormalParameter>,
    ) -> Result<(), AllocError>
        ensures { OnOk result (ReturnsAndReports self.old.faults.items self.new.faults.items
            (heading_in_state self.new.checker_state formals.new.items) (report_on_parameter_section
            (heading_in_state self.old.checker_state formals.old.items) (parameter_section_after_semicolon_of s.now))) }
    {
        let of = self.check_written_type(&s.written)?;
        let formal = FormalParameter {
            by_place: s.by_reference,
            of,
        };
        add_formal_parameters(&s.names, formal, formals)?;
        self.checker_state.define_listed_names(&s.names, of);
        Ok(())
    }

    fn report_constant_section(
        &mut self,
        section: &Option<Vec<ConstantDeclaration>>,
    ) -> Result<(), AllocError>
        ensures { OnOk result (ReturnsAndReports self.old.faults.items self.new.faults.items
            (declarations_in_state self.new.checker_state) (report_on_constant_declarations (declarations_in_state self.old.checker_state)
            (section_constants (constant_section_of section.now)))) }
    {
        match section {
            None => Ok(()),
            Some(constants) => self.report_constant_declarations(constants.as_slice()),
        }
    }

    fn report_constant_declarations(
        &mut self,
        constants: &[ConstantDeclaration],
    ) -> Result<(), AllocError>
        ensures { OnOk result (ReturnsAndReports self.old.faults.items self.new.faults.items
            (declarations_in_state self.new.checker_state) (report_on_constant_declarations (declarations_in_state self.old.checker_state)
            (items_of constant_declaration_of constants.now))) }
    {
        for c in constants {
            self.report_constant_declaration(c)?;
        }
        Ok(())
    }

    fn report_constant_declaration(&mut self, c: &ConstantDeclaration) -> Result<(), AllocError>
        ensures { OnOk result (ReturnsAndReports self.old.faults.items self.new.faults.items
            (declarations_in_state self.new.checker_state)
            (report_on_constant_declaration (declarations_in_state self.old.checker_state) (constant_declaration_of c.now))) }
    {
        let value = self
            .checker_state
            .check_constant_expression(&mut self.faults, &c.value)?;
        self.checker_state
            .define_name_at_token(c.name, Meaning::Constant(value));
        Ok(())
    }

    fn report_type_section(
        &mut self,
        section: &Option<Vec<TypeDeclaration>>,
    ) -> Result<(), AllocError>
        ensures { OnOk result (ReturnsAndReports self.old.faults.items self.new.faults.items
            (declarations_in_state self.new.checker_state)
            (report_on_type_declarations (declarations_in_state self.old.checker_state) (section_types (type_section_of section.now)))) }
    {
        match section {
            None => Ok(()),
            Some(types) => self.report_type_declarations(types.as_slice()),
        }
    }

    fn report_type_declarations(&mut self, types: &[TypeDeclaration]) -> Result<(), AllocError>
        ensures { OnOk result (ReturnsAndReports self.old.faults.items self.new.faults.items
            (declarations_in_state self.new.checker_state) (report_on_type_declarations (declarations_in_state self.old.checker_state)
            (items_of type_declaration_of types.now))) }
    {
        for d in types {
            self.report_type_declaration(d)?;
        }
        Ok(())
    }

    fn report_type_declaration(&mut self, d: &TypeDeclaration) -> Result<(), AllocError>
        ensures { OnOk result (ReturnsAndReports self.old.faults.items self.new.faults.items
            (declarations_in_state self.new.checker_state)
            (report_on_type_declaration (declarations_in_state self.old.checker_state) (type_declaration_of d.now))) }
    {
        let of = self.check_written_type(&d.written)?;
        self.checker_state
            .define_name_at_token(d.name, Meaning::TypeName(of));
        Ok(())
    }

    fn report_variable_section(
        &mut self,
        section: &Option<Vec<VariableDeclaration>>,
    ) -> Result<(), AllocError>
        ensures { OnOk result (ReturnsAndReports self.old.faults.items self.new.faults.items
            (declarations_in_state self.new.checker_state) (report_on_variable_declarations (declarations_in_state self.old.checker_state)
            (section_variables (variable_section_of section.now)))) }
    {
        match section {
            None => Ok(()),
            Some(variables) => self.report_variable_declarations(variables.as_slice()),
        }
    }

    fn report_variable_declarations(
        &mut self,
        variables: &[VariableDeclaration],
    ) -> Result<(), AllocError>
        ensures { OnOk result (ReturnsAndReports self.old.faults.items self.new.faults.items
            (declarations_in_state self.new.checker_state) (report_on_variable_declarations (declarations_in_state self.old.checker_state)
            (items_of variable_declaration_of variables.now))) }
    {
        for v in variables {
            self.report_variable_group(v)?;
        }
        Ok(())
    }

    fn report_variable_group(&mut self, v: &VariableDeclaration) -> Result<(), AllocError>
        ensures { OnOk result (ReturnsAndReports self.old.faults.items self.new.faults.items
            (declarations_in_state self.new.checker_state)
            (report_on_variable_group (declarations_in_state self.old.checker_state) (variable_declaration_of v.now))) }
    {
        let of = self.check_written_type(&v.written)?;
        self.checker_state.define_listed_names(&v.names, of);
        Ok(())
    }
}
