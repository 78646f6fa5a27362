//! Parses declarations and blocks. The parameters `at` and `room` are described in `parser.rt`.

ghost use Rattle.std.specs.Prelude.{◌≤◌, length};
ghost use Rattle.ob0_tree.specs.View.{parameter_section_of, parameter_section_after_semicolon_of, formals_of, constant_declaration_of, constant_section_of, constant_declarations_of_vec, type_declaration_of, type_section_of, type_declarations_of_vec, variable_declaration_of, variable_section_of, variable_declarations_of_vec, body_of, block_of, procedure_of, procedures_of_vec};
ghost use Rattle.ob0_parse_descent.specs.ParserPromises.{Reads, ReadsList, ReadsItem, ReadsTypedNames, TellsIfParameterSectionStartsAt};

use crate::list_growth::push_with_doubling;
use crate::parser::{ConstructResult, ItemResult, Parser, levels_left_inside};
use ob0_scan::{ReservedWord, Symbol};
use ob0_tree::{
    Block, ConstantDeclaration, IdentifierList, ParameterSection, Procedure, Statement,
    TypeDeclaration, VariableDeclaration, WrittenType,
};

impl<'t> Parser<'t> {
    /// Parses names and their type, `names ":" type`.
    fn parse_typed_names(
        &self,
        at: usize,
        room: u32,
    ) -> ConstructResult<(IdentifierList, WrittenType)>
        requires { at ≤ length self.now.tokens.now }
        ensures { ReadsTypedNames room self.now.tokens.now at result }
    {
        let (names, next) = self.parse_names(at)?;
        let start = self.expect_symbol(next, Symbol::Colon)?;
        let (written, end) = self.parse_type(start, room)?;
        Ok(((names, written), end))
    }

    /// Parses a section of formal parameters, `[VAR] names ":" type`.
    fn parse_parameter_section(&self, at: usize, room: u32) -> ConstructResult<ParameterSection>
        requires { at ≤ length self.now.tokens.now }
        ensures { Reads parameter_section_of room self.now.tokens.now at result }
    {
        if self.has_reserved_word_at(at, ReservedWord::Var) {
            let ((names, written), end) = self.parse_typed_names(at + 1, room)?;
            let by_reference = true;
            return Ok((
                ParameterSection {
                    by_reference,
                    names,
                    written,
                },
                end,
            ));
        }
        let ((names, written), end) = self.parse_typed_names(at, room)?;
        let by_reference = false;
        Ok((
            ParameterSection {
                by_reference,
                names,
                written,
            },
            end,
        ))
    }

    /// Returns whether a section of formal parameters may begin at the token `at`.
    fn parameter_section_starts_at(&self, at: usize) -> bool
        requires { at ≤ length self.now.tokens.now }
        ensures { TellsIfParameterSectionStartsAt self.now.tokens.now at result }
    {
        if self.has_identifier_at(at) {
            return true;
        }
        self.has_reserved_word_at(at, ReservedWord::Var)
    }

    /// Parses a further section of formal parameters, `";" section`. Returns None if the token at
    /// `at` isn't `;`.
    fn parse_parameter_section_after_semicolon(
        &self,
        at: usize,
        room: u32,
    ) -> ItemResult<ParameterSection>
        requires { at ≤ length self.now.tokens.now }
        ensures { ReadsItem parameter_section_after_semicolon_of room self.now.tokens.now at
            result }
    {
        if !self.has_symbol_at(at, Symbol::Semicolon) {
            return Ok(None);
        }
        let (section, next) = self.parse_parameter_section(at + 1, room)?;
        Ok(Some((section, next)))
    }

    /// Parses the sections of formal parameters, `section {";" section}`.
    fn parse_parameter_section_list(
        &self,
        at: usize,
        room: u32,
    ) -> ConstructResult<Vec<ParameterSection>>
        requires { at ≤ length self.now.tokens.now }
        ensures { ReadsList parameter_section_of parameter_section_after_semicolon_of room
            self.now.tokens.now at result }
    {
        let mut sections = Vec::new(self.alloc);
        let (first, mut next) = self.parse_parameter_section(at, room)?;
        push_with_doubling(&mut sections, first)?;
        while let Some((section, end)) = self.parse_parameter_section_after_semicolon(next, room)? {
            push_with_doubling(&mut sections, section)?;
            next = end;
        }
        Ok((sections, next))
    }

    /// Parses optional formal parameters, `["(" [section {";" section}] ")"]`. The sections are
    /// None if the token at `at` isn't `(`.
    fn parse_formals(&self, at: usize, room: u32) -> ConstructResult<Option<Vec<ParameterSection>>>
        requires { at ≤ length self.now.tokens.now }
        ensures { Reads formals_of room self.now.tokens.now at result }
    {
        if !self.has_symbol_at(at, Symbol::LeftParen) {
            return Ok((None, at));
        }
        if !self.parameter_section_starts_at(at + 1) {
            let end = self.expect_symbol(at + 1, Symbol::RightParen)?;
            return Ok((Some(Vec::new(self.alloc)), end));
        }
        let (sections, next) = self.parse_parameter_section_list(at + 1, room)?;
        let end = self.expect_symbol(next, Symbol::RightParen)?;
        Ok((Some(sections), end))
    }

    /// Parses an optional CONST section, `[CONST {ident "=" expression ";"}]`. The list is None if
    /// the token at `at` isn't CONST.
    pub fn parse_constant_section(
        &self,
        at: usize,
        room: u32,
    ) -> ConstructResult<Option<Vec<ConstantDeclaration>>>
        requires { at ≤ length self.now.tokens.now }
        ensures { Reads constant_section_of room self.now.tokens.now at result }
    {
        if !self.has_reserved_word_at(at, ReservedWord::Const) {
            return Ok((None, at));
        }
        let (constants, next) = self.parse_constant_declarations(at + 1, room)?;
        Ok((Some(constants), next))
    }

    /// Parses the declarations of a CONST section, `{ident "=" expression ";"}`.
    fn parse_constant_declarations(
        &self,
        at: usize,
        room: u32,
    ) -> ConstructResult<Vec<ConstantDeclaration>>
        requires { at ≤ length self.now.tokens.now }
        ensures { Reads constant_declarations_of_vec room self.now.tokens.now at result }
    {
        let mut constants = Vec::new(self.alloc);
        let mut next = at;
        while let Some((constant, end)) = self.parse_constant_declaration(next, room)? {
            push_with_doubling(&mut constants, constant)?;
            next = end;
        }
        Ok((constants, next))
    }

    /// Parses the declaration of a constant, `ident "=" expression ";"`. Returns None if the token
    /// at `at` isn't an identifier.
    fn parse_constant_declaration(&self, at: usize, room: u32) -> ItemResult<ConstantDeclaration>
        requires { at ≤ length self.now.tokens.now }
        ensures { ReadsItem constant_declaration_of room self.now.tokens.now at result }
    {
        if !self.has_identifier_at(at) {
            return Ok(None);
        }
        let start = self.expect_symbol(at + 1, Symbol::Equal)?;
        let (value, next) = self.parse_expression(start, room)?;
        let end = self.expect_symbol(next, Symbol::Semicolon)?;
        Ok(Some((ConstantDeclaration { name: at, value }, end)))
    }

    /// Parses an optional TYPE section, `[TYPE {ident "=" type ";"}]`. The list is None if the
    /// token at `at` isn't TYPE.
    pub fn parse_type_section(
        &self,
        at: usize,
        room: u32,
    ) -> ConstructResult<Option<Vec<TypeDeclaration>>>
        requires { at ≤ length self.now.tokens.now }
        ensures { Reads type_section_of room self.now.tokens.now at result }
    {
        if !self.has_reserved_word_at(at, ReservedWord::Type) {
            return Ok((None, at));
        }
        let (types, next) = self.parse_type_declarations(at + 1, room)?;
        Ok((Some(types), next))
    }

    /// Parses the declarations of a TYPE section, `{ident "=" type ";"}`.
    fn parse_type_declarations(&self, at: usize, room: u32) -> ConstructResult<Vec<TypeDeclaration>>
        requires { at ≤ length self.now.tokens.now }
        ensures { Reads type_declarations_of_vec room self.now.tokens.now at result }
    {
        let mut types = Vec::new(self.alloc);
        let mut next = at;
        while let Some((declaration, end)) = self.parse_type_declaration(next, room)? {
            push_with_doubling(&mut types, declaration)?;
            next = end;
        }
        Ok((types, next))
    }

    /// Parses the declaration of a type, `ident "=" type ";"`. Returns None if the token at `at`
    /// isn't an identifier.
    fn parse_type_declaration(&self, at: usize, room: u32) -> ItemResult<TypeDeclaration>
        requires { at ≤ length self.now.tokens.now }
        ensures { ReadsItem type_declaration_of room self.now.tokens.now at result }
    {
        if !self.has_identifier_at(at) {
            return Ok(None);
        }
        let start = self.expect_symbol(at + 1, Symbol::Equal)?;
        let (written, next) = self.parse_type(start, room)?;
        let end = self.expect_symbol(next, Symbol::Semicolon)?;
        Ok(Some((TypeDeclaration { name: at, written }, end)))
    }

    /// Parses an optional VAR section, `[VAR {names ":" type ";"}]`. The list is None if the token
    /// at `at` isn't VAR.
    pub fn parse_variable_section(
        &self,
        at: usize,
        room: u32,
    ) -> ConstructResult<Option<Vec<VariableDeclaration>>>
        requires { at ≤ length self.now.tokens.now }
        ensures { Reads variable_section_of room self.now.tokens.now at result }
    {
        if !self.has_reserved_word_at(at, ReservedWord::Var) {
            return Ok((None, at));
        }
        let (variables, next) = self.parse_variable_declarations(at + 1, room)?;
        Ok((Some(variables), next))
    }

    /// Parses the declarations of a VAR section, `{names ":" type ";"}`.
    fn parse_variable_declarations(
        &self,
        at: usize,
        room: u32,
    ) -> ConstructResult<Vec<VariableDeclaration>>
        requires { at ≤ length self.now.tokens.now }
        ensures { Reads variable_declarations_of_vec room self.now.tokens.now at result }
    {
        let mut variables = Vec::new(self.alloc);
        let mut next = at;
        while let Some((declared, end)) = self.parse_variable_declaration(next, room)? {
            push_with_doubling(&mut variables, declared)?;
            next = end;
        }
        Ok((variables, next))
    }

    /// Parses a declaration of variables, `names ":" type ";"`. Returns None if the token at `at`
    /// isn't an identifier.
    fn parse_variable_declaration(&self, at: usize, room: u32) -> ItemResult<VariableDeclaration>
        requires { at ≤ length self.now.tokens.now }
        ensures { ReadsItem variable_declaration_of room self.now.tokens.now at result }
    {
        if !self.has_identifier_at(at) {
            return Ok(None);
        }
        let ((names, written), next) = self.parse_typed_names(at, room)?;
        let end = self.expect_symbol(next, Symbol::Semicolon)?;
        Ok(Some((VariableDeclaration { names, written }, end)))
    }

    /// Parses the optional body of a block, `[BEGIN sequence]`. The statements are None if the
    /// token at `at` isn't BEGIN.
    pub fn parse_body(&self, at: usize, room: u32) -> ConstructResult<Option<Vec<Statement>>>
        requires { at ≤ length self.now.tokens.now }
        ensures { Reads body_of room self.now.tokens.now at result }
    {
        if !self.has_reserved_word_at(at, ReservedWord::Begin) {
            return Ok((None, at));
        }
        let (statements, next) = self.parse_sequence(at + 1, room)?;
        Ok((Some(statements), next))
    }

    /// Parses a block: declarations and an optional body.
    #[cycle(blocks)]
    fn parse_block(&self, at: usize, room: u32) -> ConstructResult<Block>
        requires { at ≤ length self.now.tokens.now }
        ensures { Reads block_of room self.now.tokens.now at result }
    {
        let (constants, next) = self.parse_constant_section(at, room)?;
        let (types, next) = self.parse_type_section(next, room)?;
        let (variables, next) = self.parse_variable_section(next, room)?;
        let (procedures, next) = self.parse_procedures(next, room)?;
        let (body, next) = self.parse_body(next, room)?;
        Ok((
            Block {
                constants,
                types,
                variables,
                procedures,
                body,
            },
            next,
        ))
    }

    /// Parses the procedures of a block, `{procedure ";"}`.
    #[cycle(blocks)]
    fn parse_procedures(&self, at: usize, room: u32) -> ConstructResult<Vec<Procedure>>
        requires { at ≤ length self.now.tokens.now }
        ensures { Reads procedures_of_vec room self.now.tokens.now at result }
    {
        let mut procedures = Vec::new(self.alloc);
        let mut next = at;
        while let Some((procedure, end)) = self.parse_procedure(next, room)? {
            push_with_doubling(&mut procedures, procedure)?;
            next = end;
        }
        Ok((procedures, next))
    }

    /// Parses a procedure, `PROCEDURE ident [formals] ";" block END ident ";"`. Returns None if the
    /// token at `at` isn't PROCEDURE.
    #[cycle(blocks)]
    pub fn parse_procedure(&self, at: usize, room: u32) -> ItemResult<Procedure>
        requires { at ≤ length self.now.tokens.now }
        ensures { ReadsItem procedure_of room self.now.tokens.now at result }
    {
        if !self.has_reserved_word_at(at, ReservedWord::Procedure) {
            return Ok(None);
        }
        let inner = levels_left_inside(at, room)?;
        let (name, next) = self.expect_identifier(at + 1)?;
        let (formals, next) = self.parse_formals(next, inner)?;
        let start = self.expect_symbol(next, Symbol::Semicolon)?;
        let (block, next) = self.parse_block(start, inner)?;
        let last = self.expect_reserved_word(next, ReservedWord::End)?;
        let (closing, next) = self.expect_identifier(last)?;
        let end = self.expect_symbol(next, Symbol::Semicolon)?;
        Ok(Some((
            Procedure {
                name,
                formals,
                block,
                closing,
            },
            end,
        )))
    }
}
