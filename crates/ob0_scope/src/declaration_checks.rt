//! Finds the duplicate declarations, duplicate fields and wrong closing names of a module. A
//! declaration is a duplicate if an earlier name in its block has the same spelling. A field is a
//! duplicate if an earlier field of its record has the same spelling.
//!
//! `DeclarationFaultCollector` has the faults found so far, and each check appends more faults. If
//! a block or record has at most 16 names, each name is compared with all names before it. If there
//! are more, the names are inserted into a set.

ghost use Rattle.std.specs.Prelude.{◌≡◌, ◌++◌, [], IfOk, OnOk, map, not};
ghost use Rattle.std.specs.List.{list_any};
ghost use Rattle.ob0_tree.specs.ParsedModule.{named_tree_of};
ghost use Rattle.ob0_tree.specs.TokenIndexLeaves.{token_text_at};
ghost use Rattle.ob0_tree.specs.View.{items_of, names_of, type_of, record_type_of, optional_field_group_of, constant_section_of, type_section_of, variable_section_of, formals_of, procedure_of, block_of};
ghost use Rattle.ob0_language_names.specs.Names.{same_name};
ghost use Rattle.ob0_language_names.specs.BlockParts.{names_in_list, constant_names, declared_type_names, variable_names, formal_parameter_names, formal_parameter_sections, section_constants, section_types, section_variables};
ghost use Rattle.ob0_language_names.specs.ConsistentNames.{names_declared_in_block, has_consistent_names, group_field_names, is_among, procedure_names};
ghost use Rattle.ob0_scope_table.specs.Resolution.{is_duplicate_or_end_name_fault};
ghost use Rattle.ob0_scope_table.specs.DuplicatesAndEndNames.{duplicate_faults, block_declaration_faults, closing_name_faults, duplicate_field_faults, duplicate_field_faults_in_formals, duplicate_field_faults_in_group, procedure_declaration_faults, declaration_faults, duplicate_field_faults_in_types, fault_unless, duplicate_field_faults_in_variables};

use ob0_scan::{FaultCode, Tokens};
use ob0_scope_table::{FaultAtTokens, fault_at_token, is_duplicate_or_end_name_fault};
use ob0_tree::{
    Block, ConstantDeclaration, IdentifierList, Module, OptionalFieldGroup, ParameterSection,
    Procedure, RecordType, TypeDeclaration, VariableDeclaration, WrittenType, token_text_at,
};
use std::alloc::{AllocError, Global};
use std::collections::BTreeSet;
use std::marker::Model;

/// The greatest number of names in a block or record for which each name is compared with all names
/// before it. If there are more names, they are inserted into a set.
const MAX_NAMES_COMPARED_PAIRWISE: usize = 16;

/// The duplicate declarations, duplicate fields and wrong closing names found so far.
#[derive(Drop)]
struct DeclarationFaultCollector {
    alloc: Global,
    faults: Vec<FaultAtTokens>,
}

impl Model for DeclarationFaultCollector {
    ghost use Rattle.std.specs.Prelude.{List};
    ghost use Rattle.ob0_scope_table.specs.declared.faults.FaultAtTokens.{FaultAtTokens};

    ghost Value = { List FaultAtTokens };

    ghost view = { λ c. c.faults.items };
}

/// Returns the duplicate declarations, duplicate fields and wrong closing names of a module.
pub(crate) fn check_declarations<'t>(
    alloc: Global,
    read: &'t Module<'t>,
) -> Result<Vec<FaultAtTokens>, AllocError>
    ensures { IfOk result (λ faults. faults.items ≡ declaration_faults read.now) }
{
    let mut checks = DeclarationFaultCollector {
        alloc,
        faults: Vec::new(alloc),
    };
    checks.check_closing_name(read.tokens(), read.name(), read.closing_name())?;
    checks.check_block(read.tokens(), Vec::new(alloc), read.block())?;
    Ok(checks.into_faults())
}

/// Returns the duplicate declarations, duplicate fields and wrong closing names of a changed
/// module, as `check_declarations` does. `known` has the faults from before the change. `known`
/// must contain such a fault exactly if the changed module has one. If `known` contains no such
/// fault, the module isn't walked, and the result is an empty list.
pub(crate) fn recheck_declarations<'t>(
    alloc: Global,
    read: &'t Module<'t>,
    known: &[FaultAtTokens],
) -> Result<Vec<FaultAtTokens>, AllocError>
    requires { list_any is_duplicate_or_end_name_fault known.now
        ≡ not (has_consistent_names (named_tree_of read.now)) }
    ensures { IfOk result (λ faults. faults.items ≡ declaration_faults read.now) }
{
    if has_duplicate_or_end_name_fault(known) {
        return check_declarations(alloc, read);
    }
    Ok(Vec::new(alloc))
}

/// Returns whether one of the faults is a duplicate declaration or field, or a wrong closing name.
fn has_duplicate_or_end_name_fault(faults: &[FaultAtTokens]) -> bool
    ensures { result ≡ list_any is_duplicate_or_end_name_fault faults.now }
{
    for fault in faults {
        if is_duplicate_or_end_name_fault(fault) {
            return true;
        }
    }
    false
}

/// Returns whether two identifiers have the same spelling.
fn have_same_spelling(tokens: &Tokens, a: usize, b: usize) -> bool
    ensures { result ≡ same_name (token_text_at tokens.now a) (token_text_at tokens.now b) }
{
    token_text_at(tokens, a) == token_text_at(tokens, b)
}

/// Returns whether one of the identifiers in `names` has the spelling `text`.
fn contains_spelling(tokens: &Tokens, names: &[usize], text: &str) -> bool
    ensures { result ≡ is_among text.now (map (token_text_at tokens.now) names.now) }
{
    for name in names {
        if text == token_text_at(tokens, *name) {
            return true;
        }
    }
    false
}

/// Appends to `out` the tokens of the names in a list.
fn append_names(out: &mut Vec<usize>, ns: &IdentifierList) -> Result<(), AllocError>
    ensures { OnOk result (out.new.items ≡ out.old.items ++ names_in_list (names_of ns.now)) }
{
    out.push(ns.first)?;
    for name in &ns.more {
        out.push(*name)?;
    }
    Ok(())
}

/// Appends to `out` the tokens of the names in a group of fields.
fn append_field_names(out: &mut Vec<usize>, group: &OptionalFieldGroup) -> Result<(), AllocError>
    ensures { OnOk result (out.new.items ≡ out.old.items
        ++ group_field_names (optional_field_group_of group.now)) }
{
    match group {
        OptionalFieldGroup::Empty => Ok(()),
        OptionalFieldGroup::Listed(list) => append_names(out, &list.names),
    }
}

/// Appends to `out` the tokens of the names that a CONST section declares.
pub(crate) fn append_constant_names(
    out: &mut Vec<usize>,
    section: &Option<Vec<ConstantDeclaration>>,
) -> Result<(), AllocError>
    ensures { OnOk result (out.new.items
        ≡ out.old.items ++ constant_names (section_constants (constant_section_of section.now))) }
{
    if let Some(constants) = section {
        for c in constants {
            out.push(c.name)?;
        }
    }
    Ok(())
}

/// Appends to `out` the tokens of the names that a TYPE section declares.
pub(crate) fn append_type_names(
    out: &mut Vec<usize>,
    section: &Option<Vec<TypeDeclaration>>,
) -> Result<(), AllocError>
    ensures { OnOk result
        (out.new.items ≡ out.old.items ++ declared_type_names (section_types (type_section_of section.now))) }
{
    if let Some(types) = section {
        for t in types {
            out.push(t.name)?;
        }
    }
    Ok(())
}

/// Appends to `out` the tokens of the names that a VAR section declares.
pub(crate) fn append_variable_names(
    out: &mut Vec<usize>,
    section: &Option<Vec<VariableDeclaration>>,
) -> Result<(), AllocError>
    ensures { OnOk result (out.new.items
        ≡ out.old.items ++ variable_names (section_variables (variable_section_of section.now))) }
{
    if let Some(variables) = section {
        for v in variables {
            append_names(out, &v.names)?;
        }
    }
    Ok(())
}

/// Appends to `out` the tokens of the names of formal parameters.
pub(crate) fn append_formal_parameter_names(
    out: &mut Vec<usize>,
    formals: &Option<Vec<ParameterSection>>,
) -> Result<(), AllocError>
    ensures { OnOk result
        (out.new.items ≡ out.old.items ++ formal_parameter_names (formal_parameter_sections (formals_of formals.now))) }
{
    let Some(sections) = formals else {
        return Ok(());
    };
    for s in sections {
        append_names(out, &s.names)?;
    }
    Ok(())
}

/// Appends to `out` the token of each procedure's name.
fn append_procedure_names(out: &mut Vec<usize>, procedures: &[Procedure]) -> Result<(), AllocError>
    ensures { OnOk result
        (out.new.items ≡ out.old.items ++ procedure_names (items_of procedure_of procedures.now)) }
{
    for p in procedures {
        out.push(p.name)?;
    }
    Ok(())
}

/// Appends to `out` the tokens of the names that a block declares: constants, types, variables and
/// procedures. The parameters of the block's procedure aren't included.
pub(crate) fn append_block_names(out: &mut Vec<usize>, b: &Block) -> Result<(), AllocError>
    ensures { OnOk result (out.new.items ≡ out.old.items
        ++ names_declared_in_block (block_of b.now)) }
{
    append_constant_names(out, &b.constants)?;
    append_type_names(out, &b.types)?;
    append_variable_names(out, &b.variables)?;
    append_procedure_names(out, &b.procedures)
}

impl DeclarationFaultCollector {
    /// Returns the faults found so far.
    fn into_faults(self) -> Vec<FaultAtTokens>
        ensures { result.items ≡ self }
    {
        let DeclarationFaultCollector { alloc: _, faults } = self;
        faults
    }

    /// Reports the fault `fault` if `holds` is false.
    fn report_unless(&mut self, holds: bool, fault: FaultAtTokens) -> Result<(), AllocError>
        ensures { OnOk result (self.new ≡ self.old ++ fault_unless holds fault) }
    {
        if !holds {
            self.faults.push(fault)?;
        }
        Ok(())
    }

    /// Reports the closing name if it differs from the name of its module or procedure.
    fn check_closing_name(
        &mut self,
        tokens: &Tokens,
        name: usize,
        closing: usize,
    ) -> Result<(), AllocError>
        ensures { OnOk result (self.new
            ≡ self.old ++ closing_name_faults (token_text_at tokens.now) name closing) }
    {
        let fault = fault_at_token(FaultCode::EndName, closing);
        self.report_unless(have_same_spelling(tokens, name, closing), fault)
    }

    /// Reports each name in the list that is spelled like an earlier name.
    fn report_duplicates(&mut self, tokens: &Tokens, names: &[usize]) -> Result<(), AllocError>
        ensures { OnOk result (self.new
            ≡ self.old ++ duplicate_faults (token_text_at tokens.now) [] names.now) }
    {
        if names.len() <= MAX_NAMES_COMPARED_PAIRWISE {
            self.report_duplicates_pairwise(tokens, names)
        } else {
            self.report_duplicates_by_set(tokens, names)
        }
    }

    /// Reports each name in the list that is spelled like an earlier name. Each name is compared
    /// with all names before it, so the list should be short.
    fn report_duplicates_pairwise(
        &mut self,
        tokens: &Tokens,
        names: &[usize],
    ) -> Result<(), AllocError>
        ensures { OnOk result (self.new
            ≡ self.old ++ duplicate_faults (token_text_at tokens.now) [] names.now) }
    {
        for (index, name) in names.iter().enumerate() {
            let is_second = contains_spelling(
                tokens,
                &names[..index],
                token_text_at(tokens, *name),
            );
            self.report_unless(!is_second, fault_at_token(FaultCode::Duplicate, *name))?;
        }
        Ok(())
    }

    /// Reports each name in the list that is spelled like an earlier name. Each name is looked up
    /// in the set of the names before it.
    fn report_duplicates_by_set(
        &mut self,
        tokens: &Tokens,
        names: &[usize],
    ) -> Result<(), AllocError>
        ensures { OnOk result (self.new
            ≡ self.old ++ duplicate_faults (token_text_at tokens.now) [] names.now) }
    {
        let mut seen = BTreeSet::new(self.alloc);
        for name in names {
            let added = seen.insert(token_text_at(tokens, *name))?;
            self.report_unless(added, fault_at_token(FaultCode::Duplicate, *name))?;
        }
        Ok(())
    }

    /// Reports the duplicate fields of all records in a type that is written in the text.
    #[cycle(types)]
    fn report_duplicate_fields_in_type(
        &mut self,
        tokens: &Tokens,
        t: &WrittenType,
    ) -> Result<(), AllocError>
        ensures { OnOk result (self.new
            ≡ self.old ++ duplicate_field_faults (token_text_at tokens.now) (type_of t.now)) }
    {
        match t {
            WrittenType::Named(_) => Ok(()),
            WrittenType::Array(a) => self.report_duplicate_fields_in_type(tokens, &a.element),
            WrittenType::Record(r) => self.report_duplicate_fields_in_record(tokens, r),
        }
    }

    /// Reports the duplicate fields of a record, and then the duplicate fields of the records
    /// inside it.
    #[cycle(types)]
    fn report_duplicate_fields_in_record(
        &mut self,
        tokens: &Tokens,
        r: &RecordType,
    ) -> Result<(), AllocError>
        ensures { OnOk result (self.new
            ≡ self.old
            ++ duplicate_field_faults (token_text_at tokens.now) (record_type_of r.now)) }
    {
        let mut names = Vec::with_capacity(self.alloc, MAX_NAMES_COMPARED_PAIRWISE)?;
        for group in &r.groups {
            append_field_names(&mut names, group)?;
        }
        self.report_duplicates(tokens, &names)?;
        for group in &r.groups {
            self.report_duplicate_fields_in_group(tokens, group)?;
        }
        Ok(())
    }

    /// Reports the duplicate fields of the records in the type of a group of fields.
    #[cycle(types)]
    fn report_duplicate_fields_in_group(
        &mut self,
        tokens: &Tokens,
        f: &OptionalFieldGroup,
    ) -> Result<(), AllocError>
        ensures { OnOk result (self.new
            ≡ self.old
            ++ duplicate_field_faults_in_group (token_text_at tokens.now) (optional_field_group_of f.now)) }
    {
        match f {
            OptionalFieldGroup::Empty => Ok(()),
            OptionalFieldGroup::Listed(l) => self.report_duplicate_fields_in_type(
                tokens, &l.written,
            ),
        }
    }

    /// Reports the duplicate fields of the records in the types of a TYPE section.
    fn report_duplicate_fields_in_type_section(
        &mut self,
        tokens: &Tokens,
        section: &Option<Vec<TypeDeclaration>>,
    ) -> Result<(), AllocError>
        ensures { OnOk result (self.new
            ≡ self.old
            ++ duplicate_field_faults_in_types (token_text_at tokens.now)
            (section_types (type_section_of section.now))) }
    {
        if let Some(types) = section {
            for t in types {
                self.report_duplicate_fields_in_type(tokens, &t.written)?;
            }
        }
        Ok(())
    }

    /// Reports the duplicate fields of the records in the types of a VAR section.
    fn report_duplicate_fields_in_variable_section(
        &mut self,
        tokens: &Tokens,
        section: &Option<Vec<VariableDeclaration>>,
    ) -> Result<(), AllocError>
        ensures { OnOk result (self.new
            ≡ self.old
            ++ duplicate_field_faults_in_variables (token_text_at tokens.now)
            (section_variables (variable_section_of section.now))) }
    {
        if let Some(variables) = section {
            for v in variables {
                self.report_duplicate_fields_in_type(tokens, &v.written)?;
            }
        }
        Ok(())
    }

    /// Reports the duplicate fields of the records in the types of formal parameters.
    fn report_duplicate_fields_in_formals(
        &mut self,
        tokens: &Tokens,
        formals: &Option<Vec<ParameterSection>>,
    ) -> Result<(), AllocError>
        ensures { OnOk result (self.new
            ≡ self.old
            ++ duplicate_field_faults_in_formals (token_text_at tokens.now)
            (formal_parameter_sections (formals_of formals.now))) }
    {
        if let Some(sections) = formals {
            for s in sections {
                self.report_duplicate_fields_in_type(tokens, &s.written)?;
            }
        }
        Ok(())
    }

    /// Reports a procedure's closing name if it differs from the procedure's name. Then reports the
    /// duplicate fields in the types of the parameters, and the faults in the procedure's block
    /// (`check_block`).
    #[cycle(blocks)]
    fn check_procedure(&mut self, tokens: &Tokens, p: &Procedure) -> Result<(), AllocError>
        ensures { OnOk result (self.new
            ≡ self.old
            ++ procedure_declaration_faults (token_text_at tokens.now) (procedure_of p.now)) }
    {
        self.check_closing_name(tokens, p.name, p.closing)?;
        self.report_duplicate_fields_in_formals(tokens, &p.formals)?;
        let mut own = Vec::with_capacity(self.alloc, MAX_NAMES_COMPARED_PAIRWISE)?;
        append_formal_parameter_names(&mut own, &p.formals)?;
        self.check_block(tokens, own, &p.block)
    }

    /// Reports the duplicate declarations of a block, the duplicate fields in its types and
    /// variables, and then all faults of its procedures (`check_procedure`). `own` has the tokens
    /// of the parameters, which count as declared in the block.
    #[cycle(blocks)]
    fn check_block(&mut self, tokens: &Tokens, own: Vec<usize>, b: &Block) -> Result<(), AllocError>
        ensures { OnOk result (self.new
            ≡ self.old
            ++ block_declaration_faults (token_text_at tokens.now) own.items (block_of b.now)) }
    {
        let mut names = own;
        append_constant_names(&mut names, &b.constants)?;
        append_type_names(&mut names, &b.types)?;
        append_variable_names(&mut names, &b.variables)?;
        append_procedure_names(&mut names, &b.procedures)?;
        self.report_duplicates(tokens, &names)?;
        self.report_duplicate_fields_in_type_section(tokens, &b.types)?;
        self.report_duplicate_fields_in_variable_section(tokens, &b.variables)?;
        for p in &b.procedures {
            self.check_procedure(tokens, p)?;
        }
        Ok(())
    }
}
