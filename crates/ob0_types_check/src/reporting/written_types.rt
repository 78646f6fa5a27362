//! Reports the faults of written types, which are type names, array types and record types. Makes
//! the checker's representation of each (`TypeId`).

ghost use Rattle.std.specs.Prelude.{◌≡◌, ◌∷◌, ◌++◌, [], false, IfOk, OnOk, Some};
ghost use Rattle.ob0_types_table.specs.declared.types.TypeId.TheVariants as type;
ghost use Rattle.ob0_tree.specs.Tree.{array_type, some_fields};
ghost use Rattle.ob0_tree.specs.View.{expression_of, optional_field_group_of, field_group_after_semicolon_of, items_of, names_of, record_type_of, type_of};
ghost use Rattle.ob0_language_types.specs.Typing.{array_length_from_value};
ghost use Rattle.ob0_language_values.specs.Scalars.{scalar_value};
ghost use Rattle.ob0_types_check.specs.TypesAndMeanings.{a_variable};
ghost use Rattle.ob0_types_check.specs.OperandFaults.{ReturnsAndReports};
ghost use Rattle.ob0_types_check.specs.KnownDeclarations.{zero_size};
ghost use Rattle.ob0_types_check.specs.CheckerViews.{CodeFindsFieldsAndReports, CodeFieldsMatchKnownFields, facts_in, known_fields_of, operand_of, size_of, declarations_in_state};
ghost use Rattle.ob0_types_check.specs.TypeFaults.{length_from_operand, type_from_meaning, check_type_name};
ghost use Rattle.ob0_types_check.specs.WrittenTypeFaults.{make_array_type, no_known_fields, make_record_type, record_keyword_token, report_on_field_group, report_on_further_field_groups, report_on_written_type, append_known_field, append_known_fields};
ghost use Rattle.ob0_types_check.specs.WrittenTypeFaults as spec;

use crate::reporting::ReportingWalk;
use crate::reporting::checker_state::{
    CheckerState, Meaning, TypeSize, ZERO_SIZE, report_fault_at_token, sum_or_error,
};
use crate::reporting::expressions::{Operand, is_same_type, report_fault_at_operand};
use ob0_language_values::Scalar;
use ob0_scan::FaultCode;
use ob0_scope_table::FaultAtTokens;
use ob0_tree::{
    ArrayType, FieldGroup, IdentifierList, OptionalFieldGroup, RecordType, WrittenType,
};
use ob0_types_table::{ArrayShape, Field, FieldTable, MAX_SCALARS, RecordShape, TypeEntry, TypeId};
use std::alloc::{AllocError, Global};

/// Returns the length of an array whose length expression has this value. Returns None unless the
/// value is a number from 1 to 65,536.
fn array_length_from_value(value: Scalar) -> Option<usize>
    ensures { result ≡ array_length_from_value (scalar_value value) }
{
    match value {
        Scalar::Number(n) => {
            if n < 1 {
                return None;
            }
            let length = n as usize;
            if length <= MAX_SCALARS {
                Some(length)
            } else {
                None
            }
        }
        Scalar::Truth(_) => None,
    }
}

/// The fields of a record type that were found so far, in order, and their total size.
#[derive(Drop)]
pub(crate) struct KnownFields {
    fields: Vec<Field>,
    size: TypeSize,
}

impl KnownFields {
    /// Returns an empty list of fields, with no scalars and depth 0.
    fn new(alloc: Global) -> KnownFields
        ensures fields { known_fields_of result.fields.items ≡ [] }
        ensures size { size_of result.size ≡ zero_size }
    {
        KnownFields {
            fields: Vec::new(alloc),
            size: ZERO_SIZE,
        }
    }

    /// Appends a field with this name and the type `of`. The total size isn't changed, because
    /// `add_known_field` adds the field's size.
    fn add(&mut self, alloc: Global, name: &str, of: TypeId) -> Result<(), AllocError>
        ensures fields { OnOk result (known_fields_of self.new.fields.items
            ≡ known_fields_of self.old.fields.items ++ record { name = name.now; of = of } ∷ []) }
        ensures size { OnOk result (self.new.size ≡ self.old.size) }
    {
        let name = String::from_str(alloc, name)?;
        self.fields.push(Field { name, of })?;
        Ok(())
    }
}

/// Returns the token index of the word RECORD, given the record's groups of fields. Between RECORD
/// and the first field's name there are only semicolons, one for each empty group before this name.
/// Returns 0 if the record has no fields.
fn record_keyword_token(groups: &[OptionalFieldGroup]) -> usize
    ensures { result ≡ record_keyword_token (items_of field_group_after_semicolon_of groups.now) }
{
    for (before, group) in groups.iter().enumerate() {
        match group {
            OptionalFieldGroup::Empty => {}
            OptionalFieldGroup::Listed(list) => {
                let first = list.names.first;
                return first.saturating_sub(1).saturating_sub(before);
            }
        }
    }
    0
}

impl<'t> CheckerState<'t> {
    /// Returns the type to which the name at `token` refers. Reports `WrongKind` if the name isn't
    /// a type's. In this case, and if the name has no known meaning, returns the unknown type.
    fn check_type_name(
        &self,
        faults: &mut Vec<FaultAtTokens>,
        token: usize,
    ) -> Result<TypeId, AllocError>
        ensures { IfOk result (λ t. ReturnsAndReports faults.old.items faults.new.items t
            (check_type_name (facts_in self.now false) token)) }
    {
        match self.meaning_of_name(token) {
            None => Ok(TypeId::Unknown),
            Some(meaning) => match meaning {
                Meaning::TypeName(of) => Ok(*of),
                Meaning::Constant(_) => self.report_not_a_type(faults, token),
                Meaning::Variable(_) => self.report_not_a_type(faults, token),
                Meaning::Procedure(_) => self.report_not_a_type(faults, token),
            },
        }
    }

    /// Reports `WrongKind` at a name that isn't a type's, and returns the unknown type.
    fn report_not_a_type(
        &self,
        faults: &mut Vec<FaultAtTokens>,
        token: usize,
    ) -> Result<TypeId, AllocError>
        ensures { IfOk result (λ t. ReturnsAndReports faults.old.items faults.new.items t
            (type_from_meaning (facts_in self.now false) token (Some (a_variable type.Integer)))) }
    {
        report_fault_at_token(faults, FaultCode::WrongKind, token)?;
        Ok(TypeId::Unknown)
    }

    /// Returns the length of an array, given the operand of its length expression. Reports
    /// `TypeMismatch` if the operand isn't INTEGER, `ConstFault` if it has no value, and
    /// `ArrayLength` if the value isn't from 1 to 65,536. In these cases, and if the operand's type
    /// is unknown, returns None. An unknown type isn't reported.
    fn check_array_length(
        &self,
        faults: &mut Vec<FaultAtTokens>,
        operand: Operand,
    ) -> Result<Option<usize>, AllocError>
        ensures { IfOk result (λ n. ReturnsAndReports faults.old.items faults.new.items n
            (length_from_operand (facts_in self.now false) (operand_of operand))) }
    {
        let of = self.require_type(faults, TypeId::Integer, operand)?;
        if !is_same_type(of, TypeId::Integer) {
            return Ok(None);
        }
        let Some(value) = operand.value else {
            report_fault_at_operand(faults, FaultCode::ConstFault, operand)?;
            return Ok(None);
        };
        let length = array_length_from_value(value);
        if length.is_none() {
            report_fault_at_operand(faults, FaultCode::ArrayLength, operand)?;
        }
        Ok(length)
    }
}

impl<'t> ReportingWalk<'t> {
    /// Reports the faults of a written type and returns the type. Faulty parts of the type are
    /// unknown.
    pub(crate) fn check_written_type(&mut self, t: &WrittenType) -> Result<TypeId, AllocError>
        ensures { IfOk result (λ of. ReturnsAndReports self.old.faults.items self.new.faults.items
            (record { of = of; following = declarations_in_state self.new.checker_state })
            (report_on_written_type 0 (declarations_in_state self.old.checker_state) (type_of t.now))) }
    {
        self.check_nested_type(t, 0)
    }

    /// Reports the faults of a written type and returns the type. `around` is the number of arrays
    /// and records that enclose it.
    #[cycle(types)]
    fn check_nested_type(&mut self, t: &WrittenType, around: usize) -> Result<TypeId, AllocError>
        ensures { IfOk result
            (λ of. ReturnsAndReports self.old.faults.items self.new.faults.items
            (record { of = of; following = declarations_in_state self.new.checker_state })
            (report_on_written_type around (declarations_in_state self.old.checker_state)
            (type_of t.now))) }
    {
        match t {
            WrittenType::Named(name) => self.checker_state.check_type_name(&mut self.faults, *name),
            WrittenType::Array(a) => self.check_array_type(a, around),
            WrittenType::Record(r) => self.check_record_type(r, around),
        }
    }

    /// Reports the faults of an array type and returns the type. `around` is the number of arrays
    /// and records that enclose it.
    #[cycle(types)]
    fn check_array_type(&mut self, a: &ArrayType, around: usize) -> Result<TypeId, AllocError>
        ensures { IfOk result
            (λ of. ReturnsAndReports self.old.faults.items self.new.faults.items
            (record { of = of; following = declarations_in_state self.new.checker_state }) (report_on_written_type
            around (declarations_in_state self.old.checker_state)
            (array_type (expression_of a.now.size) (type_of a.now.element.value)))) }
    {
        let ordinal = self.checker_state.next_type_ordinal(around)?;
        let size = self
            .checker_state
            .check_expression(&mut self.faults, &a.size, true)?;
        let length = self
            .checker_state
            .check_array_length(&mut self.faults, size)?;
        let inside = sum_or_error(around, 1)?;
        let element = self.check_nested_type(&a.element, inside)?;
        self.make_array_type(ordinal, size, length, element)
    }

    /// Makes an array type and returns it. `size` is the operand of the length's expression.
    /// `ordinal` counts the words ARRAY and RECORD before the type's own word ARRAY, which is the
    /// token before the length. If the length has a fault (`length` is None), returns the unknown
    /// type. If the type is too large, reports `TypeTooLarge` at the word ARRAY and returns the
    /// unknown type.
    fn make_array_type(
        &mut self,
        ordinal: usize,
        size: Operand,
        length: Option<usize>,
        element: TypeId,
    ) -> Result<TypeId, AllocError>
        ensures { IfOk result (λ of. ReturnsAndReports self.old.faults.items self.new.faults.items
            (record { of = of; following = declarations_in_state self.new.checker_state }) (make_array_type ordinal
            (operand_of size) length
            (record { of = element; following = declarations_in_state self.old.checker_state }))) }
    {
        match length {
            None => Ok(TypeId::Unknown),
            Some(length) => {
                let word = size.first.saturating_sub(1);
                let size = self.checker_state.size_of(element).size_of_array(length);
                let array = ArrayShape {
                    ordinal,
                    length,
                    element,
                    scalars: size.scalars,
                    depth: size.depth,
                };
                self.checker_state
                    .make_composite_type(&mut self.faults, word, TypeEntry::Array(array))
            }
        }
    }

    /// Reports the faults of a record type and returns the type. `around` is the number of arrays
    /// and records that enclose it.
    #[cycle(types)]
    fn check_record_type(&mut self, r: &RecordType, around: usize) -> Result<TypeId, AllocError>
        ensures { IfOk result
            (λ of. ReturnsAndReports self.old.faults.items self.new.faults.items
            (record { of = of; following = declarations_in_state self.new.checker_state })
            (report_on_written_type around (declarations_in_state self.old.checker_state)
            (record_type_of r.now))) }
    {
        let ordinal = self.checker_state.next_type_ordinal(around)?;
        let word = record_keyword_token(&r.groups);
        let inside = sum_or_error(around, 1)?;
        let gathered = self.check_field_groups(r.groups.as_slice(), inside)?;
        self.make_record_type(word, ordinal, gathered)
    }

    /// Reports the faults of all groups of fields of a record, and returns the fields. `around` is
    /// the number of arrays and records that enclose the fields.
    #[cycle(types)]
    fn check_field_groups(
        &mut self,
        groups: &[OptionalFieldGroup],
        around: usize,
    ) -> Result<KnownFields, AllocError>
        ensures { IfOk result (λ gathered.
            CodeFindsFieldsAndReports self.old.faults.items self.new.faults.items self.new.checker_state gathered
            (report_on_further_field_groups around (no_known_fields
            (declarations_in_state self.old.checker_state))
            (items_of field_group_after_semicolon_of groups.now))) }
    {
        let mut gathered = KnownFields::new(self.alloc);
        for group in groups {
            self.check_optional_field_group(group, &mut gathered, around)?;
        }
        Ok(gathered)
    }

    /// Makes a record type of the gathered fields and returns it. `word` is the token of its word
    /// RECORD. `ordinal` counts the words ARRAY and RECORD before this token. If the type is too
    /// large, reports `TypeTooLarge` at `word` and returns the unknown type.
    fn make_record_type(
        &mut self,
        word: usize,
        ordinal: usize,
        gathered: KnownFields,
    ) -> Result<TypeId, AllocError>
        ensures { (g : spec.KnownFields)
            → CodeFieldsMatchKnownFields g self.old.checker_state gathered
            → IfOk result (λ of. ReturnsAndReports self.old.faults.items self.new.faults.items
            (record { of = of; following = declarations_in_state self.new.checker_state })
            (make_record_type word ordinal g)) }
    {
        let KnownFields { fields, size } = gathered;
        let size = size.size_of_record();
        let fields = FieldTable::new(fields)?;
        let record = RecordShape {
            ordinal,
            fields,
            scalars: size.scalars,
            depth: size.depth,
        };
        self.checker_state
            .make_composite_type(&mut self.faults, word, TypeEntry::Record(record))
    }

    /// Reports the faults of one group of fields, which may be empty. Appends the group's fields to
    /// `gathered`.
    #[cycle(types)]
    fn check_optional_field_group(
        &mut self,
        group: &OptionalFieldGroup,
        gathered: &mut KnownFields,
        around: usize,
    ) -> Result<(), AllocError>
        ensures { OnOk result ((g : spec.KnownFields)
            → CodeFieldsMatchKnownFields g self.old.checker_state gathered.old
            → CodeFindsFieldsAndReports self.old.faults.items self.new.faults.items self.new.checker_state gathered.new
            (report_on_field_group around g (optional_field_group_of group.now))) }
    {
        match group {
            OptionalFieldGroup::Empty => Ok(()),
            OptionalFieldGroup::Listed(list) => self.check_field_group(list, gathered, around),
        }
    }

    /// Reports the faults of the type of a group of fields. Appends to `gathered` a field of this
    /// type for each of the group's names.
    #[cycle(types)]
    fn check_field_group(
        &mut self,
        list: &FieldGroup,
        gathered: &mut KnownFields,
        around: usize,
    ) -> Result<(), AllocError>
        ensures { OnOk result ((g : spec.KnownFields)
            → CodeFieldsMatchKnownFields g self.old.checker_state gathered.old
            → CodeFindsFieldsAndReports self.old.faults.items self.new.faults.items self.new.checker_state gathered.new
            (report_on_field_group around g
            (some_fields (names_of list.now.names) (type_of list.now.written)))) }
    {
        let of = self.check_nested_type(&list.written, around)?;
        self.checker_state
            .add_known_fields(self.alloc, &list.names, of, gathered)
    }
}

impl<'t> CheckerState<'t> {
    /// Appends to `gathered` a field of the type `of` for each of these names, and adds each
    /// field's size to the total size.
    fn add_known_fields(
        &self,
        alloc: Global,
        names: &IdentifierList,
        of: TypeId,
        gathered: &mut KnownFields,
    ) -> Result<(), AllocError>
        ensures { OnOk result ((g : spec.KnownFields)
            → CodeFieldsMatchKnownFields g self.now gathered.old
            → CodeFieldsMatchKnownFields (append_known_fields of g (names.now.first ∷ names.now.more.items)) self.now
            gathered.new) }
    {
        self.add_known_field(alloc, names.first, of, gathered)?;
        for name in &names.more {
            self.add_known_field(alloc, *name, of, gathered)?;
        }
        Ok(())
    }

    /// Appends to `gathered` a field of the type `of` with the name at the token `name`, and adds
    /// the field's size to the total size.
    fn add_known_field(
        &self,
        alloc: Global,
        name: usize,
        of: TypeId,
        gathered: &mut KnownFields,
    ) -> Result<(), AllocError>
        ensures { OnOk result ((g : spec.KnownFields)
            → CodeFieldsMatchKnownFields g self.now gathered.old
            → CodeFieldsMatchKnownFields (append_known_field of g name) self.now gathered.new) }
    {
        gathered.add(alloc, self.token_text(name), of)?;
        gathered.size = gathered.size.combined_size(self.size_of(of));
        Ok(())
    }
}
