//! Walks written types to find the fields that records declare.
//!
//! The words ARRAY and RECORD are counted, since the number of words before a record is its ordinal.
//! The contracts hold if these words can be counted in 64 bits (`VisitsDeclarations`). A module has
//! no more of these words than tokens, so its words can be counted.

ghost use Rattle.std.specs.Prelude.{◌≡◌, ◌+◌, ◌-◌, ◌^◌, OnOk, min};
ghost use Rattle.ob0_language_names.specs.BlockParts.{formal_parameter_sections, names_in_list, section_types, section_variables};
ghost use Rattle.ob0_tree.specs.View.{optional_field_group_of, formals_of, names_of, record_type_of, type_of, type_section_of, variable_section_of};
ghost use Rattle.ob0_language_types.specs.Declarations.{formals_constructor_count, types_constructor_count, variables_constructor_count};
ghost use Rattle.ob0_language_types.specs.Typing.{constructor_count, group_constructor_count};
ghost use Rattle.ob0_types_fields.specs.FieldWalks.{VisitsDeclarations, state_after_fields};
ghost use Rattle.ob0_types_fields.specs.IdentifierOwners.{fields_at_tokens, group_identifiers, section_identifiers};

use crate::field_identifier::FieldIdentifier;
use crate::field_visitors::FieldVisitor;
use ob0_tree::{
    FieldGroup, IdentifierList, OptionalFieldGroup, ParameterSection, RecordType, TypeDeclaration,
    VariableDeclaration, WrittenType,
};

/// Visits one field identifier for each name in `listed`. The fields belong to the record with
/// ordinal `owner`: the number of words ARRAY and RECORD that precede this record in the module.
fn visit_named_fields<V: FieldVisitor>(
    visitor: &mut V,
    owner: usize,
    listed: &IdentifierList,
) -> Result<(), V::Error>
    ensures { OnOk result (visitor.new ≡ state_after_fields V.state_after_one_field
        (fields_at_tokens owner (names_in_list (names_of listed.now))) visitor.old) }
{
    let token = listed.first;
    visitor.visit_one_field(FieldIdentifier { token, owner })?;
    for name in &listed.more {
        let token = *name;
        visitor.visit_one_field(FieldIdentifier { token, owner })?;
    }
    Ok(())
}

/// Adds 1 to `word_count`, the number of words ARRAY and RECORD visited so far, but stops at the
/// greatest number of 64 bits. Returns the old value, which is the ordinal of the next such word.
fn take_next_ordinal(word_count: &mut usize) -> usize
    ensures ordinal { result ≡ word_count.old }
    ensures word_count { word_count.new ≡ min (word_count.old + 1) (2 ^ 64 - 1) }
{
    let ordinal = *word_count;
    *word_count = ordinal.saturating_add(1);
    ordinal
}

/// Visits the fields that the written type `t` declares. `word_count` counts the words ARRAY and
/// RECORD that precede `t` in the module. This count gives records their ordinals. On return,
/// `word_count` also counts the words in `t`.
#[cycle(types)]
pub(crate) fn visit_type_fields<V: FieldVisitor>(
    visitor: &mut V,
    word_count: &mut usize,
    t: &WrittenType,
) -> Result<(), V::Error>
    ensures { OnOk result (VisitsDeclarations V.state_after_one_field
        (section_identifiers word_count.old (type_of t.now)) (constructor_count (type_of t.now))
        word_count.old word_count.new visitor.old visitor.new) }
{
    match t {
        WrittenType::Named(_) => Ok(()),
        WrittenType::Array(a) => {
            let _array = take_next_ordinal(word_count);
            visit_type_fields(visitor, word_count, &a.element)
        }
        WrittenType::Record(r) => visit_record_fields(visitor, word_count, r),
    }
}

/// Visits the fields that a record type declares, including the fields of records inside this type.
/// `word_count` counts the words ARRAY and RECORD that precede the type in the module. This count
/// gives records their ordinals. On return, `word_count` also counts the words in the type.
#[cycle(types)]
fn visit_record_fields<V: FieldVisitor>(
    visitor: &mut V,
    word_count: &mut usize,
    r: &RecordType,
) -> Result<(), V::Error>
    ensures { OnOk result (VisitsDeclarations V.state_after_one_field
        (section_identifiers word_count.old (record_type_of r.now))
        (constructor_count (record_type_of r.now))
        word_count.old word_count.new visitor.old visitor.new) }
{
    let ordinal = take_next_ordinal(word_count);
    for group in &r.groups {
        visit_group_fields(visitor, word_count, ordinal, group)?;
    }
    Ok(())
}

/// Visits the fields of one group (`x, y: T`), then the fields that the group's type declares.
/// `owner` is the ordinal of the record that contains the group: the number of words ARRAY and
/// RECORD before this record. `word_count` counts the words ARRAY and RECORD that precede the group
/// in the module. This count gives records their ordinals. On return, `word_count` also counts the
/// words in the group.
#[cycle(types)]
fn visit_group_fields<V: FieldVisitor>(
    visitor: &mut V,
    word_count: &mut usize,
    owner: usize,
    f: &OptionalFieldGroup,
) -> Result<(), V::Error>
    ensures { OnOk result (VisitsDeclarations V.state_after_one_field
        (group_identifiers owner word_count.old (optional_field_group_of f.now))
        (group_constructor_count (optional_field_group_of f.now))
        word_count.old word_count.new visitor.old visitor.new) }
{
    match f {
        OptionalFieldGroup::Empty => Ok(()),
        OptionalFieldGroup::Listed(l) => {
            let l: &FieldGroup = l;
            visit_named_fields(visitor, owner, &l.names)?;
            visit_type_fields(visitor, word_count, &l.written)
        }
    }
}

/// Visits the fields that the TYPE section of a block declares. Visits nothing if the block has no
/// such section. `word_count` counts the words ARRAY and RECORD that precede the section in the
/// module. This count gives records their ordinals. On return, `word_count` also counts the words
/// in the section.
pub(crate) fn visit_type_section_fields<V: FieldVisitor>(
    visitor: &mut V,
    word_count: &mut usize,
    listed: &Option<Vec<TypeDeclaration>>,
) -> Result<(), V::Error>
    ensures { OnOk result (VisitsDeclarations V.state_after_one_field
        (section_identifiers word_count.old (type_section_of listed.now))
        (types_constructor_count (section_types (type_section_of listed.now)))
        word_count.old word_count.new visitor.old visitor.new) }
{
    let Some(listed) = listed else {
        return Ok(());
    };
    for d in listed {
        visit_type_fields(visitor, word_count, &d.written)?;
    }
    Ok(())
}

/// Visits the fields that the VAR section of a block declares. Visits nothing if the block has no
/// such section. `word_count` counts the words ARRAY and RECORD that precede the section in the
/// module. This count gives records their ordinals. On return, `word_count` also counts the words
/// in the section.
pub(crate) fn visit_variable_section_fields<V: FieldVisitor>(
    visitor: &mut V,
    word_count: &mut usize,
    listed: &Option<Vec<VariableDeclaration>>,
) -> Result<(), V::Error>
    ensures { OnOk result (VisitsDeclarations V.state_after_one_field
        (section_identifiers word_count.old (variable_section_of listed.now))
        (variables_constructor_count (section_variables (variable_section_of listed.now)))
        word_count.old word_count.new visitor.old visitor.new) }
{
    let Some(listed) = listed else {
        return Ok(());
    };
    for d in listed {
        visit_type_fields(visitor, word_count, &d.written)?;
    }
    Ok(())
}

/// Visits the fields that the types of formal parameters declare. Visits nothing if there is no
/// parameter list. `word_count` counts the words ARRAY and RECORD that precede the parameters in
/// the module. This count gives records their ordinals. On return, `word_count` also counts the
/// words in the parameters.
pub(crate) fn visit_parameter_type_fields<V: FieldVisitor>(
    visitor: &mut V,
    word_count: &mut usize,
    listed: &Option<Vec<ParameterSection>>,
) -> Result<(), V::Error>
    ensures { OnOk result (VisitsDeclarations V.state_after_one_field
        (section_identifiers word_count.old (formals_of listed.now))
        (formals_constructor_count (formal_parameter_sections (formals_of listed.now)))
        word_count.old word_count.new visitor.old visitor.new) }
{
    let Some(listed) = listed else {
        return Ok(());
    };
    for d in listed {
        visit_type_fields(visitor, word_count, &d.written)?;
    }
    Ok(())
}
