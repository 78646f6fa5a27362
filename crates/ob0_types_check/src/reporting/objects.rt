//! Converts the meanings of declarations, which the walk has found, to objects of the declaration
//! table (`DeclarationTable`).

ghost use Rattle.std.specs.Prelude.{◌≡◌, IfOk, Some, map, option_map, slice_set};
ghost use Rattle.ob0_types_table.specs.declared.declaration_table.Object.TheVariants as kind;
ghost use Rattle.ob0_types_check.specs.CheckerViews.{table_object_of_meaning, with_standard_procedures};

use crate::reporting::checker_state::Meaning;
use ob0_scope_table::{READ_ORDINAL, WRITE_LN_ORDINAL, WRITE_ORDINAL};
use ob0_types_table::{Object, StandardProcedure};
use std::alloc::{AllocError, Global};

/// Returns the objects of the declarations with these meanings, in the same order. If a declaration
/// has no meaning (None), its object is None.
pub(crate) fn objects_of_meanings(
    alloc: Global,
    meanings: Vec<Option<Meaning>>,
) -> Result<Vec<Option<Object>>, AllocError>
    ensures { IfOk result
        (λ objects. objects.items ≡ map (option_map table_object_of_meaning) meanings.items) }
{
    let mut objects = Vec::with_capacity(alloc, meanings.len())?;
    for meaning in meanings {
        objects.push(object_of_optional_meaning(meaning))?;
    }
    Ok(objects)
}

/// Returns the object of a declaration with this meaning, or None if it has no meaning.
fn object_of_optional_meaning(meaning: Option<Meaning>) -> Option<Object>
    ensures { result ≡ option_map table_object_of_meaning meaning }
{
    match meaning {
        None => None,
        Some(meaning) => Some(object_of_meaning(meaning)),
    }
}

/// Returns the object of a declaration with this meaning. A constant without a value becomes
/// `FaultyConstant`.
fn object_of_meaning(meaning: Meaning) -> Object
    ensures { result ≡ table_object_of_meaning meaning }
{
    match meaning {
        Meaning::TypeName(of) => Object::TypeName(of),
        Meaning::Constant(value) => match value {
            None => Object::FaultyConstant,
            Some(value) => Object::Constant(value),
        },
        Meaning::Variable(of) => Object::Variable(of),
        Meaning::Procedure(formals) => Object::Procedure(formals),
    }
}

/// Replaces the objects of Read, Write and WriteLn by standard procedures. During the walk these
/// three are ordinary procedures with parameters, so that their arguments are checked like any
/// others.
pub(crate) fn define_standard_procedures(objects: &mut Vec<Option<Object>>)
    ensures { objects.new.items ≡ with_standard_procedures objects.old.items }
{
    replace_by_standard_procedure(objects, READ_ORDINAL, StandardProcedure::Read);
    replace_by_standard_procedure(objects, WRITE_ORDINAL, StandardProcedure::Write);
    replace_by_standard_procedure(objects, WRITE_LN_ORDINAL, StandardProcedure::WriteLn);
}

/// Replaces the object with this ordinal by a standard procedure. If there is no such ordinal,
/// nothing changes.
fn replace_by_standard_procedure(
    objects: &mut Vec<Option<Object>>,
    ordinal: usize,
    standard: StandardProcedure,
)
    ensures { objects.new.items
        ≡ slice_set objects.old.items ordinal (Some (kind.StandardProcedure standard)) }
{
    if ordinal < objects.len() {
        objects[ordinal] = Some(Object::StandardProcedure(standard));
    }
}
