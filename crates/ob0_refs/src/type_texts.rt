//! Makes the texts that hover shows for types.
//!
//! The text of an array is made from the text of its element type. So in nested arrays the text of
//! the innermost type is copied once for each array around it, at most 100 times.

ghost use Rattle.std.specs.Prelude.{◌≡◌, IfOk, string_bytes};
ghost use Rattle.ob0_refs.specs.Hovers.{type_text};
ghost use Rattle.ob0_types_table.specs.DeclarationTables.{shapes_of};
ghost use Rattle.ob0_types_table.specs.DeclarationTableView.{type_shape};
ghost use Rattle.ob0_language_values.specs.Values.{array_shape};

use crate::hover_texts::{array_text_from_element_text, record_text};
use ob0_types_table::{ArrayShape, DeclarationTable, TypeId, TypeWithParts};
use std::alloc::{AllocError, Global};

/// Returns the text of a type. The text of an array shows the type of its elements, and the text of
/// a record shows the number of its fields. A type that isn't one of the module's types is shown as
/// a record with 0 fields.
#[cycle(types)]
pub(crate) fn type_text(
    alloc: Global,
    known: &DeclarationTable,
    of: TypeId,
) -> Result<String, AllocError>
    ensures { IfOk result
        (λ text. string_bytes text ≡ type_text (type_shape (shapes_of known.now) of)) }
{
    match known.parts(of) {
        TypeWithParts::Integer => String::from_str(alloc, "INTEGER"),
        TypeWithParts::Boolean => String::from_str(alloc, "BOOLEAN"),
        TypeWithParts::Array(array) => array_type_text(alloc, known, array),
        TypeWithParts::Record(record) => record_text(alloc, record.fields.as_slice().len()),
        TypeWithParts::Faulty => record_text(alloc, 0),
    }
}

/// Returns the text of an array type, which contains the text of its element type.
#[cycle(types)]
fn array_type_text(
    alloc: Global,
    known: &DeclarationTable,
    array: ArrayShape,
) -> Result<String, AllocError>
    ensures { IfOk result (λ text. string_bytes text
        ≡ type_text
        (array_shape array.ordinal array.length (type_shape (shapes_of known.now) array.element))) }
{
    let element = type_text(alloc, known, array.element)?;
    array_text_from_element_text(alloc, array.length, element.as_str())
}
