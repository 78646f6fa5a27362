//! Defines the checker's representation of a type (`TypeId`).

ghost use Rattle.std.specs.Prelude.{◌≡◌, List, Some};
ghost use Rattle.ob0_language_values.specs.Scalars.{scalar_value};
ghost use Rattle.ob0_language_values.specs.Values.{Shape};
ghost use Rattle.ob0_types_table.specs.DeclarationTableView.{type_shape};
ghost use Rattle.ob0_language_types.specs.Typing.{value_type};

use ob0_language_values::Scalar;

/// A type: INTEGER, BOOLEAN, an array or record given by its index in the table, or the unknown
/// type.
#[derive(Clone, Copy, PartialEq, Eq)]
pub enum TypeId {
    Integer,
    Boolean,
    Array(usize),
    Record(usize),
    /// The unknown type, for an expression or a type with a fault. It doesn't occur in a well-typed
    /// module.
    Unknown,
}

/// Returns the type of a constant with this value: INTEGER or BOOLEAN.
pub fn scalar_type(value: Scalar) -> TypeId
    ensures { (shapes : List Shape)
        → Some (type_shape shapes result) ≡ value_type (scalar_value value) }
{
    match value {
        Scalar::Number(_) => TypeId::Integer,
        Scalar::Truth(_) => TypeId::Boolean,
    }
}
