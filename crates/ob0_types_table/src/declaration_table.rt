//! Defines the table of a module's declarations (`DeclarationTable`): the module's array and record
//! types, and the object of each declaration.
//!
//! A `TypeId` refers to the entry of an array or record type by the entry's index. In contracts,
//! the value of a `DeclarationTable` is its two lists, of entries and of objects. A `Shape`, which
//! is a type with its parts, exists only in the definitions. `shapes_of` computes the shapes of the
//! entries from first to last, because an entry refers only to earlier entries (`AreValidEntries`).

ghost use Rattle.std.specs.Prelude.{◌≡◌, List, option_map};
ghost use Rattle.ob0_language_values.specs.Values as shape;
ghost use Rattle.ob0_types_table.specs.FieldPlaces.{selected_field};
ghost use Rattle.ob0_types_table.specs.DeclarationTableView.{field_shapes};

use crate::field_table::FieldTable;
use crate::types::{TypeId, scalar_type};
use ob0_language_values::Scalar;
use std::marker::Model;

/// The greatest length of an array, and also the greatest number of scalars (INTEGER and BOOLEAN
/// values) in a type.
pub const MAX_SCALARS: usize = 65536;

/// The greatest number of arrays and records inside one another in a type. A named type counts as
/// if it were written out.
pub const MAX_TYPE_DEPTH: usize = 100;

/// A field of a record, with its name and type.
#[derive(Drop)]
pub struct Field {
    pub name: String,
    pub of: TypeId,
}

/// Identifies a field. `ordinal` is the number of words ARRAY and RECORD before the word RECORD of
/// the field's record. `index` is the field's position among the record's fields, counted from 0.
#[derive(Clone, Copy, PartialEq, Eq)]
pub struct FieldId {
    pub ordinal: usize,
    pub index: usize,
}

/// The type `ARRAY length OF element`. `ordinal` is the number of words ARRAY and RECORD before
/// this word ARRAY. `scalars` is the number of scalars in the whole type. `depth` is how many
/// levels of arrays and records it has.
#[derive(Clone, Copy)]
pub struct ArrayShape {
    pub ordinal: usize,
    pub length: usize,
    pub element: TypeId,
    pub scalars: usize,
    pub depth: usize,
}

/// The type `RECORD fields END`. `ordinal` is the number of words ARRAY and RECORD before this word
/// RECORD. `scalars` is the number of scalars in the whole type. `depth` is how many levels of
/// arrays and records it has.
#[derive(Drop)]
pub struct RecordShape {
    pub ordinal: usize,
    pub fields: FieldTable,
    pub scalars: usize,
    pub depth: usize,
}

/// An entry of the table: an array or record type, which one word ARRAY or RECORD of the text
/// constructs.
#[derive(Drop)]
pub enum TypeEntry {
    Array(ArrayShape),
    Record(RecordShape),
}

/// A formal parameter: its type (`of`), and whether it is passed by reference (VAR) or by value.
#[derive(Clone, Copy)]
pub struct FormalParameter {
    pub by_place: bool,
    pub of: TypeId,
}

/// A predeclared procedure. It reads a number, writes a number, or ends a line of the output.
#[derive(Clone, Copy, PartialEq, Eq)]
pub enum StandardProcedure {
    Read,
    Write,
    WriteLn,
}

/// The object to which a declared name refers, with its type, value or parameters.
#[derive(Drop)]
pub enum Object {
    /// A type's name, with the type to which the name refers.
    TypeName(TypeId),
    Constant(Scalar),
    /// A constant whose right side has a fault.
    FaultyConstant,
    Variable(TypeId),
    Procedure(Vec<FormalParameter>),
    StandardProcedure(StandardProcedure),
}

/// The table of a module's declarations. `shapes` has the array and record types, each of which
/// refers only to earlier ones. `objects` has the object of each declaration, by ordinal, or None
/// if the declaration has no object.
#[derive(Drop)]
pub struct DeclarationTable {
    shapes: Vec<TypeEntry>,
    objects: Vec<Option<Object>>,
}

impl RecordShape {
    /// Returns the first field with this name: the record's ordinal, and the field's position in
    /// the record. Returns None if there is no such field.
    fn field(&self, name: &str) -> Option<FieldId>
        ensures { (shapes : List shape.Shape)
            → result
            ≡ selected_field
            (shape.record_shape self.now.ordinal (field_shapes shapes self.now.fields)) name.now }
    {
        match self.fields.index_of_name(name) {
            None => None,
            Some(index) => Some(FieldId {
                ordinal: self.ordinal,
                index,
            }),
        }
    }
}

impl Model for DeclarationTable {
    ghost use Rattle.std.specs.Prelude.{[]};
    ghost use Rattle.ob0_types_table.specs.DeclarationTables.{DeclarationTableView};
    ghost use Rattle.ob0_types_table.specs.DeclarationTableView.{AreValidEntries};

    ghost Value = { DeclarationTableView };

    ghost view = { λ k. record { shapes = k.shapes.items; objects = k.objects.items } };

    ghost invariant = { λ k. AreValidEntries [] k.shapes.items };
}

impl DeclarationTable {
    ghost use Rattle.std.specs.Prelude.{◌≡◌, [], length, option_map, option_and_then, slice_get, slice_index_or, MatchOption};
    ghost use Rattle.ob0_types_table.specs.DeclarationTables.{declared_object_in, shapes_of};
    ghost use Rattle.ob0_types_table.specs.DeclarationTableView.{AreValidEntries, HasSizeOfShape, entry_shape, faulty_shape, object_view, type_shape};
    ghost use Rattle.ob0_language_types.specs.Typing.{value_of_constant_object, element_type, field_type, type_of_object};
    ghost use Rattle.ob0_language_values.specs.Scalars.{scalar_value};
    ghost use Rattle.ob0_language_values.specs.Values.{integer_shape};

    /// Makes the table of a module from the entries of its array and record types and from the
    /// objects of its declarations, by ordinal. Each entry must refer only to earlier ones, and
    /// must have the size of its shape.
    pub fn new(shapes: Vec<TypeEntry>, objects: Vec<Option<Object>>) -> DeclarationTable
        requires { AreValidEntries [] shapes.items }
        ensures { result ≡ record { shapes = shapes.items; objects = objects.items } }
    {
        DeclarationTable { shapes, objects }
    }

    /// Returns the number of declarations in the table, including the predeclared names. The
    /// ordinals of the declarations are the numbers below this number.
    pub fn declaration_count(&self) -> usize
        ensures { result ≡ length self.now.objects }
    {
        self.objects.len()
    }

    /// Returns the entries of the array and record types. Each entry refers only to earlier ones.
    pub fn type_entries(&self) -> &[TypeEntry]
        ensures { result.now ≡ self.now.shapes }
    {
        self.shapes.as_slice()
    }

    /// Returns the object of the declaration with this ordinal. Returns None if the ordinal has no
    /// object.
    pub fn object(&self, ordinal: usize) -> Option<&Object>
        ensures { option_and_then (λ o. object_view (shapes_of self.now) o.now) result
            ≡ declared_object_in self.now ordinal }
    {
        match self.objects.get(ordinal) {
            None => None,
            Some(object) => match object {
                None => None,
                Some(object) => Some(object),
            },
        }
    }

    /// Returns the value of the constant with this ordinal. Returns None if the declaration isn't a
    /// constant with a value.
    pub fn constant(&self, ordinal: usize) -> Option<Scalar>
        ensures { option_map scalar_value result ≡ value_of_constant_object
            (declared_object_in self.now ordinal) }
    {
        match self.object(ordinal)? {
            Object::Constant(value) => Some(*value),
            Object::TypeName(_) => None,
            Object::FaultyConstant => None,
            Object::Variable(_) => None,
            Object::Procedure(_) => None,
            Object::StandardProcedure(_) => None,
        }
    }

    /// Returns the type of the declaration with this ordinal if it is a type, a variable, a
    /// parameter or a constant with a value. Otherwise returns None.
    pub fn declared_type(&self, ordinal: usize) -> Option<TypeId>
        ensures { option_map (type_shape (shapes_of self.now)) result
            ≡ type_of_object (declared_object_in self.now ordinal) }
    {
        match self.object(ordinal)? {
            Object::TypeName(of) => Some(*of),
            Object::Variable(of) => Some(*of),
            Object::Constant(value) => Some(scalar_type(*value)),
            Object::FaultyConstant => None,
            Object::Procedure(_) => None,
            Object::StandardProcedure(_) => None,
        }
    }

    /// Returns the entry of the array or record type with the index `place` in the table. Returns
    /// None if there is no such entry.
    pub(crate) fn entry(&self, place: usize) -> Option<&TypeEntry>
        ensures found { option_map (λ m. m.now) result ≡ slice_get self.now.shapes place }
        ensures shape { MatchOption result
            (slice_index_or (shapes_of self.now) place faulty_shape ≡ faulty_shape)
            (λ m. (slice_index_or (shapes_of self.now) place faulty_shape
            ≡ entry_shape (shapes_of self.now) m.now)
            × HasSizeOfShape m.now (entry_shape (shapes_of self.now) m.now)) }
    {
        if place < self.shapes.len() {
            Some(&self.shapes[place])
        } else {
            None
        }
    }

    /// Returns the element type of an array type. Returns None if the type isn't an array.
    pub fn element_type(&self, base: TypeId) -> Option<TypeId>
        ensures { option_map (type_shape (shapes_of self.now)) result
            ≡ element_type (type_shape (shapes_of self.now) base) integer_shape }
    {
        match base {
            TypeId::Array(i) => match self.entry(i)? {
                TypeEntry::Array(array) => Some(array.element),
                TypeEntry::Record(_) => None,
            },
            TypeId::Integer => None,
            TypeId::Boolean => None,
            TypeId::Record(_) => None,
            TypeId::Unknown => None,
        }
    }

    /// Returns the type of the first field with this name in a record type. Returns None if the
    /// type isn't a record with such a field.
    pub fn field_type(&self, base: TypeId, name: &str) -> Option<TypeId>
        ensures { option_map (type_shape (shapes_of self.now)) result
            ≡ field_type (type_shape (shapes_of self.now) base) name.now }
    {
        match base {
            TypeId::Record(i) => match self.entry(i)? {
                TypeEntry::Record(record) => record.fields.type_of_field(name),
                TypeEntry::Array(_) => None,
            },
            TypeId::Integer => None,
            TypeId::Boolean => None,
            TypeId::Array(_) => None,
            TypeId::Unknown => None,
        }
    }

    /// Returns the first field with this name in a record type: the record's ordinal, and the
    /// field's position. Returns None if the type isn't a record with such a field.
    pub fn field(&self, base: TypeId, name: &str) -> Option<FieldId>
        ensures { result ≡ selected_field (type_shape (shapes_of self.now) base) name.now }
    {
        match base {
            TypeId::Record(i) => match self.entry(i)? {
                TypeEntry::Record(record) => record.field(name),
                TypeEntry::Array(_) => None,
            },
            TypeId::Integer => None,
            TypeId::Boolean => None,
            TypeId::Array(_) => None,
            TypeId::Unknown => None,
        }
    }
}
