//! Defines the table of a record's fields, which finds a field by its name in logarithmic time.
//!
//! In contracts, the value of a table is only the list of its fields. The map isn't part of this
//! value, because the table's invariant (`IsFirstFieldMap`) determines the map. The map has, for
//! each name, the first field with this name in the list.

ghost use Rattle.std.specs.Prelude.{◌≡◌, List, IfOk, option_map};
ghost use Rattle.ob0_language_values.specs.Values as shape;
ghost use Rattle.ob0_types_table.specs.FirstFieldMaps.{IsFirstFieldMap, type_of_first_field_named};
ghost use Rattle.ob0_types_table.specs.FieldPlaces.{position_of_field};
ghost use Rattle.ob0_types_table.specs.DeclarationTableView.{field_shapes, type_shape};
ghost use Rattle.ob0_language_types.specs.Typing.{named_field_shape};

use crate::declaration_table::Field;
use crate::types::TypeId;
use std::alloc::{AllocError, Global};
use std::collections::BTreeMap;
use std::marker::Model;

/// The first field of a record with a given name: its position in the record, counted from 0, and
/// its type.
#[derive(Clone, Copy)]
struct FirstField {
    place: usize,
    of: TypeId,
}

/// The fields of a record in order, with a map from each name to the first field with this name.
#[derive(Drop)]
pub struct FieldTable {
    fields: Vec<Field>,
    first_fields_by_name: BTreeMap<String, FirstField>,
}

impl Model for FieldTable {
    ghost use Rattle.std.specs.Prelude.{List};
    ghost use Rattle.ob0_types_table.specs.declared.declaration_table.Field.{Field};

    ghost Value = { List Field };

    ghost use Rattle.ob0_types_table.specs.FirstFieldMaps.{IsFirstFieldMap};

    ghost view = { λ t. t.fields.items };

    ghost invariant = { λ t. IsFirstFieldMap t.first_fields_by_name t.fields.items };
}

/// Returns a map from each name to the first field with this name. The map is filled starting at
/// the last field, so that an earlier field replaces a later one with the same name.
fn first_fields_by_name(
    alloc: Global,
    fields: &[Field],
) -> Result<BTreeMap<String, FirstField>, AllocError>
    ensures { IfOk result (λ m. IsFirstFieldMap m fields.now) }
{
    let mut first = BTreeMap::new(alloc);
    let mut left = fields.len();
    while left > 0 {
        left -= 1;
        let field = &fields[left];
        let entry = FirstField {
            place: left,
            of: field.of,
        };
        first.insert(field.name.clone()?, entry)?;
    }
    Ok(first)
}

impl FieldTable {
    /// Makes the table of these fields. If an allocation fails, returns an error.
    pub fn new(fields: Vec<Field>) -> Result<FieldTable, AllocError>
        ensures { IfOk result (λ t. t ≡ fields.items) }
    {
        let first = first_fields_by_name(*fields.allocator(), fields.as_slice())?;
        Ok(FieldTable {
            fields,
            first_fields_by_name: first,
        })
    }

    /// Returns the fields, in text order.
    pub fn as_slice(&self) -> &[Field]
        ensures { result.now ≡ self.now }
    {
        self.fields.as_slice()
    }

    /// Returns the type of the first field with this name. Returns None if there is no such field.
    pub fn type_of_field(&self, name: &str) -> Option<TypeId>
        ensures first { result ≡ type_of_first_field_named self.now name.now }
        ensures shape { (shapes : List shape.Shape)
            → option_map (type_shape shapes) result
            ≡ named_field_shape (field_shapes shapes self.now) name.now }
    {
        match self.first_fields_by_name.get(name) {
            None => None,
            Some(first) => Some(first.of),
        }
    }

    /// Returns the position in the record of the first field with this name, counted from 0.
    /// Returns None if there is no such field.
    pub fn index_of_name(&self, name: &str) -> Option<usize>
        ensures { (shapes : List shape.Shape)
            → result ≡ position_of_field (field_shapes shapes self.now) name.now }
    {
        match self.first_fields_by_name.get(name) {
            None => None,
            Some(first) => Some(first.place),
        }
    }
}
