//! Finds the identifiers in a module that declare or select a field, and the record that declares
//! each field.
#![tactic(auto)]

mod declared_block_fields;
mod field_identifier;
mod field_lookups;
mod field_types;
mod field_visitors;
mod field_walk;
pub mod laws;
mod written_type_fields;

pub use field_identifier::FieldIdentifier;
pub use field_lookups::{
    declared_field, declared_field_at_token, selected_field_at_token, tokens_of_field,
};
pub use field_types::{TypedField, typed_field};
pub use field_visitors::DeclaredField;
