//! Defines the table of a module's types and declarations, the operators of constant expressions,
//! and the expressions that are only a designator.
#![tactic(auto)]

mod declaration_table;
mod entries;
mod field_table;
mod integer_tokens;
pub mod lone_designators;
pub mod operators;
mod type_parts;
mod types;

pub use declaration_table::{
    ArrayShape, DeclarationTable, Field, FieldId, FormalParameter, MAX_SCALARS, MAX_TYPE_DEPTH,
    Object, RecordShape, StandardProcedure, TypeEntry,
};
pub use entries::add_entry;
pub use field_table::FieldTable;
pub use integer_tokens::integer_value_at_token;
pub use type_parts::TypeWithParts;
pub use types::{TypeId, scalar_type};
