//! Finds fields by walks over the tree: the field at a token, the place of a field in its record, and
//! all tokens of a field. Only `tokens_of_field` allocates memory.

ghost use Rattle.std.specs.Prelude.{◌≡◌, ◌<◌, ◌^◌, IfOk, OnOk, length, option_map};
ghost use Rattle.ob0_tree.specs.ParsedModule.{tree_of};
ghost use Rattle.ob0_tree.specs.View.{body_of};
ghost use Rattle.ob0_types_table.specs.DeclarationTables.{declared_object_in};
ghost use Rattle.ob0_types_fields.specs.FieldIdentifiers.{declared_fields, field_at_token, field_declaring_token, field_index_in_record, tokens_of_field};
ghost use Rattle.ob0_types_fields.specs.FieldVisitors.{declared_index, declared_token};
ghost use Rattle.ob0_types_fields.specs.FieldWalks.{state_after_fields};
ghost use Rattle.ob0_types_fields.specs.IdentifierOwners.{fields_with_owners, meanings_by_token, module_identifiers, selected_identifiers};

use crate::declared_block_fields::visit_fields_declared_in_block;
use crate::field_identifier::FieldIdentifier;
use crate::field_visitors::{
    DeclaredField, DeclaredFieldSearch, FieldSearch, FieldTokenCollector, FieldVisitor, NamedField,
};
use crate::field_walk::{FieldWalk, token_count};
use ob0_scope_table::Resolved;
use ob0_tree::Statement;
use ob0_types_table::DeclarationTable;
use std::alloc::{AllocError, Global};

/// Returns the field that the statements of a body select at the token `token`. `table` is the
/// table of the module's declarations. Returns None if the statements select no field there.
pub fn selected_field_at_token<'a, 't>(
    table: &'a DeclarationTable,
    resolved: &'a Resolved<'t>,
    statements: &Option<Vec<Statement>>,
    token: usize,
) -> Option<FieldIdentifier>
    ensures { result ≡ field_at_token token
        (fields_with_owners (selected_identifiers (meanings_by_token (declared_object_in table.now) resolved.now) None
        (body_of statements.now))) }
{
    let walk = FieldWalk { table, resolved };
    let mut search = FieldSearch { token, found: None };
    match walk.visit_body_fields(&mut search, statements) {
        Ok(()) => search.found,
        Err(never) => match never {},
    }
}

/// Returns the field that a record of the module declares at the token `token`. Returns None if no
/// field is declared there.
pub fn declared_field_at_token(resolved: &Resolved<'_>, token: usize) -> Option<FieldIdentifier>
    ensures { result ≡ field_at_token token (declared_fields resolved.now.module_read) }
{
    let mut search = FieldSearch { token, found: None };
    match visit_declared_fields(&mut search, resolved) {
        Ok(()) => search.found,
        Err(never) => match never {},
    }
}

/// Returns the place of the field `name` in its record. `owner` is the record's ordinal: the
/// number of words ARRAY and RECORD before the record in the text. Returns None if the record has
/// no such field.
pub fn declared_field(resolved: &Resolved<'_>, owner: usize, name: &str) -> Option<DeclaredField>
    ensures token { option_map declared_token result
        ≡ field_declaring_token resolved.now.module_read owner name.now }
    ensures index { option_map declared_index result
        ≡ field_index_in_record resolved.now.module_read owner name.now }
{
    let mut sought = DeclaredFieldSearch {
        field: NamedField {
            tokens: resolved.tokens(),
            owner,
            name,
        },
        index: 0,
        found: None,
    };
    match visit_declared_fields(&mut sought, resolved) {
        Ok(()) => sought.found,
        Err(never) => match never {},
    }
}

/// Returns the tokens of all identifiers that declare or select the field `name` of the record with
/// ordinal `owner`, in text order. `table` is the table of the module's declarations. A record's
/// ordinal is the number of words ARRAY and RECORD before the record in the text.
pub fn tokens_of_field<'a, 't>(
    alloc: Global,
    table: &'a DeclarationTable,
    resolved: &'a Resolved<'t>,
    owner: usize,
    name: &str,
) -> Result<Vec<usize>, AllocError>
    ensures { IfOk result (λ found. found.items
        ≡ tokens_of_field resolved.now.module_read.source owner name.now
        (fields_with_owners (module_identifiers (meanings_by_token (declared_object_in table.now) resolved.now)
        (tree_of resolved.now.module_read)))) }
{
    let walk = FieldWalk { table, resolved };
    let mut collector = FieldTokenCollector {
        field: NamedField {
            tokens: resolved.tokens(),
            owner,
            name,
        },
        collected: Vec::new(alloc),
    };
    walk.visit_module_fields(&mut collector)?;
    Ok(collector.into_tokens())
}

/// Visits the identifiers that declare the fields of a module, in text order. There are fewer than
/// 2^64.
fn visit_declared_fields<V: FieldVisitor>(
    visitor: &mut V,
    resolved: &Resolved<'_>,
) -> Result<(), V::Error>
    ensures visited { OnOk result (visitor.new ≡ state_after_fields V.state_after_one_field
        (declared_fields resolved.now.module_read) visitor.old) }
    ensures few { OnOk result (length (declared_fields resolved.now.module_read) < 2 ^ 64) }
{
    // The proof needs this call: there are no more fields, or words ARRAY and RECORD, than tokens.
    let _count = token_count(resolved);
    let mut word_count = 0;
    visit_fields_declared_in_block(visitor, &mut word_count, resolved.module().block())
}
