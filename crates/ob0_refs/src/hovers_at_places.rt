//! Makes the hover text of the identifier at a byte offset. The text shows the name or field that
//! the identifier refers to.

ghost use Rattle.std.specs.Prelude.{◌≡◌, IfOk, option_map};
ghost use Rattle.ob0_refs.specs.AnswerViews.{hover_view};
ghost use Rattle.ob0_refs.specs.Questions.{hover_of_field, hover_at_offset, hover_of_identifier, hover_of_field_with_type};
ghost use Rattle.ob0_refs.specs.NameHovers.{hover_of_name};
ghost use Rattle.ob0_types_table.specs.DeclarationTables.{shapes_of};
ghost use Rattle.ob0_types_table.specs.DeclarationTableView.{type_shape};

use crate::answer_types::Hover;
use crate::declaration_texts::{field_hover_text, name_hover_text};
use ob0_scope::BoundName;
use ob0_scope_table::{Resolved, token_span};
use ob0_tree::token_text_at;
use ob0_types::{
    IdentifierMeaning, IdentifierWithMeaning, WellTyped, identifier_meaning_at_offset,
};
use ob0_types_fields::{FieldIdentifier, typed_field};
use ob0_types_table::{DeclarationTable, TypeId};
use std::alloc::{AllocError, Global};

/// Returns the hover text of the identifier that contains the byte offset `offset` or ends there.
/// The text of a name shows its declaration, and the text of a field shows its type. A procedure's
/// closing name has the same text as the procedure. Returns None if there is no such identifier, if
/// it is the module's name, or if it has no hover text.
pub fn hover(
    alloc: Global,
    well_typed: &WellTyped<'_>,
    offset: usize,
) -> Result<Option<Hover>, AllocError>
    ensures { IfOk result (λ h. option_map hover_view h ≡ hover_at_offset well_typed.now offset) }
{
    match identifier_meaning_at_offset(well_typed, offset) {
        None => Ok(None),
        Some(found) => hover_of_identifier(alloc, well_typed, found),
    }
}

/// Returns the hover text of the identifier `found`, which refers to a name or a field. Returns
/// None if the name has no hover text or the field isn't found.
fn hover_of_identifier(
    alloc: Global,
    well_typed: &WellTyped<'_>,
    found: IdentifierWithMeaning,
) -> Result<Option<Hover>, AllocError>
    ensures { IfOk result
        (λ h. option_map hover_view h ≡ hover_of_identifier well_typed.now found.token found.means) }
{
    let token = found.token;
    match found.means {
        IdentifierMeaning::Name(ordinal) => hover_of_name(
            alloc,
            well_typed,
            BoundName { token, ordinal },
        ),
        IdentifierMeaning::Field(owner) => hover_of_field(
            alloc,
            well_typed,
            FieldIdentifier { token, owner },
        ),
    }
}

/// Returns the hover text of a name, with the name's span. Returns None if the name has no hover
/// text.
fn hover_of_name(
    alloc: Global,
    well_typed: &WellTyped<'_>,
    name: BoundName,
) -> Result<Option<Hover>, AllocError>
    ensures { IfOk result (λ h. option_map hover_view h
        ≡ hover_of_name well_typed.now.module_read name) }
{
    let names = well_typed.resolved();
    let span = token_span(names.tokens(), name.token);
    match name_hover_text(alloc, well_typed.declarations(), names, name)? {
        None => Ok(None),
        Some(text) => Ok(Some(Hover { span, text })),
    }
}

/// Returns the hover text of a field identifier, with the identifier's span. Returns None if the
/// field isn't found.
fn hover_of_field(
    alloc: Global,
    well_typed: &WellTyped<'_>,
    field: FieldIdentifier,
) -> Result<Option<Hover>, AllocError>
    ensures { IfOk result (λ h. option_map hover_view h ≡ hover_of_field well_typed.now field) }
{
    let known = well_typed.declarations();
    let names = well_typed.resolved();
    match typed_field(known, names, field) {
        None => Ok(None),
        Some(found) => Ok(Some(hover_of_field_with_type(
            alloc,
            known,
            names,
            field.token,
            found.type_id,
        )?)),
    }
}

/// Returns the hover text of a field's identifier, given the identifier's token index (`token`) and
/// the field's type (`of`).
fn hover_of_field_with_type(
    alloc: Global,
    known: &DeclarationTable,
    names: &Resolved<'_>,
    token: usize,
    of: TypeId,
) -> Result<Hover, AllocError>
    ensures { IfOk result
        (λ h. hover_view h ≡ hover_of_field_with_type names.now token (type_shape (shapes_of known.now) of)) }
{
    let tokens = names.tokens();
    let text = field_hover_text(alloc, known, token_text_at(tokens, token), of)?;
    Ok(Hover {
        span: token_span(tokens, token),
        text,
    })
}
