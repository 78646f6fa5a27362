//! Answers definition, references and prepareRename for the name or field at a byte offset. Also
//! finds the declaration or field to which the identifier at the offset refers (`at`).
//!
//! Each public function first finds the meaning of the identifier at the offset
//! (`identifier_meaning_at_offset` of `ob0_types`). Then it treats a name and a field separately.
//! `hovers_at_places` makes the hover text in the same way. Renaming also uses
//! `identifier_meaning_at_offset`, so it renames the name or field that these answers are about.
//!
//! The references to a field are the identifiers that a renaming of the field changes. They are
//! found in one pass over the module's fields. The references to a name are found in one pass over
//! the table of ordinals, starting at the token that declares the name.

ghost use Rattle.std.specs.Prelude.{◌≡◌, IfOk, Some};
ghost use Rattle.ob0_refs.specs.Questions.{AreReferencesAtOffset, answer_about_field, answer_about_identifier, definition_of_identifier, definition_at_offset, definition_of_field, field_reference_spans, field_reference_tokens, field_index_or_zero, answer_at_offset, references_of_identifier, list_without_optional_token, renamable_span_at_offset, renamable_span_of_identifier};

use crate::answer_types::{At, Of};
use crate::declaration_spans::{
    declaring_identifier_span, reference_spans_of_declaration, token_spans,
};
use crate::name_answers::answer_about_name;
use ob0_scan::Span;
use ob0_scope::BoundName;
use ob0_scope_table::{PREDECLARED_COUNT, token_span};
use ob0_tree::token_text_at;
use ob0_types::{
    IdentifierMeaning, IdentifierWithMeaning, WellTyped, field_declaring_token,
    field_index_in_record, field_tokens_in_module, identifier_meaning_at_offset,
};
use ob0_types_fields::FieldIdentifier;
use std::alloc::{AllocError, Global};

/// Returns the name or field that the identifier at a byte offset refers to, with the identifier's
/// span. The identifier contains the offset or ends there. A field is found at its declaration and
/// at each selector. A closing name refers to its procedure. Returns None if there is no such
/// identifier, or if it is the module's name.
pub fn at(well_typed: &WellTyped<'_>, offset: usize) -> Option<At>
    ensures { result ≡ answer_at_offset well_typed.now offset }
{
    match identifier_meaning_at_offset(well_typed, offset) {
        None => None,
        Some(found) => Some(answer_about_identifier(well_typed, found)),
    }
}

/// Returns the answer about an identifier: its span, and the declaration or field to which it
/// refers.
fn answer_about_identifier(well_typed: &WellTyped<'_>, found: IdentifierWithMeaning) -> At
    ensures { result ≡ answer_about_identifier well_typed.now.module_read found.token found.means }
{
    let token = found.token;
    match found.means {
        IdentifierMeaning::Name(ordinal) => answer_about_name(
            well_typed.resolved(),
            BoundName { token, ordinal },
        ),
        IdentifierMeaning::Field(owner) => {
            answer_about_field(well_typed, FieldIdentifier { token, owner })
        }
    }
}

/// Returns the answer about a field's identifier: its span, the field's record and the field's
/// index in the record.
fn answer_about_field(well_typed: &WellTyped<'_>, field: FieldIdentifier) -> At
    ensures { result ≡ answer_about_field well_typed.now.module_read field }
{
    At {
        span: token_span(well_typed.resolved().tokens(), field.token),
        of: Of::Field {
            ordinal: field.owner,
            index: field_index_or_zero(well_typed, field),
        },
    }
}

/// Returns the index of the field that an identifier refers to, counted from 0 among the fields of
/// its record. Returns 0 if the field isn't found.
fn field_index_or_zero(well_typed: &WellTyped<'_>, field: FieldIdentifier) -> usize
    ensures { result ≡ field_index_or_zero well_typed.now.module_read field }
{
    let names = well_typed.resolved();
    let name = token_text_at(names.tokens(), field.token);
    match field_index_in_record(well_typed, field.owner, name) {
        Some(index) => index,
        None => 0,
    }
}

/// Returns the span of the identifier at a byte offset if the identifier can be renamed: a field,
/// or a name that isn't predeclared. Otherwise returns None.
pub fn renamable_span(well_typed: &WellTyped<'_>, offset: usize) -> Option<Span>
    ensures { result ≡ renamable_span_at_offset well_typed.now offset }
{
    match identifier_meaning_at_offset(well_typed, offset) {
        None => None,
        Some(found) => renamable_span_of_identifier(well_typed, found),
    }
}

/// Returns the span of an identifier. Returns None if the identifier is a predeclared name.
fn renamable_span_of_identifier(
    well_typed: &WellTyped<'_>,
    found: IdentifierWithMeaning,
) -> Option<Span>
    ensures { result ≡ renamable_span_of_identifier well_typed.now.module_read found.token
        found.means }
{
    let span = token_span(well_typed.resolved().tokens(), found.token);
    match found.means {
        IdentifierMeaning::Name(ordinal) => {
            if ordinal < PREDECLARED_COUNT {
                None
            } else {
                Some(span)
            }
        }
        IdentifierMeaning::Field(_) => Some(span),
    }
}

/// Returns the span of the identifier that declares the name or field at a byte offset. A field is
/// declared in its RECORD. Returns None if there is no name or field at the offset, or if the name
/// is predeclared.
pub fn definition(well_typed: &WellTyped<'_>, offset: usize) -> Option<Span>
    ensures { result ≡ definition_at_offset well_typed.now offset }
{
    match identifier_meaning_at_offset(well_typed, offset) {
        None => None,
        Some(found) => definition_of_identifier(well_typed, found),
    }
}

/// Returns the span of the identifier that declares the name or field that an identifier refers to.
/// Returns None for a predeclared name, and for a field that isn't found.
fn definition_of_identifier(
    well_typed: &WellTyped<'_>,
    found: IdentifierWithMeaning,
) -> Option<Span>
    ensures { result ≡ definition_of_identifier well_typed.now.module_read found.token found.means }
{
    let token = found.token;
    match found.means {
        IdentifierMeaning::Name(ordinal) => declaring_identifier_span(
            well_typed.resolved(),
            ordinal,
        ),
        IdentifierMeaning::Field(owner) => {
            definition_of_field(well_typed, FieldIdentifier { token, owner })
        }
    }
}

/// Returns the span of the identifier that declares the field that `field` refers to. Returns None
/// if the field isn't found.
fn definition_of_field(well_typed: &WellTyped<'_>, field: FieldIdentifier) -> Option<Span>
    ensures { result ≡ definition_of_field well_typed.now.module_read field }
{
    let names = well_typed.resolved();
    let name = token_text_at(names.tokens(), field.token);
    match field_declaring_token(well_typed, field.owner, name) {
        None => None,
        Some(token) => Some(token_span(names.tokens(), token)),
    }
}

/// Returns the spans of all references to the name or field at a byte offset, in text order. The
/// declaring identifier is among the references if `include` is true. If there is no name or field
/// at the offset, the list is empty.
pub fn references(
    alloc: Global,
    well_typed: &WellTyped<'_>,
    offset: usize,
    include: bool,
) -> Result<Vec<Span>, AllocError>
    ensures { IfOk result (λ spans. AreReferencesAtOffset well_typed.now offset include
        spans.items) }
{
    match identifier_meaning_at_offset(well_typed, offset) {
        None => Ok(Vec::new(alloc)),
        Some(found) => references_of_identifier(alloc, well_typed, found, include),
    }
}

/// Returns the spans of the references to the name or field that the identifier `found` refers to.
/// The declaring identifier is among the references if `include` is true.
fn references_of_identifier(
    alloc: Global,
    well_typed: &WellTyped<'_>,
    found: IdentifierWithMeaning,
    include: bool,
) -> Result<Vec<Span>, AllocError>
    ensures { IfOk result
        (λ spans. spans.items ≡ references_of_identifier well_typed.now include found.token found.means) }
{
    let token = found.token;
    match found.means {
        IdentifierMeaning::Name(ordinal) => reference_spans_of_declaration(
            alloc,
            well_typed.resolved(),
            ordinal,
            include,
        ),
        IdentifierMeaning::Field(owner) => field_reference_spans(
            alloc,
            well_typed,
            FieldIdentifier { token, owner },
            include,
        ),
    }
}

/// Returns the spans of all identifiers that refer to the same field as `field`, in text order. The
/// identifier that declares the field is included only if `include` is true.
fn field_reference_spans(
    alloc: Global,
    well_typed: &WellTyped<'_>,
    field: FieldIdentifier,
    include: bool,
) -> Result<Vec<Span>, AllocError>
    ensures { IfOk result
        (λ spans. spans.items ≡ field_reference_spans well_typed.now include field) }
{
    let tokens = field_reference_tokens(alloc, well_typed, field, include)?;
    let spans = token_spans(alloc, well_typed.resolved().tokens(), &tokens)?;
    Ok(spans)
}

/// Returns the token indexes of all identifiers that refer to the same field as `field`, in text
/// order. The identifier that declares the field is included only if `include` is true.
fn field_reference_tokens(
    alloc: Global,
    well_typed: &WellTyped<'_>,
    field: FieldIdentifier,
    include: bool,
) -> Result<Vec<usize>, AllocError>
    ensures { IfOk result (λ tokens. tokens.items ≡ field_reference_tokens well_typed.now field
        include) }
{
    let names = well_typed.resolved();
    let name = token_text_at(names.tokens(), field.token);
    let tokens = field_tokens_in_module(alloc, well_typed, field.owner, name)?;
    if include {
        return Ok(tokens);
    }
    let declaring = field_declaring_token(well_typed, field.owner, name);
    let uses = list_without_optional_token(alloc, declaring, tokens)?;
    Ok(uses)
}

/// Returns the list `tokens` without `token`, or the whole list if `token` is None.
fn list_without_optional_token(
    alloc: Global,
    token: Option<usize>,
    tokens: Vec<usize>,
) -> Result<Vec<usize>, AllocError>
    ensures { IfOk result (λ others. others.items ≡ list_without_optional_token token
        tokens.items) }
{
    match token {
        None => Ok(tokens),
        Some(token) => {
            let others = list_without_token(alloc, token, &tokens)?;
            Ok(others)
        }
    }
}

/// Returns the list `tokens` without `token`.
fn list_without_token(
    alloc: Global,
    token: usize,
    tokens: &[usize],
) -> Result<Vec<usize>, AllocError>
    ensures { IfOk result (λ others. others.items ≡ list_without_optional_token (Some token)
        tokens.now) }
{
    let mut others = Vec::new(alloc);
    for other in tokens {
        if *other != token {
            others.push(*other)?;
        }
    }
    Ok(others)
}
