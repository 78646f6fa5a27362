//! Makes the hover texts of names and fields, from their entries in the table of declarations.
//!
//! A procedure's signature doesn't have the names of its parameters, so they are read from the
//! module's text. If the signature has n parameters, their names are the first n names that the
//! text declares after the procedure's name. Predeclared names are recognized by their ordinals (0
//! to 6).

ghost use Rattle.std.specs.Prelude.{◌≡◌, ◌+◌, ◌-◌, [], IfOk, Some, drop, map, option_map, string_bytes};
ghost use Rattle.ob0_tree.specs.ParsedModule.{tree_of};
ghost use Rattle.ob0_tree.specs.TokenIndexLeaves.{token_text_at};
ghost use Rattle.ob0_tree.specs.Tree.{identifiers};
ghost use Rattle.ob0_tree.specs.declared.tree.Role.TheVariants as role;
ghost use Rattle.ob0_scope_table.specs.Resolution.{declaring_names};
ghost use Rattle.ob0_refs.specs.DeclarationViews.{declared_object_view, signature_view};
ghost use Rattle.ob0_refs.specs.DeclarationTexts.{hover_text_of_declaration, hover_text_of_name, names_declared_after_declaration, hover_parameter_of_formal, hover_parameters_of_signature};
ghost use Rattle.ob0_refs.specs.Hovers.{field_text, type_declaration_text, procedure_text, type_text, variable_text};
ghost use Rattle.ob0_refs.specs.HoverParameters.{parameter_view};
ghost use Rattle.ob0_types_table.specs.DeclarationTables.{declared_object_in, shapes_of};
ghost use Rattle.ob0_types_table.specs.DeclarationTableView.{formal_parameter_view, type_shape};
ghost use Rattle.ob0_language_names.specs.Scopes.{predeclared_count};

use crate::hover_texts::{
    Parameter, constant_text, predeclared_name_text, procedure_text, type_declaration_text,
    variable_text,
};
use crate::type_texts::type_text;
use ob0_scan::Tokens;
use ob0_scope::BoundName;
use ob0_scope_table::{PREDECLARED_COUNT, Resolved};
use ob0_tree::token_text_at;
use ob0_types_table::{DeclarationTable, FormalParameter, Object, TypeId};
use std::alloc::{AllocError, Global};

/// Returns the hover text of a name. Returns None if the name has no declaration or is a constant
/// with a fault.
pub(crate) fn name_hover_text(
    alloc: Global,
    known: &DeclarationTable,
    names: &Resolved<'_>,
    name: BoundName,
) -> Result<Option<String>, AllocError>
    ensures { IfOk result (λ r. option_map string_bytes r
        ≡ hover_text_of_name names.now.module_read name (declared_object_in known.now name.ordinal)) }
{
    if name.ordinal < PREDECLARED_COUNT {
        let text = predeclared_name_text(alloc, token_text_at(names.tokens(), name.token))?;
        return Ok(Some(text));
    }
    match known.object(name.ordinal) {
        None => Ok(None),
        Some(object) => object_hover_text(alloc, known, names, name, object),
    }
}

/// Returns the hover text of the declaration of `name`. `object` is the constant, type, variable or
/// procedure that is declared. Returns None for a constant with a fault.
fn object_hover_text(
    alloc: Global,
    known: &DeclarationTable,
    names: &Resolved<'_>,
    name: BoundName,
    object: &Object,
) -> Result<Option<String>, AllocError>
    ensures { IfOk result (λ r. option_map string_bytes r
        ≡ hover_text_of_declaration names.now.module_read name (declared_object_view known.now object.now)) }
{
    let text = token_text_at(names.tokens(), name.token);
    match object {
        Object::TypeName(of) => Ok(Some(type_hover_text(alloc, known, text, *of)?)),
        Object::Constant(value) => Ok(Some(constant_text(alloc, text, *value)?)),
        Object::FaultyConstant => Ok(None),
        Object::Variable(of) => Ok(Some(variable_hover_text(alloc, known, text, *of)?)),
        Object::Procedure(formals) => {
            let line = procedure_hover_text(alloc, known, names, name, formals)?;
            Ok(Some(line))
        }
        Object::StandardProcedure(_) => Ok(Some(predeclared_name_text(alloc, text)?)),
    }
}

/// Returns the hover text of a type declaration: its name and the text of its type.
fn type_hover_text(
    alloc: Global,
    known: &DeclarationTable,
    name: &str,
    of: TypeId,
) -> Result<String, AllocError>
    ensures { IfOk result (λ text. string_bytes text
        ≡ type_declaration_text name.now (type_text (type_shape (shapes_of known.now) of))) }
{
    let of = type_text(alloc, known, of)?;
    type_declaration_text(alloc, name, of.as_str())
}

/// Returns the hover text of a variable: its name and the text of its type.
fn variable_hover_text(
    alloc: Global,
    known: &DeclarationTable,
    name: &str,
    of: TypeId,
) -> Result<String, AllocError>
    ensures { IfOk result (λ text. string_bytes text
        ≡ variable_text name.now (type_text (type_shape (shapes_of known.now) of))) }
{
    let of = type_text(alloc, known, of)?;
    variable_text(alloc, name, of.as_str())
}

/// Returns the hover text of a field with the name `name` and the type `of`.
pub(crate) fn field_hover_text(
    alloc: Global,
    known: &DeclarationTable,
    name: &str,
    of: TypeId,
) -> Result<String, AllocError>
    ensures { IfOk result (λ text. string_bytes text
        ≡ field_text name.now (type_text (type_shape (shapes_of known.now) of))) }
{
    let of = type_text(alloc, known, of)?;
    let of = of.as_str();
    format!(in alloc; "FIELD {name}: {of}")
}

/// Returns the hover text of a procedure: its name and its parameters. `formals` is the procedure's
/// signature. The names of the parameters are the first names that the text declares after the
/// procedure's name.
fn procedure_hover_text(
    alloc: Global,
    known: &DeclarationTable,
    names: &Resolved<'_>,
    name: BoundName,
    formals: &[FormalParameter],
) -> Result<String, AllocError>
    ensures { IfOk result (λ text. string_bytes text
        ≡ procedure_text (token_text_at names.now.module_read.source name.token)
        (hover_parameters_of_signature (names_declared_after_declaration names.now.module_read name.ordinal)
        (signature_view known.now formals.now))) }
{
    let following = declaring_tokens_after_declaration(names, name.ordinal);
    let parameters = hover_parameters_of_signature(
        alloc,
        known,
        names.tokens(),
        following,
        formals,
    )?;
    procedure_text(
        alloc,
        token_text_at(names.tokens(), name.token),
        parameters.as_slice(),
    )
}

/// Returns the token indexes of the declaring identifiers that come after the declaration with this
/// ordinal, in text order.
fn declaring_tokens_after_declaration<'r>(names: &'r Resolved<'_>, ordinal: usize) -> &'r [usize]
    ensures { result.now
        ≡ drop (ordinal + 1 - predeclared_count)
        (declaring_names (identifiers role.DeclaringName (tree_of names.now.module_read))) }
{
    // The contract of this call states the invariant of the module, which the proof uses.
    let _module = names.module();
    let declaration_tokens = names.declaration_tokens();
    let skipped = ordinal.saturating_sub(PREDECLARED_COUNT - 1);
    if skipped < declaration_tokens.len() {
        &declaration_tokens[skipped..]
    } else {
        &[]
    }
}

/// Returns the parameters of a procedure for its hover text, each with its name and the text of its
/// type. `formals` is the procedure's signature. `following` has the token indexes of the
/// identifiers that are declared after the procedure's name, the names of the parameters first.
fn hover_parameters_of_signature<'s>(
    alloc: Global,
    known: &DeclarationTable,
    tokens: &'s Tokens,
    following: &[usize],
    formals: &[FormalParameter],
) -> Result<Vec<Parameter<'s>>, AllocError>
    ensures { IfOk result (λ ps. map parameter_view ps.items
        ≡ hover_parameters_of_signature (map (token_text_at tokens.now) following.now)
        (signature_view known.now formals.now)) }
{
    let mut found = Vec::new(alloc);
    for (token, formal) in following.iter().zip(formals) {
        found.push(hover_parameter_of_formal(
            alloc,
            known,
            token_text_at(tokens, *token),
            *formal,
        )?)?;
    }
    Ok(found)
}

/// Returns a parameter for a hover text: the name `name`, the text of its type, and whether it is a
/// VAR parameter.
fn hover_parameter_of_formal<'s>(
    alloc: Global,
    known: &DeclarationTable,
    name: &'s str,
    formal: FormalParameter,
) -> Result<Parameter<'s>, AllocError>
    ensures { IfOk result
        (λ p. parameter_view p ≡ hover_parameter_of_formal name.now (formal_parameter_view (shapes_of known.now) formal)) }
{
    Ok(Parameter {
        by_place: formal.by_place,
        name,
        text_of_type: type_text(alloc, known, formal.of)?,
    })
}
