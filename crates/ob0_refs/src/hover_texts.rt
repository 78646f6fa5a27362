//! Makes the hover texts of declarations and predeclared names, given the texts of their types.

ghost use Rattle.std.specs.Prelude.{◌≡◌, ◌++◌, ℕ, IfOk, OnOk, map, string_bytes};
ghost use Rattle.ob0_language_values.specs.Values.{FieldShapes, Shape, array_shape, record_shape};
ghost use Rattle.ob0_refs.specs.Hovers.{var_prefix_text, constant_text, field_count, type_declaration_text, parameter_text, parameter_list_text, predeclared_name_text, procedure_text, truth_text, type_text, variable_text};
ghost use Rattle.ob0_refs.specs.HoverParameters.{parameter_view};

use ob0_language_values::Scalar;
use std::alloc::{AllocError, Global};

/// A formal parameter: its name, the text of its type, and whether it is a VAR parameter
/// (`by_place`).
#[derive(Drop)]
pub(crate) struct Parameter<'a> {
    pub(crate) by_place: bool,
    pub(crate) name: &'a str,
    pub(crate) text_of_type: String,
}

/// Returns the text of an array type, given the array's length and the text of its element type.
pub(crate) fn array_text_from_element_text(
    alloc: Global,
    length: usize,
    element: &str,
) -> Result<String, AllocError>
    ensures { IfOk result (λ text. (k : ℕ) (s : Shape)
        → element.now ≡ type_text s
        → string_bytes text ≡ type_text (array_shape k length s)) }
{
    format!(in alloc; "ARRAY {length} OF {element}")
}

/// Returns the text of a record type with this number of fields.
pub(crate) fn record_text(alloc: Global, fields: usize) -> Result<String, AllocError>
    ensures { IfOk result (λ text. (k : ℕ) (fs : FieldShapes)
        → fields ≡ field_count fs
        → string_bytes text ≡ type_text (record_shape k fs)) }
{
    format!(in alloc; "RECORD with {fields} fields")
}

/// Returns the hover text of a constant, given its name and its value.
pub(crate) fn constant_text(alloc: Global, name: &str, value: Scalar) -> Result<String, AllocError>
    ensures { IfOk result (λ text. string_bytes text ≡ constant_text name.now value) }
{
    match value {
        Scalar::Number(n) => format!(in alloc; "CONST {name} = {n}"),
        Scalar::Truth(b) => {
            let truth = truth_word(b);
            format!(in alloc; "CONST {name} = {truth}")
        }
    }
}

/// Returns the word TRUE or FALSE for a truth value.
fn truth_word(b: bool) -> &'static str
    ensures { result.now ≡ truth_text b }
{
    if b { "TRUE" } else { "FALSE" }
}

/// Returns the hover text of a type declaration, given its name and the text of its type.
pub(crate) fn type_declaration_text(
    alloc: Global,
    name: &str,
    of: &str,
) -> Result<String, AllocError>
    ensures { IfOk result (λ text. string_bytes text ≡ type_declaration_text name.now of.now) }
{
    format!(in alloc; "TYPE {name} = {of}")
}

/// Returns the hover text of a variable or parameter, given its name and the text of its type.
pub(crate) fn variable_text(alloc: Global, name: &str, of: &str) -> Result<String, AllocError>
    ensures { IfOk result (λ text. string_bytes text ≡ variable_text name.now of.now) }
{
    format!(in alloc; "VAR {name}: {of}")
}

/// Returns the hover text of a predeclared name.
pub(crate) fn predeclared_name_text(alloc: Global, name: &str) -> Result<String, AllocError>
    ensures { IfOk result (λ text. string_bytes text ≡ predeclared_name_text name.now) }
{
    format!(in alloc; "predeclared {name}")
}

/// Returns the hover text of a procedure, given its name and its parameters.
pub(crate) fn procedure_text(
    alloc: Global,
    name: &str,
    parameters: &[Parameter<'_>],
) -> Result<String, AllocError>
    ensures { IfOk result
        (λ text. string_bytes text ≡ procedure_text name.now (map parameter_view parameters.now)) }
{
    let list = parameter_list_text(alloc, parameters)?;
    let list = list.as_str();
    format!(in alloc; "PROCEDURE {name}({list})")
}

/// Returns the texts of all parameters, with `; ` between them.
fn parameter_list_text(alloc: Global, parameters: &[Parameter<'_>]) -> Result<String, AllocError>
    ensures { IfOk result
        (λ text. string_bytes text ≡ parameter_list_text (map parameter_view parameters.now)) }
{
    let mut text = String::new(alloc);
    let Some((first, others)) = parameters.split_first() else {
        return Ok(text);
    };
    push_parameter(&mut text, first)?;
    for other in others {
        text.push_str("; ")?;
        push_parameter(&mut text, other)?;
    }
    Ok(text)
}

/// Appends the text of a parameter: `a: T` or `VAR a: T`.
fn push_parameter(text: &mut String, parameter: &Parameter<'_>) -> Result<(), AllocError>
    ensures { OnOk result (string_bytes text.new
        ≡ string_bytes text.old ++ parameter_text (parameter_view parameter.now)) }
{
    text.push_str(var_prefix(parameter.by_place))?;
    text.push_str(parameter.name)?;
    text.push_str(": ")?;
    text.push_str(parameter.text_of_type.as_str())
}

/// Returns `VAR ` for a VAR parameter, otherwise the empty text.
fn var_prefix(by_place: bool) -> &'static str
    ensures { result.now ≡ var_prefix_text by_place }
{
    if by_place { "VAR " } else { "" }
}
