//! Walks a module's declarations to find the fields that records declare.

ghost use Rattle.std.specs.Prelude.{OnOk};
ghost use Rattle.ob0_tree.specs.View.{block_of, procedure_of};
ghost use Rattle.ob0_language_types.specs.Declarations.{block_constructor_count, procedure_constructor_count};
ghost use Rattle.ob0_types_fields.specs.FieldIdentifiers.{identifiers_declared_in_block, identifiers_declared_in_procedure};
ghost use Rattle.ob0_types_fields.specs.FieldWalks.{VisitsDeclarations};

use crate::field_visitors::FieldVisitor;
use crate::written_type_fields::{
    visit_parameter_type_fields, visit_type_section_fields, visit_variable_section_fields,
};
use ob0_tree::{Block, Procedure};

/// Visits the fields that a block and its procedures declare. `word_count` counts the words ARRAY
/// and RECORD that precede the block in the module. This count gives records their ordinals. On
/// return, `word_count` also counts the words in the block.
#[cycle(blocks)]
pub(crate) fn visit_fields_declared_in_block<V: FieldVisitor>(
    visitor: &mut V,
    word_count: &mut usize,
    b: &Block,
) -> Result<(), V::Error>
    ensures { OnOk result (VisitsDeclarations V.state_after_one_field
        (identifiers_declared_in_block word_count.old (block_of b.now))
        (block_constructor_count (block_of b.now))
        word_count.old word_count.new visitor.old visitor.new) }
{
    visit_type_section_fields(visitor, word_count, &b.types)?;
    visit_variable_section_fields(visitor, word_count, &b.variables)?;
    for p in &b.procedures {
        visit_fields_declared_in_procedure(visitor, word_count, p)?;
    }
    Ok(())
}

/// Visits the fields that a procedure declares in its parameters and its block. `word_count` counts
/// the words ARRAY and RECORD that precede the procedure in the module. This count gives records
/// their ordinals. On return, `word_count` also counts the words in the procedure.
#[cycle(blocks)]
fn visit_fields_declared_in_procedure<V: FieldVisitor>(
    visitor: &mut V,
    word_count: &mut usize,
    p: &Procedure,
) -> Result<(), V::Error>
    ensures { OnOk result (VisitsDeclarations V.state_after_one_field
        (identifiers_declared_in_procedure word_count.old (procedure_of p.now))
        (procedure_constructor_count (procedure_of p.now))
        word_count.old word_count.new visitor.old visitor.new) }
{
    visit_parameter_type_fields(visitor, word_count, &p.formals)?;
    visit_fields_declared_in_block(visitor, word_count, &p.block)
}
