//! Defines `LoweringContext`, the data of a module that is needed to lower the module's blocks.

ghost use Rattle.std.specs.Prelude.{◌≡◌};

use crate::TypeLayouts;
use ob0_scope_table::Resolved;
use ob0_types_table::TypeId;
use std::alloc::Global;

/// The data that is needed to lower the blocks of a module: the module, its types, and the
/// allocator.
#[derive(Clone, Copy)]
pub(crate) struct LoweringContext<'g, 'k, 't> {
    pub(crate) alloc: Global,
    pub(crate) resolved: &'g Resolved<'t>,
    pub(crate) types: &'g TypeLayouts<'k>,
}

impl<'g, 'k, 't> LoweringContext<'g, 'k, 't> {
    ghost use Rattle.std.specs.Prelude.{option_map};
    ghost use Rattle.ob0_scope_table.specs.LabelledTrees.{label_at_token};
    ghost use Rattle.ob0_types_table.specs.DeclarationTables.{shapes_of};
    ghost use Rattle.ob0_types_table.specs.DeclarationTableView.{type_shape};
    ghost use Rattle.ob0_language_types.specs.Typing.{type_of_object};
    ghost use Rattle.ob0_run_lowering.specs.Scenes.{object_of_label};
    ghost use Rattle.ob0_run_lowering.specs.PlacedNames.{declared_size};

    /// Returns the type of the variable, parameter or constant that the name at a token declares.
    /// If the name declares a type, returns this type. Returns None for any other declaration, or
    /// if the name declares nothing.
    fn declared_type_at_token(&self, name: usize) -> Option<TypeId>
        ensures { option_map (type_shape (shapes_of self.now.types.now)) result
            ≡ type_of_object (object_of_label self.now.types.now (label_at_token self.now.resolved.now name)) }
    {
        let ordinal = self.resolved.ordinal_at(name)?;
        self.types.declarations().declared_type(ordinal)
    }

    /// Returns the number of cells of the variable that the name at a token declares, or 0 if the
    /// name has no type.
    pub(crate) fn declared_size_at_token(&self, name: usize) -> usize
        ensures { result ≡ declared_size self.now.types.now
            (label_at_token self.now.resolved.now name) }
    {
        match self.declared_type_at_token(name) {
            None => 0,
            Some(of) => self.types.size(of),
        }
    }
}
