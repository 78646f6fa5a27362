//! Defines `Scene`, the data that is needed to lower a body, and `LoweredSite`, the site of a
//! declaration in lowered code.

ghost use Rattle.std.specs.Prelude.{◌≡◌, IfOk};
ghost use Rattle.ob0_run_machine.specs.LoweredCodeViews.{place_of};
ghost use Rattle.ob0_run_cells.specs.LoweredExpressions.{slot_place};
ghost use Rattle.ob0_run_cells.specs.LoweredExpressions as slots;

use crate::places::var_parameter_place;
use crate::type_layouts::TypeLayouts;
use ob0_run_machine::code::{Place, Variable};
use ob0_scope_table::Resolved;
use ob0_types_table::Object;
use std::alloc::{AllocError, Global};

/// The site of a declaration in lowered code. `depth` is the depth of an activation: 0 for the
/// module, 1 for the procedures that the module declares, 2 for the procedures inside these.
#[derive(Clone, Copy, PartialEq, Eq)]
pub enum LoweredSite {
    /// The declaration isn't in lowered code, for example because it is a constant or a type.
    Nowhere,
    /// A variable, at an offset in the cells of the module.
    InModule(usize),
    /// A variable, at an offset in the cells of an activation with this depth.
    InActivation { depth: usize, offset: usize },
    /// A VAR parameter of an activation with this depth, by its index among the VAR parameters.
    ByReference { depth: usize, index: usize },
    /// A procedure that is declared in an activation with this depth, by its index in the program.
    Procedure { depth: usize, index: usize },
}

/// The procedure that a call enters. `procedure` is the procedure's index in the program. `up` is
/// the number of levels from the caller's activation out to the activation in which the procedure
/// is declared.
#[derive(Clone, Copy)]
pub struct CallTarget {
    pub procedure: usize,
    pub up: usize,
}

impl CallTarget {
    /// Returns the target for a name that isn't a procedure's name: the target with index 0 that is
    /// 0 levels out.
    fn fallback_target() -> CallTarget
        ensures { result ≡ record { procedure = 0; up = 0 } }
    {
        CallTarget {
            procedure: 0,
            up: 0,
        }
    }
}

/// The data that is needed to lower a body. It has the module, the layouts of its types, the sites
/// of declarations in lowered code, and the depth of the body's activation. `sites` has the site of
/// each declaration at the declaration's ordinal. The depth of the module is 0.
#[derive(Clone, Copy)]
pub struct Scene<'s, 'k, 't> {
    pub resolved: &'s Resolved<'t>,
    pub types: &'s TypeLayouts<'k>,
    pub sites: &'s [LoweredSite],
    pub depth: usize,
}

impl<'s, 'k, 't> Scene<'s, 'k, 't> {
    ghost use Rattle.std.specs.Prelude.{option_and_then};
    ghost use Rattle.ob0_scope_table.specs.LabelledTrees.{label_at_token};
    ghost use Rattle.ob0_types_table.specs.DeclarationTables.{shapes_of};
    ghost use Rattle.ob0_types_table.specs.DeclarationTableView.{object_view};
    ghost use Rattle.ob0_run_lowering.specs.Scenes.{object_of_label, place_seen_from_depth, slot_of_label, target_of_label, place_of_label};

    /// Returns the object of the declaration that the name at a token refers to, or None if the
    /// name isn't bound.
    pub fn object_at_token(&self, name: usize) -> Option<&'k Object>
        ensures { option_and_then (λ o. object_view (shapes_of self.now.types.now) o.now) result
            ≡ object_of_label self.now.types.now (label_at_token self.now.resolved.now name) }
    {
        let ordinal = self.resolved.ordinal_at(name)?;
        self.types.declarations().object(ordinal)
    }

    /// Returns the site of the declaration that the name at a token refers to. Returns `Nowhere` if
    /// the name is unbound, or if its declaration has no site.
    fn site_at_token(&self, name: usize) -> LoweredSite
        ensures { place_seen_from_depth self.now.depth result
            ≡ place_of_label self.now (label_at_token self.now.resolved.now name) }
    {
        match self.resolved.ordinal_at(name) {
            None => LoweredSite::Nowhere,
            Some(ordinal) => match self.sites.get(ordinal) {
                None => LoweredSite::Nowhere,
                Some(site) => *site,
            },
        }
    }

    /// Returns the target of a call of the procedure that the name at a token refers to. The call
    /// is in the scene's body. For any other name, returns the target with index 0 that is 0 levels
    /// out.
    pub fn call_target_at_token(&self, name: usize) -> CallTarget
        ensures { record { procedure = result.procedure; up = result.up }
            ≡ target_of_label self.now (label_at_token self.now.resolved.now name) }
    {
        match self.site_at_token(name) {
            LoweredSite::Procedure { depth, index } => CallTarget {
                procedure: index,
                up: self.depth.saturating_sub(depth),
            },
            LoweredSite::Nowhere => CallTarget::fallback_target(),
            LoweredSite::InModule(_) => CallTarget::fallback_target(),
            LoweredSite::InActivation { .. } => CallTarget::fallback_target(),
            LoweredSite::ByReference { .. } => CallTarget::fallback_target(),
        }
    }

    /// Returns the place by which code in the scene's body finds the variable that the name at a
    /// token refers to. For any other name, this is the module's first cell.
    pub(crate) fn variable_place_at_token(
        &self,
        alloc: Global,
        name: usize,
    ) -> Result<Place, AllocError>
        ensures { IfOk result (λ p. place_of p
            ≡ slot_place (slot_of_label self.now (label_at_token self.now.resolved.now name))) }
    {
        match self.site_at_token(name) {
            LoweredSite::InModule(offset) => Ok(Place::Variable(Variable::InModule(offset))),
            LoweredSite::InActivation { depth, offset } => {
                Ok(place_in_activation(self.depth.saturating_sub(depth), offset))
            }
            LoweredSite::ByReference { depth, index } => {
                var_parameter_place(alloc, self.depth.saturating_sub(depth), index, 0)
            }
            LoweredSite::Nowhere => Ok(Place::Variable(Variable::InModule(0))),
            LoweredSite::Procedure { .. } => Ok(Place::Variable(Variable::InModule(0))),
        }
    }
}

/// Returns the place at an offset in the cells of the activation `up` levels out.
fn place_in_activation(up: usize, offset: usize) -> Place
    ensures { place_of result ≡ slot_place (slots.in_activation up offset) }
{
    if up == 0 {
        Place::Variable(Variable::InOwnActivation(offset))
    } else {
        Place::InEnclosingActivation { up, offset }
    }
}
