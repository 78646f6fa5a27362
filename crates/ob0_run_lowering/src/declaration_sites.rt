//! Gives each variable of a block or a heading its cells, and each VAR parameter its index. Stores
//! the site of each of these declarations in lowered code (`LoweredSite`).
//!
//! Each declaration of a module has an ordinal, which is its index in the table of sites. The table
//! is a stack. A declaration that comes into scope has a larger ordinal than all others in scope,
//! so its site is added at the end. At the end of a procedure the sites inside it are dropped. No
//! entry is ever changed.

ghost use Rattle.std.specs.Prelude.{◌≡◌, ◌≤◌, ◌+◌, ◌^◌, IfOk, OnOk, MatchOption};
ghost use Rattle.ob0_tree.specs.View.{formals_of, names_of, variable_section_of};
ghost use Rattle.ob0_language_names.specs.BlockParts.{formal_parameter_sections, names_in_list, section_variables};
ghost use Rattle.ob0_scope_table.specs.LabelledTrees.{tree_with_labels, label_at_token};
ghost use Rattle.ob0_types_table.specs.DeclarationTableView.{mode_from_flag};
ghost use Rattle.ob0_run_cells.specs.Activations.{add_name_to_placement};
ghost use Rattle.ob0_run_lowering.specs.PlacedNames as placed;
ghost use Rattle.ob0_run_lowering.specs.PlacedNames.{AddsNames, AddsSite, IsSiteOfNextVariable, add_declared_names_to_placement, declared_size, place_parameter_sections, variable_slot_at_depth};

use crate::LoweredSite;
use crate::lowering_context::LoweringContext;
use ob0_tree::{IdentifierList as NameList, ParameterSection, VariableDeclaration};
use std::alloc::AllocError;

/// The state of an activation while its variables and parameters get their sites: its depth, and
/// the numbers of its cells and VAR parameters so far. The depth of the module is 0.
#[derive(Clone, Copy)]
pub(crate) struct Frame {
    pub(crate) depth: usize,
    pub(crate) cells: usize,
    pub(crate) var_parameter_count: usize,
}

/// Returns the site of the next variable of an activation. The variable comes directly after the
/// cells so far.
fn site_of_next_variable(frame: Frame) -> LoweredSite
    ensures { IsSiteOfNextVariable frame result }
{
    if frame.depth == 0 {
        LoweredSite::InModule(frame.cells)
    } else {
        LoweredSite::InActivation {
            depth: frame.depth,
            offset: frame.cells,
        }
    }
}

impl Frame {
    /// Returns the frame with `size` more cells, or None if the number of cells would have more
    /// than 64 bits.
    fn with_more_cells(self, size: usize) -> Option<Frame>
        ensures { MatchOption result (2 ^ 64 ≤ self.cells + size)
            (λ f. f ≡ record self { cells = self.cells + size }) }
    {
        let cells = self.cells.checked_add(size)?;
        Some(Frame {
            depth: self.depth,
            cells,
            var_parameter_count: self.var_parameter_count,
        })
    }
}

/// Adds the site of the declaration with an ordinal at the end of a table of sites. Declarations
/// before it that have no site get the entry `Nowhere`. Does nothing if the ordinal is None.
pub(crate) fn push_site(
    sites: &mut Vec<LoweredSite>,
    ordinal: Option<usize>,
    site: LoweredSite,
) -> Result<(), AllocError>
    ensures { OnOk result (AddsSite ordinal site sites.old.items sites.new.items) }
{
    let Some(index) = ordinal else {
        return Ok(());
    };
    while sites.len() < index {
        sites.push(LoweredSite::Nowhere)?;
    }
    sites.push(site)?;
    Ok(())
}

/// Gives the name that is declared at the token `name` its site in an activation. A VAR parameter
/// (`by_place`) gets the next index among the VAR parameters, a variable or a value parameter gets
/// cells. Returns the frame with this name added. Fails if an allocation fails, or if a count of
/// the frame would have more than 64 bits.
fn place_declared_name(
    context: &LoweringContext<'_, '_, '_>,
    sites: &mut Vec<LoweredSite>,
    frame: Frame,
    by_place: bool,
    name: usize,
) -> Result<Frame, AllocError>
    ensures { IfOk result (AddsNames sites.old.items sites.new.items frame
        (add_name_to_placement (variable_slot_at_depth frame.depth) (mode_from_flag by_place)
        (label_at_token context.now.resolved.now name)
        (declared_size context.now.types.now (label_at_token context.now.resolved.now name)))) }
{
    let ordinal = context.resolved.ordinal_at(name);
    if by_place {
        let Some(var_parameter_count) = frame.var_parameter_count.checked_add(1) else {
            return Err(AllocError);
        };
        let site = LoweredSite::ByReference {
            depth: frame.depth,
            index: frame.var_parameter_count,
        };
        push_site(sites, ordinal, site)?;
        return Ok(Frame {
            depth: frame.depth,
            cells: frame.cells,
            var_parameter_count,
        });
    }
    let Some(next) = frame.with_more_cells(context.declared_size_at_token(name)) else {
        return Err(AllocError);
    };
    push_site(sites, ordinal, site_of_next_variable(frame))?;
    Ok(next)
}

/// Gives the names of one declaration their sites in an activation, one after the other. Returns
/// the frame with these names added.
fn place_names_of_declaration(
    context: &LoweringContext<'_, '_, '_>,
    sites: &mut Vec<LoweredSite>,
    frame: Frame,
    by_place: bool,
    names: &NameList,
) -> Result<Frame, AllocError>
    ensures { IfOk result (AddsNames sites.old.items sites.new.items frame
        (add_declared_names_to_placement (variable_slot_at_depth frame.depth)
        (declared_size context.now.types.now) (mode_from_flag by_place)
        (names_in_list (tree_with_labels context.now.resolved.now (names_of names.now))))) }
{
    let mut now = place_declared_name(context, sites, frame, by_place, names.first)?;
    for name in &names.more {
        now = place_declared_name(context, sites, now, by_place, *name)?;
    }
    Ok(now)
}

/// Gives the variables of a block their cells in its activation, one after the other. Returns the
/// frame with these variables added.
pub(crate) fn place_variable_declarations(
    context: &LoweringContext<'_, '_, '_>,
    sites: &mut Vec<LoweredSite>,
    frame: Frame,
    section: &Option<Vec<VariableDeclaration>>,
) -> Result<Frame, AllocError>
    ensures { IfOk result (AddsNames sites.old.items sites.new.items frame
        (placed.place_variable_declarations (variable_slot_at_depth frame.depth)
        (declared_size context.now.types.now) (section_variables
        (tree_with_labels context.now.resolved.now (variable_section_of section.now))))) }
{
    let Some(groups) = section else {
        return Ok(frame);
    };
    let mut now = frame;
    for group in groups {
        now = place_names_of_declaration(context, sites, now, false, &group.names)?;
    }
    Ok(now)
}

/// Gives the parameters of a procedure their sites in its activation, one after the other. Returns
/// the frame with these parameters added.
pub(crate) fn place_formals(
    context: &LoweringContext<'_, '_, '_>,
    sites: &mut Vec<LoweredSite>,
    frame: Frame,
    formals: &Option<Vec<ParameterSection>>,
) -> Result<Frame, AllocError>
    ensures { IfOk result (AddsNames sites.old.items sites.new.items frame
        (place_parameter_sections (variable_slot_at_depth frame.depth)
        (declared_size context.now.types.now) (formal_parameter_sections
        (tree_with_labels context.now.resolved.now (formals_of formals.now))))) }
{
    let Some(sections) = formals else {
        return Ok(frame);
    };
    let mut now = frame;
    for section in sections {
        now = place_names_of_declaration(
            context,
            sites,
            now,
            section.by_reference,
            &section.names,
        )?;
    }
    Ok(now)
}
