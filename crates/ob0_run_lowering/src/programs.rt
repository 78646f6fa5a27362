//! Lowers procedures, blocks, and a whole module.
//!
//! The routine of a procedure is added at the end of the table of routines, after the routines of
//! the procedures inside it. Its index is known at its heading (`routine_count_after_block`).

ghost use Rattle.std.specs.Prelude.{◌≡◌, ℕ, IfOk, IfSome, OnOk};
ghost use Rattle.ob0_tree.specs.Tree.{more};
ghost use Rattle.ob0_tree.specs.View.{block_of, procedure_of};
ghost use Rattle.ob0_tree.specs.ParsedModule.{named_tree_of};
ghost use Rattle.ob0_types_table.specs.DeclarationTables.{declared_object_in};
ghost use Rattle.ob0_language_types.specs.Bindings.{declared_object};
ghost use Rattle.ob0_language_types.specs.WellTyped.{WellTyped};
ghost use Rattle.ob0_language_names.specs.Names.{naming_by_label};
ghost use Rattle.ob0_language_names.specs.Scopes.{numbered};
ghost use Rattle.ob0_scope_table.specs.LabelledTrees.{tree_with_labels};
ghost use Rattle.ob0_scope_table.specs.Resolution.{Resolution};
ghost use Rattle.ob0_run_cells.specs.Activations.{ProgramMeansModule};
ghost use Rattle.ob0_run_machine.specs.LoweredCodeViews.{program_of};
ghost use Rattle.ob0_run_lowering.specs.Blocks.{LowersProcedures, LowersBlock, count_after_block};

use crate::declaration_sites::{Frame, place_formals, place_variable_declarations, push_site};
use crate::lowering_context::LoweringContext;
use crate::{LoweredSite, Scene, TypeLayouts, lower_body};
use ob0_run_machine::code;
use ob0_scope_table::Resolved;
use ob0_tree::{Block, Procedure};
use ob0_types_table::DeclarationTable;
use std::alloc::{AllocError, Global};

/// The state while a module is lowered. `sites` has the site of each declaration in scope, at the
/// declaration's ordinal. `routines` has the code of the procedures so far.
#[derive(Drop)]
pub(crate) struct Lowering {
    pub(crate) sites: Vec<LoweredSite>,
    pub(crate) routines: Vec<code::Routine>,
}

/// The lowered program of a module, which the machine can execute.
#[derive(Drop)]
pub struct Program {
    pub code: code::LoweredCode,
}

/// Returns the number of routines after the procedures of a block are lowered, if there are `count`
/// routines before. Returns None if the number would have more than 64 bits. This is called at each
/// heading, so it visits a procedure as often as procedures are around it, at most 100 times.
fn routine_count_after_block(count: usize, b: &Block) -> Option<usize>
    ensures { IfSome result (λ after. (r : Resolution)
        → after ≡ count_after_block count (tree_with_labels r (block_of b.now))) }
{
    let mut after = count;
    for p in &b.procedures {
        after = routine_count_after_block(after, &p.block)?.checked_add(1)?;
    }
    Some(after)
}

impl Lowering {
    ghost use Rattle.ob0_tree.specs.Tree.{Tree, items, procedure};
    ghost use Rattle.ob0_language_names.specs.Names.{Label};

    /// Lowers a procedure that is declared in an activation with the depth `depth`. The procedure's
    /// name comes into scope before its body is lowered, so the body can call the procedure. Its
    /// parameters and declarations are in scope up to its end.
    #[cycle(blocks)]
    fn lower_procedure(
        &mut self,
        context: &LoweringContext<'_, '_, '_>,
        depth: usize,
        p: &Procedure,
    ) -> Result<(), AllocError>
        ensures { OnOk result ((rest : Tree Label (items procedure))
            → LowersProcedures context.now.types.now self.old self.new depth
            (more (tree_with_labels context.now.resolved.now (procedure_of p.now)) rest) rest) }
    {
        let Some(inside) = depth.checked_add(1) else {
            return Err(AllocError);
        };
        let Some(index) = routine_count_after_block(self.routines.len(), &p.block) else {
            return Err(AllocError);
        };
        let ordinal = context.resolved.ordinal_at(p.name);
        let site = LoweredSite::Procedure { depth, index };
        push_site(&mut self.sites, ordinal, site)?;
        let outside = self.sites.len();
        let heading = Frame {
            depth: inside,
            cells: 0,
            var_parameter_count: 0,
        };
        let frame = place_formals(context, &mut self.sites, heading, &p.formals)?;
        let entry = self.lower_block(context, frame, &p.block)?;
        self.sites.truncate(outside);
        self.routines.push(entry)?;
        Ok(())
    }

    /// Lowers a block: gives its variables their cells, lowers its procedures, and then its
    /// statements. Returns the number of cells of the block's variables, and the code of its
    /// statements.
    #[cycle(blocks)]
    fn lower_block(
        &mut self,
        context: &LoweringContext<'_, '_, '_>,
        frame: Frame,
        b: &Block,
    ) -> Result<code::Routine, AllocError>
        ensures { IfOk result (LowersBlock context.now.types.now self.old self.new frame
            (tree_with_labels context.now.resolved.now (block_of b.now))) }
    {
        let own = place_variable_declarations(context, &mut self.sites, frame, &b.variables)?;
        for p in &b.procedures {
            self.lower_procedure(context, own.depth, p)?;
        }
        let scene = Scene {
            resolved: context.resolved,
            types: context.types,
            sites: self.sites.as_slice(),
            depth: own.depth,
        };
        let body = lower_body(context.alloc, &scene, &b.body)?;
        Ok(code::Routine {
            cells: own.cells - frame.cells,
            body,
        })
    }
}

/// Returns the lowered program of a module. `known` has to be the table of the module's
/// declarations. Nothing is claimed about the program if the module isn't well-typed.
///
/// # Errors
///
/// An allocation failed, or a count, for example of cells, has more than 64 bits.
pub fn lower<'t>(
    alloc: Global,
    resolved: &Resolved<'t>,
    known: &DeclarationTable,
) -> Result<Program, AllocError>
    ensures { IfOk result (λ made. WellTyped (named_tree_of resolved.now.module_read)
        → ((k : ℕ)
        → declared_object_in known.now k ≡ declared_object (named_tree_of resolved.now.module_read) k)
        → ProgramMeansModule naming_by_label (numbered (named_tree_of resolved.now.module_read))
        (program_of made.code)) }
{
    let types = TypeLayouts::new(alloc, known)?;
    let context = LoweringContext {
        alloc,
        resolved,
        types: &types,
    };
    let mut lowering = Lowering {
        sites: Vec::new(alloc),
        routines: Vec::new(alloc),
    };
    let frame = Frame {
        depth: 0,
        cells: 0,
        var_parameter_count: 0,
    };
    let entry = lowering.lower_block(&context, frame, resolved.module().block())?;
    let code = code::LoweredCode {
        cells: entry.cells,
        body: entry.body,
        procedures: lowering.routines,
    };
    Ok(Program { code })
}
