//! Lowers and runs well-typed modules.
//!
//! The contract of `lower` follows from two facts. First, the lowered program is correct code for
//! the module (`ProgramMeansModule`). Second, a correct program for a well-typed module has the
//! module's run, if the machine has room for the run's cells (`lowering_keeps_runs`). So `lower`
//! ensures `ProgramRunsAsModule`. If this holds for a module and a program, `execute` of the
//! program returns the module's run.

ghost use Rattle.std.specs.Prelude.{◌≡◌, IfOk};
ghost use Rattle.ob0_tree.specs.ParsedModule.{named_tree_of};
ghost use Rattle.ob0_tree.specs.Tree.{Tree, module_text};
ghost use Rattle.ob0_language_names.specs.Names.{Name, naming_by_label};
ghost use Rattle.ob0_language_names.specs.Scopes.{numbered};
ghost use Rattle.ob0_language_runs.specs.Runs.{run};
ghost use Rattle.ob0_run_machine.specs.LoweredCodeViews.{program_of};
ghost use Rattle.ob0_run_cells.specs.Activations.{ProgramMeansModule};
ghost use Rattle.ob0_run.specs.Outcomes.{run_of};
ghost use Rattle.ob0_run.specs.Programs.{ProgramRunsAsModule};

use ob0_run_cells::lowering_laws::lowering_keeps_runs;
use ob0_run_lowering::Program;
use ob0_run_machine::Outcome;
use ob0_types::WellTyped;
use std::alloc::{AllocError, Global};

/// Lowers a well-typed module to a program, which can be executed any number of times.
///
/// # Errors
///
/// An allocation failed, or a count, for example of cells, doesn't fit in 64 bits.
pub fn lower(alloc: Global, checked: &WellTyped<'_>) -> Result<Program, AllocError>
    ensures runs { IfOk result (ProgramRunsAsModule (named_tree_of checked.now.module_read)) }
    ensures means { IfOk result (λ made. ProgramMeansModule naming_by_label
        (numbered (named_tree_of checked.now.module_read)) (program_of made.code)) }
{
    lowering_keeps_runs();
    ob0_run_lowering::lower(alloc, checked.resolved(), checked.declarations())
}

/// Executes a program on an input. At most `calls` calls may be open at a time, and each execution
/// of a loop may make at most `turns` iterations. The module's body doesn't count as a call.
///
/// # Errors
///
/// An allocation failed.
pub fn execute(
    alloc: Global,
    program: &Program,
    input: &[i32],
    calls: u32,
    turns: u32,
) -> Result<Outcome, AllocError>
    ensures { (m : Tree Name module_text)
        → ProgramRunsAsModule m program.now
        → IfOk result (λ o. run_of o ≡ run m input.now calls turns) }
{
    ob0_run_machine::run(alloc, &program.code, input, calls, turns)
}

/// Lowers a well-typed module and executes the resulting program on an input. `calls` and `turns`
/// are the bounds on open calls and on iterations, as for `execute`.
///
/// # Errors
///
/// The errors of `lower` and of `execute`.
pub fn run(
    alloc: Global,
    checked: &WellTyped<'_>,
    input: &[i32],
    calls: u32,
    turns: u32,
) -> Result<Outcome, AllocError>
    ensures { IfOk result
        (λ o. run_of o ≡ run (named_tree_of checked.now.module_read) input.now calls turns) }
{
    let program = lower(alloc, checked)?;
    execute(alloc, &program, input, calls, turns)
}
