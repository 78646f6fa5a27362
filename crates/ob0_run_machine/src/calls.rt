//! Calls procedures. When a call returns, the cells of the procedure's parameters and variables are
//! dropped.

ghost use Rattle.std.specs.Prelude.{◌≡◌, map, option_map, slice_get, take};
ghost use Rattle.ob0_run_machine.specs.Evaluation.{innermost_level};
ghost use Rattle.ob0_run_machine.specs.Levels.{levels_of};
ghost use Rattle.ob0_run_machine.specs.Machines.{StepHasEffect, IsProgressAfterCall, activation_effect, state_of};
ghost use Rattle.ob0_run_machine.specs.LoweredCodeViews.{procedure_of};

use crate::code::{LoweredCode, Routine};
use crate::level::Level;
use crate::machine::Machine;
use crate::statements::run_body;
use crate::stop_reasons::StopReason;

/// Returns the procedure at the index `procedure` of `procedures`, or None if there is no procedure
/// at this index.
#[inline(always)]
fn procedure_at_index<'p>(procedures: &'p [Routine], procedure: usize) -> Option<&'p Routine>
    ensures { option_map (λ p. procedure_of p.now) result
        ≡ slice_get (map procedure_of procedures.now) procedure }
{
    if procedure >= procedures.len() {
        return None;
    }
    Some(&procedures[procedure])
}

/// Runs a procedure whose arguments have been passed. First adds the cells of the variables that it
/// declares, with the value 0, then runs its body. Does nothing if `procedure` is None. The closure
/// `enter` performs the calls in the body.
#[inline(always)]
fn run_routine<F: Fn(&mut Machine<'_>, usize, &Level<'_>) -> Result<(), StopReason>>(
    procedure: Option<&Routine>,
    level: &Level<'_>,
    turns: u32,
    machine: &mut Machine<'_>,
    enter: &F,
) -> Result<(), StopReason>
    requires { F.IsAlwaysCallable enter.now }
    ensures { StepHasEffect (F.post enter.now) result machine.old machine.new
        (activation_effect (option_map (λ p. procedure_of p.now) procedure.entry) turns
        (levels_of level.now)) }
{
    match procedure {
        None => Ok(()),
        Some(procedure) => {
            machine
                .memory
                .push_zeros(&mut machine.cells, procedure.cells)?;
            run_body(&procedure.body, level, turns, machine, enter)
        }
    }
}

/// Drops the cells of the activation `level`: the cell at the address `level.base` and all cells
/// after it.
fn drop_variables(machine: &mut Machine<'_>, level: &Level<'_>)
    ensures { state_of machine.new
        ≡ record (state_of machine.old)
        { cells = take (innermost_level (levels_of level.now)).base machine.old.cells.items } }
{
    machine.cells.truncate(level.base);
}

/// Runs the procedure at the index `procedure`, whose arguments have been passed. Drops the cells
/// of its activation, `level`, when it returns. `calls` is the number of calls that may still be
/// opened, including this call. If `calls` is 0, the call ends the run with CallBound.
#[inline(always)]
pub(crate) fn call(
    program: &LoweredCode,
    calls: u32,
    turns: u32,
    machine: &mut Machine<'_>,
    procedure: usize,
    level: &Level<'_>,
) -> Result<(), StopReason>
    ensures { IsProgressAfterCall result machine.old machine.new program.now calls turns procedure
        level.now }
{
    if calls == 0 {
        return Err(StopReason::CallBound);
    }
    let left = calls - 1;
    // The closure captures values (`move`), so a nested call reads them without a reference.
    let enter = move |machine: &mut Machine<'_>, procedure: usize, level: &Level<'_>|
        ensures { IsProgressAfterCall result machine.old machine.new program.entry.now left turns procedure
            level.now }
    { call(program, left, turns, machine, procedure, level) };
    let called = procedure_at_index(program.procedures.as_slice(), procedure);
    run_routine(called, level, turns, machine, &enter)?;
    drop_variables(machine, level);
    Ok(())
}
