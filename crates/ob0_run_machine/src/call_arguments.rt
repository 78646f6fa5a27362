//! Evaluates and passes the arguments of a call. All arguments are evaluated over the cells before
//! the call. A value is stored in new cells, after all other cells. For a VAR parameter, the address
//! of the argument is added to a list of addresses.

ghost use Rattle.std.specs.Prelude.{◌≡◌, ◌≤◌, OnOk, length, map, take};
ghost use Rattle.ob0_run_machine.specs.Execution.{pass_argument, pass_arguments};
ghost use Rattle.ob0_run_machine.specs.Levels.{address_list_of, levels_of};
ghost use Rattle.ob0_run_machine.specs.Machines.{IsOutcomeOfArgumentPassing, passed_arguments};
ghost use Rattle.ob0_run_machine.specs.LoweredCodeViews.{argument_of};

use crate::addresses::VarParameterAddresses;
use crate::code::Argument;
use crate::evaluator::{evaluate_number, evaluate_truth, locate_place};
use crate::level::Level;
use crate::memory::Memory;
use crate::operators::truth_as_cell;
use crate::stop_reasons::StopReason;

/// Evaluates an argument over the first `base` cells and passes it. Adds the address of an argument
/// for a VAR parameter at the end of `addresses`, and any other argument's value at the end of
/// `cells`. Fails if the evaluation has a fault or an allocation fails.
#[inline(always)]
fn pass_argument(
    memory: &mut Memory,
    argument: &Argument,
    level: &Level<'_>,
    base: usize,
    cells: &mut Vec<i32>,
    addresses: &mut VarParameterAddresses,
) -> Result<(), StopReason>
    requires { base ≤ length cells.old.items }
    ensures passed { IsOutcomeOfArgumentPassing result memory.new cells.new.items (address_list_of addresses.new)
        (pass_argument (levels_of level.now) (take base cells.old.items) (argument_of argument.now)
        (passed_arguments cells.old.items (address_list_of addresses.old))) }
    ensures kept { OnOk result (take base cells.new.items ≡ take base cells.old.items) }
{
    let before = &cells.as_slice()[..base];
    match argument {
        Argument::Place(place) => {
            let a = locate_place(place, level, before)?;
            addresses.push(memory, a)?;
        }
        Argument::Number(n) => {
            let a = evaluate_number(n, level, before)?;
            memory.push(cells, a)?;
        }
        Argument::Truth(t) => {
            let a = evaluate_truth(t, level, before)?;
            memory.push(cells, truth_as_cell(a))?;
        }
        Argument::Block(place, count) => {
            let a = locate_place(place, level, before)?;
            memory.push_copied_cells(cells, base, a, *count)?;
        }
    }
    Ok(())
}

/// Evaluates the arguments from left to right, and adds each of them to `cells` or to `addresses`,
/// as `pass_argument` does. `base` is the number of cells before the call. Stops at the first
/// argument that fails.
#[inline(always)]
pub(crate) fn pass_arguments(
    memory: &mut Memory,
    arguments: &[Argument],
    level: &Level<'_>,
    base: usize,
    cells: &mut Vec<i32>,
    addresses: &mut VarParameterAddresses,
) -> Result<(), StopReason>
    requires { base ≡ length cells.old.items }
    ensures { IsOutcomeOfArgumentPassing result memory.new cells.new.items (address_list_of addresses.new)
        (pass_arguments (levels_of level.now) cells.old.items (map argument_of arguments.now)
        (passed_arguments cells.old.items (address_list_of addresses.old))) }
{
    for argument in arguments {
        pass_argument(memory, argument, level, base, cells, addresses)?;
    }
    Ok(())
}
