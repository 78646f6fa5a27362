//! Runs a program on an input, and returns the output and the end of the run.

ghost use Rattle.std.specs.Prelude.{◌≡◌, IfOk, Some};
ghost use Rattle.ob0_run_machine.specs.Execution.{run};
ghost use Rattle.ob0_run_machine.specs.Outcomes.{IsEndAfterExecution, progress_after_body, run_of};
ghost use Rattle.ob0_run_machine.specs.Machines.{IsProgressAfterStep, state_of};
ghost use Rattle.ob0_run_machine.specs.LoweredCodeViews.{program_of};

use crate::calls::call;
use crate::code::LoweredCode;
use crate::level::Level;
use crate::machine::{Item, Machine};
use crate::memory::Memory;
use crate::statements::run_sequence;
use crate::stop_reasons::StopReason;
use std::alloc::{AllocError, Global};

/// The way in which a run ended: normally (`Done`), or by a fault or a bound.
#[derive(Clone, Copy, PartialEq, Eq, Debug)]
pub enum End {
    /// The end of the program was reached.
    Done,
    /// The result of an operation had more than 32 bits.
    Overflow,
    /// A divisor was below 1.
    Divisor,
    /// An index was outside its array.
    Index,
    /// A number was to be read, and no input was left.
    InputEnd,
    /// A call was made while the allowed number of calls was already open.
    CallBound,
    /// A loop would have made one more iteration than allowed.
    TurnBound,
}

/// The result of a run: its output, and how it ended.
#[derive(Debug, Drop)]
pub struct Outcome {
    pub output: Vec<Item>,
    pub end: End,
}

/// Runs the statements of a program's body, starting in the state `machine`. Returns a `StopReason`
/// if the run ended before the end of the program.
fn execute(
    program: &LoweredCode,
    calls: u32,
    turns: u32,
    machine: &mut Machine<'_>,
) -> Result<(), StopReason>
    ensures { IsProgressAfterStep result machine.new
        (progress_after_body (program_of program.now) calls turns (state_of machine.old)) }
{
    let level = Level {
        base: 0,
        addresses: &[],
        enclosing: None,
    };
    let enter = |machine: &mut Machine<'_>, procedure: usize, level: &Level<'_>| {
        call(program, calls, turns, machine, procedure, level)
    };
    run_sequence(&program.body, &level, turns, machine, &enter)
}

/// Converts the result of a program's statements to the end of the run. This is Done for Ok,
/// otherwise the end with the same name as the `StopReason`. Returns an error exactly if an
/// allocation failed (`StopReason::Memory`).
fn end_of(executed: Result<(), StopReason>) -> Result<End, AllocError>
    ensures { IsEndAfterExecution executed result }
{
    match executed {
        Ok(()) => Ok(End::Done),
        Err(stop) => match stop {
            StopReason::Overflow => Ok(End::Overflow),
            StopReason::Divisor => Ok(End::Divisor),
            StopReason::Index => Ok(End::Index),
            StopReason::InputEnd => Ok(End::InputEnd),
            StopReason::CallBound => Ok(End::CallBound),
            StopReason::TurnBound => Ok(End::TurnBound),
            StopReason::Memory => Err(AllocError),
        },
    }
}

/// Runs a program on an input. At most `calls` calls may be open at a time, and each execution of a
/// loop may make at most `turns` iterations. The program's own statements don't count as a call.
///
/// # Errors
///
/// An allocation failed.
pub fn run(
    alloc: Global,
    program: &LoweredCode,
    input: &[i32],
    calls: u32,
    turns: u32,
) -> Result<Outcome, AllocError>
    ensures { IfOk result
        (λ o. run (program_of program.now) input.now calls turns ≡ Some (run_of o)) }
{
    let mut memory = Memory::new(alloc);
    let mut cells = Vec::new(alloc);
    memory.push_zeros(&mut cells, program.cells)?;
    let mut machine = Machine {
        memory,
        cells,
        input,
        output: Vec::new(alloc),
    };
    let end = end_of(execute(program, calls, turns, &mut machine))?;
    Ok(Outcome {
        output: machine.output,
        end,
    })
}
