//! Defines the state of a run (`Machine`), and functions that change the cells, the input and the
//! output in this state.

ghost use Rattle.std.specs.Prelude.{◌≡◌, ◌≤◌, OnErr, OnOk, length, slice_set, true, vec_capacity, vec_len};
ghost use Rattle.ob0_run_machine.specs.Execution.{cells_after_copy, append_output, read_number};
ghost use Rattle.ob0_run_machine.specs.Machines.{IsProgressAfterStep, item_of, state_of};
ghost use Rattle.ob0_run_machine.specs.Allocations.{has_failed};

use crate::cell_copies::copy_cells;
use crate::memory::Memory;
use crate::stop_reasons::StopReason;
use std::alloc::AllocError;

/// An item of a run's output: a number, or the end of a line.
#[derive(Clone, Copy, PartialEq, Eq, Debug)]
pub enum Item {
    Number(i32),
    Line,
}

/// The state of a run: the allocator of its lists (`memory`), the cells, the rest of the input, and
/// the output so far.
#[derive(Drop)]
pub(crate) struct Machine<'i> {
    pub memory: Memory,
    /// The cells of all variables and value parameters. The cells of the module are first.
    pub cells: Vec<i32>,
    /// The numbers that haven't been read yet.
    pub input: &'i [i32],
    pub output: Vec<Item>,
}

/// Stores a number in the cell at an address. Does nothing if there is no such cell.
#[inline(always)]
pub(crate) fn store_in_cell(cells: &mut Vec<i32>, address: usize, number: i32)
    ensures { cells.new.items ≡ slice_set cells.old.items address number }
{
    if address < cells.len() {
        cells[address] = number;
    }
}

/// Copies the `count` cells that begin at the address `from` to the address `to`. Does nothing if
/// there are fewer than `from + count` cells, or fewer than `to + count` cells.
pub(crate) fn copy_existing_cells(cells: &mut Vec<i32>, to: usize, from: usize, count: usize)
    ensures { cells.new.items ≡ cells_after_copy cells.old.items to from count }
{
    let length = cells.len();
    if count > length {
        return;
    }
    if to > length - count {
        return;
    }
    if from > length - count {
        return;
    }
    copy_cells(cells.as_mut_slice(), to, from, count);
}

impl<'i> Machine<'i> {
    /// Returns the number of cells, which is the address of the next cell to be added.
    pub(crate) fn cell_count(&self) -> usize
        ensures { result ≡ length self.now.cells.items }
    {
        self.cells.len()
    }

    /// Removes the next number from the input and stores it in the cell at an address. The number
    /// is lost if there is no such cell. Returns `StopReason::InputEnd` if no input is left.
    pub(crate) fn read_number(&mut self, address: usize) -> Result<(), StopReason>
        ensures { IsProgressAfterStep result self.new
            (read_number (state_of self.old) address (state_of self.old).input) }
    {
        match self.input {
            [] => Err(StopReason::InputEnd),
            [first, rest @ ..] => {
                store_in_cell(&mut self.cells, address, *first);
                self.input = rest;
                Ok(())
            }
        }
    }

    pub(crate) fn append_output(&mut self, item: Item) -> Result<(), AllocError>
        ensures appended { OnOk result
            (state_of self.new ≡ append_output (state_of self.old) (item_of item)) }
        ensures failed { OnErr result (has_failed self.new.memory ≡ true) }
        ensures full { OnErr result
            (vec_capacity self.old.output ≤ vec_len self.old.output) }
    {
        self.memory.push(&mut self.output, item)
    }
}
