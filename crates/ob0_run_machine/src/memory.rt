//! Defines `Memory`, the allocator of a run with a flag for a failed allocation. The lists of a run
//! grow only by functions in this file, so the flag shows whether an allocation has failed.
//!
//! A step may report a failed allocation only if `Memory::record_failed_allocation` was called
//! (`IsProgressAfterStep`, `IsOutcomeOfArgumentPassing`). So a fault or a bound can't be reported as a
//! failed allocation. A function that grows a list fails only if the list had too little capacity
//! (`full`). No contract states that the run needed a larger list, or that the allocator refused
//! the request.

ghost use Rattle.std.specs.Prelude.{◌≡◌, ◌+◌, ◌++◌, ◌∷◌, ◌<◌, ◌≤◌, ◌^◌, [], OnErr, OnOk, false, length, take, true, vec_capacity, vec_len};
ghost use Rattle.ob0_run_machine.specs.Execution.{block_or_zeros_at_address, zeros};
ghost use Rattle.ob0_run_machine.specs.Allocations.{has_failed};

use crate::cell_copies::copy_to_later_cells;
use std::alloc::{AllocError, Global};

/// The largest number of cells that `push_zeros` adds one by one.
const MAX_INLINE_ZEROS: usize = 8;

/// The allocator of a run's lists, and whether an allocation has failed (`has_failed`).
#[derive(Clone, Copy)]
pub(crate) struct Memory {
    alloc: Global,
    has_failed: bool,
}

impl Memory {
    /// Returns a `Memory` for a run that is about to begin. Its flag for a failed allocation isn't
    /// set.
    pub(crate) fn new(alloc: Global) -> Memory
        ensures { has_failed result ≡ false }
    {
        Memory {
            alloc,
            has_failed: false,
        }
    }

    /// Returns an empty list that uses the run's allocator.
    pub(crate) fn new_list<T>(&self) -> Vec<T>
        ensures { result.items ≡ [] }
    {
        Vec::new(self.alloc)
    }

    /// Adds an item at the end of a list. If the allocation fails, records this
    /// (`record_failed_allocation`) and returns an error.
    #[inline(always)]
    pub(crate) fn push<T: Copy>(&mut self, list: &mut Vec<T>, item: T) -> Result<(), AllocError>
        ensures items { OnOk result (list.new.items ≡ list.old.items ++ item ∷ []) }
        ensures failed { OnErr result (has_failed self.new ≡ true) }
        ensures full { OnErr result (vec_capacity list.old ≤ vec_len list.old) }
        ensures capacity { vec_capacity list.old ≤ vec_capacity list.new }
    {
        match list.push(item) {
            Ok(()) => Ok(()),
            Err(_) => Err(self.record_failed_allocation()),
        }
    }

    /// Adds `count` cells with the value 0 at the end of `cells`. If `count` is at most
    /// `MAX_INLINE_ZEROS`, as in most procedures, the cells are added one by one, without a
    /// function call.
    #[inline(always)]
    pub(crate) fn push_zeros(
        &mut self,
        cells: &mut Vec<i32>,
        count: usize,
    ) -> Result<(), AllocError>
        ensures items { OnOk result (cells.new.items ≡ cells.old.items ++ zeros count) }
        ensures failed { OnErr result (has_failed self.new ≡ true) }
        ensures full { OnErr result (vec_capacity cells.old < vec_len cells.old + count) }
        ensures room { OnOk result (length cells.new.items < 2 ^ 64) }
    {
        if count > MAX_INLINE_ZEROS {
            return self.push_many_zeros(cells, count);
        }
        for _cell in 0..count {
            self.push(cells, 0)?;
        }
        // For the proof: the length of a list has at most 64 bits.
        let _length = cells.len();
        Ok(())
    }

    #[inline(never)]
    fn push_many_zeros(&mut self, cells: &mut Vec<i32>, count: usize) -> Result<(), AllocError>
        ensures items { OnOk result (cells.new.items ≡ cells.old.items ++ zeros count) }
        ensures failed { OnErr result (has_failed self.new ≡ true) }
        ensures full { OnErr result (vec_capacity cells.old < vec_len cells.old + count) }
        ensures room { OnOk result (length cells.new.items < 2 ^ 64) }
    {
        match cells.len().checked_add(count) {
            None => Err(self.record_failed_allocation()),
            Some(length) => match cells.resize(length, 0) {
                Ok(()) => Ok(()),
                Err(_) => Err(self.record_failed_allocation()),
            },
        }
    }

    /// Adds at the end of `cells` a copy of the `count` cells that begin at the address `from`. All
    /// copied cells must be among the first `base` cells. If `base` is less than `from + count`,
    /// adds `count` zeros instead.
    pub(crate) fn push_copied_cells(
        &mut self,
        cells: &mut Vec<i32>,
        base: usize,
        from: usize,
        count: usize,
    ) -> Result<(), AllocError>
        requires { base ≤ length cells.old.items }
        ensures items { OnOk result (cells.new.items
            ≡ cells.old.items ++ block_or_zeros_at_address (take base cells.old.items) from count) }
        ensures failed { OnErr result (has_failed self.new ≡ true) }
        ensures full { OnErr result (vec_capacity cells.old < vec_len cells.old + count) }
    {
        if count > base {
            return self.push_zeros(cells, count);
        }
        if from > base - count {
            return self.push_zeros(cells, count);
        }
        let length = cells.len();
        self.push_zeros(cells, count)?;
        copy_to_later_cells(cells.as_mut_slice(), length, from, count);
        Ok(())
    }

    /// Records that an allocation has failed, and returns the error to report.
    #[cold]
    fn record_failed_allocation(&mut self) -> AllocError
        ensures { has_failed self.new ≡ true }
    {
        self.has_failed = true;
        AllocError
    }
}
