//! Stores the addresses that a call passes for its VAR parameters.

ghost use Rattle.std.specs.Prelude.{◌≡◌, ◌++◌, ◌∷◌, ◌≤◌, [], IfOk, OnErr, OnOk, true};
ghost use Rattle.ob0_run_machine.specs.Allocations.{has_failed};
ghost use Rattle.ob0_run_machine.specs.Levels.{address_list_of};

use crate::memory::Memory;
use std::alloc::AllocError;

/// The addresses that a call passes for its VAR parameters, in the order of the parameters. One or
/// two addresses are stored inline, three or more in a list. So most calls allocate no memory for
/// them.
#[derive(Drop)]
pub(crate) struct VarParameterAddresses {
    /// The number of addresses if there are at most two, otherwise 3.
    count: usize,
    /// The addresses are the first `count` of these, if `count` is at most 2.
    few: [usize; 2],
    /// The addresses, if `count` is 3.
    all: Vec<usize>,
}

/// Returns a list of the addresses `a`, `b` and `c`, in this order. Fails only if an allocation
/// fails.
fn list_of_three_addresses(
    memory: &mut Memory,
    a: usize,
    b: usize,
    c: usize,
) -> Result<Vec<usize>, AllocError>
    ensures listed { IfOk result (λ r. r.items ≡ a ∷ b ∷ c ∷ []) }
    ensures failed { OnErr result (has_failed memory.new ≡ true) }
{
    let mut all = memory.new_list();
    memory.push(&mut all, a)?;
    memory.push(&mut all, b)?;
    memory.push(&mut all, c)?;
    Ok(all)
}

impl VarParameterAddresses {
    /// Returns no addresses.
    #[inline(always)]
    pub(crate) fn new(memory: &Memory) -> VarParameterAddresses
        ensures { address_list_of result ≡ [] }
    {
        VarParameterAddresses {
            count: 0,
            few: [0, 0],
            all: memory.new_list(),
        }
    }

    /// Adds `address` at the end of the addresses. Allocates no memory for the first two addresses.
    /// Fails only if an allocation fails.
    #[inline(always)]
    pub(crate) fn push(&mut self, memory: &mut Memory, address: usize) -> Result<(), AllocError>
        ensures items { OnOk result
            (address_list_of self.new ≡ address_list_of self.old ++ address ∷ []) }
        ensures failed { OnErr result (has_failed memory.new ≡ true) }
    {
        if self.count >= 2 {
            return self.push_to_list(memory, address);
        }
        self.few[self.count] = address;
        self.count += 1;
        Ok(())
    }

    /// Adds `address` as the third address or a later one.
    #[inline(never)]
    fn push_to_list(&mut self, memory: &mut Memory, address: usize) -> Result<(), AllocError>
        requires { 2 ≤ self.old.count }
        ensures items { OnOk result
            (address_list_of self.new ≡ address_list_of self.old ++ address ∷ []) }
        ensures failed { OnErr result (has_failed memory.new ≡ true) }
    {
        if self.count > 2 {
            return memory.push(&mut self.all, address);
        }
        self.all = list_of_three_addresses(memory, self.few[0], self.few[1], address)?;
        self.count = 3;
        Ok(())
    }

    /// Returns all addresses.
    #[inline(always)]
    pub(crate) fn as_slice(&self) -> &[usize]
        ensures { result.now ≡ address_list_of self.now }
    {
        if self.count > 2 {
            return self.all.as_slice();
        }
        &self.few[..self.count]
    }
}
