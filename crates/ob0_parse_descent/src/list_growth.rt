//! Adds items to lists whose capacity begins with one item and doubles whenever the list is full.

ghost use Rattle.std.specs.Prelude.{◌≡◌, ◌≤◌, ◌++◌, ◌∷◌, [], ◌<◌, OnErr, OnOk, vec_capacity, vec_len};

use std::alloc::AllocError;

/// Adds an item at the end of a list. The list's capacity grows from 1 to 2, 4, 8 and so on. It
/// begins with 1, because most lists of a syntax tree hold only one item. An allocation can fail
/// only if the list is full, and then the list is unchanged.
pub fn push_with_doubling<T: Drop>(list: &mut Vec<T>, item: T) -> Result<(), AllocError>
    ensures added { OnOk result (list.new.items ≡ list.old.items ++ item ∷ []) }
    ensures same { OnErr result (list.new.items ≡ list.old.items) }
    ensures full { OnErr result (vec_capacity list.old ≤ vec_len list.old) }
{
    let room = extra_capacity(list.len(), list.capacity());
    list.reserve_exact(room)?;
    list.push_reserved(item);
    Ok(())
}

/// Returns the number of items for which to reserve room before one item is added. The number is 1
/// if the list has room or is empty. Otherwise it is the list's length, so that the capacity
/// doubles.
fn extra_capacity(len: usize, capacity: usize) -> usize
    ensures { (1 ≤ result) × (len < capacity → result ≡ 1) }
{
    if len < capacity || len == 0 { 1 } else { len }
}
