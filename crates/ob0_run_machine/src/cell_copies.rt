//! Copies cells within a slice: by `copy_from_slice` if the source and the target don't overlap,
//! otherwise by `copy_within`.

ghost use Rattle.std.specs.Prelude.{◌≡◌, ◌+◌, ◌≤◌, length};
ghost use Rattle.ob0_run_machine.specs.Execution.{cells_after_copy};

/// Copies the `count` cells that begin at `from` to the cells that begin at `to`. The last cell
/// that is copied has to be before `to`.
pub(crate) fn copy_to_later_cells(cells: &mut [i32], to: usize, from: usize, count: usize)
    requires { (from + count ≤ to) × (to + count ≤ length cells.old) }
    ensures { cells.new ≡ cells_after_copy cells.old to from count }
{
    let (front, back) = cells.split_at_mut(to);
    back[..count].copy_from_slice(&front[from..from + count]);
}

/// Copies the `count` cells that begin at `from` to the cells that begin at `to`. The last cell
/// that is overwritten has to be before `from`.
fn copy_to_earlier_cells(cells: &mut [i32], to: usize, from: usize, count: usize)
    requires { (to + count ≤ from) × (from + count ≤ length cells.old) }
    ensures { cells.new ≡ cells_after_copy cells.old to from count }
{
    let (front, back) = cells.split_at_mut(from);
    front[to..to + count].copy_from_slice(&back[..count]);
}

/// Copies the `count` cells that begin at `from` to the cells that begin at `to`. The copied and
/// the overwritten cells may overlap.
pub(crate) fn copy_cells(cells: &mut [i32], to: usize, from: usize, count: usize)
    requires { (to + count ≤ length cells.old) × (from + count ≤ length cells.old) }
    ensures { cells.new ≡ cells_after_copy cells.old to from count }
{
    if from + count <= to {
        copy_to_later_cells(cells, to, from, count);
    } else if to + count <= from {
        copy_to_earlier_cells(cells, to, from, count);
    } else {
        cells.copy_within(from..from + count, to);
    }
}
