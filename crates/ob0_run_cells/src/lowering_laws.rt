//! States the law about runs of lowered programs, as the contract of a function that does nothing.

ghost use Rattle.ob0_run_cells.specs.LoweringLaws.{LoweringKeepsRuns};

/// Proves that a program that is correct code for a well-typed module (`ProgramMeansModule`) has
/// the module's run: the same output and the same end. Claims nothing if the number of cells
/// doesn't fit in 64 bits.
pub fn lowering_keeps_runs()
    ensures { LoweringKeepsRuns }
{}
