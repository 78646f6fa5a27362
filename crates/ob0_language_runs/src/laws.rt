//! Laws about runs, and about edits that leave the runs of a module unchanged. Each function does
//! nothing; its contract is the law. In a module's numbered tree (`numbered`), each bound name is
//! replaced by the ordinal of its declaration.
//!
//! In the definition `run`, the store keeps every variable until the run ends. In
//! `run_freeing_variables` (`specs/FreedVariables`), each call drops its variables when it returns.
//! `dropping_variables_keeps_runs` states that both runs have the same result.
//! `specs/TypeAgreement` defines when a value, a store, a place or an environment agrees with the
//! types of a checked module. In a run of a well-typed module all of them always agree, so the run
//! doesn't get stuck.

ghost use Rattle.ob0_language_runs.specs.Laws.{NumberingKeepsRuns, NumberedTreeDecidesRuns, RenamingToFreeNameKeepsRuns, DroppingVariablesKeepsRuns, RunsNeverGetStuck, InliningKeepsExecution};
ghost use Rattle.ob0_language_runs.specs.EditLaws.{RenamingToFreeNameKeepsTypingAndRuns, InliningKeepsTypingAndRuns, RemovingUnusedConstantKeepsTypingAndRuns, InliningEverywhereKeepsTypingAndRuns};

/// Proves that a module and its numbered tree have the same run for every input and all bounds on
/// calls and loop iterations. In the numbered tree, each bound name is replaced by the ordinal of
/// its declaration.
pub fn numbering_keeps_runs()
    ensures { NumberingKeepsRuns }
{}

/// Proves that two modules with the same numbered tree have the same run for every input and all
/// bounds on calls and loop iterations. In a numbered tree, each bound name is replaced by the
/// ordinal of its declaration.
pub fn numbered_tree_decides_runs()
    ensures { NumberedTreeDecidesRuns }
{}

/// Proves that a module has the same runs if a declaration is renamed to a free name. A free name
/// causes no name conflict.
pub fn renaming_to_free_name_keeps_runs()
    ensures { RenamingToFreeNameKeepsRuns }
{}

/// Proves that dropping each call's variables from the store when the call returns doesn't change
/// the result of a run.
pub fn dropping_variables_keeps_runs()
    ensures { DroppingVariablesKeepsRuns }
{}

/// Proves that no run of a well-typed module gets stuck: each step of the run has a meaning.
pub fn runs_never_get_stuck()
    ensures { RunsNeverGetStuck }
{}

/// Proves that replacing uses of a constant by a factor leaves the execution of a statement
/// unchanged. The factor must have the constant's value in every store.
pub fn inlining_keeps_execution()
    ensures { InliningKeepsExecution }
{}

/// Proves that a well-typed module remains well-typed and has the same runs if a declaration is
/// renamed to a free name. A free name causes no name conflict.
pub fn renaming_to_free_name_keeps_typing_and_runs()
    ensures { RenamingToFreeNameKeepsTypingAndRuns }
{}

/// Proves that a well-typed module remains well-typed and has the same runs if uses of a constant
/// are replaced by the constant's literal. If the literal is TRUE or FALSE, this word must mean the
/// predeclared constant at each of these uses.
pub fn inlining_keeps_typing_and_runs()
    ensures { InliningKeepsTypingAndRuns }
{}

/// Proves that a well-typed module remains well-typed and has the same runs if the declaration of
/// an unused constant is removed. A constant is unused if no occurrence of a name is bound to it.
pub fn removing_unused_constant_keeps_typing_and_runs()
    ensures { RemovingUnusedConstantKeepsTypingAndRuns }
{}

/// Proves that a well-typed module remains well-typed and has the same runs if a constant is
/// inlined everywhere. The constant's literal replaces all its uses, and the declaration is
/// removed. If the literal is TRUE or FALSE, this word must mean the predeclared constant at each
/// use.
pub fn inlining_everywhere_keeps_typing_and_runs()
    ensures { InliningEverywhereKeepsTypingAndRuns }
{}
