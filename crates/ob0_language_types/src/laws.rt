//! Laws about types, and about edits that leave a module well-typed. Each function does nothing;
//! its contract is the law.

ghost use Rattle.ob0_language_types.specs.Laws.{NumberingKeepsTypeCheck, NumberedTreeDecidesTyping, ConstantsHaveSameValueInRunAndChecker, InliningKeepsEvaluation, InliningKeepsTypes};
ghost use Rattle.ob0_language_types.specs.EditLaws.{RenamingToFreeNameKeepsWellTyped, InliningKeepsWellTyped, RemovingUnusedConstantKeepsWellTyped, InliningEverywhereKeepsWellTyped, ConstantUsesAreFactors};

/// Proves that the type check by names accepts a module exactly if the type check by ordinals
/// accepts the module's numbered tree. In this tree, each bound name is replaced by the ordinal of
/// its declaration.
pub fn numbering_keeps_type_check()
    ensures { NumberingKeepsTypeCheck }
{}

/// Proves that two modules with the same numbered tree are both well-typed or neither is. In a
/// numbered tree, each bound name is replaced by the ordinal of its declaration. Each module must
/// declare no name twice in a block or record, and each closing name must equal the name of its
/// module or procedure.
pub fn numbered_tree_decides_typing()
    ensures { NumberedTreeDecidesTyping }
{}

/// Proves that a constant expression has the same value in a run as in the checker. Each name that
/// means a constant in the checker must mean the same constant in the run. Each name must also have
/// the same spelling in both.
pub fn constants_have_same_value_in_run_and_checker()
    ensures { ConstantsHaveSameValueInRunAndChecker }
{}

/// Proves that replacing uses of a constant by a factor with the constant's value leaves an
/// expression's evaluation unchanged.
pub fn inlining_keeps_evaluation()
    ensures { InliningKeepsEvaluation }
{}

/// Proves that replacing uses of a constant by a factor with the constant's type leaves an
/// expression's type unchanged.
pub fn inlining_keeps_types()
    ensures { InliningKeepsTypes }
{}

/// Proves that a well-typed module remains well-typed if a declaration is renamed to a free name. A
/// free name causes no name conflict.
pub fn renaming_to_free_name_keeps_well_typed()
    ensures { RenamingToFreeNameKeepsWellTyped }
{}

/// Proves that a well-typed module remains well-typed if uses of a constant are replaced by the
/// constant's literal. If the literal is TRUE or FALSE, this word must mean the predeclared
/// constant at each of these uses.
pub fn inlining_keeps_well_typed()
    ensures { InliningKeepsWellTyped }
{}

/// Proves that a well-typed module remains well-typed if the declaration of an unused constant is
/// removed. A constant is unused if no occurrence of a name is bound to it.
pub fn removing_unused_constant_keeps_well_typed()
    ensures { RemovingUnusedConstantKeepsWellTyped }
{}

/// Proves that a well-typed module remains well-typed if all uses of a constant are replaced by the
/// constant's literal and the declaration is removed. If the literal is TRUE or FALSE, this word
/// must mean the predeclared constant at each use.
pub fn inlining_everywhere_keeps_well_typed()
    ensures { InliningEverywhereKeepsWellTyped }
{}

/// Proves that each use of a constant in a well-typed module is a whole factor: a name without
/// selectors in an expression.
pub fn constant_uses_are_factors()
    ensures { ConstantUsesAreFactors }
{}
