//! Proves laws about the descent (`Descends`), which reads tokens from left to right by the
//! productions of the grammar. The contracts of the parser use the descent to define the token at
//! which the parser stops.

ghost use Rattle.std.specs.Prelude.{ℕ, List};
ghost use Rattle.ob0_scan.specs.TextWithTokens.{TextWithTokens};
ghost use Rattle.ob0_tree.specs.Module.{IsModuleWithTree};
ghost use Rattle.ob0_tree.specs.TokenIndexLeaves.{indexed_terminals};
ghost use Rattle.ob0_tree.specs.Tree.{Tree, module_text};
ghost use Rattle.ob0_parse_descent.specs.Descent.{TextDescentEndsWith, Done, DescentEndIsUnique};
ghost use Rattle.ob0_parse.specs.DescentExamples.{DeepExampleDescentsStopAtLevel101, ExampleDescentsStopWhereExpected};

/// Proves that the tokens determine at which token the descent stops, and which token or construct
/// is expected there.
pub fn descent_end_is_unique()
    ensures { DescentEndIsUnique }
{}

/// Proves that the descent reads each module to its end. So a text in which the descent stops
/// earlier isn't a module.
pub fn descent_reads_modules()
    ensures { (text : TextWithTokens) (tree : Tree (List ℕ) module_text)
        → IsModuleWithTree text tree
        → TextDescentEndsWith (indexed_terminals text.tokens) Done }
{}

/// Proves that the descent stops at the stated tokens in the examples of docs/LANGUAGE.md. With 101
/// nested IF statements, procedures or array types, it stops at the 101st
/// (`DeepExampleDescentsStopAtLevel101`).
pub fn example_descents_stop_as_stated()
    ensures expected { ExampleDescentsStopWhereExpected }
    ensures deep { DeepExampleDescentsStopAtLevel101 }
{}
