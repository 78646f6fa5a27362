//! Proves two laws of renaming. An identifier may replace any identifier of a text. If identifiers
//! get a new name in a text and in its tree, the new tree spells the tokens of the new text.

ghost use Rattle.std.specs.Prelude.{ℕ, List, [], ◌∷◌};
ghost use Rattle.ob0_scan.specs.LexemeClasses.{IsIdentifier};
ghost use Rattle.ob0_edits_tokens.specs.WordsOfTrees.{RenamedTreeSpellsRenamedWords};
ghost use Rattle.ob0_edits_tokens.specs.Replacements.{MayReplaceIdentifier};
ghost use Rattle.ob0_edits_tokens.specs.Written.{name_word};

/// Proves that the identifier `new` may replace any identifier of a text: the tokens before and
/// after it stay separate from it.
pub fn identifier_may_replace_identifier()
    ensures { (new : List ℕ) → IsIdentifier new → MayReplaceIdentifier new (name_word new ∷ []) }
{}

/// Proves that a renamed tree spells the renamed words. A word is a token's kind and spelling.
/// Before the renaming, the tree spells the words of a text, and has the index of a word instead of
/// each name. The same identifiers get the same new name in the tree and in the words.
pub fn renamed_tree_spells_renamed_words()
    ensures { RenamedTreeSpellsRenamedWords }
{}
