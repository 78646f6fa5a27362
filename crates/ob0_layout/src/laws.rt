//! Proves laws about formatting: it changes only white space, it keeps the module's tree, and
//! formatting a second time changes nothing. Each function has an empty body, because its contract
//! is the law.

ghost use Rattle.std.specs.Prelude.{◌≡◌, ℕ, List, length};
ghost use Rattle.std.specs.List.{All, AllPass};
ghost use Rattle.std.specs.Str.{IsUtf8};
ghost use Rattle.ob0_scan.specs.LexemeClasses.{is_white_space};
ghost use Rattle.ob0_scan.specs.TextLexemes.{LexesInto};
ghost use Rattle.ob0_scan.specs.TextWithTokens.{TextWithTokens, IsScan};
ghost use Rattle.ob0_text.specs.Patches.{Cut, text_after_cuts_from_offset};
ghost use Rattle.ob0_text.specs.declared.edits.Indent.{Indent};
ghost use Rattle.ob0_tree.specs.Tree.{Tree, module_text};
ghost use Rattle.ob0_tree.specs.Module.{IsModuleWithTree};
ghost use Rattle.ob0_edits_tokens.specs.ByteCuts.{length_after_cuts_from_offset};
ghost use Rattle.ob0_layout.specs.Layout.{lexemes_without_white_space, formatted_lexemes, formatted_text};
ghost use Rattle.ob0_layout.specs.Gaps.{ReplacesOnlyWhiteSpace, all_gaps, changed_gaps};
ghost use Rattle.ob0_layout.specs.LineRoles.{line_roles};

/// Proves two facts: scanning a formatted text gives `formatted_lexemes`, and formatting changes no
/// token and no comment.
pub fn formatting_keeps_tokens_and_comments()
    ensures lexed { (indent : Indent) (s : TextWithTokens) (scan : IsScan s)
        (tree : Tree (List ℕ) module_text)
        → IsModuleWithTree s tree
        → LexesInto (formatted_text indent tree scan.lexemes) (formatted_lexemes indent tree scan.lexemes) }
    ensures lexemes_without_white_space { (indent : Indent) (s : TextWithTokens) (scan : IsScan s)
        (tree : Tree (List ℕ) module_text)
        → IsModuleWithTree s tree
        → lexemes_without_white_space (formatted_lexemes indent tree scan.lexemes) ≡ lexemes_without_white_space scan.lexemes }
{}

/// Proves that a formatted text is a module with the same tree as the original text.
pub fn formatting_keeps_module_tree()
    ensures { (indent : Indent) (s : TextWithTokens) (scan : IsScan s) (tree : Tree (List ℕ) module_text)
        → IsModuleWithTree s tree
        → (t : TextWithTokens) → IsScan t → t.text ≡ formatted_text indent tree scan.lexemes → IsModuleWithTree t tree }
{}

/// Proves that formatting a formatted text changes nothing.
pub fn formatting_is_idempotent()
    ensures { (indent : Indent) (s : TextWithTokens) (scan : IsScan s) (tree : Tree (List ℕ) module_text)
        → IsModuleWithTree s tree
        → (t : TextWithTokens) (again : IsScan t) → t.text ≡ formatted_text indent tree scan.lexemes
        → formatted_text indent tree again.lexemes ≡ formatted_text indent tree scan.lexemes }
{}

/// Proves that replacing the gaps that formatting changes gives the formatted text. Also proves
/// that the formatted text is UTF-8, and that `length_after_cuts_from_offset` computes the formatted
/// text's length in bytes.
pub fn replacing_gaps_gives_formatted_text()
    ensures utf8 { (indent : Indent) (s : TextWithTokens) (scan : IsScan s)
        (tree : Tree (List ℕ) module_text)
        → IsUtf8 (formatted_text indent tree scan.lexemes) }
    ensures made { (indent : Indent) (s : TextWithTokens) (scan : IsScan s)
        (tree : Tree (List ℕ) module_text)
        → text_after_cuts_from_offset s.text 0
        (changed_gaps s.text (all_gaps indent s.text (line_roles 0 tree) scan.lexemes))
        ≡ formatted_text indent tree scan.lexemes }
    ensures length { (indent : Indent) (s : TextWithTokens) (scan : IsScan s)
        (tree : Tree (List ℕ) module_text)
        → length_after_cuts_from_offset (length s.text) 0
        (all_gaps indent s.text (line_roles 0 tree) scan.lexemes)
        ≡ length (formatted_text indent tree scan.lexemes) }
{}

/// Proves that each gap between tokens and comments contains only white space, both before and
/// after formatting.
pub fn gaps_are_white_space()
    ensures before { (indent : Indent) (s : TextWithTokens) (scan : IsScan s)
        (tree : Tree (List ℕ) module_text)
        → All (ReplacesOnlyWhiteSpace s.text) (all_gaps indent s.text (line_roles 0 tree) scan.lexemes) }
    ensures after { (indent : Indent) (s : TextWithTokens) (scan : IsScan s)
        (tree : Tree (List ℕ) module_text)
        → All (λ (c : Cut). AllPass is_white_space c.new)
        (all_gaps indent s.text (line_roles 0 tree) scan.lexemes) }
{}
