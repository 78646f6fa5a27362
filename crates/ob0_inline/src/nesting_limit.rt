//! Checks whether an edited text is nested deeper than a module may be. Only a value that is written
//! with parentheses can add a level of nesting: without them no tree is walked and no text is parsed.

ghost use Rattle.std.specs.Prelude.{◌≡◌, ◌==◌, ◌≤◌, ◌+◌, List, IfOk, IfErr, map, nat_le, nat_lt, ℕ};
ghost use Rattle.ob0_edits_tokens.specs.Replacements.{EditedTextHasWords};
ghost use Rattle.ob0_edits_tokens.specs.WordTerminals.{terminal_of_word};
ghost use Rattle.ob0_scan.specs.TextWithTokens.{IsScan, TextWithTokens, Word};
ghost use Rattle.ob0_text.specs.declared.refusals.EditRefusal.TheVariants.{Memory};
ghost use Rattle.ob0_tree.specs.Module.{max_nesting, terminals_of_text};
ghost use Rattle.ob0_tree.specs.ParsedModule.{tree_of};
ghost use Rattle.ob0_tree.specs.Tree.{Tree, module_text, nesting, spell};
ghost use Rattle.ob0_inline.specs.Values.{value_factor};

use ob0_language_values::Scalar;
use ob0_parse::parse;
use ob0_parse_descent::ParseRefusal;
use ob0_scan::{ScanRefusal, Tokens, scan};
use ob0_text::{Edit, EditRefusal, PatchFault, TextStore, patch};
use ob0_tree::{MAX_NESTING, Module};
use std::alloc::Global;

/// Returns whether the text that results from the edits is nested deeper than a module may be.
/// `read` is the module before the edits, and `value` the value that they write. The contract
/// assumes that the edits add at most the nesting of the value's factor. So if the value is written
/// without parentheses, or `read` has fewer than `MAX_NESTING` levels, the result is false.
/// Otherwise the function parses the edited text.
pub(crate) fn is_edited_text_nested_too_deeply<T: TextStore>(
    alloc: Global,
    store: &T,
    read: &Module,
    value: Scalar,
    edits: &[Edit],
) -> Result<bool, EditRefusal>
    requires shallow { nesting (tree_of read.now) ≤ max_nesting }
    ensures deep { (ws : List Word) (t : Tree (List ℕ) module_text)
        → EditedTextHasWords (T.unit_of store.now) (T.content store.now) edits.now ws
        → map terminal_of_word ws ≡ spell t
        → nesting t ≤ nesting (tree_of read.now) + nesting (value_factor value)
        → IfOk result (λ deep. deep ≡ nat_lt max_nesting (nesting t)) }
    ensures memory { IfErr result (λ refusal. refusal ≡ Memory) }
{
    if is_written_without_parentheses(value) {
        return Ok(false);
    }
    if read.nesting() < MAX_NESTING {
        return Ok(false);
    }
    is_reparsed_text_nested_too_deeply(alloc, store, edits)
}

/// Returns whether an inlining writes the value without parentheses: all values except negative
/// numbers.
fn is_written_without_parentheses(value: Scalar) -> bool
    ensures { result ≡ (nesting (value_factor value) == 0) }
{
    match value {
        Scalar::Number(number) => number >= 0,
        Scalar::Truth(_) => true,
    }
}

/// Returns whether the text that results from the edits is nested deeper than a module may be. The
/// function parses the edited text. The result is also true if the edits overlap or the edited text
/// isn't a module. The contract covers neither of these two cases.
fn is_reparsed_text_nested_too_deeply<T: TextStore>(
    alloc: Global,
    store: &T,
    edits: &[Edit],
) -> Result<bool, EditRefusal>
    ensures deep { (ws : List Word) (t : Tree (List ℕ) module_text)
        → EditedTextHasWords (T.unit_of store.now) (T.content store.now) edits.now ws
        → map terminal_of_word ws ≡ spell t
        → IfOk result (λ deep. deep ≡ nat_lt max_nesting (nesting t)) }
    ensures memory { IfErr result (λ refusal. refusal ≡ Memory) }
{
    match patch(alloc, store, edits) {
        Ok(text) => {
            let module = text_can_be_parsed(alloc, text.as_str())?;
            Ok(!module)
        }
        Err(fault) => match fault {
            PatchFault::Overlap => Ok(true),
            PatchFault::Memory => Err(EditRefusal::Memory),
        },
    }
}

/// Returns whether the text can be scanned and parsed as a module. If the text's tokens spell the
/// tree of a module, the result is true exactly if the tree's nesting is within the limit for
/// modules.
fn text_can_be_parsed(alloc: Global, text: &str) -> Result<bool, EditRefusal>
    ensures shallow { (s : TextWithTokens) (t : Tree (List ℕ) module_text) → IsScan s → s.text ≡ text.now
        → terminals_of_text s ≡ spell t
        → IfOk result (λ shallow. shallow ≡ nat_le (nesting t) max_nesting) }
    ensures memory { IfErr result (λ refusal. refusal ≡ Memory) }
{
    match scan(alloc, text) {
        Ok(tokens) => tokens_can_be_parsed(alloc, &tokens),
        Err(refusal) => match refusal {
            ScanRefusal::Faults(_faults) => Ok(false),
            ScanRefusal::Memory => Err(EditRefusal::Memory),
        },
    }
}

/// Returns whether these tokens can be parsed as a module. If the tokens spell the tree of a
/// module, the result is true exactly if the tree's nesting is within the limit for modules.
fn tokens_can_be_parsed(alloc: Global, tokens: &Tokens) -> Result<bool, EditRefusal>
    ensures shallow { (t : Tree (List ℕ) module_text)
        → terminals_of_text tokens.now ≡ spell t
        → IfOk result (λ shallow. shallow ≡ nat_le (nesting t) max_nesting) }
    ensures memory { IfErr result (λ refusal. refusal ≡ Memory) }
{
    match parse(alloc, tokens) {
        Ok(_module) => Ok(true),
        Err(refusal) => match refusal {
            ParseRefusal::Syntax {
                token: _,
                expected: _,
            } => Ok(false),
            ParseRefusal::TooDeep { token: _ } => Ok(false),
            ParseRefusal::Memory => Err(EditRefusal::Memory),
        },
    }
}
