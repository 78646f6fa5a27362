//! Keeps the trees of procedures and of the module's body from earlier parses, so that a later
//! parse can reuse them. Each tree is kept with the range of its tokens in the present text.
//!
//! `ShiftedTreeMatchesTokens` states that the tokens in a tree's range have the kinds that the tree
//! spells. It also states that the tree's leaves are the indexes of these tokens in the present or
//! an earlier text. So a tree can still be reused for a changed text that has tokens of the same
//! kinds (`KeptTrees::move_to_changed_text`). If a text has a syntax error, the procedures before
//! the error are kept. The trees from earlier texts after the error are also kept.
//!
//! A kept tree can be reused, whichever parse made it, if the token after the tree can't continue
//! the tree. No token can continue a procedure, because a procedure's tokens end with a semicolon
//! (`stops_zero`). The token after a reused body is END, which can't continue a body. In both cases
//! no other tree has the same tokens (the lemma `same`). The descent reads every tree that the
//! tokens spell (the lemma `finishes`). So the tree fulfils `IsReadTree` if it spells the tokens
//! (the lemma `is_read_tree_at`).
//!
//! The leaves of a procedure determine the range of its tokens. A procedure's name is its second
//! token, and its closing name is its second-last token. The leaves of a body don't determine the
//! range of its tokens. The index of BEGIN is known from a module's tree only if the module has a
//! procedure: BEGIN is then the token after the last procedure.
//!
//! The leaves of a kept tree stay unchanged until a parser reaches the tree's tokens. Then
//! `shift_token_indexes` adds to each leaf the distance that the tokens have moved, by a walk in
//! `leaf_shifts.rt`. The moved tree is the old tree with each leaf changed. So it spells the tokens
//! of the present text (the lemma `moved_tree_fits`). No moved leaf exceeds the largest `usize`,
//! because each moved leaf is less than the tree's `next`, which is a `usize`.

ghost use Rattle.std.specs.Prelude.{◌≡◌, ◌+◌, ◌≤◌, All, IfOk, IfSome, List, length, true};
ghost use Rattle.ob0_scan.specs.SamePrefixAndSuffix.{PrefixAndSuffixHaveSameKinds};
ghost use Rattle.ob0_scan.specs.TextWithTokens.{TextWithTokens};
ghost use Rattle.ob0_scan.specs.declared.lexeme.Token.{Token};
ghost use Rattle.ob0_scan.specs.declared.lexeme.TokenKind.TheVariants as kind;
ghost use Rattle.ob0_tree.specs.ParsedModule.{TreeMatchesText, parsed_module};
ghost use Rattle.ob0_parse_descent.specs.ParserPromises.{TellsIfTokenAt};
ghost use Rattle.ob0_parse.specs.KeptTreeTokens.{KeptTreesMatchTokens, TokensContainProcedures, TokenEndsTree, ModuleEndsWithParts, IsReadConstructAt, KeptTreeMatchesTokens, RelocatesTree};

use crate::leaf_shifts::{self, TokenIndexShift};
use ob0_parse_descent::Parser;
use ob0_scan::{CommonPrefixAndSuffix, ReservedWord};
use ob0_tree::{ModuleTree, Procedure, Statement};
use std::alloc::{AllocError, Global};

/// A construct whose tree can be reused: a procedure declared directly in the module, or the
/// statements of the module's body.
#[derive(Drop)]
pub enum ReusableConstruct {
    Procedure(Procedure),
    Body(Vec<Statement>),
}

/// The tree of a construct from an earlier parse. The tree's tokens have the indexes `at..next` in
/// the present text. The first token of a body is BEGIN. The leaves of the tree are token indexes
/// in a text in which the tree's first token has the index `from`.
#[derive(Drop)]
pub struct KeptTree {
    pub construct: ReusableConstruct,
    pub from: usize,
    pub at: usize,
    pub next: usize,
}

/// The trees of earlier parses that can be reused. A later parse reuses a tree when it reaches the
/// tree's tokens.
#[derive(Drop)]
pub struct KeptTrees {
    /// The trees in reverse text order. So the tree that comes first in the text is the last item.
    pub trees: Vec<KeptTree>,
}

impl KeptTrees {
    /// Returns a `KeptTrees` without any tree.
    pub fn empty(alloc: Global) -> KeptTrees
        ensures { (ts : List Token) → KeptTreesMatchTokens ts result }
    {
        KeptTrees {
            trees: Vec::new(alloc),
        }
    }

    /// Returns a `KeptTrees` that keeps the procedures of a module's tree. If the module has
    /// procedures, its body is also kept. Without a procedure, the tree doesn't give the index of
    /// BEGIN, so the body is dropped.
    pub fn from_tree(alloc: Global, tree: ModuleTree) -> Result<KeptTrees, AllocError>
        ensures { IfOk result (λ kept. (s : TextWithTokens)
            → TreeMatchesText (parsed_module s tree)
            → KeptTreesMatchTokens s.tokens kept) }
    {
        let closing = tree.closing;
        let mut block = tree.into_block();
        let statements = block.body.take();
        let procedures = block.into_procedures();
        let mut trees = Vec::new(alloc);
        if let Some(body) = kept_tree_of_body(&procedures, statements, closing) {
            trees.push(body)?;
        }
        keep_procedures(&mut trees, procedures)?;
        Ok(KeptTrees { trees })
    }

    /// Returns the kept trees whose tokens are also in the changed text, with the ranges of these
    /// tokens in the changed text. `same` describes the tokens before the change and the tokens
    /// after it, which both texts share. The trees whose tokens have changed are dropped.
    pub fn move_to_changed_text(self, same: CommonPrefixAndSuffix) -> KeptTrees
        ensures { (old new : List Token)
            → PrefixAndSuffixHaveSameKinds same old new
            → KeptTreesMatchTokens old self
            → KeptTreesMatchTokens new result }
    {
        let KeptTrees { mut trees } = self;
        let move_to_changed_text = |tree: &mut KeptTree| -> bool
            ensures { RelocatesTree same tree.entry.now tree.exit.now result }
        { tree.move_to_changed_text(same) };
        trees.retain_mut(move_to_changed_text);
        KeptTrees { trees }
    }
}

/// Returns the kept tree of a module's body (`body`), with the range of its tokens. The module has
/// the procedures `procedures`, and its closing name has the token index `closing`. BEGIN is the
/// token after the last procedure, and END is the token before the closing name. Returns None if
/// the module has no body or no procedures, or if an index would be out of range.
fn kept_tree_of_body(
    procedures: &Vec<Procedure>,
    body: Option<Vec<Statement>>,
    closing: usize,
) -> Option<KeptTree>
    ensures { IfSome result (λ k. (ts : List Token)
        → ModuleEndsWithParts ts procedures.now.items body closing
        → KeptTreeMatchesTokens ts k) }
{
    let statements = body?;
    let (last, _others) = procedures.split_last()?;
    let from = last.closing.checked_add(2)?;
    let next = closing.checked_sub(1)?;
    Some(KeptTree {
        construct: ReusableConstruct::Body(statements),
        from,
        at: from,
        next,
    })
}

/// Moves procedures to the end of `kept`, beginning with the last procedure, so that `kept` is in
/// reverse text order. The leaves of the procedures must be the indexes of their tokens in the
/// present text, because the leaves determine the ranges. If the index after a procedure's last
/// token would be out of range, this procedure and the procedures before it are dropped.
pub(crate) fn keep_procedures(
    kept: &mut Vec<KeptTree>,
    mut procedures: Vec<Procedure>,
) -> Result<(), AllocError>
    ensures { (ts : List Token)
        → TokensContainProcedures ts procedures.items
        → All (KeptTreeMatchesTokens ts) kept.old.items
        → All (KeptTreeMatchesTokens ts) kept.new.items }
{
    while let Some(procedure) = procedures.pop() {
        let at = procedure.name.saturating_sub(1);
        let Some(next) = procedure.closing.checked_add(2) else {
            return Ok(());
        };
        kept.push(KeptTree {
            construct: ReusableConstruct::Procedure(procedure),
            from: at,
            at,
            next,
        })?;
    }
    Ok(())
}

/// Removes from `kept` the tree that begins at the token `at`, and adapts its leaves to the present
/// text. Returns that tree and the index of the token after it. Returns None if no kept tree begins
/// at the token `at`, or if the token after the tree could continue the tree. Drops the trees that
/// begin before the token `at`.
pub(crate) fn take_tree_at(
    parser: &Parser<'_>,
    kept: &mut Vec<KeptTree>,
    at: usize,
) -> Option<(ReusableConstruct, usize)>
    requires { All (KeptTreeMatchesTokens parser.now.tokens.now) kept.old.items }
    ensures taken { IfSome result (IsReadConstructAt parser.now.tokens.now at) }
    ensures kept { All (KeptTreeMatchesTokens parser.now.tokens.now) kept.new.items }
{
    while let Some(tree) = kept.pop() {
        if tree.is_reusable_at(parser, at) {
            return Some(tree.shift_token_indexes());
        }
        if at <= tree.at {
            // The list has room for the tree, because the tree was just removed.
            let _ = kept.push(tree);
            return None;
        }
    }
    None
}

impl KeptTree {
    /// Changes the tree's range to the range of its tokens in the changed text, and returns true.
    /// Returns false if the changed text doesn't have these tokens. `same` describes the tokens
    /// before the change and the tokens after it, which both texts share.
    fn move_to_changed_text(&mut self, same: CommonPrefixAndSuffix) -> bool
        ensures { RelocatesTree same self.old self.new result }
    {
        if self.next <= same.prefix {
            return true;
        }
        let Some(at) = index_in_changed_text(self.at, same) else {
            return false;
        };
        let Some(next) = index_in_changed_text(self.next, same) else {
            return false;
        };
        self.at = at;
        self.next = next;
        true
    }

    /// Returns whether the tree begins at the token `at`, and the token after the tree can't
    /// continue the tree. No token can continue a procedure. The token after a body must be END.
    fn is_reusable_at(&self, parser: &Parser<'_>, at: usize) -> bool
        requires { self.now.next ≤ length parser.now.tokens.now }
        ensures at { result ≡ true → self.now.at ≡ at }
        ensures ends { result ≡ true → TokenEndsTree parser.now.tokens.now self.now.construct
            self.now.next }
    {
        if self.at != at {
            return false;
        }
        match &self.construct {
            ReusableConstruct::Procedure(_procedure) => true,
            ReusableConstruct::Body(_statements) => has_reserved_word_at(
                parser,
                self.next,
                ReservedWord::End,
            ),
        }
    }

    /// Changes each leaf of the tree to the index of its token in the present text. Returns the
    /// tree and the index of the token after it.
    fn shift_token_indexes(self) -> (ReusableConstruct, usize)
        ensures { (ts : List Token)
            → KeptTreeMatchesTokens ts self
            → TokenEndsTree ts self.construct self.next
            → IsReadConstructAt ts self.at result }
    {
        let KeptTree {
            construct,
            from,
            at,
            next,
        } = self;
        if from == at {
            return (construct, next);
        }
        match construct {
            ReusableConstruct::Procedure(mut procedure) => {
                leaf_shifts::shift_indexes_in_procedure(
                    &mut procedure,
                    TokenIndexShift { from, to: at },
                );
                (ReusableConstruct::Procedure(procedure), next)
            }
            ReusableConstruct::Body(mut statements) => {
                leaf_shifts::shift_indexes_in_sequence(
                    &mut statements,
                    TokenIndexShift { from, to: at },
                );
                (ReusableConstruct::Body(statements), next)
            }
        }
    }
}

/// Returns the index in the changed text of a token that follows all changed tokens, given the
/// token's index in the old text (`index`). Returns None if the token doesn't follow all changed
/// tokens, or if the returned index would be out of range.
fn index_in_changed_text(index: usize, same: CommonPrefixAndSuffix) -> Option<usize>
    ensures { IfSome result (λ place. (same.old_suffix ≤ index)
        × (place + same.old_suffix ≡ index + same.new_suffix)) }
{
    let following = index.checked_sub(same.old_suffix)?;
    following.checked_add(same.new_suffix)
}

/// Returns whether the token at `at` is the reserved word `word`.
pub(crate) fn has_reserved_word_at(parser: &Parser<'_>, at: usize, word: ReservedWord) -> bool
    requires { at ≤ length parser.now.tokens.now }
    ensures { TellsIfTokenAt (kind.ReservedWord word) parser.now.tokens.now at result }
{
    parser.expect_reserved_word(at, word).is_ok()
}
