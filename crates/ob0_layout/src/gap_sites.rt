//! Finds the gaps of a text that formatting changes.
//!
//! The code visits the tokens and comments once, and stores only the gaps that change. It compares
//! each gap with its formatted text without building that text.

ghost use Rattle.std.specs.Prelude.{◌≡◌, ◌||◌, ◌==◌, ◌++◌, ◌∷◌, [], IfOk, OnOk, is_none, drop, length, map};
ghost use Rattle.ob0_scan.specs.TextWithTokens.{IsScan};
ghost use Rattle.ob0_layout.specs.Cuts.{gap_sites_to_change, gap_cut, next_token_or_comment, gap_before_token_or_comment, gap_at_text_end, GapLiesInText};
ghost use Rattle.ob0_layout.specs.Gaps.{all_gaps, changed_gaps, formatting_changes_gap};
ghost use Rattle.ob0_layout.specs.Layout.{next_token_line_level, next_token_role, comment_role, contains_line_break};

use crate::LineRole;
use crate::gap::{Gap, gap_between};
use ob0_scan::{LexemeKind, Span, Token, Tokens};
use ob0_text::Indent;
use std::alloc::{AllocError, Global};

/// A gap of a text: the byte offsets of its start and its end, and its white space after
/// formatting.
#[derive(Clone, Copy)]
pub struct GapSite {
    pub start: usize,
    pub end: usize,
    pub gap: Gap,
}

/// The kind of a token or comment, and its role in its line.
#[derive(Clone, Copy)]
pub struct KindAndRole {
    pub kind: LexemeKind,
    pub role: LineRole,
}

/// A token or comment of a text. A comment is given by its span.
#[derive(Clone, Copy)]
pub enum TokenOrComment {
    Token(Token),
    Comment(Span),
}

/// Returns the gaps that formatting changes, in text order. `roles` has the line role of each token
/// of the text, in text order.
pub fn gap_sites_to_change(
    alloc: Global,
    tokens: &Tokens,
    roles: &[LineRole],
    indent: Indent,
) -> Result<Vec<GapSite>, AllocError>
    ensures { (scan : IsScan tokens.now) → IfOk result (λ gap_sites. map (gap_cut indent) gap_sites.items
        ≡ changed_gaps tokens.now.text
        (all_gaps indent tokens.now.text roles.now scan.lexemes)) }
{
    let text = tokens.text().as_bytes();
    let mut left = tokens.tokens();
    let mut comments = tokens.comments();
    let mut roles = roles;
    let mut gap_sites = Vec::new(alloc);
    let mut before: Option<KindAndRole> = None;
    let mut level = 0;
    let mut start = 0;
    while let Some(next) = next_token_or_comment(left, comments) {
        match next {
            TokenOrComment::Comment(span) => {
                let broken = comment_begins_line(before, &text[start..span.start as usize]);
                let role = comment_role(broken, next_token_line_level(level, roles));
                let kind = LexemeKind::Comment;
                let gap = gap_before_token_or_comment(before, kind, role);
                let end = span.start as usize;
                add_gap_if_changed(&mut gap_sites, text, GapSite { start, end, gap }, indent)?;
                before = Some(KindAndRole { kind, role });
                start = span.end as usize;
                comments = without_first_item(comments);
            }
            TokenOrComment::Token(token) => {
                let role = next_token_role(roles);
                let kind = LexemeKind::Token(token.kind);
                let gap = gap_before_token_or_comment(before, kind, role);
                let end = token.span.start as usize;
                add_gap_if_changed(&mut gap_sites, text, GapSite { start, end, gap }, indent)?;
                before = Some(KindAndRole { kind, role });
                level = next_token_line_level(level, roles);
                roles = without_first_item(roles);
                start = token.span.end as usize;
                left = without_first_item(left);
            }
        }
    }
    let end = text.len();
    let gap = gap_at_text_end(before);
    add_gap_if_changed(&mut gap_sites, text, GapSite { start, end, gap }, indent)?;
    Ok(gap_sites)
}

/// Appends the gap `site` of `text` to `gap_sites` if formatting changes its white space.
fn add_gap_if_changed(
    gap_sites: &mut Vec<GapSite>,
    text: &[u8],
    site: GapSite,
    indent: Indent,
) -> Result<(), AllocError>
    requires { GapLiesInText (length text.now) site }
    ensures { OnOk result
        (gap_sites.new.items ≡ gap_sites.old.items ++ gap_sites_to_change indent text.now (site ∷ [])) }
{
    if formatting_changes_gap(text, site, indent) {
        gap_sites.push(site)?;
    }
    Ok(())
}

/// Returns whether formatting changes the white space of the gap `site` of `text`.
fn formatting_changes_gap(text: &[u8], site: GapSite, indent: Indent) -> bool
    requires { GapLiesInText (length text.now) site }
    ensures { result ≡ formatting_changes_gap text.now (gap_cut indent site) }
{
    !site.gap.matches_bytes(&text[site.start..site.end], indent)
}

/// Returns the token or comment that comes first in the text among the remaining tokens `left` and
/// the remaining comments. Returns None if both lists are empty.
fn next_token_or_comment(left: &[Token], comments: &[Span]) -> Option<TokenOrComment>
    ensures { result ≡ next_token_or_comment left.now comments.now }
{
    if left.is_empty() {
        if comments.is_empty() {
            return None;
        }
        return Some(TokenOrComment::Comment(comments[0]));
    }
    if comments.is_empty() {
        return Some(TokenOrComment::Token(left[0]));
    }
    if comments[0].start < left[0].span.start {
        Some(TokenOrComment::Comment(comments[0]))
    } else {
        Some(TokenOrComment::Token(left[0]))
    }
}

/// Returns the formatted gap between the token or comment `before` and the next one, which has the
/// kind `kind` and the role `role`. At the start of the text, `before` is None and the gap is
/// empty.
fn gap_before_token_or_comment(before: Option<KindAndRole>, kind: LexemeKind, role: LineRole) -> Gap
    ensures { result ≡ gap_before_token_or_comment before kind role }
{
    match before {
        None => Gap::Nothing,
        Some(b) => gap_between(b.kind, b.role, kind, role),
    }
}

/// Returns the formatted gap at the end of the text. The gap is a line feed after the last token or
/// comment, `before`. If the text has no token or comment, `before` is None and the gap is empty.
fn gap_at_text_end(before: Option<KindAndRole>) -> Gap
    ensures { result ≡ gap_at_text_end before }
{
    match before {
        None => Gap::Nothing,
        Some(_) => Gap::Line(0),
    }
}

/// Returns the indentation level of the next token's line, or 0 if no token is left. `level` is the
/// level of the current line, and `roles` has the roles of the remaining tokens.
fn next_token_line_level(level: u32, roles: &[LineRole]) -> u32
    ensures { result ≡ next_token_line_level level roles.now }
{
    if roles.is_empty() {
        return 0;
    }
    match roles[0] {
        LineRole::BeginsLine(begun) => begun,
        LineRole::OpensParameters => level,
        LineRole::JoinsNextToken => level,
        LineRole::Plain => level,
    }
}

/// Returns the line role of the next token, or `Plain` if no token is left. `roles` has the roles
/// of the remaining tokens.
fn next_token_role(roles: &[LineRole]) -> LineRole
    ensures { result ≡ next_token_role roles.now }
{
    if roles.is_empty() {
        return LineRole::Plain;
    }
    roles[0]
}

/// Returns the list `items` without its first item, or an empty list if `items` is empty.
fn without_first_item<T>(items: &[T]) -> &[T]
    ensures { result.now ≡ drop 1 items.now }
{
    if items.is_empty() {
        return items;
    }
    &items[1..]
}

/// Returns the role of a comment. `broken` is true if the comment is preceded by a line break or by
/// the start of the text. If `broken` is true, the comment begins a line of the level `level`.
/// Otherwise its role is `Plain`.
fn comment_role(broken: bool, level: u32) -> LineRole
    ensures { result ≡ comment_role broken level }
{
    if broken {
        LineRole::BeginsLine(level)
    } else {
        LineRole::Plain
    }
}

/// Returns whether a comment begins a line. It does if a line break precedes it, or if no token or
/// comment precedes it (`before` is None). `gap` has the bytes of the gap before the comment.
fn comment_begins_line(before: Option<KindAndRole>, gap: &[u8]) -> bool
    ensures { result ≡ (is_none before || contains_line_break gap.now) }
{
    before.is_none() || contains_line_break(gap)
}

/// Returns whether the gap contains a line feed or a carriage return.
fn contains_line_break(gap: &[u8]) -> bool
    ensures { result ≡ contains_line_break gap.now }
{
    for b in gap {
        if *b == b'\n' || *b == b'\r' {
            return true;
        }
    }
    false
}
