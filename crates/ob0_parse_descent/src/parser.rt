//! Parses names and expressions by recursive descent. Most functions take the index `at` of the
//! construct's first token, and the number `room` of nesting levels that are left. Each of these
//! functions returns the construct's tree and the index of the token after the construct.

ghost use Rattle.std.specs.Prelude.{true, ◌≡◌, ◌+◌, ◌<◌, ◌≤◌, ◌∷◌, length, IfSome, IfNone, IfOk, IfErr};
ghost use Rattle.ob0_scan.specs.declared.lexeme.TokenKind.TheVariants as kind;
ghost use Rattle.ob0_scan.specs.declared.lexeme.Symbol.TheVariants as symbol;
ghost use Rattle.ob0_tree.specs.Terminals.{add_operator_token_kind, multiply_operator_token_kind, relation_token_kind};
ghost use Rattle.ob0_tree.specs.Tree.{comma_then_name, compares, none};
ghost use Rattle.ob0_tree.specs.View.{names_of, expression_of, comparison_of, simple_expression_of, addend_of, term_of, multiplier_of, factor_of, selector_of};
ghost use Rattle.ob0_parse_descent.specs.TokenRanks.{binding_rank};
ghost use Rattle.ob0_parse_descent.specs.ParserPromises.{terminal_or_end, remaining_terminals, Reads, ReadsItem, ReadsToken, ReadsIdentifier, TellsIfTokenAt, TellsIfIdentifierAt, IsSignAt, ReadsDesignator, IsOperatorOfKind, IsSingleTokenFactor, OpensNestingLevel};
ghost use Rattle.ob0_parse_descent.specs.declared.refusal.ExpectedSyntax.TheVariants as expected;
ghost use Rattle.ob0_parse_descent.specs.declared.refusal.ParseRefusal.TheVariants.{Syntax};

use crate::list_growth::push_with_doubling;
use crate::refusal::{ExpectedSyntax, ParseRefusal};
use ob0_scan::{ReservedWord, Symbol, Token, TokenKind};
use ob0_tree::{
    AddOperator, Addend, Comparison, CompoundExpression, Designator, Expression, Factor,
    IdentifierList, Multiplier, MultiplyOperator, Relation, Selector, Sign, SimpleExpression, Term,
};
use std::alloc::{AllocError, Global};

/// The binding rank (`binding_rank`) of `.` and `[`, the tokens that begin a selector. A token with
/// a lower rank binds the operand before it more strongly.
const SELECTOR_RANK: u8 = 1;

/// The binding rank (`binding_rank`) of `*`, DIV, MOD and `&`. Tokens with a lower rank bind more
/// strongly.
const MULTIPLICATION_RANK: u8 = 2;

/// The binding rank (`binding_rank`) of `+`, `-` and OR. Tokens with a lower rank bind more
/// strongly.
const ADDITION_RANK: u8 = 3;

/// The binding rank (`binding_rank`) of the relations `=`, `#`, `<`, `<=`, `>` and `>=`. Tokens
/// with a lower rank bind more strongly.
const COMPARISON_RANK: u8 = 4;

/// The binding rank (`binding_rank`) of every token that is no operator and begins no selector, and
/// of the end of the text. Such a token doesn't bind the operand before it.
const NON_OPERATOR_RANK: u8 = 5;

/// The result of parsing a construct: the construct's tree and the index of the token after the
/// construct, or a refusal with the reason.
pub type ConstructResult<T> = Result<(T, usize), ParseRefusal>;

/// The result of parsing an optional item: the item's tree and the index of the token after the
/// item, or a refusal with the reason. The result is `Ok(None)` if the next token doesn't begin
/// such an item.
pub type ItemResult<T> = Result<Option<(T, usize)>, ParseRefusal>;

/// The parser: the tokens to parse, and the allocator for the trees.
#[derive(Clone, Copy)]
pub struct Parser<'t> {
    pub alloc: Global,
    pub tokens: &'t [Token],
}

impl<'t> Parser<'t> {
    /// Returns the kind of the token with the index `at`. Returns None at the end of the text,
    /// which means that `at` is the number of tokens.
    pub fn kind(&self, at: usize) -> Option<TokenKind>
        requires { at ≤ length self.now.tokens.now }
        ensures here { remaining_terminals self.now.tokens.now at
            ≡ terminal_or_end at result ∷ remaining_terminals self.now.tokens.now (at + 1) }
        ensures within { IfSome result (λ _. at < length self.now.tokens.now) }
        ensures end { IfNone result (at ≡ length self.now.tokens.now) }
    {
        if at < self.tokens.len() {
            Some(self.tokens[at].kind)
        } else {
            None
        }
    }

    /// Returns whether the token at `at` is the reserved word `word`.
    pub(crate) fn has_reserved_word_at(&self, at: usize, word: ReservedWord) -> bool
        requires { at ≤ length self.now.tokens.now }
        ensures { TellsIfTokenAt (kind.ReservedWord word) self.now.tokens.now at result }
    {
        self.kind(at) == Some(TokenKind::ReservedWord(word))
    }

    /// Returns whether the token at `at` is the symbol `symbol`.
    pub(crate) fn has_symbol_at(&self, at: usize, symbol: Symbol) -> bool
        requires { at ≤ length self.now.tokens.now }
        ensures { TellsIfTokenAt (kind.Symbol symbol) self.now.tokens.now at result }
    {
        self.kind(at) == Some(TokenKind::Symbol(symbol))
    }

    /// Returns `at + 1` if the token at `at` is the reserved word `word`. Otherwise returns a
    /// syntax error: `word` is expected at `at`.
    pub fn expect_reserved_word(&self, at: usize, word: ReservedWord) -> Result<usize, ParseRefusal>
        requires { at ≤ length self.now.tokens.now }
        ensures { ReadsToken (kind.ReservedWord word) self.now.tokens.now at result }
    {
        if self.has_reserved_word_at(at, word) {
            Ok(at + 1)
        } else {
            syntax_error(at, ExpectedSyntax::Word(word))
        }
    }

    /// Returns `at + 1` if the token at `at` is the symbol `symbol`. Otherwise returns a syntax
    /// error: `symbol` is expected at `at`.
    pub fn expect_symbol(&self, at: usize, symbol: Symbol) -> Result<usize, ParseRefusal>
        requires { at ≤ length self.now.tokens.now }
        ensures { ReadsToken (kind.Symbol symbol) self.now.tokens.now at result }
    {
        if self.has_symbol_at(at, symbol) {
            Ok(at + 1)
        } else {
            syntax_error(at, ExpectedSyntax::Symbol(symbol))
        }
    }

    /// Returns `at` and `at + 1` if the token at `at` is an identifier. Otherwise returns a syntax
    /// error: an identifier is expected at `at`.
    pub fn expect_identifier(&self, at: usize) -> ConstructResult<usize>
        requires { at ≤ length self.now.tokens.now }
        ensures { ReadsIdentifier self.now.tokens.now at result }
    {
        if self.has_identifier_at(at) {
            Ok((at, at + 1))
        } else {
            syntax_error(at, ExpectedSyntax::Identifier)
        }
    }

    /// Returns whether the token at `at` is an identifier.
    pub(crate) fn has_identifier_at(&self, at: usize) -> bool
        requires { at ≤ length self.now.tokens.now }
        ensures { TellsIfIdentifierAt self.now.tokens.now at result }
    {
        self.kind(at) == Some(TokenKind::Identifier)
    }

    /// Parses a further name of a list, `"," ident`. Returns None if the token at `at` isn't a
    /// comma.
    fn parse_name_after_comma(&self, at: usize) -> ItemResult<usize>
        requires { at ≤ length self.now.tokens.now }
        ensures read { ReadsItem comma_then_name 0 self.now.tokens.now at result }
        ensures refusal { IfErr result (λ e. e ≡ Syntax (at + 1) expected.Identifier) }
    {
        if self.has_symbol_at(at, Symbol::Comma) {
            let (name, next) = self.expect_identifier(at + 1)?;
            Ok(Some((name, next)))
        } else {
            Ok(None)
        }
    }

    /// Parses a list of names, `ident {"," ident}`.
    pub(crate) fn parse_names(&self, at: usize) -> ConstructResult<IdentifierList>
        requires { at ≤ length self.now.tokens.now }
        ensures { Reads names_of 0 self.now.tokens.now at result }
    {
        let (first, mut next) = self.expect_identifier(at)?;
        let mut more = Vec::new(self.alloc);
        while let Some((name, end)) = self.parse_name_after_comma(next)? {
            push_with_doubling(&mut more, name)?;
            next = end;
        }
        Ok((IdentifierList { first, more }, next))
    }

    /// Parses an expression, `simple [relation simple]`. If it is a single token, returns its tree
    /// directly, otherwise calls `parse_expression_parts`.
    #[cycle(expressions)]
    #[inline(always)]
    pub(crate) fn parse_expression(&self, at: usize, room: u32) -> ConstructResult<Expression>
        requires { at ≤ length self.now.tokens.now }
        ensures { Reads expression_of room self.now.tokens.now at result }
    {
        let Some(factor) = self.single_token_factor(at, COMPARISON_RANK) else {
            return self.parse_expression_parts(at, room);
        };
        Ok((Expression::Factor(factor), at + 1))
    }

    /// Parses an expression, `simple [relation simple]`, by parsing its parts.
    #[cycle(expressions)]
    #[inline(never)]
    fn parse_expression_parts(&self, at: usize, room: u32) -> ConstructResult<Expression>
        requires { at ≤ length self.now.tokens.now }
        ensures { Reads expression_of room self.now.tokens.now at result }
    {
        let (left, next) = self.parse_simple_expression_fast(at, room)?;
        let Some((comparison, end)) = self.parse_comparison(next, room)? else {
            let lone = self.expression_without_relation(left)?;
            return Ok((lone, next));
        };
        let boxed = Box::new(self.alloc, comparison)?;
        let compared = Some(boxed);
        let compound = Box::new(self.alloc, CompoundExpression { left, compared })?;
        Ok((Expression::CompoundExpression(compound), end))
    }

    /// Returns the expression that consists only of the simple expression `side`, without a
    /// comparison. If `side` is a single factor, the result is an `Expression::Factor`, which needs
    /// no box.
    #[inline(always)]
    fn expression_without_relation(&self, side: SimpleExpression) -> Result<Expression, AllocError>
        ensures { IfOk result (λ e. expression_of e ≡ compares (simple_expression_of side) none) }
    {
        if side.sign.is_none() && side.first.more.is_empty() && side.more.is_empty() {
            return Ok(Expression::Factor(side.first.first));
        }
        let compound = Box::new(
            self.alloc,
            CompoundExpression {
                left: side,
                compared: None,
            },
        )?;
        Ok(Expression::CompoundExpression(compound))
    }

    /// Parses an optional comparison, `relation simple`. Returns None if the token at `at` isn't a
    /// relation.
    #[cycle(expressions)]
    fn parse_comparison(&self, at: usize, room: u32) -> ItemResult<Comparison>
        requires { at ≤ length self.now.tokens.now }
        ensures { ReadsItem comparison_of room self.now.tokens.now at result }
    {
        let Some(kind) = self.kind(at) else {
            return Ok(None);
        };
        let Some(relation) = relation_of(kind) else {
            return Ok(None);
        };
        let (right, next) = self.parse_simple_expression_fast(at + 1, room)?;
        Ok(Some((Comparison { relation, right }, next)))
    }

    /// Returns the token at `at` as a factor. Returns None if that token is neither an identifier
    /// nor an integer. Also returns None if the next token can continue the construct that the
    /// caller parses: if its binding rank (`binding_rank`) is at most `level`.
    #[inline(always)]
    fn single_token_factor(&self, at: usize, level: u8) -> Option<Factor>
        requires within { at ≤ length self.now.tokens.now }
        requires level { SELECTOR_RANK ≤ level }
        ensures within { IfSome result (λ _. at < length self.now.tokens.now) }
        ensures alone { IfSome result (λ f. IsSingleTokenFactor level (factor_of f)
            self.now.tokens.now at) }
    {
        let Some(kind) = self.kind(at) else {
            return None;
        };
        let next = self.kind(at + 1);
        let bound = binding_rank(next);
        if bound <= level {
            return None;
        }
        match kind {
            TokenKind::Identifier => {
                let selectors = Vec::new(self.alloc);
                Some(Factor::Designator(Designator {
                    name: at,
                    selectors,
                }))
            }
            TokenKind::Integer(_) => Some(Factor::Integer(at)),
            _ => None,
        }
    }

    /// Parses a simple expression. If it is a single token, returns its tree directly, otherwise
    /// calls `parse_simple_expression`.
    #[cycle(expressions)]
    #[inline(always)]
    fn parse_simple_expression_fast(
        &self,
        at: usize,
        room: u32,
    ) -> ConstructResult<SimpleExpression>
        requires { at ≤ length self.now.tokens.now }
        ensures { Reads simple_expression_of room self.now.tokens.now at result }
    {
        let Some(factor) = self.single_token_factor(at, ADDITION_RANK) else {
            return self.parse_simple_expression(at, room);
        };
        let multipliers = Vec::new(self.alloc);
        let addends = Vec::new(self.alloc);
        let first = Term {
            first: factor,
            more: multipliers,
        };
        Ok((
            SimpleExpression {
                sign: None,
                first,
                more: addends,
            },
            at + 1,
        ))
    }

    /// Parses a term. If it is a single token, returns its tree directly, otherwise calls
    /// `parse_term`.
    #[cycle(expressions)]
    #[inline(always)]
    fn parse_term_fast(&self, at: usize, room: u32) -> ConstructResult<Term>
        requires { at ≤ length self.now.tokens.now }
        ensures { Reads term_of room self.now.tokens.now at result }
    {
        let Some(first) = self.single_token_factor(at, MULTIPLICATION_RANK) else {
            return self.parse_term(at, room);
        };
        let more = Vec::new(self.alloc);
        Ok((Term { first, more }, at + 1))
    }

    /// Parses a factor. If it is a single token, returns its tree directly, otherwise calls
    /// `parse_factor`.
    #[cycle(expressions)]
    #[inline(always)]
    fn parse_factor_fast(&self, at: usize, room: u32) -> ConstructResult<Factor>
        requires { at ≤ length self.now.tokens.now }
        ensures { Reads factor_of room self.now.tokens.now at result }
    {
        let Some(factor) = self.single_token_factor(at, SELECTOR_RANK) else {
            return self.parse_factor(at, room);
        };
        Ok((factor, at + 1))
    }

    /// Parses a simple expression, `[sign] term {operator term}`.
    #[cycle(expressions)]
    #[inline(never)]
    fn parse_simple_expression(&self, at: usize, room: u32) -> ConstructResult<SimpleExpression>
        requires { at ≤ length self.now.tokens.now }
        ensures { Reads simple_expression_of room self.now.tokens.now at result }
    {
        let (sign, start) = self.parse_sign(at);
        let (first, mut next) = self.parse_term_fast(start, room)?;
        let mut more = Vec::new(self.alloc);
        while let Some((addend, end)) = self.parse_addend(next, room)? {
            push_with_doubling(&mut more, addend)?;
            next = end;
        }
        Ok((SimpleExpression { sign, first, more }, next))
    }

    /// Returns the sign at the token `at` and the index of the token after the sign. If there is no
    /// sign, returns None and `at`.
    fn parse_sign(&self, at: usize) -> (Option<Sign>, usize)
        requires { at ≤ length self.now.tokens.now }
        ensures { IsSignAt self.now.tokens.now at result.0 result.1 }
    {
        match self.kind(at) {
            Some(TokenKind::Symbol(Symbol::Plus)) => (Some(Sign::Plus), at + 1),
            Some(TokenKind::Symbol(Symbol::Minus)) => (Some(Sign::Minus), at + 1),
            _ => (None, at),
        }
    }

    /// Parses a further term with the operator before it, `("+" | "-" | OR) term`. Returns None if
    /// the token at `at` isn't one of these operators.
    #[cycle(expressions)]
    fn parse_addend(&self, at: usize, room: u32) -> ItemResult<Addend>
        requires { at ≤ length self.now.tokens.now }
        ensures { ReadsItem addend_of room self.now.tokens.now at result }
    {
        let Some(kind) = self.kind(at) else {
            return Ok(None);
        };
        let Some(operator) = add_operator_of(kind) else {
            return Ok(None);
        };
        let (term, next) = self.parse_term_fast(at + 1, room)?;
        Ok(Some((Addend { operator, term }, next)))
    }

    /// Parses a term, `factor {operator factor}`.
    #[cycle(expressions)]
    #[inline(never)]
    fn parse_term(&self, at: usize, room: u32) -> ConstructResult<Term>
        requires { at ≤ length self.now.tokens.now }
        ensures { Reads term_of room self.now.tokens.now at result }
    {
        let (first, mut next) = self.parse_factor_fast(at, room)?;
        let mut more = Vec::new(self.alloc);
        while let Some((multiplier, end)) = self.parse_multiplier(next, room)? {
            push_with_doubling(&mut more, multiplier)?;
            next = end;
        }
        Ok((Term { first, more }, next))
    }

    /// Parses a further factor with the operator before it, `("*" | DIV | MOD | "&") factor`.
    /// Returns None if the token at `at` isn't one of these operators.
    #[cycle(expressions)]
    fn parse_multiplier(&self, at: usize, room: u32) -> ItemResult<Multiplier>
        requires { at ≤ length self.now.tokens.now }
        ensures { ReadsItem multiplier_of room self.now.tokens.now at result }
    {
        let Some(kind) = self.kind(at) else {
            return Ok(None);
        };
        let Some(operator) = multiply_operator_of(kind) else {
            return Ok(None);
        };
        let (factor, next) = self.parse_factor_fast(at + 1, room)?;
        Ok(Some((Multiplier { operator, factor }, next)))
    }

    /// Parses a factor: a designator, an integer, `"(" expression ")"` or `"~" factor`.
    #[cycle(expressions)]
    #[inline(never)]
    fn parse_factor(&self, at: usize, room: u32) -> ConstructResult<Factor>
        requires { at ≤ length self.now.tokens.now }
        ensures { Reads factor_of room self.now.tokens.now at result }
    {
        if self.has_symbol_at(at, Symbol::LeftParen) {
            return self.parse_parenthesised_factor(at, room);
        }
        if self.has_symbol_at(at, Symbol::Not) {
            return self.parse_negation(at, room);
        }
        let Some(kind) = self.kind(at) else {
            return syntax_error(at, ExpectedSyntax::Expression);
        };
        match kind {
            TokenKind::Identifier => {
                let (designator, next) = self.parse_designator(at, room)?;
                Ok((Factor::Designator(designator), next))
            }
            TokenKind::Integer(_) => Ok((Factor::Integer(at), at + 1)),
            _ => syntax_error(at, ExpectedSyntax::Expression),
        }
    }

    /// Parses a factor in parentheses, `"(" expression ")"`.
    #[cycle(expressions)]
    fn parse_parenthesised_factor(&self, at: usize, room: u32) -> ConstructResult<Factor>
        requires { TellsIfTokenAt (kind.Symbol symbol.LeftParen) self.now.tokens.now at true }
        ensures { Reads factor_of room self.now.tokens.now at result }
    {
        let inner = levels_left_inside(at, room)?;
        let (expression, next) = self.parse_expression(at + 1, inner)?;
        let next = self.expect_symbol(next, Symbol::RightParen)?;
        let boxed = Box::new(self.alloc, expression)?;
        Ok((Factor::Parenthesised(boxed), next))
    }

    /// Parses a negated factor, `"~" factor`.
    #[cycle(expressions)]
    fn parse_negation(&self, at: usize, room: u32) -> ConstructResult<Factor>
        requires { TellsIfTokenAt (kind.Symbol symbol.Not) self.now.tokens.now at true }
        ensures { Reads factor_of room self.now.tokens.now at result }
    {
        let inner = levels_left_inside(at, room)?;
        let (factor, next) = self.parse_factor(at + 1, inner)?;
        let boxed = Box::new(self.alloc, factor)?;
        Ok((Factor::Not(boxed), next))
    }

    /// Parses a designator (a name and its selectors), `ident {"." ident | "[" expression "]"}`.
    #[cycle(expressions)]
    pub(crate) fn parse_designator(&self, at: usize, room: u32) -> ConstructResult<Designator>
        requires { at ≤ length self.now.tokens.now }
        ensures { ReadsDesignator room self.now.tokens.now at result }
    {
        let (name, mut next) = self.expect_identifier(at)?;
        let mut selectors = Vec::new(self.alloc);
        while let Some((selector, end)) = self.parse_selector(next, room)? {
            push_with_doubling(&mut selectors, selector)?;
            next = end;
        }
        Ok((Designator { name, selectors }, next))
    }

    /// Parses an optional selector, `"." ident | "[" expression "]"`. Returns None if the token at
    /// `at` is neither `.` nor `[`.
    #[cycle(expressions)]
    fn parse_selector(&self, at: usize, room: u32) -> ItemResult<Selector>
        requires { at ≤ length self.now.tokens.now }
        ensures { ReadsItem selector_of room self.now.tokens.now at result }
    {
        if self.has_symbol_at(at, Symbol::Dot) {
            let (name, next) = self.expect_identifier(at + 1)?;
            return Ok(Some((Selector::Field(name), next)));
        }
        if self.has_symbol_at(at, Symbol::LeftBracket) {
            let inner = levels_left_inside(at, room)?;
            let (index, next) = self.parse_expression(at + 1, inner)?;
            let next = self.expect_symbol(next, Symbol::RightBracket)?;
            return Ok(Some((Selector::Index(index), next)));
        }
        Ok(None)
    }
}

/// Returns the binding rank of the token `next`. A token with a lower rank binds the operand before
/// it more strongly. At the end of the text (None) the rank is `NON_OPERATOR_RANK`.
#[inline(always)]
fn binding_rank(next: Option<TokenKind>) -> u8
    ensures { result ≡ binding_rank next }
{
    match next {
        Some(TokenKind::Symbol(Symbol::Dot)) => SELECTOR_RANK,
        Some(TokenKind::Symbol(Symbol::LeftBracket)) => SELECTOR_RANK,
        Some(TokenKind::Symbol(Symbol::Times)) => MULTIPLICATION_RANK,
        Some(TokenKind::Symbol(Symbol::And)) => MULTIPLICATION_RANK,
        Some(TokenKind::ReservedWord(ReservedWord::Div)) => MULTIPLICATION_RANK,
        Some(TokenKind::ReservedWord(ReservedWord::Mod)) => MULTIPLICATION_RANK,
        Some(TokenKind::Symbol(Symbol::Plus)) => ADDITION_RANK,
        Some(TokenKind::Symbol(Symbol::Minus)) => ADDITION_RANK,
        Some(TokenKind::ReservedWord(ReservedWord::Or)) => ADDITION_RANK,
        Some(TokenKind::Symbol(Symbol::Equal)) => COMPARISON_RANK,
        Some(TokenKind::Symbol(Symbol::NotEqual)) => COMPARISON_RANK,
        Some(TokenKind::Symbol(Symbol::Less)) => COMPARISON_RANK,
        Some(TokenKind::Symbol(Symbol::LessEqual)) => COMPARISON_RANK,
        Some(TokenKind::Symbol(Symbol::Greater)) => COMPARISON_RANK,
        Some(TokenKind::Symbol(Symbol::GreaterEqual)) => COMPARISON_RANK,
        _ => NON_OPERATOR_RANK,
    }
}

/// Returns the relation that a token of this kind spells, or None if it spells no relation.
fn relation_of(kind: TokenKind) -> Option<Relation>
    ensures { IsOperatorOfKind relation_token_kind COMPARISON_RANK kind result }
{
    match kind {
        TokenKind::Symbol(Symbol::Equal) => Some(Relation::Equal),
        TokenKind::Symbol(Symbol::NotEqual) => Some(Relation::NotEqual),
        TokenKind::Symbol(Symbol::Less) => Some(Relation::Less),
        TokenKind::Symbol(Symbol::LessEqual) => Some(Relation::LessEqual),
        TokenKind::Symbol(Symbol::Greater) => Some(Relation::Greater),
        TokenKind::Symbol(Symbol::GreaterEqual) => Some(Relation::GreaterEqual),
        _ => None,
    }
}

/// Returns the operator that a token of this kind spells if the token is `+`, `-` or OR, otherwise
/// None.
fn add_operator_of(kind: TokenKind) -> Option<AddOperator>
    ensures { IsOperatorOfKind add_operator_token_kind ADDITION_RANK kind result }
{
    match kind {
        TokenKind::Symbol(Symbol::Plus) => Some(AddOperator::Add),
        TokenKind::Symbol(Symbol::Minus) => Some(AddOperator::Subtract),
        TokenKind::ReservedWord(ReservedWord::Or) => Some(AddOperator::Or),
        _ => None,
    }
}

/// Returns the operator that a token of this kind spells if the token is `*`, DIV, MOD or `&`,
/// otherwise None.
fn multiply_operator_of(kind: TokenKind) -> Option<MultiplyOperator>
    ensures { IsOperatorOfKind multiply_operator_token_kind MULTIPLICATION_RANK kind result }
{
    match kind {
        TokenKind::Symbol(Symbol::Times) => Some(MultiplyOperator::Multiply),
        TokenKind::ReservedWord(ReservedWord::Div) => Some(MultiplyOperator::Divide),
        TokenKind::ReservedWord(ReservedWord::Mod) => Some(MultiplyOperator::Modulo),
        TokenKind::Symbol(Symbol::And) => Some(MultiplyOperator::And),
        _ => None,
    }
}

/// Returns a syntax error: `expected` is expected at the token with the index `token`.
pub fn syntax_error<T>(token: usize, expected: ExpectedSyntax) -> Result<T, ParseRefusal>
    ensures { result ≡ Err (Syntax token expected) }
{
    Err(ParseRefusal::Syntax { token, expected })
}

/// Returns `room` minus 1: the number of nesting levels left inside the construct that the token at
/// `at` opens. If `room` is 0, returns `TooDeep`.
pub(crate) fn levels_left_inside(at: usize, room: u32) -> Result<u32, ParseRefusal>
    ensures { OpensNestingLevel at room result }
{
    if room == 0 {
        Err(ParseRefusal::TooDeep { token: at })
    } else {
        Ok(room - 1)
    }
}
