//! Parses statements and lists of statements. The parameters `at` and `room` are described in
//! `parser.rt`.

ghost use Rattle.std.specs.Prelude.{true, ◌≡◌, ◌≤◌, length};
ghost use Rattle.ob0_scan.specs.declared.lexeme.TokenKind.TheVariants as kind;
ghost use Rattle.ob0_scan.specs.declared.lexeme.ReservedWord.TheVariants as reserved;
ghost use Rattle.ob0_scan.specs.declared.lexeme.Symbol.TheVariants as symbol;
ghost use Rattle.ob0_tree.specs.View.{arguments_of_vec, argument_after_comma_of, expression_of, statement_of, sequence_of_vec, statement_after_semicolon_of, elsif_of, elsifs_of_vec, else_part_of};
ghost use Rattle.ob0_parse_descent.specs.TokenRanks.{may_begin_expression};
ghost use Rattle.ob0_parse_descent.specs.ParserPromises.{Reads, ReadsList, ReadsItem, TellsIfTokenAt, TellsIfIdentifierAt};

use crate::list_growth::push_with_doubling;
use crate::parser::{ConstructResult, ItemResult, Parser, levels_left_inside, syntax_error};
use crate::refusal::ExpectedSyntax;
use ob0_scan::{ReservedWord, Symbol, TokenKind};
use ob0_tree::{Assignment, Call, Elsif, Expression, If, Repeat, Statement, While};

impl<'t> Parser<'t> {
    /// Parses a statement, `[assignment | call | if | while | repeat]`, which may be empty.
    #[cycle(statements)]
    fn parse_statement(&self, at: usize, room: u32) -> ConstructResult<Statement>
        requires { at ≤ length self.now.tokens.now }
        ensures { Reads statement_of room self.now.tokens.now at result }
    {
        if self.has_identifier_at(at) {
            return self.parse_assignment_or_call(at, room);
        }
        if self.has_reserved_word_at(at, ReservedWord::If) {
            return self.parse_if(at, room);
        }
        if self.has_reserved_word_at(at, ReservedWord::While) {
            return self.parse_while(at, room);
        }
        if self.has_reserved_word_at(at, ReservedWord::Repeat) {
            return self.parse_repeat(at, room);
        }
        Ok((Statement::Empty, at))
    }

    /// Parses an assignment or a call, which begins with the identifier at `at`. It is an
    /// assignment if `:=` follows the identifier and its selectors. Otherwise it must be a call,
    /// and the identifier must have no selectors.
    fn parse_assignment_or_call(&self, at: usize, room: u32) -> ConstructResult<Statement>
        requires { TellsIfIdentifierAt self.now.tokens.now at true }
        ensures { Reads statement_of room self.now.tokens.now at result }
    {
        let (target, next) = self.parse_designator(at, room)?;
        if self.has_symbol_at(next, Symbol::Becomes) {
            let (value, end) = self.parse_expression(next + 1, room)?;
            let boxed = Box::new(self.alloc, Assignment { target, value })?;
            return Ok((Statement::Assign(boxed), end));
        }
        if !target.selectors.is_empty() {
            return syntax_error(next, ExpectedSyntax::Symbol(Symbol::Becomes));
        }
        let procedure = target.name;
        let Some((arguments, end)) = self.parse_arguments(next, room)? else {
            return Ok((
                Statement::Call(Call {
                    procedure,
                    arguments: None,
                }),
                next,
            ));
        };
        let arguments = Some(arguments);
        Ok((
            Statement::Call(Call {
                procedure,
                arguments,
            }),
            end,
        ))
    }

    /// Parses the optional arguments of a call, `"(" [expression {"," expression}] ")"`. Returns
    /// None if the token at `at` isn't `(`.
    fn parse_arguments(&self, at: usize, room: u32) -> ItemResult<Vec<Expression>>
        requires { at ≤ length self.now.tokens.now }
        ensures { ReadsItem arguments_of_vec room self.now.tokens.now at result }
    {
        if !self.has_symbol_at(at, Symbol::LeftParen) {
            return Ok(None);
        }
        if !may_begin_expression(self.kind(at + 1)) {
            let end = self.expect_symbol(at + 1, Symbol::RightParen)?;
            return Ok(Some((Vec::new(self.alloc), end)));
        }
        let (arguments, next) = self.parse_argument_list(at + 1, room)?;
        let end = self.expect_symbol(next, Symbol::RightParen)?;
        Ok(Some((arguments, end)))
    }

    /// Parses a list of one or more arguments, `expression {"," expression}`.
    fn parse_argument_list(&self, at: usize, room: u32) -> ConstructResult<Vec<Expression>>
        requires { at ≤ length self.now.tokens.now }
        ensures { ReadsList expression_of argument_after_comma_of room self.now.tokens.now at
            result }
    {
        let mut arguments = Vec::new(self.alloc);
        let (first, mut next) = self.parse_expression(at, room)?;
        push_with_doubling(&mut arguments, first)?;
        while let Some((argument, end)) = self.parse_argument_after_comma(next, room)? {
            push_with_doubling(&mut arguments, argument)?;
            next = end;
        }
        Ok((arguments, next))
    }

    /// Parses a further argument, `"," expression`. Returns None if the token at `at` isn't a
    /// comma.
    fn parse_argument_after_comma(&self, at: usize, room: u32) -> ItemResult<Expression>
        requires { at ≤ length self.now.tokens.now }
        ensures { ReadsItem argument_after_comma_of room self.now.tokens.now at result }
    {
        if !self.has_symbol_at(at, Symbol::Comma) {
            return Ok(None);
        }
        let (argument, next) = self.parse_expression(at + 1, room)?;
        Ok(Some((argument, next)))
    }

    /// Parses a sequence of statements, `statement {";" statement}`.
    #[cycle(statements)]
    pub(crate) fn parse_sequence(&self, at: usize, room: u32) -> ConstructResult<Vec<Statement>>
        requires { at ≤ length self.now.tokens.now }
        ensures { Reads sequence_of_vec room self.now.tokens.now at result }
    {
        let mut statements = Vec::new(self.alloc);
        let (first, mut next) = self.parse_statement(at, room)?;
        push_with_doubling(&mut statements, first)?;
        while let Some((statement, end)) = self.parse_statement_after_semicolon(next, room)? {
            push_with_doubling(&mut statements, statement)?;
            next = end;
        }
        Ok((statements, next))
    }

    /// Parses a further statement, `";" statement`. Returns None if the token at `at` isn't `;`.
    #[cycle(statements)]
    fn parse_statement_after_semicolon(&self, at: usize, room: u32) -> ItemResult<Statement>
        requires { at ≤ length self.now.tokens.now }
        ensures { ReadsItem statement_after_semicolon_of room self.now.tokens.now at result }
    {
        if !self.has_symbol_at(at, Symbol::Semicolon) {
            return Ok(None);
        }
        let (statement, next) = self.parse_statement(at + 1, room)?;
        Ok(Some((statement, next)))
    }

    /// Parses an IF statement: `IF expression THEN sequence {ELSIF expression THEN sequence} [ELSE
    /// sequence] END`.
    #[cycle(statements)]
    fn parse_if(&self, at: usize, room: u32) -> ConstructResult<Statement>
        requires { TellsIfTokenAt (kind.ReservedWord reserved.If) self.now.tokens.now at true }
        ensures { Reads statement_of room self.now.tokens.now at result }
    {
        let inner = levels_left_inside(at, room)?;
        let (condition, next) = self.parse_expression(at + 1, inner)?;
        let start = self.expect_reserved_word(next, ReservedWord::Then)?;
        let (then, next) = self.parse_sequence(start, inner)?;
        let (elsifs, next) = self.parse_elsif_parts(next, inner)?;
        let (otherwise, next) = self.parse_else_part(next, inner)?;
        let end = self.expect_reserved_word(next, ReservedWord::End)?;
        let boxed = Box::new(
            self.alloc,
            If {
                condition,
                then,
                elsifs,
                otherwise,
            },
        )?;
        Ok((Statement::If(boxed), end))
    }

    /// Parses the ELSIF parts of an IF statement, `{ELSIF expression THEN sequence}`.
    #[cycle(statements)]
    fn parse_elsif_parts(&self, at: usize, room: u32) -> ConstructResult<Vec<Elsif>>
        requires { at ≤ length self.now.tokens.now }
        ensures { Reads elsifs_of_vec room self.now.tokens.now at result }
    {
        let mut elsifs = Vec::new(self.alloc);
        let mut next = at;
        while let Some((elsif, end)) = self.parse_elsif(next, room)? {
            push_with_doubling(&mut elsifs, elsif)?;
            next = end;
        }
        Ok((elsifs, next))
    }

    /// Parses an ELSIF part, `ELSIF expression THEN sequence`. Returns None if the token at `at`
    /// isn't ELSIF.
    #[cycle(statements)]
    fn parse_elsif(&self, at: usize, room: u32) -> ItemResult<Elsif>
        requires { at ≤ length self.now.tokens.now }
        ensures { ReadsItem elsif_of room self.now.tokens.now at result }
    {
        if !self.has_reserved_word_at(at, ReservedWord::Elsif) {
            return Ok(None);
        }
        let (condition, next) = self.parse_expression(at + 1, room)?;
        let start = self.expect_reserved_word(next, ReservedWord::Then)?;
        let (then, end) = self.parse_sequence(start, room)?;
        Ok(Some((Elsif { condition, then }, end)))
    }

    /// Parses the ELSE part of an IF statement, `[ELSE sequence]`. The statements are None if the
    /// token at `at` isn't ELSE.
    #[cycle(statements)]
    fn parse_else_part(&self, at: usize, room: u32) -> ConstructResult<Option<Vec<Statement>>>
        requires { at ≤ length self.now.tokens.now }
        ensures { Reads else_part_of room self.now.tokens.now at result }
    {
        if !self.has_reserved_word_at(at, ReservedWord::Else) {
            return Ok((None, at));
        }
        let (statements, end) = self.parse_sequence(at + 1, room)?;
        Ok((Some(statements), end))
    }

    /// Parses a WHILE statement, `WHILE expression DO sequence END`.
    #[cycle(statements)]
    fn parse_while(&self, at: usize, room: u32) -> ConstructResult<Statement>
        requires { TellsIfTokenAt (kind.ReservedWord reserved.While) self.now.tokens.now at true }
        ensures { Reads statement_of room self.now.tokens.now at result }
    {
        let inner = levels_left_inside(at, room)?;
        let (condition, next) = self.parse_expression(at + 1, inner)?;
        let start = self.expect_reserved_word(next, ReservedWord::Do)?;
        let (body, next) = self.parse_sequence(start, inner)?;
        let end = self.expect_reserved_word(next, ReservedWord::End)?;
        let boxed = Box::new(self.alloc, While { condition, body })?;
        Ok((Statement::While(boxed), end))
    }

    /// Parses a REPEAT statement, `REPEAT sequence UNTIL expression`.
    #[cycle(statements)]
    fn parse_repeat(&self, at: usize, room: u32) -> ConstructResult<Statement>
        requires { TellsIfTokenAt (kind.ReservedWord reserved.Repeat) self.now.tokens.now at true }
        ensures { Reads statement_of room self.now.tokens.now at result }
    {
        let inner = levels_left_inside(at, room)?;
        let (body, next) = self.parse_sequence(at + 1, inner)?;
        let start = self.expect_reserved_word(next, ReservedWord::Until)?;
        let (condition, end) = self.parse_expression(start, inner)?;
        let boxed = Box::new(self.alloc, Repeat { body, condition })?;
        Ok((Statement::Repeat(boxed), end))
    }
}

/// Returns whether an expression may begin with a token of this kind. At the end of the text (None)
/// the result is false.
fn may_begin_expression(first: Option<TokenKind>) -> bool
    ensures { result ≡ may_begin_expression first }
{
    match first {
        Some(TokenKind::Identifier) => true,
        Some(TokenKind::Integer(_)) => true,
        Some(TokenKind::Symbol(Symbol::Plus)) => true,
        Some(TokenKind::Symbol(Symbol::Minus)) => true,
        Some(TokenKind::Symbol(Symbol::LeftParen)) => true,
        Some(TokenKind::Symbol(Symbol::Not)) => true,
        _ => false,
    }
}
