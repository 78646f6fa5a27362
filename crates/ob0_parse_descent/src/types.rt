//! Parses types as they are written in the text: a name, an ARRAY type or a RECORD type. The
//! parameters `at` and `room` are described in `parser.rt`.

ghost use Rattle.std.specs.Prelude.{true, ◌≤◌, length};
ghost use Rattle.ob0_scan.specs.declared.lexeme.TokenKind.TheVariants as kind;
ghost use Rattle.ob0_scan.specs.declared.lexeme.ReservedWord.TheVariants as reserved;
ghost use Rattle.ob0_tree.specs.View.{type_of, optional_field_group_of, field_group_after_semicolon_of};
ghost use Rattle.ob0_parse_descent.specs.ParserPromises.{Reads, ReadsItem, TellsIfTokenAt};

use crate::list_growth::push_with_doubling;
use crate::parser::{ConstructResult, ItemResult, Parser, levels_left_inside, syntax_error};
use crate::refusal::ExpectedSyntax;
use ob0_scan::{ReservedWord, Symbol};
use ob0_tree::{ArrayType, FieldGroup, OptionalFieldGroup, RecordType, WrittenType};

impl<'t> Parser<'t> {
    /// Parses a type: `ident | ARRAY expression OF type | RECORD fields {";" fields} END`.
    #[cycle(types)]
    pub(crate) fn parse_type(&self, at: usize, room: u32) -> ConstructResult<WrittenType>
        requires { at ≤ length self.now.tokens.now }
        ensures { Reads type_of room self.now.tokens.now at result }
    {
        if self.has_identifier_at(at) {
            return Ok((WrittenType::Named(at), at + 1));
        }
        if self.has_reserved_word_at(at, ReservedWord::Array) {
            return self.parse_array_type(at, room);
        }
        if self.has_reserved_word_at(at, ReservedWord::Record) {
            return self.parse_record_type(at, room);
        }
        syntax_error(at, ExpectedSyntax::Type)
    }

    /// Parses an array type, `ARRAY expression OF type`.
    #[cycle(types)]
    fn parse_array_type(&self, at: usize, room: u32) -> ConstructResult<WrittenType>
        requires { TellsIfTokenAt (kind.ReservedWord reserved.Array) self.now.tokens.now at true }
        ensures { Reads type_of room self.now.tokens.now at result }
    {
        let inner = levels_left_inside(at, room)?;
        let (size, next) = self.parse_expression(at + 1, inner)?;
        let start = self.expect_reserved_word(next, ReservedWord::Of)?;
        let (element, end) = self.parse_type(start, inner)?;
        let element = Box::new(self.alloc, element)?;
        Ok((WrittenType::Array(ArrayType { size, element }), end))
    }

    /// Parses a record type, `RECORD fields {";" fields} END`.
    #[cycle(types)]
    fn parse_record_type(&self, at: usize, room: u32) -> ConstructResult<WrittenType>
        requires { TellsIfTokenAt (kind.ReservedWord reserved.Record) self.now.tokens.now at true }
        ensures { Reads type_of room self.now.tokens.now at result }
    {
        let inner = levels_left_inside(at, room)?;
        let mut groups = Vec::new(self.alloc);
        let (first, mut next) = self.parse_optional_field_group(at + 1, inner)?;
        push_with_doubling(&mut groups, first)?;
        while let Some((fields, end)) = self.parse_field_group_after_semicolon(next, inner)? {
            push_with_doubling(&mut groups, fields)?;
            next = end;
        }
        let end = self.expect_reserved_word(next, ReservedWord::End)?;
        Ok((WrittenType::Record(RecordType { groups }), end))
    }

    /// Parses a further group of fields, `";" fields`. Returns None if the token at `at` isn't `;`.
    #[cycle(types)]
    fn parse_field_group_after_semicolon(
        &self,
        at: usize,
        room: u32,
    ) -> ItemResult<OptionalFieldGroup>
        requires { at ≤ length self.now.tokens.now }
        ensures { ReadsItem field_group_after_semicolon_of room self.now.tokens.now at result }
    {
        if !self.has_symbol_at(at, Symbol::Semicolon) {
            return Ok(None);
        }
        let (fields, next) = self.parse_optional_field_group(at + 1, room)?;
        Ok(Some((fields, next)))
    }

    /// Parses a group of fields of a record, `[names ":" type]`. The group is empty if the token at
    /// `at` isn't an identifier.
    #[cycle(types)]
    fn parse_optional_field_group(
        &self,
        at: usize,
        room: u32,
    ) -> ConstructResult<OptionalFieldGroup>
        requires { at ≤ length self.now.tokens.now }
        ensures { Reads optional_field_group_of room self.now.tokens.now at result }
    {
        if !self.has_identifier_at(at) {
            return Ok((OptionalFieldGroup::Empty, at));
        }
        let (names, next) = self.parse_names(at)?;
        let start = self.expect_symbol(next, Symbol::Colon)?;
        let (written, end) = self.parse_type(start, room)?;
        let boxed = Box::new(self.alloc, FieldGroup { names, written })?;
        Ok((OptionalFieldGroup::Listed(boxed), end))
    }
}
