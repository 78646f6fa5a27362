//! Finds the field that an identifier belongs to, with the field's type, in the RECORD that
//! declares the field.
//!
//! The types of fields aren't stored. A field identifier has the ordinal of its record: the number
//! of words ARRAY and RECORD before the record. The field's type is looked up in the RECORD with
//! this ordinal (`typed_field`). To find that RECORD, a walk visits the module's declarations and
//! counts the words ARRAY and RECORD (`constructed_types`). The walk takes the types of declared
//! names from the table of declarations, so no array length is evaluated again. That table also
//! stores ordinals of records, but the walk counts the words itself. So the walk's contracts don't
//! depend on the stored ordinals.
//!
//! Each function of the walk visits one part of the module. It takes the state of the search before
//! this part and returns the state after this part (`TypeConstructorSearch`). So all the functions'
//! contracts have the same form (`state_after_constructors`). When the type is found, the remaining
//! procedures are skipped.

ghost use Rattle.std.specs.Prelude.{◌≡◌, List, None, option_and_then, option_map};
ghost use Rattle.ob0_tree.specs.View.{block_of, optional_field_group_of, formals_of, procedure_of, record_type_of, parameter_section_of, type_of, type_section_of, variable_section_of};
ghost use Rattle.ob0_language_types.specs.Typing.{element_type, field_type, type_of_object};
ghost use Rattle.ob0_types_table.specs.DeclarationTables.{declared_object_in, shapes_of};
ghost use Rattle.ob0_types_table.specs.DeclarationTableView.{type_shape};
ghost use Rattle.ob0_language_values.specs.Values.{Shape, integer_shape};
ghost use Rattle.ob0_types_fields.specs.FieldTypes.{constructed_types, constructed_type_from_objects, typed_field_from_objects};
ghost use Rattle.ob0_types_fields.specs.TypeConstructorSearch.{state_after_constructors, state_after_constructor, constructor_walk_meanings, search_view, search_view_in_walk, shape_in_walk, typed_field_view};

use crate::field_identifier::FieldIdentifier;
use ob0_scope_table::Resolved;
use ob0_tree::{
    Block, FieldGroup, OptionalFieldGroup, ParameterSection, Procedure, RecordType,
    TypeDeclaration, VariableDeclaration, WrittenType, token_text_at,
};
use ob0_types_table::{DeclarationTable, FieldId, TypeId};

/// A field of a record, with the field's type.
#[derive(Clone, Copy)]
pub struct TypedField {
    pub field: FieldId,
    pub type_id: TypeId,
}

/// Returns the field that an identifier belongs to, with the field's type. Looks for the field in
/// the record whose ordinal is `identifier.owner`. `table` is the table of the module's
/// declarations. Returns None if this record or the field isn't found.
pub fn typed_field<'a, 't>(
    table: &'a DeclarationTable,
    resolved: &'a Resolved<'t>,
    identifier: FieldIdentifier,
) -> Option<TypedField>
    ensures { option_map (typed_field_view (shapes_of table.now)) result
        ≡ typed_field_from_objects (declared_object_in table.now) resolved.now identifier }
{
    let base = constructed_type(table, resolved, identifier.owner)?;
    let name = token_text_at(resolved.tokens(), identifier.token);
    let field = table.field(base, name)?;
    let of = table.field_type(base, name)?;
    Some(TypedField { field, type_id: of })
}

/// Returns the type that the ARRAY or RECORD with the ordinal `ordinal` constructs. The words ARRAY
/// and RECORD of a module are numbered together from 0, in text order. Returns None if the module
/// has no such word or the constructed type is unknown.
fn constructed_type<'a, 't>(
    table: &'a DeclarationTable,
    resolved: &'a Resolved<'t>,
    ordinal: usize,
) -> Option<TypeId>
    ensures { option_map (type_shape (shapes_of table.now)) result
        ≡ constructed_type_from_objects (declared_object_in table.now) resolved.now ordinal }
{
    let walk = TypeConstructorWalk { table, resolved };
    match walk.search_block(
        TypeConstructorSearch::Skipping(ordinal),
        resolved.module().block(),
    ) {
        TypeConstructorSearch::Found(of) => of,
        TypeConstructorSearch::Skipping(_) => None,
    }
}

/// The state of a search for the word ARRAY or RECORD with a given ordinal.
#[derive(Clone, Copy)]
enum TypeConstructorSearch {
    /// The word isn't found yet. The number says how many other words ARRAY and RECORD still come
    /// before it.
    Skipping(usize),
    /// The word is found: the type that it constructs, or None if this type is unknown.
    Found(Option<TypeId>),
}

impl TypeConstructorSearch {
    /// Returns the state of the search after one more word ARRAY or RECORD, given the state before
    /// this word. The word constructs the type `of`, or an unknown type if `of` is None.
    fn after_constructor(self, of: Option<TypeId>) -> TypeConstructorSearch
        ensures { (shapes : List Shape)
            → search_view shapes result
            ≡ state_after_constructor (search_view shapes self) (option_map (type_shape shapes) of) }
    {
        match self {
            TypeConstructorSearch::Found(found) => TypeConstructorSearch::Found(found),
            TypeConstructorSearch::Skipping(n) => {
                if n == 0 {
                    TypeConstructorSearch::Found(of)
                } else {
                    TypeConstructorSearch::Skipping(n - 1)
                }
            }
        }
    }
}

/// The module in which a walk searches for an ARRAY or RECORD, with the table of the module's
/// declarations.
#[derive(Clone, Copy)]
struct TypeConstructorWalk<'a, 't> {
    table: &'a DeclarationTable,
    resolved: &'a Resolved<'t>,
}

impl<'a, 't> TypeConstructorWalk<'a, 't> {
    /// Returns the type that the name at the token `token` means, or the type of the variable,
    /// parameter or constant that the name means. Returns None if the name is unbound or means
    /// anything else, or if the type is unknown.
    fn declared_type(&self, token: usize) -> Option<TypeId>
        ensures { shape_in_walk self.now result
            ≡ type_of_object ((constructor_walk_meanings self.now).object_for token) }
    {
        let ordinal = self.resolved.ordinal_at(token)?;
        self.table.declared_type(ordinal)
    }

    /// Returns the element type of the array type `of`. Returns None if `of` isn't an array type.
    fn element_type_of(&self, of: Option<TypeId>) -> Option<TypeId>
        ensures { shape_in_walk self.now result
            ≡ option_and_then (λ a. element_type a integer_shape) (shape_in_walk self.now of) }
    {
        self.table.element_type(of?)
    }

    /// Returns the type of a field in the record type `of`. The field's name is the identifier at
    /// token `name`. Returns None if `of` isn't a record type with such a field, or if the field's
    /// type is unknown.
    fn field_type_of(&self, of: Option<TypeId>, name: usize) -> Option<TypeId>
        ensures { shape_in_walk self.now result
            ≡ option_and_then (λ r. field_type r ((constructor_walk_meanings self.now).written name))
            (shape_in_walk self.now of) }
    {
        self.table
            .field_type(of?, token_text_at(self.resolved.tokens(), name))
    }

    /// Returns the state of the search after the words ARRAY and RECORD of the written type `t`,
    /// given the state `search` before them. `of` is the type that `t` denotes, or None if this
    /// type is unknown.
    #[cycle(types)]
    fn search_type(
        &self,
        search: TypeConstructorSearch,
        of: Option<TypeId>,
        t: &WrittenType,
    ) -> TypeConstructorSearch
        ensures { search_view_in_walk self.now result
            ≡ state_after_constructors (search_view_in_walk self.now search)
            (constructed_types (constructor_walk_meanings self.now) (shape_in_walk self.now of) (type_of t.now)) }
    {
        match t {
            WrittenType::Named(_) => search,
            WrittenType::Array(a) => {
                self.search_type(
                    search.after_constructor(of),
                    self.element_type_of(of),
                    &a.element,
                )
            }
            WrittenType::Record(r) => self.search_record(search, of, r),
        }
    }

    /// Returns the state of the search after all words ARRAY and RECORD of a record type, given the
    /// state `search` before them. The first of these words is the RECORD of this type. `of` is the
    /// type that the record type denotes, or None if this type is unknown.
    #[cycle(types)]
    fn search_record(
        &self,
        search: TypeConstructorSearch,
        of: Option<TypeId>,
        r: &RecordType,
    ) -> TypeConstructorSearch
        ensures { search_view_in_walk self.now result
            ≡ state_after_constructors (search_view_in_walk self.now search)
            (constructed_types (constructor_walk_meanings self.now) (shape_in_walk self.now of) (record_type_of r.now)) }
    {
        let mut search = search.after_constructor(of);
        for group in &r.groups {
            search = self.search_group(search, of, group);
        }
        search
    }

    /// Returns the state of the search after the type of a group of fields (`x, y: T`). `of` is the
    /// type of the record that contains the group, or None if this type is unknown.
    #[cycle(types)]
    fn search_group(
        &self,
        search: TypeConstructorSearch,
        of: Option<TypeId>,
        f: &OptionalFieldGroup,
    ) -> TypeConstructorSearch
        ensures { search_view_in_walk self.now result
            ≡ state_after_constructors (search_view_in_walk self.now search)
            (constructed_types (constructor_walk_meanings self.now) (shape_in_walk self.now of) (optional_field_group_of f.now)) }
    {
        match f {
            OptionalFieldGroup::Empty => search,
            OptionalFieldGroup::Listed(l) => {
                let l: &FieldGroup = l;
                self.search_type(search, self.field_type_of(of, l.names.first), &l.written)
            }
        }
    }

    fn search_type_section(
        &self,
        search: TypeConstructorSearch,
        declared: &Option<Vec<TypeDeclaration>>,
    ) -> TypeConstructorSearch
        ensures { search_view_in_walk self.now result
            ≡ state_after_constructors (search_view_in_walk self.now search)
            (constructed_types (constructor_walk_meanings self.now) None (type_section_of declared.now)) }
    {
        let Some(declared) = declared else {
            return search;
        };
        let mut search = search;
        for d in declared {
            search = self.search_type(search, self.declared_type(d.name), &d.written);
        }
        search
    }

    fn search_variable_section(
        &self,
        search: TypeConstructorSearch,
        declared: &Option<Vec<VariableDeclaration>>,
    ) -> TypeConstructorSearch
        ensures { search_view_in_walk self.now result
            ≡ state_after_constructors (search_view_in_walk self.now search)
            (constructed_types (constructor_walk_meanings self.now) None (variable_section_of declared.now)) }
    {
        let Some(declared) = declared else {
            return search;
        };
        let mut search = search;
        for v in declared {
            search = self.search_type(search, self.declared_type(v.names.first), &v.written);
        }
        search
    }

    fn search_formals(
        &self,
        search: TypeConstructorSearch,
        sections: &Option<Vec<ParameterSection>>,
    ) -> TypeConstructorSearch
        ensures { search_view_in_walk self.now result
            ≡ state_after_constructors (search_view_in_walk self.now search)
            (constructed_types (constructor_walk_meanings self.now) None (formals_of sections.now)) }
    {
        let Some(sections) = sections else {
            return search;
        };
        let mut search = search;
        for s in sections {
            search = self.search_parameter_section(search, s);
        }
        search
    }

    /// Returns the state of the search after the type of one section of parameters.
    fn search_parameter_section(
        &self,
        search: TypeConstructorSearch,
        s: &ParameterSection,
    ) -> TypeConstructorSearch
        ensures { search_view_in_walk self.now result
            ≡ state_after_constructors (search_view_in_walk self.now search)
            (constructed_types (constructor_walk_meanings self.now) None (parameter_section_of s.now)) }
    {
        self.search_type(search, self.declared_type(s.names.first), &s.written)
    }

    /// Returns the state of the search after all declarations of a block, including its procedures.
    #[cycle(blocks)]
    fn search_block(&self, search: TypeConstructorSearch, b: &Block) -> TypeConstructorSearch
        ensures { search_view_in_walk self.now result
            ≡ state_after_constructors (search_view_in_walk self.now search)
            (constructed_types (constructor_walk_meanings self.now) None (block_of b.now)) }
    {
        let mut search = self.search_type_section(search, &b.types);
        search = self.search_variable_section(search, &b.variables);
        for p in &b.procedures {
            search = self.search_procedure(search, p);
        }
        search
    }

    #[cycle(blocks)]
    fn search_procedure(
        &self,
        search: TypeConstructorSearch,
        p: &Procedure,
    ) -> TypeConstructorSearch
        ensures { search_view_in_walk self.now result
            ≡ state_after_constructors (search_view_in_walk self.now search)
            (constructed_types (constructor_walk_meanings self.now) None (procedure_of p.now)) }
    {
        match search {
            TypeConstructorSearch::Found(of) => TypeConstructorSearch::Found(of),
            TypeConstructorSearch::Skipping(_) => self.search_block(
                self.search_formals(search, &p.formals),
                &p.block,
            ),
        }
    }
}
