//! Defines the state of the walk that reports faults: the types and declarations found so far. A
//! type may be unknown, and so may a part of a type, such as an array's element type.

ghost use Rattle.std.specs.Prelude.{◌≡◌, ◌≤◌, ◌∷◌, [], ◌++◌, ◌+◌, ◌^◌, map, IfOk, MatchResult, OnOk, option_map, slice_get, slice_index_or, None, Some};
ghost use Rattle.ob0_types_table.specs.declared.types.TypeId.TheVariants as type;
ghost use Rattle.ob0_tree.specs.TokenIndexLeaves.{token_text_at};
ghost use Rattle.ob0_types_check.specs.TypesAndMeanings.{a_procedure};
ghost use Rattle.ob0_types_check.specs.OperandFaults.{ReturnsAndReports, fault_at_token, fault_at_token_range, next_token_index};
ghost use Rattle.ob0_types_check.specs.KnownDeclarations.{define_name_at_token, is_within_limits, make_composite_type, predeclared_meanings, size_of_known_type, declarations_with_meaning};
ghost use Rattle.ob0_types_check.specs.CheckerViews.{capped_size, meaning_in_state, entry_element_type, entry_field_type, composite_type_of, meaning_view, size_of, declarations_in_state};
ghost use Rattle.ob0_types_check.specs.WrittenTypeFaults.{array_size, combined_size, next_type_ordinal, record_size};

use ob0_language_values::Scalar;
use ob0_scan::FaultCode;
use ob0_scope_table::{FaultAtTokens, Resolved};
use ob0_tree::token_text_at;
use ob0_types_table::{FormalParameter, MAX_SCALARS, MAX_TYPE_DEPTH, TypeEntry, TypeId, add_entry};
use std::alloc::{AllocError, Global};

/// The meaning of a declared name, with its type, value or parameters.
#[derive(Drop)]
pub(crate) enum Meaning {
    /// A type's name, with the type to which the name refers.
    TypeName(TypeId),
    /// A constant with this value, or with None if its right side has a fault.
    Constant(Option<Scalar>),
    Variable(TypeId),
    Procedure(Vec<FormalParameter>),
}

/// Returns the meanings of the predeclared names in the order of their ordinals: INTEGER, BOOLEAN,
/// TRUE, FALSE, Read, Write, WriteLn. The list has room for `capacity` meanings.
pub(crate) fn predeclared_meanings(
    alloc: Global,
    capacity: usize,
) -> Result<Vec<Option<Meaning>>, AllocError>
    ensures { IfOk result (λ ms. map (option_map meaning_view) ms.items ≡ predeclared_meanings) }
{
    let mut meanings = Vec::with_capacity(alloc, capacity)?;
    meanings.push(Some(Meaning::TypeName(TypeId::Integer)))?;
    meanings.push(Some(Meaning::TypeName(TypeId::Boolean)))?;
    meanings.push(Some(Meaning::Constant(Some(Scalar::Truth(true)))))?;
    meanings.push(Some(Meaning::Constant(Some(Scalar::Truth(false)))))?;
    meanings.push(Some(one_parameter_procedure(alloc, true)?))?;
    meanings.push(Some(one_parameter_procedure(alloc, false)?))?;
    meanings.push(Some(Meaning::Procedure(Vec::new(alloc))))?;
    Ok(meanings)
}

/// Returns the meaning of a procedure with one INTEGER parameter. `by_place` is true if the
/// parameter is a VAR parameter.
fn one_parameter_procedure(alloc: Global, by_place: bool) -> Result<Meaning, AllocError>
    ensures { IfOk result
        (λ m. meaning_view m
        ≡ a_procedure (record { by_place = by_place; of = type.Integer } ∷ [])) }
{
    let mut formals = Vec::new(alloc);
    formals.push(FormalParameter {
        by_place,
        of: TypeId::Integer,
    })?;
    Ok(Meaning::Procedure(formals))
}

/// The size of a type: the number of INTEGER and BOOLEAN values in it (its scalars), and its depth.
/// The depth is the number of levels in which arrays and records are nested.
#[derive(Clone, Copy)]
pub(crate) struct TypeSize {
    pub(crate) scalars: usize,
    pub(crate) depth: usize,
}

/// The size of an unknown type: no scalars and depth 0.
pub(crate) const ZERO_SIZE: TypeSize = TypeSize {
    scalars: 0,
    depth: 0,
};

/// The size of INTEGER and BOOLEAN: one scalar and depth 0.
const SCALAR_SIZE: TypeSize = TypeSize {
    scalars: 1,
    depth: 0,
};

impl TypeSize {
    /// Returns the size of an array of `count` elements that each have this size. The number of
    /// scalars and the depth are capped at 2^64 - 1.
    pub(crate) fn size_of_array(self, count: usize) -> TypeSize
        ensures { size_of result ≡ capped_size (array_size count (size_of self)) }
    {
        TypeSize {
            scalars: self.scalars.saturating_mul(count),
            depth: self.depth.saturating_add(1),
        }
    }

    /// Returns the size of two parts together, such as two fields: the sum of their scalars and the
    /// greater of their depths. The sum is capped at 2^64 - 1.
    pub(crate) fn combined_size(self, other: TypeSize) -> TypeSize
        ensures { size_of result ≡ capped_size (combined_size (size_of self) (size_of other)) }
    {
        TypeSize {
            scalars: self.scalars.saturating_add(other.scalars),
            depth: self.depth.max(other.depth),
        }
    }

    /// Returns the size of a record whose fields together have this size. A record counts as at
    /// least one scalar. The depth is one more than the depth of the fields, capped at 2^64 - 1.
    pub(crate) fn size_of_record(self) -> TypeSize
        ensures { size_of result ≡ capped_size (record_size (size_of self)) }
    {
        TypeSize {
            scalars: self.scalars.max(1),
            depth: self.depth.saturating_add(1),
        }
    }

    /// Returns whether a type of this size is within the limits `MAX_SCALARS` and `MAX_TYPE_DEPTH`.
    fn is_within_limits(self) -> bool
        ensures { result ≡ is_within_limits (size_of self) }
    {
        if self.scalars > MAX_SCALARS {
            return false;
        }
        self.depth <= MAX_TYPE_DEPTH
    }
}

/// Returns the sum of two numbers, or an error if the sum doesn't fit in 64 bits. The callers count
/// array and record types in a text. No text has enough of them to cause this error.
pub(crate) fn sum_or_error(a: usize, b: usize) -> Result<usize, AllocError>
    ensures { MatchResult result (λ n. n ≡ a + b) (λ _. 2 ^ 64 ≤ a + b) }
{
    match a.checked_add(b) {
        None => Err(AllocError),
        Some(sum_or_error) => Ok(sum_or_error),
    }
}

/// Appends a fault with this code to `faults`. The fault is at the tokens from `first` to `last`.
pub(crate) fn report_fault_at_token_range(
    faults: &mut Vec<FaultAtTokens>,
    code: FaultCode,
    first: usize,
    last: usize,
) -> Result<(), AllocError>
    ensures { OnOk result
        (faults.new.items ≡ faults.old.items ++ fault_at_token_range code first last) }
{
    faults.push(FaultAtTokens { code, first, last })?;
    Ok(())
}

/// Appends a fault with this code to `faults`. The fault is at one token.
pub(crate) fn report_fault_at_token(
    faults: &mut Vec<FaultAtTokens>,
    code: FaultCode,
    token: usize,
) -> Result<(), AllocError>
    ensures { OnOk result (faults.new.items ≡ faults.old.items ++ fault_at_token code token) }
{
    report_fault_at_token_range(faults, code, token, token)
}

/// The declarations and types of a module that the walk has found so far.
#[derive(Drop)]
pub(crate) struct CheckerState<'t> {
    pub(crate) resolved: &'t Resolved<'t>,
    /// The meaning of each declaration, by ordinal, or None until the walk has found it.
    pub(crate) meanings: Vec<Option<Meaning>>,
    /// The array and record types found so far. A `TypeId` refers to such a type by its index in
    /// this list.
    pub(crate) composites: Vec<TypeEntry>,
}

impl<'t> CheckerState<'t> {
    /// Returns the spelling of a token.
    pub(crate) fn token_text(&self, token: usize) -> &'t str
        ensures { result.now ≡ token_text_at self.now.resolved.now.module_read.source token }
    {
        token_text_at(self.resolved.tokens(), token)
    }

    /// Returns the index of the token after `token`. If `token` is the end of the text (the number
    /// of tokens), returns it unchanged.
    pub(crate) fn next_token_index(&self, token: usize) -> usize
        ensures { result ≡ next_token_index self.now.resolved.now.module_read.source token }
    {
        if token < self.resolved.tokens().tokens().len() {
            token + 1
        } else {
            token
        }
    }

    /// Returns the meaning of the name at a token. Returns None if the name is unbound, or if the
    /// walk hasn't found the meaning of its declaration yet.
    pub(crate) fn meaning_of_name(&self, token: usize) -> Option<&Meaning>
        ensures { option_map (λ m. m.now) result ≡ meaning_in_state self.now token }
    {
        match self.resolved.ordinal_at(token) {
            None => None,
            Some(ordinal) => self.meaning_of_ordinal(ordinal),
        }
    }

    /// Returns the meaning of the declaration with this ordinal. Returns None if the walk hasn't
    /// found the meaning yet, or if there is no such ordinal.
    fn meaning_of_ordinal(&self, ordinal: usize) -> Option<&Meaning>
        ensures { option_map (λ m. m.now) result
            ≡ slice_index_or self.now.meanings.items ordinal None }
    {
        match self.meanings.get(ordinal) {
            None => None,
            Some(meaning) => match meaning {
                None => None,
                Some(meaning) => Some(meaning),
            },
        }
    }

    /// Records the meaning of the name that is declared at a token. If the token has no ordinal,
    /// nothing changes.
    pub(crate) fn define_name_at_token(&mut self, token: usize, meaning: Meaning)
        ensures { declarations_in_state self.new ≡ define_name_at_token
            (declarations_in_state self.old) (meaning_view meaning) token }
    {
        match self.resolved.ordinal_at(token) {
            None => {}
            Some(ordinal) => self.set_meaning_of_ordinal(ordinal, meaning),
        }
    }

    /// Records the meaning of the declaration with this ordinal. If there is no such ordinal,
    /// nothing changes.
    fn set_meaning_of_ordinal(&mut self, ordinal: usize, meaning: Meaning)
        ensures { declarations_in_state self.new
            ≡ declarations_with_meaning (declarations_in_state self.old) (meaning_view meaning) (Some ordinal) }
    {
        if ordinal < self.meanings.len() {
            self.meanings[ordinal] = Some(meaning);
        }
    }

    /// Returns the size of a type. The unknown type has no scalars and depth 0.
    pub(crate) fn size_of(&self, of: TypeId) -> TypeSize
        ensures { size_of result ≡ size_of_known_type (declarations_in_state self.now).made of }
    {
        match of {
            TypeId::Array(place) => self.composite_size(place),
            TypeId::Record(place) => self.composite_size(place),
            TypeId::Integer => SCALAR_SIZE,
            TypeId::Boolean => SCALAR_SIZE,
            TypeId::Unknown => ZERO_SIZE,
        }
    }

    /// Returns the size of the array or record type at the index `place` of `composites`. If there
    /// is no type at this index, returns the size of a scalar.
    fn composite_size(&self, place: usize) -> TypeSize
        ensures { size_of result ≡ size_of_known_type (declarations_in_state self.now).made
            (type.Array place) }
    {
        match self.composites.get(place) {
            None => SCALAR_SIZE,
            Some(composite) => size_of_entry(composite),
        }
    }

    /// Returns the element type of the array type at the index `place` of `composites`. Returns the
    /// unknown type if there is no array type at this index.
    pub(crate) fn composite_element_type(&self, place: usize) -> TypeId
        ensures { result ≡ entry_element_type (slice_get self.now.composites.items place) }
    {
        match self.composites.get(place) {
            None => TypeId::Unknown,
            Some(composite) => match composite {
                TypeEntry::Array(array) => array.element,
                TypeEntry::Record(_) => TypeId::Unknown,
            },
        }
    }

    /// Returns the type of the first field with this name in the record type at the index `place`
    /// of `composites`. Returns None if there is no such record type or field.
    pub(crate) fn composite_field_type(&self, place: usize, name: &str) -> Option<TypeId>
        ensures { result ≡ entry_field_type (slice_get self.now.composites.items place) name.now }
    {
        match self.composites.get(place) {
            None => None,
            Some(composite) => match composite {
                TypeEntry::Array(_) => None,
                TypeEntry::Record(record) => record.fields.type_of_field(name),
            },
        }
    }

    /// Returns the number of array and record types found so far plus `around`, the number of types
    /// that enclose the next word ARRAY or RECORD. If no fault is reported, this sum is the ordinal
    /// of that word: the number of words ARRAY and RECORD before it in the text. Returns an error
    /// if the sum doesn't fit in 64 bits.
    pub(crate) fn next_type_ordinal(&self, around: usize) -> Result<usize, AllocError>
        ensures { MatchResult result (λ n. n ≡ next_type_ordinal around (declarations_in_state self.now))
            (λ _. 2 ^ 64 ≤ next_type_ordinal around (declarations_in_state self.now)) }
    {
        sum_or_error(self.composites.len(), around)
    }

    /// Appends an array or record type to `composites` and returns the `TypeId` that refers to it.
    /// `token` is the type's word ARRAY or RECORD. If the type is too large, appends nothing,
    /// reports `TypeTooLarge` at `token` and returns the unknown type.
    pub(crate) fn make_composite_type(
        &mut self,
        faults: &mut Vec<FaultAtTokens>,
        token: usize,
        entry: TypeEntry,
    ) -> Result<TypeId, AllocError>
        ensures { IfOk result (λ t. ReturnsAndReports faults.old.items faults.new.items
            (record { of = t; following = declarations_in_state self.new })
            (make_composite_type (declarations_in_state self.old) token (composite_type_of entry).ordinal
            (composite_type_of entry).parts (composite_type_of entry).size)) }
    {
        if !size_of_entry(&entry).is_within_limits() {
            report_fault_at_token(faults, FaultCode::TypeTooLarge, token)?;
            return Ok(TypeId::Unknown);
        }
        add_entry(&mut self.composites, entry)
    }
}

/// Returns the size of an array or record type, which is stored in the type's entry.
fn size_of_entry(entry: &TypeEntry) -> TypeSize
    ensures { size_of result ≡ (composite_type_of entry.now).size }
{
    match entry {
        TypeEntry::Array(array) => TypeSize {
            scalars: array.scalars,
            depth: array.depth,
        },
        TypeEntry::Record(record) => TypeSize {
            scalars: record.scalars,
            depth: record.depth,
        },
    }
}
