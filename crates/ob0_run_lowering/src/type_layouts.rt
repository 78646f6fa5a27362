//! Computes the layouts of a module's types: their numbers of cells, and the offsets of fields.
//!
//! The checker's table of types has the ARRAY and RECORD types of the module. The layout of each is
//! computed once, in the order of this table, from the layouts of earlier entries (`AreLayoutsOfTypes`).
//! The offset of a field is found by the index of the field in the record.

ghost use Rattle.std.specs.Prelude.{◌≡◌, ◌≤◌, ◌+◌, ◌*◌, ◌^◌, ℕ, IfOk, List, MatchResult, slice_index_or};
ghost use Rattle.ob0_run_cells.specs.Cells.{field_offset, shape_cell_count, step_offset};
ghost use Rattle.ob0_language_names.specs.Names.{Name};
ghost use Rattle.ob0_types_table.specs.FieldPlaces.{selected_field};
ghost use Rattle.ob0_types_table.specs.DeclarationTables.{shapes_of};
ghost use Rattle.ob0_types_table.specs.DeclarationTableView.{field_shapes, entry_shape, faulty_shape, array_shape_or_faulty, record_shape_or_faulty, type_shape};
ghost use Rattle.ob0_language_values.specs.Values as values;
ghost use Rattle.ob0_run_lowering.specs.Layouts.{IsLayoutOfFields, AreLayoutsOfTypes, IsLayoutOfType, IsLayoutOfRecord};

use ob0_types_table::{DeclarationTable, Field, FieldId, TypeEntry, TypeId};
use std::alloc::{AllocError, Global};
use std::marker::Model;

/// The layout of a record: its number of cells, and the offset of each field within these cells.
#[derive(Drop)]
struct RecordLayout {
    cells: usize,
    offsets: Vec<usize>,
}

/// The layout of an array or a record type: an array's number of cells, or a record's layout.
#[derive(Drop)]
enum CellLayout {
    Array(usize),
    Record(RecordLayout),
}

/// The table of a module's declarations, and the layouts of the array and record types in this
/// table.
#[derive(Drop)]
pub struct TypeLayouts<'k> {
    known: &'k DeclarationTable,
    layouts: Vec<CellLayout>,
}

/// Returns the sum of two numbers of cells. Fails exactly if the sum has more than 64 bits. The
/// error is a failed allocation, since no allocation is that large.
fn cell_count_sum(cells: usize, more: usize) -> Result<usize, AllocError>
    ensures { MatchResult result (λ n. n ≡ cells + more) (λ _. 2 ^ 64 ≤ cells + more) }
{
    match cells.checked_add(more) {
        None => Err(AllocError),
        Some(sum) => Ok(sum),
    }
}

/// Returns the product of a number of elements and the number of cells of each. Fails exactly if
/// the product has more than 64 bits.
fn cell_count_product(count: usize, cells: usize) -> Result<usize, AllocError>
    ensures { MatchResult result (λ n. n ≡ count * cells) (λ _. 2 ^ 64 ≤ count * cells) }
{
    match count.checked_mul(cells) {
        None => Err(AllocError),
        Some(product) => Ok(product),
    }
}

/// Returns the number of cells of the array type at the index `place` of the table of types.
/// `layouts` has the layouts of this table. Returns 0 if the table has no array type at this index.
fn array_cell_count(layouts: &[CellLayout], place: usize) -> usize
    ensures { (shapes : List values.Shape)
        → AreLayoutsOfTypes shapes layouts.now
        → result ≡ shape_cell_count (array_shape_or_faulty (slice_index_or shapes place faulty_shape)) }
{
    match layouts.get(place) {
        None => 0,
        Some(layout) => match layout {
            CellLayout::Array(cells) => *cells,
            CellLayout::Record(_) => 0,
        },
    }
}

/// Returns the layout of the record type at the index `place` of the table of types. `layouts` has
/// the layouts of this table. Returns None if the table has no record type at this index.
fn record_layout_at(layouts: &[CellLayout], place: usize) -> Option<&RecordLayout>
    ensures { (shapes : List values.Shape)
        → AreLayoutsOfTypes shapes layouts.now
        → IsLayoutOfRecord result (record_shape_or_faulty (slice_index_or shapes place faulty_shape)) }
{
    match layouts.get(place) {
        None => None,
        Some(layout) => match layout {
            CellLayout::Record(record) => Some(record),
            CellLayout::Array(_) => None,
        },
    }
}

fn record_cell_count(layouts: &[CellLayout], place: usize) -> usize
    ensures { (shapes : List values.Shape)
        → AreLayoutsOfTypes shapes layouts.now
        → result ≡ shape_cell_count (record_shape_or_faulty (slice_index_or shapes place faulty_shape)) }
{
    match record_layout_at(layouts, place) {
        None => 0,
        Some(record) => record.cells,
    }
}

/// Returns the number of cells of a type, from the layouts so far. Returns 0 for an unknown type,
/// or if there is no layout of this type.
fn size_from_layouts(layouts: &[CellLayout], of: TypeId) -> usize
    ensures { (shapes : List values.Shape)
        → AreLayoutsOfTypes shapes layouts.now
        → result ≡ shape_cell_count (type_shape shapes of) }
{
    match of {
        TypeId::Integer => 1,
        TypeId::Boolean => 1,
        TypeId::Array(place) => array_cell_count(layouts, place),
        TypeId::Record(place) => record_cell_count(layouts, place),
        TypeId::Unknown => 0,
    }
}

/// Returns the layout of a record with these fields, which are stored one after the other. Fails if
/// an allocation fails, or if the number of cells has more than 64 bits.
fn lay_out_record(
    alloc: Global,
    layouts: &[CellLayout],
    fields: &[Field],
) -> Result<RecordLayout, AllocError>
    ensures { (shapes : List values.Shape)
        → AreLayoutsOfTypes shapes layouts.now
        → IfOk result (IsLayoutOfFields (field_shapes shapes fields.now)) }
{
    let mut offsets = Vec::new(alloc);
    let mut cells = 0;
    for field in fields {
        offsets.push(cells)?;
        cells = cell_count_sum(cells, size_from_layouts(layouts, field.of))?;
    }
    Ok(RecordLayout { cells, offsets })
}

/// Returns the layout of an entry of the table of types, from the layouts of the entries before it.
/// Fails if an allocation fails, or if the number of cells has more than 64 bits.
fn entry_layout(
    alloc: Global,
    layouts: &[CellLayout],
    shape: &TypeEntry,
) -> Result<CellLayout, AllocError>
    ensures { (shapes : List values.Shape)
        → AreLayoutsOfTypes shapes layouts.now
        → IfOk result (IsLayoutOfType (entry_shape shapes shape.now)) }
{
    match shape {
        TypeEntry::Array(array) => {
            let cells = cell_count_product(
                array.length,
                size_from_layouts(layouts, array.element),
            )?;
            Ok(CellLayout::Array(cells))
        }
        TypeEntry::Record(record) => {
            let layout = lay_out_record(alloc, layouts, record.fields.as_slice())?;
            Ok(CellLayout::Record(layout))
        }
    }
}

impl<'k> Model for TypeLayouts<'k> {
    ghost use Rattle.ob0_types_table.specs.DeclarationTables.{DeclarationTableView, shapes_of};
    ghost use Rattle.ob0_run_lowering.specs.Layouts.{AreLayoutsOfTypes};

    ghost Value = { DeclarationTableView };

    ghost view = { λ t. t.known.now };

    ghost invariant = { λ t. AreLayoutsOfTypes (shapes_of t.known.now) t.layouts.items };
}

impl<'k> TypeLayouts<'k> {
    ghost use Rattle.ob0_types_table.specs.DeclarationTables.{shapes_of};
    ghost use Rattle.ob0_language_values.specs.Values.{at_field};

    /// Computes the layouts of all array and record types in the table `known`.
    ///
    /// # Errors
    ///
    /// An allocation failed, or a size has more than 64 bits.
    pub fn new(alloc: Global, known: &'k DeclarationTable) -> Result<TypeLayouts<'k>, AllocError>
        ensures { IfOk result (λ t. t ≡ known.now) }
    {
        let layouts = lay_out_types(alloc, known)?;
        Ok(TypeLayouts { known, layouts })
    }

    /// Returns the table of the module's declarations.
    pub fn declarations(&self) -> &'k DeclarationTable
        ensures { result.now ≡ self.now }
    {
        self.known
    }

    /// Returns the number of cells of a type, or 0 for an unknown type.
    pub fn size(&self, of: TypeId) -> usize
        ensures { result ≡ shape_cell_count (type_shape (shapes_of self.now) of) }
    {
        size_from_layouts(self.layouts.as_slice(), of)
    }

    /// Returns the offset of the first field with this name, in cells from the start of its record.
    /// Returns the size of the record if there is no such field, and 0 if the type isn't a record
    /// type.
    pub fn offset(&self, of: TypeId, name: &str) -> usize
        ensures { result ≡ step_offset (type_shape (shapes_of self.now) of) (at_field name.now) }
    {
        named_field_offset(self.known, self.layouts.as_slice(), of, name)
    }
}

fn offset_at_index(offsets: &[usize], index: usize) -> usize
    ensures { result ≡ slice_index_or offsets.now index 0 }
{
    match offsets.get(index) {
        None => 0,
        Some(offset) => *offset,
    }
}

/// Returns the offset of a field, in cells from the start of its record. For None, returns the size
/// of the record.
fn offset_of_field(laid: &RecordLayout, field: Option<FieldId>) -> usize
    ensures { (k : ℕ) (fs : values.FieldShapes) (x : Name)
        → IsLayoutOfFields fs laid.now
        → field ≡ selected_field (values.record_shape k fs) x
        → result ≡ field_offset fs x }
{
    match field {
        None => laid.cells,
        Some(field) => offset_at_index(laid.offsets.as_slice(), field.index),
    }
}

fn named_field_offset(
    known: &DeclarationTable,
    layouts: &[CellLayout],
    of: TypeId,
    name: &str,
) -> usize
    ensures { AreLayoutsOfTypes (shapes_of known.now) layouts.now
        → result ≡ step_offset (type_shape (shapes_of known.now) of) (values.at_field name.now) }
{
    match of {
        TypeId::Record(place) => match record_layout_at(layouts, place) {
            None => 0,
            Some(record) => offset_of_field(record, known.field(of, name)),
        },
        TypeId::Integer => 0,
        TypeId::Boolean => 0,
        TypeId::Array(_) => 0,
        TypeId::Unknown => 0,
    }
}

/// Returns the layouts of all array and record types in the table `known`, in the table's order.
/// Each layout is computed from the layouts before it.
fn lay_out_types(alloc: Global, known: &DeclarationTable) -> Result<Vec<CellLayout>, AllocError>
    ensures { IfOk result (λ layouts. AreLayoutsOfTypes (shapes_of known.now) layouts.items) }
{
    let mut layouts = Vec::new(alloc);
    for shape in known.type_entries() {
        let next = entry_layout(alloc, layouts.as_slice(), shape)?;
        layouts.push(next)?;
    }
    Ok(layouts)
}
