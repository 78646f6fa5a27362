//! Defines the code of an expression or a designator.

use ob0_run_machine::code::{Number, Place, Truth};
use ob0_types_table::TypeId;

/// The code of an expression. It has a case for each kind of type, and a case without code.
#[derive(Drop)]
pub enum LoweredExpression {
    Number(Number),
    Truth(Truth),
    /// The cells of an array or a record: the place of the first cell, and the number of cells.
    Block(Place, usize),
    /// No code. Each expression of a well-typed module has code. If code is needed in this case,
    /// lowering uses 0 as a number, FALSE as a truth, and the module's first cell as a place.
    NoCode,
}

/// The place of a designator in lowered code, and the type of the value there.
#[derive(Drop)]
pub struct TypedPlace {
    pub place: Place,
    pub type_id: TypeId,
}
